//! A writer for JSON objects, and the conversion of values to JSON text.
ghost use Rattle.std.specs.Prelude.{IfOk, string_bytes};
ghost use Rattle.run_json.specs.JsonText.{IsJsonOf};

use serde::{Described, Serialize, Serializer};
use std::alloc::{AllocError, Global};
use std::fmt::Display;

/// A value that is written in JSON as a string, which is the value's `Display` text.
#[derive(Clone, Copy)]
pub struct Shown<T>(pub T);

impl<T: Display> Described for Shown<T> {}

impl<T: Display> Serialize for Shown<T> {
    fn serialize<W: Serializer>(&self, out: &mut W) -> Result<(), W::Error> {
        out.collect_str(&self.0)
    }
}

// Writes a member of the JSON object that is being written.
fn write_member<W: Serializer, T: Serialize>(
    out: &mut W,
    name: &str,
    value: &T,
) -> Result<(), W::Error> {
    out.key(name)?;
    value.serialize(out)
}

/// A JSON object that is being written, member by member. After an error nothing more is written, and `end` returns the
/// error.
#[derive(Drop)]
pub struct ObjectWriter<'a, W: Serializer> {
    out: &'a mut W,
    so_far: Result<(), W::Error>,
}

impl<'a, W: Serializer> ObjectWriter<'a, W> {
    /// Begins a JSON object. `count` is the number of its members, if it is known.
    pub fn begin(out: &'a mut W, count: Option<usize>) -> Self {
        let so_far = out.begin_map(count);
        ObjectWriter { out, so_far }
    }

    /// Writes a member of the object.
    pub fn member<T: Serialize + Drop>(&mut self, name: &str, value: T) {
        if self.so_far.is_ok() {
            self.so_far = write_member(self.out, name, &value);
        }
    }

    /// Ends the object, and returns the first error, if there was one.
    pub fn end(self) -> Result<(), W::Error> {
        let ObjectWriter { out, so_far } = self;
        so_far?;
        out.end_map()
    }
}

/// Converts a value to JSON text. The one error is that allocation failed.
pub fn json_text<T: Serialize>(alloc: Global, value: &T) -> Result<String, AllocError>
    ensures { IfOk result (λ text. IsJsonOf (T.writes value.now) (string_bytes text)) }
{
    match serde_json::to_string(alloc, value) {
        Ok(text) => Ok(text),
        Err(_) => Err(AllocError),
    }
}
