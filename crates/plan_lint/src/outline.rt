//! The parts of a plan's text, each with its span.
use crate::finding::Span;
use std::alloc::{AllocError, Global};
use toml_parser::Scalar;

/// Returns the keys that a plan can have at its top level.
pub(crate) fn plan_keys() -> &'static [&'static str] {
    &["pages", "vmids", "aux", "history", "order", "build"]
}

/// The kind of a TOML value, with the content of a string, a number, a boolean or a date-time.
pub enum Content {
    Text(String),
    Scalar(Scalar),
    Array,
    /// A table that is written inline or with dotted keys.
    Table,
    /// A table that a header such as `[KEY]` opens.
    Headed,
    /// An array of tables written with headers `[[KEY]]`.
    Tables,
}

impl Drop for Content {
    fn drop(self) {
        match self {
            Content::Text(_) | Content::Scalar(_) | Content::Array => {}
            Content::Table | Content::Headed | Content::Tables => {}
        }
    }
}

impl Content {
    /// Returns the TOML type of the value for messages, with an article, as in `an integer`.
    pub(crate) fn kind(&self) -> &'static str {
        match self {
            Content::Text(_) => "a string",
            Content::Scalar(Scalar::Integer(_)) => "an integer",
            Content::Scalar(Scalar::Float(_)) => "a float",
            Content::Scalar(Scalar::Boolean(_)) => "a boolean",
            Content::Scalar(Scalar::Datetime(_)) => "a date-time",
            Content::Array => "an array",
            Content::Table | Content::Headed => "a table",
            Content::Tables => "an array of tables",
        }
    }
}

/// A TOML value and its span in the text of a plan.
#[derive(Drop)]
pub struct Value {
    pub span: Span,
    pub content: Content,
}

impl Value {
    pub(crate) fn as_whole(&self) -> Option<i64> {
        match &self.content {
            Content::Scalar(Scalar::Integer(whole)) => Some(*whole),
            _ => None,
        }
    }

    pub(crate) fn as_text(&self) -> Option<&str> {
        match &self.content {
            Content::Text(text) => Some(text.as_str()),
            _ => None,
        }
    }

    pub(crate) fn is_array(&self) -> bool {
        matches!(&self.content, Content::Array)
    }
}

/// A TOML key with its span and its value.
pub struct KeyValue {
    /// The name of the key, or only the first part of the name of a dotted key.
    pub name: String,
    pub key: Span,
    pub value: Value,
}

impl Drop for KeyValue {
    fn drop(self) {
        let KeyValue {
            name: _,
            key: _,
            value: _,
        } = self;
    }
}

impl KeyValue {
    /// Returns the value without its key.
    pub(crate) fn into_value(self) -> Value {
        let KeyValue {
            name: _,
            key: _,
            value,
        } = self;
        value
    }
}

/// A build in the text of a plan: its TOML value, its keys, and its steps.
pub struct Build {
    /// The build's header `[[build]]`, or the build's element of the array `build`.
    pub value: Value,
    pub keys: Vec<KeyValue>,
    /// The elements of the build's array `steps`.
    pub steps: Vec<Value>,
}

impl Drop for Build {
    fn drop(self) {
        let Build {
            value: _,
            keys: _,
            steps: _,
        } = self;
    }
}

impl Build {
    /// Returns the value of the build's key `steps`, if the build has it.
    pub(crate) fn steps_value(&self) -> Option<&Value> {
        value_of(&self.keys, "steps")
    }
}

/// The parts that were found in the text of a plan.
pub struct Outline {
    pub keys: Vec<KeyValue>,
    pub builds: Vec<Build>,
    /// The elements of the plan's array `order`.
    pub turns: Vec<Value>,
    /// The top-level keys that a plan can have and the text lacks.
    pub missing: Vec<&'static str>,
    /// Whether a key `pages` was found in an unknown table. Keys in an unknown inline table, and dotted keys in an
    /// unknown table, are not noted.
    pub has_deeper_pages: bool,
}

impl Drop for Outline {
    fn drop(self) {
        let Outline {
            keys: _,
            builds: _,
            turns: _,
            missing: _,
            has_deeper_pages: _,
        } = self;
    }
}

impl Outline {
    pub(crate) fn new(alloc: Global) -> Outline {
        Outline {
            keys: Vec::new(alloc),
            builds: Vec::new(alloc),
            turns: Vec::new(alloc),
            missing: Vec::new(alloc),
            has_deeper_pages: false,
        }
    }

    /// Records which of a plan's top-level keys the text lacks.
    pub(crate) fn note_missing_keys(&mut self) -> Result<(), AllocError> {
        for name in plan_keys() {
            let has_builds = *name == "build" && !self.builds.is_empty();
            if !has_builds && self.value(name).is_none() {
                self.missing.push(*name)?;
            }
        }
        Ok(())
    }

    /// Returns the value of a top-level key of the plan, if the plan has the key.
    pub(crate) fn value(&self, name: &str) -> Option<&Value> {
        value_of(&self.keys, name)
    }

    /// Returns whether a top-level key is recorded as missing from the plan.
    pub(crate) fn lacks(&self, name: &str) -> bool {
        is_among(&self.missing, name)
    }

    /// Returns the empty span before the first key or header in a plan's text.
    pub(crate) fn start(&self) -> Span {
        let start = match (self.keys.first(), self.builds.first()) {
            (Some(key), Some(build)) => key.key.start.min(build.value.span.start),
            (Some(key), None) => key.key.start,
            (None, Some(build)) => build.value.span.start,
            (None, None) => 0,
        };
        Span::new(start, 0)
    }

    /// Returns the span of the value of a plan's key `order`, or `start()` if the text has no `order`.
    pub(crate) fn order_span(&self) -> Span {
        match self.value("order") {
            Some(value) => value.span,
            None => self.start(),
        }
    }

    /// Returns the span of a turn in a plan's text, or `order_span()` if there is no such turn.
    pub(crate) fn turn_span(&self, place: usize) -> Span {
        match self.turns.get(place) {
            Some(turn) => turn.span,
            None => self.order_span(),
        }
    }

    /// Returns the span of a build's step in a plan's text. If there is no such step, it is the span of the build. If
    /// there is no such build, it is the beginning of the text.
    pub(crate) fn step_span(&self, build: usize, step: usize) -> Span {
        match self.builds.get(build) {
            Some(build) => build.steps.get(step).unwrap_or(&build.value).span,
            None => Span::new(0, 0),
        }
    }
}

/// Returns whether `names` contains `name`.
pub(crate) fn is_among(names: &[&'static str], name: &str) -> bool {
    for it in names {
        if *it == name {
            return true;
        }
    }
    false
}

// The value of the first key with this name.
fn value_of<'a>(keys: &'a [KeyValue], name: &str) -> Option<&'a Value> {
    for key in keys {
        if key.name.as_str() == name {
            return Some(&key.value);
        }
    }
    None
}
