//! The position of the key `order` in the text of a plan.
//!
//! The TOML parser has accepted the text already. At an item that the search cannot read, it returns the position after
//! the last key that it read.
ghost use Rattle.std.specs.Prelude.{◌≡◌, false, true, IfOk};

use std::alloc::{AllocError, Global};
use toml_parser::text::{first, skip, skip_blank, skip_ws};
use toml_parser::{Key, ParseError, dotted_key, quoted, starts_string, unquoted};

/// The part of a plan's text that a new schedule replaces. `from` and `to` are byte offsets.
#[derive(Clone, Copy)]
pub struct OrderPlace {
    pub from: usize,
    pub to: usize,
    /// A flag that says whether the replaced part is the value of the key `order`. If not, a line with the key can be
    /// put there.
    pub is_value: bool,
}

/// The reason why a key or value of a plan's text cannot be read.
#[derive(Drop)]
enum KeyReadError {
    /// A failed allocation.
    Memory,
    /// A text whose next part is not of the expected form.
    Unread,
}

impl From<ParseError> for KeyReadError {
    fn from(error: ParseError) -> KeyReadError {
        match error {
            ParseError::OutOfMemory => KeyReadError::Memory,
            ParseError::At(..) => KeyReadError::Unread,
        }
    }
}

/// Finds the value of the key `order` in a plan's text. Without the key, returns the start of the line after the last
/// key before the first table header. That is 0 if there is no such key.
pub fn order_place(alloc: Global, text: &str) -> Result<OrderPlace, AllocError>
    // Without the key `order`, the part is empty: a position between two bytes.
    ensures { IfOk result (λ place. place.is_value ≡ false → place.from ≡ place.to) }
{
    let mut below = 0;
    let mut rest = skip_blank(text.strip_prefix('\u{feff}').unwrap_or(text), true);
    for _ in 0..text.len() {
        if rest.is_empty() || first(rest) == b'[' {
            break;
        }
        match pair(alloc, rest) {
            Ok((true, value, after)) => return Ok(part(text, value, after)),
            Ok((false, _, after)) => {
                below = before(text, line_below(after));
                rest = skip_blank(after, true);
            }
            Err(KeyReadError::Unread) => break,
            Err(KeyReadError::Memory) => return Err(AllocError),
        }
    }
    Ok(OrderPlace {
        from: below,
        to: below,
        is_value: false,
    })
}

// The number of bytes of `text` before its suffix `rest`.
fn before(text: &str, rest: &str) -> usize {
    text.len().saturating_sub(rest.len())
}

// The part of the text from the beginning of the value to the text after it.
fn part(text: &str, value: &str, after: &str) -> OrderPlace
    ensures { result.is_value ≡ true }
{
    OrderPlace {
        from: before(text, value),
        to: before(text, after),
        is_value: true,
    }
}

fn is_order(key: &Key) -> bool {
    key.path.is_empty() && key.last.as_str() == "order"
}

// The text below the first line.
fn line_below(s: &str) -> &str {
    match s.split_once('\n') {
        Some((_, below)) => below,
        None => "",
    }
}

// Whether a key is `order`, and the text after the key.
fn read_key(alloc: Global, s: &str) -> Result<(bool, &str), KeyReadError> {
    let (key, equals) = dotted_key(alloc, s)?;
    Ok((is_order(&key), equals))
}

// Whether the key of a pair is `order`, the text from its value on, and the text after the value.
fn pair(alloc: Global, s: &str) -> Result<(bool, &str, &str), KeyReadError> {
    let (is_order, equals) = read_key(alloc, s)?;
    let value = skip_ws(after_byte(equals)?);
    let after = after_value(alloc, value)?;
    Ok((is_order, value, after))
}

// The text after a value.
fn after_value(alloc: Global, s: &str) -> Result<&str, KeyReadError> {
    let mut rest = s;
    let mut depth: usize = 0;
    for _ in 0..s.len() {
        let after = after_part(alloc, rest, depth)?;
        depth = depth_after(depth, first(rest));
        if depth == 0 {
            return Ok(after);
        }
        rest = skip_blank(after, true);
    }
    Err(KeyReadError::Unread)
}

// The text after the next part of a value: a string, a scalar, or one byte. `depth` arrays and tables are open before
// the part.
fn after_part(alloc: Global, s: &str, depth: usize) -> Result<&str, KeyReadError> {
    let next = first(s);
    if starts_string(s) {
        behind(quoted(alloc, s))
    } else if depth == 0 && next != b'[' && next != b'{' {
        behind(unquoted(alloc, s))
    } else {
        after_byte(s)
    }
}

// The text that is left after a successful read.
fn behind<T: Drop>(read: Result<(T, &str), ParseError>) -> Result<&str, KeyReadError> {
    match read {
        Ok((_, after)) => Ok(after),
        Err(error) => Err(KeyReadError::from(error)),
    }
}

// The number of arrays and tables that are open after a byte.
fn depth_after(depth: usize, byte: u8) -> usize {
    match byte {
        b'[' | b'{' => depth.saturating_add(1),
        b']' | b'}' => depth.saturating_sub(1),
        _ => depth,
    }
}

// The text without its first byte, which has to be an ASCII character other than NUL.
fn after_byte(s: &str) -> Result<&str, KeyReadError> {
    let byte = first(s);
    if byte == 0 || byte >= 128 {
        return Err(KeyReadError::Unread);
    }
    Ok(skip(s, 1))
}
