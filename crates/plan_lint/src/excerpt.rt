//! Positions in a text, and excerpts of a text. An excerpt is a line with carets under a part of the line.
ghost use Rattle.std.specs.Prelude.{◌≡◌, ◌++◌, ◌<◌, max, replicate, IfOk, OnOk, string_bytes};
ghost use Rattle.plan_lint.specs.Shown.{shown_byte, plain_text, plain_line, caret_line, IsExcerpt};

use std::alloc::{AllocError, Global};

/// The maximum number of bytes that an excerpt shows on each side of its first caret. The left side ends before the
/// byte above that caret, and the right side begins with that byte.
const MOST: usize = 80;

/// The number of bytes that an excerpt shows on a side that has more than `MOST` bytes. Two dots replace the other
/// bytes.
const LESS: usize = 78;

/// A position in a text. The line and the column are counted from 1.
#[derive(Clone, Copy)]
pub struct Cursor {
    pub at: usize,
    pub line: usize,
    pub column: usize,
    /// The offset of the first byte of the cursor's line.
    pub start: usize,
}

/// The position at the beginning of a text.
pub const FIRST: Cursor = Cursor {
    at: 0,
    line: 1,
    column: 1,
    start: 0,
};

// Whether a byte is the first byte of a UTF-8 character.
fn begins_char(byte: u8) -> bool {
    byte < 128 || byte >= 192
}

/// Returns the position after the first `at` bytes of a text, by counting on from the earlier position `from`.
pub(crate) fn place_at(text: &[u8], from: Cursor, at: usize) -> Cursor {
    let mut place = from;
    for byte in text.get(from.at..at).unwrap_or(&[]) {
        place.at = place.at.saturating_add(1);
        if *byte == b'\n' {
            place.line = place.line.saturating_add(1);
            place.column = 1;
            place.start = place.at;
        } else if begins_char(*byte) {
            place.column = place.column.saturating_add(1);
        }
    }
    place
}

fn shown_byte(byte: u8) -> u8
    ensures { result ≡ shown_byte byte }
{
    if byte < b' ' || byte == 0x7f {
        b' '
    } else {
        byte
    }
}

/// Returns the bytes as one line of text. A space replaces each ASCII control character, and U+FFFD invalid UTF-8.
pub(crate) fn plain_text(alloc: Global, bytes: &[u8]) -> Result<String, AllocError>
    ensures { IfOk result (λ text. string_bytes text ≡ plain_text bytes.now) }
{
    let mut shown = Vec::with_capacity(alloc, bytes.len())?;
    for byte in bytes {
        shown.push(shown_byte(*byte))?;
    }
    String::from_utf8_lossy(alloc, shown.as_slice())
}

// The part of a line before the first caret, as it is shown: all of it, or two dots and its end if it is too long.
fn shown_front(alloc: Global, front: &[u8]) -> Result<Vec<u8>, AllocError> {
    let mut line = Vec::new(alloc);
    if front.len() <= MOST {
        line.extend_from_slice(front)?;
        return Ok(line);
    }
    line.extend_from_slice(b"..")?;
    line.extend_from_slice(&front[front.len() - LESS..])?;
    Ok(line)
}

// The part of a line from the first caret on, as it is shown: all of it, or its beginning and two dots if it is too
// long.
fn shown_back(alloc: Global, back: &[u8]) -> Result<Vec<u8>, AllocError> {
    let mut line = Vec::new(alloc);
    if back.len() <= MOST {
        line.extend_from_slice(back)?;
        return Ok(line);
    }
    line.extend_from_slice(first_of(back, LESS))?;
    line.extend_from_slice(b"..")?;
    Ok(line)
}

/// Returns the first `len` bytes, or all bytes if there are fewer.
pub(crate) fn first_of(bytes: &[u8], len: usize) -> &[u8] {
    &bytes[..len.min(bytes.len())]
}

// The number of characters of a text.
fn char_count(text: &str) -> usize {
    let mut count: usize = 0;
    for byte in text.as_bytes() {
        count = count.saturating_add(usize::from(begins_char(*byte)));
    }
    count
}

// The number of characters that are shown for some bytes.
fn shown_len(alloc: Global, bytes: &[u8]) -> Result<usize, AllocError> {
    let shown = plain_text(alloc, bytes)?;
    Ok(char_count(shown.as_str()))
}

/// Appends the bytes as one line of text, followed by a line feed.
pub(crate) fn push_line(alloc: Global, text: &mut String, bytes: &[u8]) -> Result<(), AllocError>
    ensures { OnOk result (string_bytes text.new ≡ string_bytes text.old ++ plain_line bytes.now) }
{
    let line = plain_text(alloc, bytes)?;
    writeln!(text, "{line}")
}

// Appends an ASCII character `count` times.
fn push_repeated(text: &mut String, letter: char, count: usize) -> Result<(), AllocError>
    requires { letter < 128 }
    ensures { OnOk result (string_bytes text.new ≡ string_bytes text.old ++ replicate count letter) }
{
    for number in 0..count {
        text.push(letter)?;
    }
    Ok(())
}

// Appends a line of `before` spaces, and then `count` carets, or one caret if `count` is 0.
fn push_carets(text: &mut String, before: usize, count: usize) -> Result<(), AllocError>
    ensures { OnOk result (string_bytes text.new ≡ string_bytes text.old ++ caret_line before (max count 1)) }
{
    push_repeated(text, ' ', before)?;
    push_repeated(text, '^', count.max(1))?;
    text.push('\n')?;
    Ok(())
}

/// Returns an excerpt of a line, with carets under a part of it. The line is `front` followed by `back`, and the carets
/// are under the first `len` bytes of `back`.
pub(crate) fn excerpt_of(
    alloc: Global,
    front: &[u8],
    back: &[u8],
    len: usize,
) -> Result<String, AllocError>
    ensures { IfOk result (λ text. IsExcerpt (string_bytes text)) }
{
    let mut text = plain_text(alloc, &shown_front(alloc, front)?)?;
    let before = char_count(text.as_str());
    let back = shown_back(alloc, back)?;
    let marked = shown_len(alloc, first_of(&back, len))?;
    push_line(alloc, &mut text, &back)?;
    push_carets(&mut text, before, marked)?;
    Ok(text)
}
