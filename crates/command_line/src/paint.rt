//! The colouring of text for a terminal, line by line.
ghost use Rattle.std.specs.Prelude.{◌≡◌, ◌≤◌, ◌+◌, ◌++◌, length, OnOk, IfOk, IfSome};
ghost use Rattle.command_line.specs.Painted.{code_of, shown_by, AddsPainted, IsPainted};

use std::alloc::{AllocError, Global};

/// The kind of a text, which determines how the text's lines are coloured.
#[derive(Clone, Copy)]
pub enum TextKind {
    /// A text of program messages, such as errors and warnings. The labels `error:`, `warning:` and `help:` are
    /// coloured, and so are lines of carets and lines of refused turns.
    Messages,
    /// A text of differences between a trace and the answers of the model. A heading with the verdict `wrong` or
    /// `allowed` is coloured, and so is the line with the model's answer. The labels of messages are coloured here too.
    Difference,
}

/// A colour for text on a terminal.
#[derive(Clone, Copy)]
pub enum Colour {
    /// Bold red, the colour of the label `error:`.
    Error,
    /// The colour red, used for refused turns, for lines of carets and for the verdict `wrong`.
    Red,
    /// The colour green, used for the model's answers.
    Green,
    /// The colour yellow, used for the label `warning:` and the verdict `allowed`.
    Yellow,
    /// The colour cyan, used for the label `help:`.
    Cyan,
}

impl Colour {
    // The terminal escape sequence that turns the colour on.
    fn code(self) -> &'static [u8]
        ensures { result.now ≡ code_of self }
    {
        match self {
            Colour::Error => b"\x1b[1;31m",
            Colour::Red => b"\x1b[31m",
            Colour::Green => b"\x1b[32m",
            Colour::Yellow => b"\x1b[33m",
            Colour::Cyan => b"\x1b[36m",
        }
    }
}

// The part of a line that is coloured, and its colour.
#[derive(Clone, Copy)]
struct Label {
    start: usize,
    len: usize,
    colour: Colour,
}

// Whether a label may follow a text, which then has only spaces or ends with a position such as `plan:4:28: `.
fn may_begin_label(before: &[u8]) -> bool {
    if let [.., digit, b':', b' '] = before {
        return digit.is_ascii_digit();
    }
    for byte in before {
        if *byte != b' ' {
            return false;
        }
    }
    true
}

// The label that a text begins with: its length and its colour.
fn label_of(text: &[u8]) -> Option<(usize, Colour)>
    ensures { IfSome result (λ it. it.0 ≤ length text.now) }
{
    if text.starts_with(b"error:") {
        return Some((6, Colour::Error));
    }
    if text.starts_with(b"warning:") {
        return Some((8, Colour::Yellow));
    }
    if text.starts_with(b"help:") {
        return Some((5, Colour::Cyan));
    }
    None
}

// The first label in a line, if it has one.
fn label_in(line: &[u8]) -> Option<Label>
    ensures { IfSome result (λ it. (it.start ≤ length line.now) × (it.start + it.len ≤ length line.now)) }
{
    for start in 0..line.len() {
        if may_begin_label(&line[..start])
            && let Some((len, colour)) = label_of(&line[start..])
        {
            return Some(Label { start, len, colour });
        }
    }
    None
}

// Whether a line shows a refused turn.
fn is_refused_turn(line: &[u8]) -> bool {
    match line {
        [first, ..] if first.is_ascii_digit() => {}
        _ => return false,
    }
    for start in 0..line.len() {
        if line[start..].starts_with(b" = no ") {
            return true;
        }
    }
    false
}

// Whether a line consists of spaces and at least one caret, and so marks a word of the line above it.
fn is_of_carets(line: &[u8]) -> bool {
    let mut has_caret = false;
    for byte in line {
        match *byte {
            b'^' => has_caret = true,
            b' ' => {}
            _ => return false,
        }
    }
    has_caret
}

// The colour of a line in a difference, if it is the heading with the verdict or has the model's answer.
fn colour_of_difference(line: &[u8]) -> Option<Colour> {
    if line.ends_with(b": wrong") {
        return Some(Colour::Red);
    }
    if line.ends_with(b": allowed") {
        return Some(Colour::Yellow);
    }
    if line.starts_with(b"here: ") {
        return Some(Colour::Green);
    }
    None
}

// The colour of a line that is coloured as a whole; `None` for any other line.
fn colour_of_line(painting: TextKind, line: &[u8]) -> Option<Colour> {
    match painting {
        TextKind::Messages if is_refused_turn(line) || is_of_carets(line) => Some(Colour::Red),
        TextKind::Messages => None,
        TextKind::Difference => colour_of_difference(line),
    }
}

// Appends a piece of a text, in a colour if one is given.
fn push(out: &mut Vec<u8>, colour: Option<Colour>, piece: &[u8]) -> Result<(), AllocError>
    ensures { OnOk result (out.new.items ≡ out.old.items ++ shown_by colour piece.now) }
{
    let Some(colour) = colour else {
        return out.extend_from_slice(piece);
    };
    out.extend_from_slice(colour.code())?;
    out.extend_from_slice(piece)?;
    out.extend_from_slice(b"\x1b[0m")
}

// Appends a line in its colours. The line has no line feed.
fn push_line(out: &mut Vec<u8>, painting: TextKind, line: &[u8]) -> Result<(), AllocError>
    ensures { OnOk result (AddsPainted out.old.items line.now out.new.items) }
{
    let whole = colour_of_line(painting, line);
    let label = match whole {
        None => label_in(line),
        Some(_) => None,
    };
    let Some(label) = label else {
        return push(out, whole, line);
    };
    let (before, more) = line.split_at(label.start);
    let (word, after) = more.split_at(label.len);
    push(out, None, before)?;
    push(out, Some(label.colour), word)?;
    push(out, None, after)
}

// The number of bytes of the first line, without its line feed.
fn line_len(text: &[u8]) -> usize
    ensures { result ≤ length text.now }
{
    for len in 0..text.len() {
        if text[len] == b'\n' {
            return len;
        }
    }
    text.len()
}

/// Returns a copy of a text, coloured for a terminal. Terminal escape sequences are around the pieces that are
/// coloured.
pub fn painted(alloc: Global, text: &[u8], painting: TextKind) -> Result<Vec<u8>, AllocError>
    ensures { IfOk result (λ out. IsPainted text.now out.items) }
{
    let mut out = Vec::new(alloc);
    let mut rest = text;
    'lines: for _ in 0..text.len() {
        if rest.is_empty() {
            return Ok(out);
        }
        let (line, more) = rest.split_at(line_len(rest));
        push_line(&mut out, painting, line)?;
        let (feed, after) = more.split_at(more.len().min(1));
        push(&mut out, None, feed)?;
        rest = after;
    }
    push(&mut out, None, rest)?;
    Ok(out)
}
