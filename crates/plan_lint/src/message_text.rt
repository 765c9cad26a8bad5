//! Message templates with gaps for names and numbers.
use std::alloc::{AllocError, Global};

/// The maximum length of a quotation in a message, in characters.
const LONGEST: usize = 40;

/// The content of a gap in a message template.
#[derive(Clone, Copy)]
pub enum Piece<'a> {
    Words(&'a str),
    /// A text in backquotes. If the text is too long, only its beginning is shown.
    Quoted(&'a str),
    Count(usize),
    Number(u64),
    Whole(i64),
    /// The plural ending of a noun for the given count. It is empty for a count of 1.
    Plural(usize),
}

/// Appends a message template with its gaps filled. Each `{}` of `words` is a gap, and the pieces fill the gaps in
/// sequence.
pub(crate) fn push_filled(
    text: &mut String,
    words: &str,
    pieces: &[Piece<'_>],
) -> Result<(), AllocError> {
    let mut rest = words;
    for piece in pieces {
        let (front, back) = rest.split_once("{}").unwrap_or((rest, ""));
        text.push_str(front)?;
        push_piece(text, *piece)?;
        rest = back;
    }
    text.push_str(rest)
}

/// Returns a message made of `beginning` and the template `words`. The pieces replace the gaps `{}` of the template, in
/// sequence.
pub(crate) fn filled_message(
    alloc: Global,
    beginning: &str,
    words: &str,
    pieces: &[Piece<'_>],
) -> Result<String, AllocError> {
    let mut text = String::from_str(alloc, beginning)?;
    push_filled(&mut text, words, pieces)?;
    Ok(text)
}

fn push_piece(text: &mut String, piece: Piece<'_>) -> Result<(), AllocError> {
    match piece {
        Piece::Words(words) => text.push_str(words),
        Piece::Quoted(words) => push_quoted(text, words),
        Piece::Count(count) => write!(text, "{count}"),
        Piece::Number(number) => write!(text, "{number}"),
        Piece::Whole(whole) => write!(text, "{whole}"),
        Piece::Plural(1) => Ok(()),
        Piece::Plural(_) => text.push('s'),
    }
}

fn push_quoted(text: &mut String, words: &str) -> Result<(), AllocError> {
    let (shown, end) = beginning_of(words);
    write!(text, "`{shown}{end}`")
}

// The first characters of a text, and two dots if the text is longer.
fn beginning_of(words: &str) -> (&str, &'static str) {
    match words.char_indices().nth(LONGEST) {
        Some((len, _)) => (words.get(..len).unwrap_or(words), ".."),
        None => (words, ""),
    }
}
