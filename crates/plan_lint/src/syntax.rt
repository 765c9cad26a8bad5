//! Findings on a text that is not valid TOML.
use crate::finding::{Findings, Span};
use crate::forms::nearest_step;
use crate::message_text::Piece::{self, Quoted, Words};
use realm_plan::PlanFault;
use std::ops::Range;
use std::str::from_utf8;

/// Reports the mistake at which the TOML parser stopped. The message is the parser's, unless a more specific message
/// exists for the mistake.
pub(crate) fn report_syntax(
    bytes: &[u8],
    range: Range<usize>,
    message: &str,
    found: &mut Findings,
) {
    let span = Span {
        start: range.start,
        end: range.end,
    };
    let (front, back) = around(bytes, span.start);
    let (before, after) = (last_line(front), cut_at(back, '\n').trim_end());
    if is_other_header(before, after) {
        report_header(span.start, before.trim_start(), after, found);
    } else if message == "invalid string" && after.is_empty() {
        report_unclosed_string(span.start, before, found);
    } else if message == "duplicate key" {
        report_duplicate_key(span.start, after, found);
    } else if is_in_array(front) && !after.starts_with('"') {
        report_array_item(span, message, after, found);
    } else if before.is_empty() && message.starts_with("missing comma between array elements") {
        report(span, "unclosed array, expected `,` or `]`", &[], found);
    } else {
        report(span, message, &[], found);
    }
}

fn report(span: Span, words: &str, pieces: &[Piece<'_>], found: &mut Findings) {
    found.error(PlanFault::Syntax, span, words, pieces);
}

// The text before the byte `at`, and the text from that byte on.
fn around(bytes: &[u8], at: usize) -> (&str, &str) {
    let text = from_utf8(bytes).unwrap_or("");
    match (text.get(..at), text.get(at..)) {
        (Some(before), Some(after)) => (before, after),
        _ => (text, ""),
    }
}

// The last line of a text.
fn last_line(text: &str) -> &str {
    match text.rsplit_once('\n') {
        Some((_, line)) => line,
        None => text,
    }
}

// The text before the first `end`, or the whole text if there is none.
fn cut_at(text: &str, end: char) -> &str {
    match text.split_once(end) {
        Some((before, _)) => before,
        None => text,
    }
}

// Whether an item of an array may come after this text.
fn is_in_array(front: &str) -> bool {
    front.trim_end().ends_with(['[', ','])
}

// Whether the line is a build's header with brackets other than those of `[[build]]`.
fn is_other_header(before: &str, after: &str) -> bool {
    let before = before.trim_start();
    let line = if before.is_empty() { after } else { before };
    let is_header = line.starts_with("[build]") || line.starts_with("[[build]");
    is_header && !after.starts_with("[[build]]") && !before.starts_with("[[build]]")
}

// Reports a build's header with brackets other than those of `[[build]]`.
fn report_header(at: usize, before: &str, after: &str, found: &mut Findings) {
    let span = Span::new(
        at.saturating_sub(before.len()),
        before.len().saturating_add(after.len()),
    );
    if before.is_empty() || after.is_empty() {
        let header = if before.is_empty() { after } else { before };
        report(
            span,
            "expected `[[build]]`, found {}",
            &[Quoted(header)],
            found,
        );
    } else {
        report(span, "expected `[[build]]`", &[], found);
    }
    found.help("each build begins with a line `[[build]]`", &[]);
}

fn report_duplicate_key(at: usize, after: &str, found: &mut Findings) {
    let key = cut_at(after, '=').trim_end();
    let span = Span::new(at, key.len());
    report(span, "duplicate key {}", &[Quoted(key)], found);
}

// Reports a string that is not closed on its line.
fn report_unclosed_string(at: usize, before: &str, found: &mut Findings) {
    let len = match before.rsplit_once(['"', '\'']) {
        Some((front, _)) => before.len().saturating_sub(front.len()),
        None => 0,
    };
    let span = Span::new(at.saturating_sub(len), len);
    report(span, "unclosed string", &[], found);
    found.help("close it by the quote that it began with", &[]);
}

// Reports an invalid item of an array: a step without quotes, the end of the text, or another text.
fn report_array_item(span: Span, message: &str, after: &str, found: &mut Findings) {
    if after.is_empty() {
        return report(span, "unclosed array, expected a value or `]`", &[], found);
    }
    let item = match after.split_once([',', ']', '#', '"']) {
        Some((item, _)) => item.trim_end(),
        None => after,
    };
    if nearest_step(cut_at(item, ' '), found).is_some() {
        let span = Span::new(span.start, item.len());
        report(span, "expected a string, found {}", &[Quoted(item)], found);
        found.help("write \"{}\"", &[Words(item)]);
    } else {
        report(span, message, &[], found);
    }
}
