//! The search for the first mistake in a string that is not a valid step.
use crate::finding::{Findings, Span};
use crate::forms::{ALL_STEPS, Form, OperandKind, form_of, nearest_step, step_of_command};
use crate::message_text::Piece::{self, Count, Number, Quoted, Words};
use decimal_text::cut_at_space;
use realm_plan::PlanFault;

/// The number of bytes of a page.
const PAGE: u64 = 4096;

/// The greatest length, in bytes, of a number that is printed without backquotes.
const LONGEST: usize = 20;

/// An invalid step in the text of a plan: the string, its fault and its span.
#[derive(Clone, Copy)]
pub struct InvalidStep<'a> {
    pub written: &'a str,
    pub fault: PlanFault,
    /// The span of the string with its quotes.
    pub whole: Span,
    /// A flag that is set if the document has the step's text as it is, without escapes, right after the opening quote.
    pub inside: bool,
}

impl InvalidStep<'_> {
    // Adds an error on `len` bytes of the step from `at` on, or on the whole string if `inside` is false.
    fn error(
        &self,
        at: usize,
        len: usize,
        words: &str,
        pieces: &[Piece<'_>],
        found: &mut Findings,
    ) {
        let start = self.whole.start.saturating_add(1).saturating_add(at);
        let span = if self.inside {
            Span::new(start, len)
        } else {
            self.whole
        };
        found.error(self.fault, span, words, pieces);
    }

    // Adds an error on an argument, whose text is quoted in the message.
    fn error_on(&self, argument: &Argument<'_>, words: &str, found: &mut Findings) {
        let text = argument.text;
        self.error(argument.at, text.len(), words, &[Quoted(text)], found);
    }
}

/// An argument of a step. `at` is the offset of the argument in the step's text.
#[derive(Clone, Copy)]
struct Argument<'a> {
    kind: OperandKind,
    at: usize,
    text: &'a str,
}

/// Reports the first mistake in an invalid step.
pub(crate) fn report_invalid_step(step: &InvalidStep<'_>, found: &mut Findings) {
    if step.written.is_empty() {
        let words = "expected a step, found an empty string";
        return found.error(step.fault, step.whole, words, &[]);
    }
    if let Some((at, words)) = stray_blank(step.written.as_bytes()) {
        return step.error(at, 1, words, &[], found);
    }
    let (word, rest) = cut_at_space(step.written);
    match form_of(word) {
        Some(form) => report_arguments(step, &form, rest, found),
        None => report_word(step, word, found),
    }
}

// The index of the first misplaced space or tab of a text, and the message about it.
fn stray_blank(bytes: &[u8]) -> Option<(usize, &'static str)> {
    let mut is_after_space = true;
    for (at, byte) in bytes.iter().enumerate() {
        match *byte {
            b'\t' => return Some((at, "expected one space before each argument, found a tab")),
            b' ' if at == 0 => return Some((at, "unexpected space at the beginning of a step")),
            b' ' if is_after_space => {
                return Some((at, "expected one space before each argument, found two"));
            }
            _ => is_after_space = *byte == b' ',
        }
    }
    match bytes {
        [before @ .., b' '] => Some((before.len(), "unexpected space at the end of a step")),
        _ => None,
    }
}

// The word of the step that was probably meant: that of a command with this name, or one that is nearly the same.
fn meant_step(word: &str, found: &mut Findings) -> Option<&'static str> {
    let bare = word.strip_prefix("RMI_").or(word.strip_prefix("rmi_"));
    match step_of_command(bare.unwrap_or(word)) {
        Some(name) => Some(name),
        None => nearest_step(word, found),
    }
}

// Reports a first word that names no step.
fn report_word(step: &InvalidStep<'_>, word: &str, found: &mut Findings) {
    match meant_step(word, found) {
        Some(name) => {
            let pieces = [Quoted(word), Quoted(name)];
            let words = "unknown step {}; did you mean {}?";
            step.error(0, word.len(), words, &pieces, found);
        }
        None => {
            step.error(0, word.len(), "unknown step {}", &[Quoted(word)], found);
            found.help(ALL_STEPS, &[]);
        }
    }
}

// Reports the first mistake in the arguments of a step, which are separated by single spaces.
fn report_arguments(step: &InvalidStep<'_>, form: &Form, rest: &str, found: &mut Findings) {
    match first_wrong(form, rest) {
        Some((place, argument)) if place < form.most => report_argument(step, &argument, found),
        Some((_, argument)) => report_count(step, form, argument.at, rest, found),
        None => report_count(step, form, 0, rest, found),
    }
}

// The first argument that is wrong or one too many, with its index.
fn first_wrong<'a>(form: &Form, rest: &'a str) -> Option<(usize, Argument<'a>)> {
    let mut at = form.word.len();
    for (place, text) in rest.split(' ').skip(1).enumerate() {
        at = at.saturating_add(1);
        let kind = form.kind_at(place);
        if place >= form.most || !is_right(kind, text) {
            return Some((place, Argument { kind, at, text }));
        }
        at = at.saturating_add(text.len());
    }
    None
}

// Reports a wrong number of arguments, on the bytes of the step from `from` on.
fn report_count(
    step: &InvalidStep<'_>,
    form: &Form,
    from: usize,
    rest: &str,
    found: &mut Findings,
) {
    let len = step.written.len().saturating_sub(from);
    if form.most == 0 {
        let pieces = [Quoted(form.word), Quoted(rest.trim_start())];
        return step.error(from, len, "{} takes no argument, found {}", &pieces, found);
    }
    let count = argument_count(rest);
    let pieces = [Quoted(form.word), Words(form.takes), Count(count)];
    step.error(from, len, "{} takes {}, found {}", &pieces, found);
}

// The number of arguments in a text, each of which has a space before it.
fn argument_count(rest: &str) -> usize {
    rest.split(' ').skip(1).count()
}

fn is_right(kind: OperandKind, text: &str) -> bool {
    if !is_of_digits(text) || has_leading_zero(text) {
        return false;
    }
    match text.parse::<u64>() {
        Ok(number) => number <= kind.limits().1,
        Err(_) => false,
    }
}

fn is_of_digits(text: &str) -> bool {
    for byte in text.as_bytes() {
        if !byte.is_ascii_digit() {
            return false;
        }
    }
    !text.is_empty()
}

fn has_leading_zero(text: &str) -> bool {
    text.len() > 1 && text.starts_with('0')
}

// Reports an argument that is not a decimal number in its range.
fn report_argument(step: &InvalidStep<'_>, argument: &Argument<'_>, found: &mut Findings) {
    let text = argument.text;
    if let Some(number) = hexadecimal(text) {
        step.error_on(argument, "expected a decimal number, found {}", found);
        help_of_hexadecimal(argument.kind, number, found);
    } else if !is_of_digits(text) {
        step.error_on(argument, "expected a number, found {}", found);
        let bare = text.trim_matches(',').trim_start_matches('+');
        if bare.len() < text.len() && is_of_digits(bare) {
            found.help("write {}", &[Words(bare)]);
        }
    } else if has_leading_zero(text) {
        let words = "expected a number without leading zeros, found {}";
        step.error_on(argument, words, found);
        if let Ok(number) = text.parse::<u64>() {
            found.help("write {}", &[Number(number)]);
        }
    } else {
        report_range(step, argument, found);
    }
}

// The value of a hexadecimal number.
fn hexadecimal(text: &str) -> Option<u64> {
    let digits = text.strip_prefix("0x").or(text.strip_prefix("0X"))?;
    u64::from_str_radix(digits, 16).ok()
}

fn help_of_hexadecimal(kind: OperandKind, number: u64, found: &mut Findings) {
    match granule_of(kind, number) {
        Some(granule) => {
            let pieces = [Number(number), Number(granule)];
            let words = "write {}; if it is an address, its IPA granule is {}";
            found.help(words, &pieces);
        }
        None => found.help("write {}", &[Number(number)]),
    }
}

// The IPA granule at `number`, if `number` may have been meant as an address.
fn granule_of(kind: OperandKind, number: u64) -> Option<u64> {
    if matches!(kind, OperandKind::Ipa) && number > 0 && number % PAGE == 0 {
        Some(number / PAGE)
    } else {
        None
    }
}

// Reports a number that is too large.
fn report_range(step: &InvalidStep<'_>, argument: &Argument<'_>, found: &mut Findings) {
    let Argument { kind, at, text } = *argument;
    let shown = if text.len() <= LONGEST {
        Words(text)
    } else {
        Quoted(text)
    };
    let (name, most) = kind.limits();
    let pieces = [Words(name), Number(most), shown];
    let words = "{} must be from 0 to {}, found {}";
    step.error(at, text.len(), words, &pieces, found);
    let Ok(number) = text.parse::<u64>() else {
        return;
    };
    if let Some(granule) = granule_of(kind, number) {
        let words = "an IPA granule is an IPA divided by 4096: write {}";
        found.help(words, &[Number(granule)]);
    }
}
