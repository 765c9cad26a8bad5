//! Lines of a trace, without the line feed that ends them.
ghost use Rattle.std.specs.Prelude.{◌≡◌, ◌+◌, ◌<◌, ◌≤◌, true, nat_eq, length, drop, codes};
ghost use Rattle.std.specs.List.{starts_with};
ghost use Rattle.std.specs.Option.{option_copied};
ghost use Rattle.rmm_trace.specs.Lines.{is_blank, trimmed, bare_text, before_answer, answer_in};
ghost use Rattle.rmm_trace.specs.Lines.{is_question, question_in, as_line, without_words, line_of_question, line_in};
ghost use Rattle.rmm_trace.specs.declared.line.LineKind.TheVariants.{Remark};

use crate::consistent::is_consistent;
use crate::cut::cut_at;
use crate::grammar::{Group, Place, accepts};
use crate::sentence::{Sentence, read_into};
use crate::table::{GROUPS, START};
use crate::word::TraceWord;

/// The maximum length, in bytes, of a trace line that has a question.
pub const MOST_LINE: usize = 65_536;

/// The kind of a trace line: one without a question, one with a valid question, or an invalid one.
#[derive(Clone, Copy)]
pub enum LineKind {
    /// A line that is blank or a comment, or has only ` = ` and an answer.
    Remark,
    Question,
    /// An invalid line: one that is malformed or too long.
    Neither,
}

/// A parsed line of a trace: its kind, and the words of its question. A line that is not a question has no words here.
///
/// A caller reuses it for each line, and it is filled in place.
#[derive(Drop)]
pub struct RmmTraceLine {
    pub kind: LineKind,
    pub words: Sentence,
}

// Whether a byte is a space or a carriage return.
fn is_blank(byte: u8) -> bool
    ensures { result ≡ is_blank byte }
{
    byte == b' ' || byte == b'\r'
}

// The text without blanks at its end.
fn trim_end(text: &[u8]) -> &[u8]
    ensures { result.now ≡ trimmed text.now }
{
    let mut end = text.len();
    'blanks: while end > 0 {
        if !is_blank(text[end - 1]) {
            return &text[..end];
        }
        end -= 1;
    }
    &text[..0]
}

// The text of a line before its comment, without blanks at its end.
fn bare(line: &[u8]) -> &[u8]
    ensures { result.now ≡ bare_text line.now }
{
    trim_end(cut_at(line, b'#').0)
}

// Whether the ` = ` before an answer begins at the index `at`. Most bytes are no space.
fn is_sign_at(text: &[u8], at: usize) -> bool
    requires { at < length text.now }
    ensures sign { result ≡ starts_with nat_eq (drop at text.now) (codes " = ") }
    ensures fits { result ≡ true → at + 3 ≤ length text.now }
{
    if text[at] != b' ' {
        return false;
    }
    text[at..].starts_with(b" = ")
}

// The text before the first ` = `, and the text after it if there is one.
fn cut_sign(text: &[u8]) -> (&[u8], Option<&[u8]>)
    ensures before { result.0.now ≡ before_answer text.now }
    ensures answer { option_copied result.1 ≡ answer_in text.now }
{
    for at in 0..text.len() {
        if is_sign_at(text, at) {
            return (&text[..at], Some(&text[at + 3..]));
        }
    }
    (text, None)
}

/// Splits a line of a trace at ` = ` into its question and its answer. The answer is the text after ` = `, if the line
/// has one.
pub fn cut_line(line: &[u8]) -> (&[u8], Option<&[u8]>)
    ensures question { result.0.now ≡ before_answer (bare_text line.now) }
    ensures answer { option_copied result.1 ≡ answer_in (bare_text line.now) }
{
    cut_sign(bare(line))
}

// Whether a grammar accepts words as a question, and their numbers are consistent.
fn is_question(groups: &[Group], start: Place, words: &[TraceWord]) -> bool
    ensures { result ≡ is_question groups.now start words.now }
{
    accepts(groups, start, words) && is_consistent(words)
}

impl RmmTraceLine {
    /// Creates a line of kind `Remark` without words.
    pub fn new() -> RmmTraceLine
        ensures { result ≡ without_words Remark }
    {
        RmmTraceLine {
            kind: LineKind::Remark,
            words: Sentence::new(),
        }
    }

    // Makes this a line of a kind, without words.
    fn clear(&mut self, kind: LineKind)
        ensures { self.new ≡ without_words kind }
    {
        self.words.clear();
        self.kind = kind;
    }

    // Makes this line the question that a text spells in a grammar, or `Neither` if the text spells none.
    fn fill(&mut self, groups: &[Group], start: Place, text: &[u8])
        ensures { self.new ≡ as_line (question_in groups.now start text.now) }
    {
        self.clear(LineKind::Question);
        if !read_into(text, &mut self.words) {
            self.clear(LineKind::Neither);
            return;
        }
        if !is_question(groups, start, self.words.as_slice()) {
            self.clear(LineKind::Neither);
        }
    }

    // Makes this line a remark if `question` is empty, `Neither` if the line is too long, and otherwise what `fill`
    // makes it.
    fn fill_by(&mut self, groups: &[Group], start: Place, question: &[u8], bytes: usize)
        ensures { self.new ≡ line_of_question groups.now start question.now bytes }
    {
        if question.is_empty() {
            self.clear(LineKind::Remark);
        } else if bytes > MOST_LINE {
            self.clear(LineKind::Neither);
        } else {
            self.fill(groups, start, question);
        }
    }

    /// Parses a line of a trace into `self`. Returns the text of the line's answer, if any. The function takes no
    /// memory.
    ///
    /// A line of more than `MOST_LINE` bytes is not a question.
    pub fn parse<'a>(&mut self, line: &'a [u8]) -> Option<&'a [u8]>
        ensures line { self.new ≡ line_in GROUPS START line.now }
        ensures written { option_copied result ≡ answer_in (bare_text line.now) }
    {
        let (question, written) = cut_line(line);
        self.fill_by(&GROUPS, START, question, line.len());
        written
    }
}
