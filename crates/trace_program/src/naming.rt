//! Functions that rewrite a raw SMC call of a trace, so that the command and the outputs have their names.
ghost use Rattle.std.specs.Prelude.{◌≡◌, ◌++◌, OnOk, option_map};
ghost use Rattle.trace_program.specs.LineText.{answer_named, named_text, question_named};

use crate::judging::raw_call;
use crate::line_text::{LineTexts, tail};
use rmm_answers::named_answer;
use rmm_trace::{LineKind, RmmTraceLine, Sentence, cut_line, read_words};
use std::alloc::AllocError;

// The question of a raw line, written with names; `None` if the question cannot be named.
fn question_of(line: &RmmTraceLine) -> Option<Sentence>
    ensures { option_map (λ v. v.items) result ≡ question_named line.now }
{
    match line.kind {
        LineKind::Question => raw_call(line.words.as_slice()),
        _ => None,
    }
}

// The answer of a raw line, written with names; `None` if the answer cannot be named.
fn answer_of(line: &RmmTraceLine, written: &[u8]) -> Option<Sentence>
    ensures { option_map (λ v. v.items) result ≡ answer_named line.now written.now }
{
    match line.kind {
        LineKind::Question => named_answer(line.words.as_slice(), read_words(written)?.as_slice()),
        _ => None,
    }
}

/// Appends a trace line, with an `smc` call rewritten with the names of its command and outputs. A line that is no
/// `smc` call, or whose call cannot be named, is appended as it is.
#[tactic(auto, unfolding(crate::specs::LineText::named_text))]
pub(crate) fn push_named(
    text: &mut LineTexts,
    bytes: &[u8],
    line: &RmmTraceLine,
) -> Result<(), AllocError>
    ensures { OnOk result (text.new ≡ text.old ++ named_text bytes.now line.now) }
{
    let Some(question) = question_of(line) else {
        return text.push_line(bytes);
    };
    text.push_words(question.as_slice())?;
    if let Some(written) = cut_line(bytes).1 {
        text.push(b" = ")?;
        match answer_of(line, written) {
            Some(answer) => text.push_words(answer.as_slice())?,
            None => text.push(written)?,
        }
    }
    text.push_line(tail(bytes))
}
