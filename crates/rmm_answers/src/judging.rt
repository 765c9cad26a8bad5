//! Functions that judge whether an answer written in a trace is the model's answer, an allowed refusal, or wrong.
ghost use Rattle.std.specs.Prelude.{◌≡◌, ◌<◌};
ghost use Rattle.std.specs.List.{list_any};
ghost use Rattle.rmm_answers.specs.Judging as judging;

use crate::{TraceMachine, TraceReply};
use rmi_abi::Word;
use rmm_checks::{CheckOutcome, EvaluatedCheck, EvaluatedChecks};
use rmm_trace::place::{DASH, RMI_SUCCESS};
use rmm_trace::{Atom, Sentence, TraceWord, read_words};

/// The verdict on an answer that is written in a trace. The answer is the model's, an allowed refusal by another check,
/// or neither.
#[derive(Clone, Copy)]
pub enum Verdict {
    Same,
    Allowed,
    Wrong,
}

// Whether X0 is the word of the first failed check.
fn is_ours(checks: &EvaluatedChecks, x0: u64) -> bool
    ensures { result ≡ judging.is_ours checks.now x0 }
{
    match checks.deciding() {
        Some(failed) => failed.answer.word.number() == x0,
        None => false,
    }
}

// Whether X0 is a word that the checks allow, other than the word of the first failed check.
fn allows_number(checks: &EvaluatedChecks, x0: u64) -> bool
    ensures { result ≡ judging.allows_number checks.now x0 }
{
    match Word::from_number(x0) {
        Some(word) => checks.allows(word) && !is_ours(checks, x0),
        None => false,
    }
}

// Whether a check failed with a word that has the given status and is not the word of the first failed check.
fn has_status(checks: &EvaluatedChecks, row: &EvaluatedCheck, status: u64) -> bool
    ensures { result ≡ judging.has_status checks.now status row.now.outcome }
{
    match row.outcome {
        CheckOutcome::Failed(answer) => {
            let x0 = answer.word.number();
            x0 % 0x100 == status && !is_ours(checks, x0)
        }
        CheckOutcome::NotMade => false,
        CheckOutcome::Passed => false,
    }
}

// Whether the checks allow some word with the given status, other than the word of the first failed check.
fn allows_status(checks: &EvaluatedChecks, rows: &[EvaluatedCheck], status: u64) -> bool
    ensures { result ≡ list_any (λ row. judging.has_status checks.now status row.outcome) rows.now }
{
    for row in rows {
        if has_status(checks, row, status) {
            return true;
        }
    }
    false
}

// Whether the checks allow the word with a status and an index, other than the word of the first failed check.
fn allows_index(checks: &EvaluatedChecks, status: u64, index: u64) -> bool
    requires { status < 5 }
    ensures { result ≡ judging.allows_index checks.now status index }
{
    index < 0x100 && allows_number(checks, status + 0x100 * index)
}

// Whether the checks allow a status with the index written after it. A written `-` is any index, and a missing index is
// 0.
fn allows_written(checks: &EvaluatedChecks, status: u64, rest: &[TraceWord]) -> bool
    requires { status < 5 }
    ensures { result ≡ judging.allows_written checks.now status rest.now }
{
    match rest {
        [] => allows_index(checks, status, 0),
        [index, ..] => match index.value {
            Atom::Name(place) => {
                if place == DASH {
                    allows_status(checks, checks.rows(), status)
                } else {
                    allows_index(checks, status, 0)
                }
            }
            Atom::Decimal(index) => allows_index(checks, status, index),
            Atom::Hexadecimal(index) => allows_index(checks, status, index),
        },
    }
}

// Whether the name at a place is an error status that the checks allow with the index written after it.
fn allows_name(checks: &EvaluatedChecks, place: usize, rest: &[TraceWord]) -> bool
    ensures { result ≡ judging.allows_name checks.now place rest.now }
{
    if place <= RMI_SUCCESS || place >= RMI_SUCCESS + 5 {
        return false;
    }
    allows_written(checks, (place - RMI_SUCCESS) as u64, rest)
}

/// Returns whether an answer in a trace is an allowed refusal other than the model's. Such a refusal has a word that
/// the evaluated checks allow, and that is not the first failed check's word. The word is written as the name of its
/// status with an index, or as X0.
pub fn is_allowed(written: &[TraceWord], checks: &EvaluatedChecks) -> bool
    ensures { result ≡ judging.is_refusal_allowed written.now checks.now }
{
    match written {
        [] => false,
        [first, rest @ ..] => match first.value {
            Atom::Name(place) => allows_name(checks, place, rest),
            Atom::Decimal(x0) => x0 != 0 && allows_number(checks, x0),
            Atom::Hexadecimal(x0) => x0 != 0 && allows_number(checks, x0),
        },
    }
}

// Whether a text is an answer that the checks allow; false if there are no checks.
fn is_text_allowed(checks: Option<EvaluatedChecks>, written: &[u8]) -> bool
    ensures { result ≡ judging.is_text_allowed written.now checks }
{
    match checks {
        Some(checks) => match read_words(written) {
            Some(words) => is_allowed(words.as_slice(), &checks),
            None => false,
        },
        None => false,
    }
}

/// Compares an answer written in a trace with the model's reply, and returns the verdict. `reply` is the model's reply,
/// and `machine` is the machine after `reply`.
///
/// If the answer is allowed, both answers refuse the call, so both machines are those before it. A right word with
/// another check or another output is wrong. Checks are evaluated only if the answer is not the model's. The words of
/// the answer are read into `words`, which the caller reuses: to make a sentence for each answer costs more than the
/// comparison.
#[tactic(auto, unfolding(crate::specs::Judging::judged))]
pub fn judge(
    machine: &TraceMachine,
    question: &[TraceWord],
    written: &[u8],
    reply: &TraceReply,
    words: &mut Sentence,
) -> Verdict
    ensures { result ≡ judging.judged machine.now question.now written.now reply.now }
{
    if reply.is_written(question, written, words) {
        return Verdict::Same;
    }
    if is_text_allowed(machine.checks(question, reply), written) {
        Verdict::Allowed
    } else {
        Verdict::Wrong
    }
}
