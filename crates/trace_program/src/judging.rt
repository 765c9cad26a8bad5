//! The verdict on a trace line that has a written answer.
ghost use Rattle.std.specs.Prelude.{◌≡◌, option_map};
ghost use Rattle.std.specs.Option.{option_copied};
ghost use Rattle.trace_program.specs.Judged as specs;
ghost use Rattle.trace_program.specs.LineText.{name_place, raw_call};

use crate::LineVerdict;
use command_line::rmitrace::{Comparison, NameSet};
use rmm_answers::place::{COMMAND, NO};
use rmm_answers::{TraceMachine, TraceReply, Verdict, judge, named_question};
use rmm_trace::place::{DASH, FIRST_CHECK, REPEAT, SMC};
use rmm_trace::{Atom, LineKind, RmmTraceLine, Sentence, TraceWord, read_words};

// Whether a word is the name at the place `name`.
fn is_name(word: &TraceWord, name: usize) -> bool
    ensures { result ≡ specs.is_name word.now name }
{
    match word.value {
        Atom::Name(place) => place == name,
        _ => false,
    }
}

// Whether an answer is `no command`, the answer to a line that is not a command.
#[tactic(auto, unfolding(crate::specs::Judged::is_no_command))]
pub(crate) fn is_no_command(reply: &TraceReply) -> bool
    ensures { result ≡ specs.is_no_command reply.now }
{
    match reply.words.as_slice() {
        [no, command] => is_name(no, NO) && is_name(command, COMMAND),
        _ => false,
    }
}

// ---- names

// Whether a word is the name of a check in a set.
fn is_check_in(set: &NameSet, word: &TraceWord) -> bool
    ensures { result ≡ specs.is_check_in set.now word.now.value }
{
    match word.value {
        Atom::Name(place) => FIRST_CHECK <= place && set.has(place),
        _ => false,
    }
}

// Whether an answer has the name of a check in a set.
fn has_check(set: &NameSet, words: &[TraceWord]) -> bool
    ensures { result ≡ specs.has_check set.now words.now }
{
    words.iter().any(|word| is_check_in(set, word))
}

// The call or the fill that a question repeats, or the question itself.
fn repeated(question: &[TraceWord]) -> &[TraceWord]
    ensures { result.now ≡ specs.repeated question.now }
{
    match question {
        [first, _, rest @ ..] if is_name(first, REPEAT) => rest,
        _ => question,
    }
}

// The place of the name in a question's first word.
fn name_place(question: &[TraceWord]) -> usize
    ensures { result ≡ name_place question.now }
{
    match question {
        [first, ..] => match first.value {
            Atom::Name(place) => place,
            _ => DASH,
        },
        [] => DASH,
    }
}

/// Rewrites a raw call `smc FID ..` as a call of a named command. Returns `None` if the question is not a raw call, or
/// if its function is not a command.
pub(crate) fn raw_call(question: &[TraceWord]) -> Option<Sentence>
    ensures { option_map (λ call. call.items) result ≡ raw_call question.now }
{
    if name_place(question) == SMC {
        named_question(question)
    } else {
        None
    }
}

/// Returns the index of a trace line's first word in the table of names. For an `smc` call of a command, the result is
/// the index of the command's name. For a `repeat`, it is that of the command or `fill` that is repeated.
#[tactic(auto, unfolding(crate::specs::Judged::command_place))]
pub(crate) fn command_place(question: &[TraceWord]) -> usize
    ensures { result ≡ specs.command_place question.now }
{
    match raw_call(question) {
        Some(call) => name_place(call.as_slice()),
        None => name_place(repeated(question)),
    }
}

// Whether a set has the name of a line's question or command, or of a check in one of the line's answers.
#[tactic(auto, unfolding(crate::specs::Judged::is_named))]
fn is_named(set: &NameSet, question: &[TraceWord], written: &[u8], reply: &TraceReply) -> bool
    ensures { result ≡ specs.is_named set.now question.now written.now reply.now }
{
    if set.has(name_place(question)) || set.has(command_place(question)) {
        return true;
    }
    if has_check(set, reply.words.as_slice()) {
        return true;
    }
    match read_words(written) {
        Some(words) => has_check(set, words.as_slice()),
        None => false,
    }
}

// Whether a line with an answer is compared.
#[tactic(auto, unfolding(crate::specs::Judged::is_compared))]
fn is_compared(
    asked: &Comparison,
    question: &[TraceWord],
    written: &[u8],
    reply: &TraceReply,
) -> bool
    ensures { result ≡ specs.is_compared asked.now question.now written.now reply.now }
{
    let is_asked = match &asked.only {
        Some(only) => is_named(only, question, written, reply),
        None => true,
    };
    let is_skipped = match &asked.skip {
        Some(skip) => is_named(skip, question, written, reply),
        None => false,
    };
    is_asked && !is_skipped
}

// ---- verdicts

// Returns the verdict on a written answer to a question. The words of the answer are read into `words`.
fn answer_verdict(
    asked: &Comparison,
    machine: &TraceMachine,
    question: &[TraceWord],
    written: &[u8],
    reply: &TraceReply,
    words: &mut Sentence,
) -> LineVerdict
    ensures { result ≡ specs.answer_verdict asked.now machine.now question.now written.now reply.now }
{
    if !is_compared(asked, question, written, reply) {
        return LineVerdict::NotCompared;
    }
    match judge(machine, question, written, reply, words) {
        Verdict::Same => LineVerdict::Same,
        Verdict::Allowed => LineVerdict::Allowed,
        Verdict::Wrong => LineVerdict::Wrong,
    }
}

// The verdict on a line that is not a command: its written answer has to be `no command`.
fn no_command_verdict(written: Option<&[u8]>) -> LineVerdict
    ensures { result ≡ specs.no_command_verdict (option_copied written.entry) }
{
    match written {
        Some(text) if text == b"no command".as_slice() => LineVerdict::Same,
        _ => LineVerdict::Wrong,
    }
}

/// Returns the verdict on a line of a trace. `written` is the line's written answer, and `reply` is the model's answer.
/// `machine` is the machine after the line. The words of the written answer are read into `words`.
#[tactic(auto, unfolding(crate::specs::Judged::line_verdict))]
pub fn line_verdict(
    asked: &Comparison,
    machine: &TraceMachine,
    written: Option<&[u8]>,
    line: &RmmTraceLine,
    reply: &TraceReply,
    words: &mut Sentence,
) -> LineVerdict
    ensures { result ≡ specs.line_verdict asked.now machine.now (option_copied written.entry) line.now reply.now }
{
    if let LineKind::Remark = line.kind {
        return LineVerdict::NotCompared;
    }
    if is_no_command(reply) {
        return no_command_verdict(written);
    }
    match (line.kind, written) {
        (LineKind::Question, Some(written)) => answer_verdict(
            asked,
            machine,
            line.words.as_slice(),
            written,
            reply,
            words,
        ),
        _ => LineVerdict::NotCompared,
    }
}
