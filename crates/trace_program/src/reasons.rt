//! The explanations of trace lines whose answers differ from the model's, and of refused calls. The heading, the line
//! and the answer of a note are proved, and so is the name of the check that decides. The other words are tested.
ghost use Rattle.std.specs.Prelude.{◌≡◌, ◌++◌, [], true, false, IfOk, OnOk, string_bytes};
ghost use Rattle.rmm_checks.specs.Evaluated.{first_failed, is_failure};
ghost use Rattle.trace_program.specs.Judged.{is_no_command};
ghost use Rattle.trace_program.specs.Refusal.{Extends, decision_text, failed_text, label_text};
ghost use Rattle.trace_program.specs.Session.{IsDifference, heading_text, here_text};

use crate::judging::{command_place, is_no_command};
use crate::line_text::LineTexts;
use crate::nearest::nearest_word;
use crate::phrases::requirement;
use rmi_abi::Word;
use rmm_answers::TraceReply;
use rmm_checks::{CheckOutcome, EvaluatedCheck, EvaluatedChecks, condition_name};
use rmm_model::Condition;
use rmm_trace::TraceWord;
use std::alloc::{AllocError, Global};
use std::fmt::Write;

// The name of a result word, and its index if it has one.
fn word_text(word: Word) -> (&'static str, u8) {
    match word {
        Word::Success => ("RMI_SUCCESS", 0),
        Word::ErrorInput => ("RMI_ERROR_INPUT", 0),
        Word::ErrorRealm(index) => ("RMI_ERROR_REALM", index),
        Word::ErrorRec => ("RMI_ERROR_REC", 0),
        Word::ErrorRtt(index) => ("RMI_ERROR_RTT", index),
        Word::Running => ("RUNNING", 0),
    }
}

// Appends a result word, with its index if the word always has one or the index is not 0.
fn push_word(text: &mut String, word: Word) -> Result<(), AllocError>
    ensures { OnOk result (Extends (string_bytes text.old) (string_bytes text.new)) }
{
    let (status, index) = word_text(word);
    text.push_str(status)?;
    if index > 0 || matches!(word, Word::ErrorRtt(_)) {
        write!(text, " {index}")?;
    }
    Ok(())
}

// The label of a failed check. The first one decides the answer.
fn label(is_first: bool) -> &'static str
    ensures { result.now ≡ label_text is_first }
{
    if is_first { "error" } else { "also" }
}

// Appends the beginning of the line on a failed check: its label, and the check's name.
fn push_label(text: &mut String, is_first: bool, condition: Condition) -> Result<(), AllocError>
    ensures { OnOk result (string_bytes text.new ≡ string_bytes text.old ++ failed_text is_first condition) }
{
    let label = label(is_first);
    let name = condition_name(condition);
    write!(text, "    {label}: {name}: ")?;
    Ok(())
}

// Appends a line on a failed check: the label, and the check's name, requirement and, in brackets, result word.
fn push_failed(
    text: &mut String,
    is_first: bool,
    command: usize,
    condition: Condition,
    word: Word,
) -> Result<(), AllocError>
    ensures { OnOk result (Extends (string_bytes text.old ++ failed_text is_first condition) (string_bytes text.new)) }
{
    push_label(text, is_first, condition)?;
    text.push_str(requirement(command, condition))?;
    text.push_str(" (")?;
    push_word(text, word)?;
    text.push_str(")\n")?;
    Ok(())
}

// Appends a check if it failed. Returns whether the next one that fails is the first.
fn push_if_failed(
    text: &mut String,
    is_first: bool,
    command: usize,
    row: &EvaluatedCheck,
) -> Result<bool, AllocError>
    ensures failed { OnOk result (is_failure row.now.outcome ≡ true → Extends (string_bytes text.old ++ failed_text is_first row.now.condition) (string_bytes text.new)) }
    ensures other { IfOk result (λ next. is_failure row.now.outcome ≡ false → (next ≡ is_first) × (string_bytes text.new ≡ string_bytes text.old)) }
{
    match row.outcome {
        CheckOutcome::Failed(answer) => {
            push_failed(text, is_first, command, row.condition, answer.word)?;
            Ok(false)
        }
        _ => Ok(is_first),
    }
}

// Appends each check that failed. The first decides the answer, and the result words of the others are allowed.
fn push_all_failed(
    text: &mut String,
    command: usize,
    rows: &[EvaluatedCheck],
) -> Result<(), AllocError>
    ensures { OnOk result (Extends (string_bytes text.old ++ decision_text (first_failed rows.now)) (string_bytes text.new)) }
{
    let mut is_first = true;
    for row in rows {
        is_first = push_if_failed(text, is_first, command, row)?;
    }
    Ok(())
}

// Appends a check if it passed.
fn push_if_passed(text: &mut String, command: usize, row: &EvaluatedCheck) -> Result<(), AllocError>
    ensures { OnOk result (Extends (string_bytes text.old) (string_bytes text.new)) }
{
    if !row.outcome.is_pass() {
        return Ok(());
    }
    let name = condition_name(row.condition);
    let words = requirement(command, row.condition);
    write!(text, "    ok: {name}: {words}\n")?;
    Ok(())
}

// Appends each check that passed.
fn push_passed(text: &mut String, command: usize, rows: &[EvaluatedCheck]) -> Result<(), AllocError>
    ensures { OnOk result (Extends (string_bytes text.old) (string_bytes text.new)) }
{
    for row in rows {
        push_if_passed(text, command, row)?;
    }
    Ok(())
}

/// Returns the lines that list the failed and passed checks of a refused call. The check that decides comes first, then
/// the other checks that failed, and then the checks that passed.
pub(crate) fn checks_text(
    alloc: Global,
    question: &[TraceWord],
    checks: &EvaluatedChecks,
) -> Result<String, AllocError>
    ensures { IfOk result (λ text. Extends (decision_text (first_failed checks.now)) (string_bytes text)) }
{
    let mut text = String::new(alloc);
    let command = command_place(question);
    push_all_failed(&mut text, command, checks.rows())?;
    push_passed(&mut text, command, checks.rows())?;
    Ok(text)
}

/// Returns a line of help that suggests the word that was probably meant, or an empty text if no word is near.
pub(crate) fn hint(alloc: Global, bytes: &[u8], indent: &str) -> Result<String, AllocError> {
    match nearest_word(alloc, bytes)? {
        Some(word) => format!(in alloc; "{indent}help: did you mean {word}?\n"),
        None => Ok(String::new(alloc)),
    }
}

/// Returns the first line of a note on a trace line, with the trace's name, the number of the line, and the verdict.
pub(crate) fn heading(
    alloc: Global,
    source: &str,
    number: u64,
    verdict: &str,
) -> Result<LineTexts, AllocError>
    ensures { IfOk result (λ text. text ≡ heading_text source.now number verdict.now) }
{
    let mut text = LineTexts::new(alloc);
    let words = format!(in alloc; "{source}:{number}: {verdict}\n")?;
    text.push(words.as_bytes())?;
    Ok(text)
}

// Appends the model's answer as a note has it.
fn push_here(text: &mut LineTexts, reply: &TraceReply) -> Result<(), AllocError>
    ensures { OnOk result (text.new ≡ text.old ++ here_text reply.now) }
{
    if reply.is_empty() {
        return text.push(b"no answer");
    }
    text.push_answer(reply)
}

// Returns the help below a note on a line that is not a command. For a command, the text is empty.
fn help_text(alloc: Global, bytes: &[u8], reply: &TraceReply) -> Result<String, AllocError>
    ensures { IfOk result (λ text. is_no_command reply.now ≡ false → string_bytes text ≡ []) }
{
    if is_no_command(reply) {
        return hint(alloc, bytes, "");
    }
    Ok(String::new(alloc))
}

/// Returns the note on a line with the verdict `Allowed` or `Wrong`. The note has the line, the model's answer, and a
/// suggestion if the line is not a command. Its heading is not included.
pub(crate) fn note_on_difference(
    alloc: Global,
    bytes: &[u8],
    reply: &TraceReply,
) -> Result<LineTexts, AllocError>
    ensures { IfOk result (λ text. IsDifference bytes.now reply.now text) }
{
    let mut text = LineTexts::new(alloc);
    text.push_line(bytes)?;
    text.push(b"here: ")?;
    push_here(&mut text, reply)?;
    text.push_line(b"")?;
    let help = help_text(alloc, bytes, reply)?;
    text.push(help.as_bytes())?;
    Ok(text)
}
