//! The messages that explain a refused step, as lines. The layout of the lines is proved. Their sentences come from the
//! modules `error`, `help` and `passed`, and are tested.
ghost use Rattle.std.specs.Prelude.{◌≡◌, ℕ, List, ◌++◌, length, string_bytes, IfOk, OnOk};
ghost use Rattle.explain.specs.Words.{message_line, count_line, passed_line, earlier_checks, AppendsPassed, AreReasonLines};

use crate::check::Check;
use crate::error::{error_of, push_error};
use crate::explained::Explanation;
use crate::help::push_help;
use crate::passed::passed;
use granule_addr::BuildId;
use host_commands::Step;
use page_arena::PageStore;
use realm_host::Host;
use std::alloc::{AllocError, Global};

/// Returns the error message and the help message for a refused step. The failed check is the last of `checks`.
pub(crate) fn words_of<S: PageStore>(
    alloc: Global,
    host: &Host<S>,
    build: BuildId,
    step: &Step,
    checks: &[Check],
) -> Result<(String, String), AllocError> {
    let mut error = String::new(alloc);
    let mut help = String::new(alloc);
    if let Some(check) = checks.last() {
        let words = error_of(host, build, step, check.fact);
        push_error(&mut error, words, step, check)?;
        push_help(&mut help, host, build, step, check.fact)?;
    }
    Ok((error, help))
}

// Appends an indented line of a kind, `error` or `help`, unless its words are empty.
fn push_line(text: &mut String, kind: &str, words: &str) -> Result<(), AllocError>
    ensures { OnOk result (string_bytes text.new ≡ string_bytes text.old ++ message_line kind.now words.now) }
{
    if words.is_empty() {
        return Ok(());
    }
    writeln!(text, "    {kind}: {words}")
}

// Appends the line with the number of checks that passed, if any did.
fn push_count(text: &mut String, count: usize) -> Result<(), AllocError>
    ensures { OnOk result (string_bytes text.new ≡ string_bytes text.old ++ count_line count) }
{
    if count == 0 {
        return Ok(());
    }
    if count == 1 {
        return text.push_str("    1 earlier check passed\n");
    }
    writeln!(text, "    {count} earlier checks passed")
}

// Appends the line of a check that passed.
fn push_passed(text: &mut String, step: &Step, check: &Check) -> Result<(), AllocError>
    ensures { OnOk result ((words : List ℕ) × (string_bytes text.new ≡ string_bytes text.old ++ passed_line words)) }
{
    text.push_str("        ok: ")?;
    passed(step, check.fact).push(text)?;
    text.push_str("\n")?;
    Ok(())
}

// Appends a line for each of these checks, which passed.
fn push_each_passed(text: &mut String, step: &Step, checks: &[Check]) -> Result<(), AllocError>
    ensures { OnOk result (AppendsPassed (length checks.now) (string_bytes text.old) (string_bytes text.new)) }
{
    for check in checks {
        push_passed(text, step, check)?;
    }
    Ok(())
}

// The checks that passed before the failed check, which is the last.
fn earlier_checks(checks: &[Check]) -> &[Check]
    ensures { result.now ≡ earlier_checks checks.now }
{
    match checks.split_last() {
        Some((_, earlier)) => earlier,
        None => checks,
    }
}

/// Returns the lines that explain why the host refused a step of a plan: the error, the help, and the number of passed
/// checks. If `all` is set, each passed check has a line too.
pub fn reason_lines(alloc: Global, reason: &Explanation, all: bool) -> Result<String, AllocError>
    ensures { IfOk result (λ text. AreReasonLines reason.now all (string_bytes text)) }
{
    let mut text = String::new(alloc);
    push_line(&mut text, "error", &reason.error)?;
    push_line(&mut text, "help", &reason.help)?;
    let earlier = earlier_checks(&reason.checks);
    push_count(&mut text, earlier.len())?;
    if all {
        push_each_passed(&mut text, &reason.step, earlier)?;
    }
    Ok(text)
}
