//! The subcommand `check`, which reports the findings on a plan.
ghost use Rattle.std.specs.Prelude.{◌≡◌, ◌+◌, ◌≤◌, ◌↔◌, ◌⊎◌, false, true, Err};
ghost use Rattle.realm_program.specs.Whole.{ReadsOnce};
ghost use Rattle.view_program.specs.Checked.{verdict_of, IsCheckEnd};
ghost use Rattle.view_program.specs.declared.fault.ViewError.TheVariants.{Device};

use crate::fault::ViewError;
use checked_io::Told;
use plan_lint::LintReport;
use realm_program::read_whole;
use std::alloc::Global;
use std::io::{Read, Write};

/// The outcome of a `realmview` subcommand: success, or errors found by `check`.
#[derive(Clone, Copy)]
pub enum ViewOutcome {
    /// A subcommand that succeeded.
    Done,
    /// An input of `check` that is not a plan, and whose errors have been written.
    HasErrors,
}

// The outcome of `check`, by whether the bytes are a plan.
fn verdict_of(is_plan: bool) -> ViewOutcome
    ensures { result ≡ verdict_of is_plan }
{
    if is_plan {
        ViewOutcome::Done
    } else {
        ViewOutcome::HasErrors
    }
}

/// Checks whether an input is a plan, and writes the findings. On bytes that are not a plan, the findings are errors.
/// On a plan they are its likely mistakes, and the plan's size follows.
///
/// The text is complete before any of it is written. Errors. `Memory`: allocation failed. `Device`: a read failed and
/// nothing is written, or a write failed and a prefix of the text is written.
pub fn check<R: Read, W: Write>(
    alloc: Global,
    source: &str,
    input: &mut Told<R>,
    output: &mut Told<W>,
) -> Result<ViewOutcome, ViewError>
    requires readable { input.old.failed ≡ false }
    requires writable { output.old.failed ≡ false }
    ensures end { IsCheckEnd source.now input.new.failed (R.remaining input.old.device) (W.contents output.old.device) (W.contents output.new.device) result }
    ensures device { ((input.new.failed ≡ true) ⊎ (output.new.failed ≡ true)) ↔ (result ≡ Err Device) }
    ensures asked { input.new.reads ≤ input.old.reads + 1048578 }
    ensures once { ReadsOnce (R.remaining input.old.device) input.old.reads input.new.reads }
{
    let bytes = read_whole(alloc, input)?;
    let report = LintReport::on(alloc, source, &bytes)?;
    output.write_whole(report.text.as_bytes())?;
    Ok(verdict_of(report.is_plan))
}
