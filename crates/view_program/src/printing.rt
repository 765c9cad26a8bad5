//! Functions that parse a plan, and print a text made from it.
ghost use Rattle.std.specs.Prelude.{◌≡◌, ◌+◌, ◌≤◌, ◌↔◌, ◌⊎◌, false, true, Err, IfOk, IfErr};
ghost use Rattle.realm_plan.specs.Plan.{plan_of};
ghost use Rattle.realm_plan.specs.PlanView.{plan_view};
ghost use Rattle.realm_program.specs.Whole.{ReadsOnce};
ghost use Rattle.view_program.specs.Checked.{GivesNoPlan};
ghost use Rattle.view_program.specs.Printed.{IsPlanEnd};
ghost use Rattle.view_program.specs.declared.fault.ViewError.TheVariants.{Device};

use crate::fault::ViewError;
use crate::plan_text::ViewText;
use checked_io::Told;
use plan_lint::LintReport;
use realm_plan::{Plan, PlanError};
use realm_program::read_whole;
use std::alloc::Global;
use std::io::{Read, Write};

/// Parses bytes as a plan. If they are not a plan, returns `NoPlan` with their errors.
pub(crate) fn plan_from(alloc: Global, source: &str, bytes: &[u8]) -> Result<Plan, ViewError>
    ensures ok { IfOk result (λ plan. plan_of bytes.now ≡ Ok (plan_view plan)) }
    ensures err { IfErr result (GivesNoPlan source.now bytes.now) }
{
    match Plan::from_bytes(alloc, bytes) {
        Ok(plan) => Ok(plan),
        Err(PlanError::Memory) => Err(ViewError::Memory),
        Err(PlanError::Fault(_)) => {
            let report = LintReport::on(alloc, source, bytes)?;
            Err(ViewError::NoPlan(report.text))
        }
    }
}

/// Reads a plan, and writes the requested text that is made from it.
///
/// The text is complete before any of it is written. Errors. `NoPlan`, with the errors of an input that is not a plan.
/// `Plan`, with the reason why the plan has no such text. `Memory`: allocation failed. `Device`: a read failed and
/// nothing is written, or a write failed and a prefix of the text is written.
pub fn print<T: ViewText, R: Read, W: Write>(
    asked: &T,
    alloc: Global,
    source: &str,
    input: &mut Told<R>,
    output: &mut Told<W>,
) -> Result<(), ViewError>
    requires readable { input.old.failed ≡ false }
    requires writable { output.old.failed ≡ false }
    ensures end { IsPlanEnd (T.is_text asked.now) (T.is_without asked.now) source.now input.new.failed
        (R.remaining input.old.device) (W.contents output.old.device) (W.contents output.new.device) result }
    ensures device { ((input.new.failed ≡ true) ⊎ (output.new.failed ≡ true)) ↔ (result ≡ Err Device) }
    ensures asked { input.new.reads ≤ input.old.reads + 1048578 }
    ensures once { ReadsOnce (R.remaining input.old.device) input.old.reads input.new.reads }
{
    let bytes = read_whole(alloc, input)?;
    let plan = plan_from(alloc, source, &bytes)?;
    let text = asked.text_of(alloc, plan, &bytes)?;
    output.write_whole(text.as_slice())?;
    Ok(())
}
