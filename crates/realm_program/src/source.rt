//! A function that reads a plan from an input.
ghost use Rattle.std.specs.Prelude.{◌≡◌, ◌+◌, ◌≤◌, ◌↔◌, false, true, IfOk, IfErr, Err};
ghost use Rattle.realm_plan.specs.PlanView.{plan_view};
ghost use Rattle.realm_program.specs.Whole.{ReadsOnce};
ghost use Rattle.realm_program.specs.Printed.{IsPlanOf, HasNoPlan};
ghost use Rattle.realm_program.specs.declared.fault.Fault.TheVariants.{Device};

use crate::fault::Fault;
use crate::input::read_whole;
use checked_io::Told;
use realm_plan::Plan;
use std::alloc::Global;
use std::io::Read;

/// Reads a plan from an input. Errors: `Plan`, with the fault of an input that is not a plan; `Memory`, if allocation
/// failed; `Device`, if a read failed.
pub fn plan_in<R: Read>(alloc: Global, input: &mut Told<R>) -> Result<Plan, Fault>
    requires { input.old.failed ≡ false }
    ensures told { (input.new.failed ≡ true) ↔ (result ≡ Err Device) }
    ensures asked { input.new.reads ≤ input.old.reads + 1048578 }
    ensures once { ReadsOnce (R.remaining input.old.device) input.old.reads input.new.reads }
    ensures ok { IfOk result (λ plan. IsPlanOf (R.remaining input.old.device) (plan_view plan)) }
    ensures err { IfErr result (HasNoPlan (R.remaining input.old.device)) }
{
    let bytes = read_whole(alloc, input)?;
    Ok(Plan::from_bytes(alloc, &bytes)?)
}
