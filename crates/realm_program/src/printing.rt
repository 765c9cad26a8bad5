//! Prints a text that is made from a plan. The text may be of any kind.
ghost use Rattle.std.specs.Prelude.{◌≡◌, ◌+◌, ◌≤◌, ◌↔◌, ◌⊎◌, ℕ, List, false, true, Err, IfOk, IfErr};
ghost use Rattle.realm_plan.specs.Plan.{Plan as PlanModel};
ghost use Rattle.realm_plan.specs.PlanView.{plan_view};
ghost use Rattle.realm_program.specs.Whole.{ReadsOnce};
ghost use Rattle.realm_program.specs.Printed.{IsEnd, IsFaultOfText};
ghost use Rattle.realm_program.specs.declared.fault.Fault.{Fault as FaultModel};
ghost use Rattle.realm_program.specs.declared.fault.Fault.TheVariants.{Device};

use crate::fault::Fault;
use crate::source::plan_in;
use checked_io::Told;
use realm_plan::Plan;
use std::alloc::Global;
use std::io::{Read, Write};

/// A kind of text that can be made from a plan.
pub trait PlanText {
    ghost is_text: { Self → PlanModel → List ℕ → Type 0 };

    ghost is_without: { Self → PlanModel → FaultModel → Type 0 };

    /// Returns the text made from a plan. The text is complete in memory, and the error is the reason why there is
    /// none.
    fn text_of(&self, alloc: Global, plan: &Plan) -> Result<Vec<u8>, Fault>
        ensures ok { IfOk result (λ text. is_text self.now (plan_view plan.now) text.items) }
        ensures err { IfErr result (λ fault. is_without self.now (plan_view plan.now) fault) }
        ensures kind { IfErr result IsFaultOfText };
}

/// Reads a plan, makes a text of the kind `asked` from the plan, and prints the text.
///
/// The text is complete before any of it is written. Errors: the fault of a plan, or the reason why it has no text.
/// `Device`: a read failed and nothing is written, or a write failed and a prefix of the text is written.
pub fn print<T: PlanText, R: Read, W: Write>(
    asked: &T,
    alloc: Global,
    input: &mut Told<R>,
    output: &mut Told<W>,
) -> Result<(), Fault>
    requires readable { input.old.failed ≡ false }
    requires writable { output.old.failed ≡ false }
    ensures end { IsEnd (T.is_text asked.now) (T.is_without asked.now) input.new.failed
        (R.remaining input.old.device) (W.contents output.old.device) (W.contents output.new.device) result }
    ensures device { ((input.new.failed ≡ true) ⊎ (output.new.failed ≡ true)) ↔ (result ≡ Err Device) }
    ensures asked { input.new.reads ≤ input.old.reads + 1048578 }
    ensures once { ReadsOnce (R.remaining input.old.device) input.old.reads input.new.reads }
{
    let plan = plan_in(alloc, input)?;
    let text = asked.text_of(alloc, &plan)?;
    output.write_whole(text.as_slice())?;
    Ok(())
}
