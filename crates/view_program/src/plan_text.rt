//! The trait for the kinds of text that `print` can write for a plan.
ghost use Rattle.std.specs.Prelude.{ℕ, List, IfOk, IfErr};
ghost use Rattle.realm_plan.specs.Plan.{Plan as PlanModel};
ghost use Rattle.realm_plan.specs.PlanView.{plan_view};
ghost use Rattle.realm_program.specs.Printed.{IsFaultOfText};
ghost use Rattle.realm_program.specs.declared.fault.Fault.{Fault as FaultModel};

use realm_plan::Plan;
use realm_program::Fault;
use std::alloc::Global;

/// A kind of text that can be made from a plan and the bytes of its input.
pub trait ViewText {
    ghost is_text: { Self → List ℕ → PlanModel → List ℕ → Type 0 };

    ghost is_without: { Self → PlanModel → FaultModel → Type 0 };

    /// Returns the complete text of this kind for a plan. The error is the reason why there is no text. `source` has
    /// the bytes of the plan's input, with its comments.
    fn text_of(&self, alloc: Global, plan: Plan, source: &[u8]) -> Result<Vec<u8>, Fault>
        ensures ok { IfOk result (λ text. is_text self.now source.now (plan_view plan) text.items) }
        ensures err { IfErr result (λ fault. is_without self.now (plan_view plan) fault) }
        ensures kind { IfErr result IsFaultOfText };
}
