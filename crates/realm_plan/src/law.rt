//! The theorem that different steps of plans have different texts.
ghost use Rattle.std.specs.Prelude.{◌≡◌, ℕ, List};
ghost use Rattle.realm_plan.specs.declared.step.PlanStep.{PlanStep};
ghost use Rattle.realm_plan.specs.StepsWritten.{IsStepText};

/// Proves that step texts are injective: different steps have different texts.
pub fn step_texts_are_injective()
    ensures { (text : List ℕ) (a b : PlanStep) → IsStepText text a → IsStepText text b → a ≡ b }
{}
