//! Steps of a plan, and their parser.
ghost use Rattle.std.specs.Prelude.{◌≡◌, IfSome, IfNone};
ghost use Rattle.realm_plan.specs.Asked.{asked};
ghost use Rattle.realm_plan.specs.declared.step.PlanStep.{PlanStep};
ghost use Rattle.realm_plan.specs.Steps.{step_of};
ghost use Rattle.realm_plan.specs.StepsWritten.{IsStepText};

use crate::command::step;
use crate::operands::MOST_NUMBERS;
use decimal_text::{cut_at_space, numbers_of};
use granule_addr::IpaWidth;
use host_commands::{Cmd, Step};

/// A step as a plan states it: a `realm` step may leave out the IPA width.
#[derive(Drop)]
pub enum PlanStep {
    /// A step that is written with all its numbers.
    Whole(Step),
    /// A `realm` step without an IPA width. The realm gets the smallest width, 39. RMM 1.0, RMI_REALM_CREATE.
    WidthLeftOut { rd: u16, root: u16 },
}

impl PlanStep {
    /// Returns the step, with the smallest IPA width in place of one that is left out. No memory is taken.
    pub fn asked(&self) -> Step
        ensures { result ≡ asked self.now }
    {
        match self {
            PlanStep::Whole(Step::Ask(cmd)) => Step::Ask(cmd.clone()),
            PlanStep::Whole(Step::Undo) => Step::Undo,
            PlanStep::Whole(Step::Abort) => Step::Abort,
            PlanStep::Whole(Step::Mark) => Step::Mark,
            PlanStep::Whole(Step::Back) => Step::Back,
            PlanStep::WidthLeftOut { rd, root } => Step::Ask(Cmd::Realm {
                rd: *rd,
                root: *root,
                width: IpaWidth::least().number(),
            }),
        }
    }
}

/// Parses the text of a step. Returns `None` if the text spells no step. A text is a word and its numbers, with one
/// space before each number and nothing else. The numbers are in decimal, without a sign and without leading zeros, and
/// each in its range. No memory is taken.
pub fn step_from_text(text: &str) -> Option<PlanStep>
    // The step that is returned is the one that the text spells.
    ensures found { IfSome result (λ step. IsStepText text.now step) }
    // The text spells no step if none is returned.
    ensures none { IfNone result ((step : PlanStep) → IsStepText text.now step → ⊥) }
    ensures exact { result ≡ step_of text.now }
{
    let (word, rest) = cut_at_space(text);
    let numbers = numbers_of::<MOST_NUMBERS>(rest)?;
    step(word, numbers.as_slice())
}
