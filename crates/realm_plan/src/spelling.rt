//! The text of a step, in plans and in the output lines of turns.
ghost use Rattle.std.specs.Prelude.{◌≡◌, ◌∷◌, ◌≤◌, length};
ghost use Rattle.realm_plan.specs.StepsWritten.{written_cmd, written_step};

use crate::operands::{MOST_NUMBERS, four, one, three, two};
use crate::step::PlanStep;
use arrayvec::ArrayVec;
use decimal_text::SpelledText;
use host_commands::{Cmd, Step};
use std::fmt;

// The word of a command in plans.
fn cmd_word(cmd: &Cmd) -> &'static str
    ensures { result.now ≡ (written_cmd cmd.now).word }
{
    match cmd {
        Cmd::Take { .. } => "take",
        Cmd::Fill { .. } => "fill",
        Cmd::Peek { .. } => "peek",
        Cmd::Delegate { .. } => "delegate",
        Cmd::Realm { .. } => "realm",
        Cmd::Rtt { .. } => "rtt",
        Cmd::Ripas { .. } => "ripas",
        Cmd::Data { .. } => "data",
        Cmd::Unknown { .. } => "unknown",
        Cmd::Rec { .. } => "rec",
        Cmd::Activate => "activate",
        Cmd::Enter { .. } => "enter",
        Cmd::Exit { .. } => "exit",
        Cmd::Poke { .. } => "poke",
    }
}

// The numbers of the step `rec`: the page of a REC, and its auxiliary pages.
fn rec_numbers(page: u16, auxiliaries: &[u16]) -> ArrayVec<u32, MOST_NUMBERS>
    requires { length auxiliaries.now ≤ 16 }
    ensures { result.items ≡ page ∷ auxiliaries.now }
{
    let mut numbers = one(u32::from(page));
    for auxiliary in auxiliaries {
        numbers.push(u32::from(*auxiliary));
    }
    numbers
}

// The numbers of a command in plans.
fn cmd_numbers(cmd: &Cmd) -> ArrayVec<u32, MOST_NUMBERS>
    ensures { result.items ≡ (written_cmd cmd.now).numbers }
{
    match *cmd {
        Cmd::Take { order } => one(u32::from(order)),
        Cmd::Fill { page, value } => two(u32::from(page), u32::from(value)),
        Cmd::Peek { page, offset } => two(u32::from(page), u32::from(offset.number())),
        Cmd::Delegate { page } => one(u32::from(page)),
        Cmd::Realm { rd, root, width } => three(u32::from(rd), u32::from(root), u32::from(width)),
        Cmd::Rtt { page, ipa, level } => three(u32::from(page), ipa, u32::from(level)),
        Cmd::Ripas { ipa, count } => two(ipa, u32::from(count)),
        Cmd::Data { page, ipa, source } => three(u32::from(page), ipa, u32::from(source)),
        Cmd::Unknown { page, ipa } => two(u32::from(page), ipa),
        Cmd::Rec {
            page,
            ref auxiliaries,
        } => rec_numbers(page, auxiliaries.as_slice()),
        Cmd::Activate => ArrayVec::new(),
        Cmd::Enter { number } | Cmd::Exit { number } => one(u32::from(number.number())),
        Cmd::Poke {
            number,
            ipa,
            offset,
            value,
        } => four(
            u32::from(number.number()),
            ipa,
            u32::from(offset.number()),
            u32::from(value),
        ),
    }
}

// The word of a step in plans.
fn step_word(step: &PlanStep) -> &'static str
    ensures { result.now ≡ (written_step step.now).word }
{
    match step {
        PlanStep::Whole(Step::Ask(cmd)) => cmd_word(cmd),
        PlanStep::Whole(Step::Undo) => "undo",
        PlanStep::Whole(Step::Abort) => "abort",
        PlanStep::Whole(Step::Mark) => "mark",
        PlanStep::Whole(Step::Back) => "back",
        PlanStep::WidthLeftOut { .. } => "realm",
    }
}

// The numbers of a step in plans.
fn step_numbers(step: &PlanStep) -> ArrayVec<u32, MOST_NUMBERS>
    ensures { result.items ≡ (written_step step.now).numbers }
{
    match step {
        PlanStep::Whole(Step::Ask(cmd)) => cmd_numbers(cmd),
        PlanStep::WidthLeftOut { rd, root } => two(u32::from(*rd), u32::from(*root)),
        PlanStep::Whole(Step::Undo | Step::Abort | Step::Mark | Step::Back) => ArrayVec::new(),
    }
}

/// The text of a step, spelled as in the plan.
#[derive(Clone, Copy)]
pub struct StepText<'a>(pub &'a PlanStep);

impl fmt::Display for StepText<'_> {
    ghost use Rattle.std.specs.Prelude.{Some};
    ghost use Rattle.realm_plan.specs.StepsWritten.{spelling};

    ghost output = { λ s. Some (spelling s.0.now) };

    fn fmt<W: fmt::Write>(&self, f: &mut fmt::Formatter<W>) -> fmt::Result {
        let numbers = step_numbers(self.0);
        fmt::Display::fmt(&SpelledText(step_word(self.0), numbers.as_slice()), f)
    }
}
