//! The answers to a plan's steps, as values and as output text.
ghost use Rattle.std.specs.Prelude.{◌≡◌, ◌++◌, OnOk, string_bytes, [], IfOk};
ghost use Rattle.plan_replay.specs.Text.{turn_line};

use granule_addr::BuildId;
use host_commands::{Refusal, Reply};
use realm_host::Kind;
use realm_plan::{KindWord, Plan, PlanStep, RefusalText, ReplyText, StepText};
use std::alloc::{AllocError, Global};
use std::fmt;

/// The answer that a build's step gets in one turn of a plan's run.
#[derive(Clone, Copy)]
pub enum TurnAnswer {
    /// The reply to an accepted command.
    Replied(Reply),
    /// A newly set mark, to which the build can be rolled back. The number is that of the operations open at the mark.
    Marked(u16),
    /// An operation that was undone, given by its kind. In an abort or a `back`, more are left to undo.
    Undone(Kind),
    /// The last undo of an abort or of a step `back`. The kind is that of the operation undone.
    Ended(Kind),
    /// An abort or a step `back` that has nothing to undo.
    Nothing,
    Refused(Refusal),
}

impl TurnAnswer {
    ghost use Rattle.plan_replay.specs.Place.{is_refusal};

    /// Returns whether the answer is a refusal.
    pub fn is_refusal(&self) -> bool
        ensures { result ≡ is_refusal self.now }
    {
        matches!(self, TurnAnswer::Refused(_))
    }
}

impl fmt::Display for TurnAnswer {
    ghost use Rattle.std.specs.Prelude.{Some};
    ghost use Rattle.plan_replay.specs.Text.{answer_text};

    ghost output = { λ a. Some (answer_text a) };

    fn fmt<W: fmt::Write>(&self, f: &mut fmt::Formatter<W>) -> fmt::Result {
        match *self {
            TurnAnswer::Replied(reply) => write!(f, "{}", ReplyText(reply)),
            TurnAnswer::Marked(length) => write!(f, "ok {length}"),
            TurnAnswer::Undone(kind) => write!(f, "ok {}", KindWord(kind)),
            TurnAnswer::Ended(kind) => write!(f, "done {}", KindWord(kind)),
            TurnAnswer::Nothing => f.write_str("done"),
            TurnAnswer::Refused(refusal) => write!(f, "no {}", RefusalText(refusal)),
        }
    }
}

/// Appends the output line of one turn of a plan's run. The line has the build, the plan's step, and the answer. At an
/// `Err`, the text may have a part of the line.
pub fn push_turn(
    text: &mut String,
    build: BuildId,
    step: &PlanStep,
    answer: TurnAnswer,
) -> Result<(), AllocError>
    ensures { OnOk result (string_bytes text.new ≡ string_bytes text.old ++ turn_line build step.now answer) }
{
    writeln!(text, "{} {} = {answer}", build.number(), StepText(step))
}

/// The number of bytes to reserve for a line of output. Most lines have fewer.
const BYTES_A_LINE: usize = 24;

/// Creates an empty string, with a capacity estimated for the output of a plan's run. The estimate uses the plan's
/// numbers of turns and pages. A text that grows is copied, and takes the memory of both meanwhile. The one error is
/// that allocation failed.
pub fn empty_output_text(alloc: Global, plan: &Plan) -> Result<String, AllocError>
    ensures { IfOk result (λ text. string_bytes text ≡ []) }
{
    let lines = plan.order.len() + plan.pages as usize;
    String::with_capacity(alloc, lines * BYTES_A_LINE)
}
