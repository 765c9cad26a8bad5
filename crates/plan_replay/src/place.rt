//! The progress of a build through its steps in a plan.
ghost use Rattle.std.specs.Prelude.{◌≡◌, ◌≤◌, ◌^◌, ◌<◌};
ghost use Rattle.plan_replay.specs.Place.{first_place, giving_up, moved_on, number_after};

use crate::answer::TurnAnswer;
use realm_host::Mark;
use realm_plan::MOST_STEPS;

/// The step number of the abort that a build performs when it gives up after a refused step. The numbers of a plan's
/// steps are lower.
pub const GIVING_UP: usize = MOST_STEPS + 1;

/// Returns the number of the step that follows step `done`. If builds give up, a refused step of the plan leads to the
/// abort.
pub fn number_after(gives_up: bool, is_refused: bool, done: usize) -> usize
    requires { done < 2 ^ 32 }
    ensures { result ≡ number_after gives_up is_refused done }
{
    if gives_up && is_refused && done < GIVING_UP {
        GIVING_UP
    } else {
        done + 1
    }
}

/// The progress of a build in a plan: the number of steps done, the remaining undos of the current step, and the last
/// mark. If builds give up, the number of steps is `GIVING_UP` during the abort that follows a refused step, and one
/// more after it.
#[derive(Clone, Copy)]
pub struct PlanCursor {
    pub done: usize,
    pub left: u16,
    pub mark: Option<Mark>,
}

impl PlanCursor {
    /// Creates the cursor before the first step.
    pub fn first() -> PlanCursor
        ensures { result ≡ first_place }
    {
        PlanCursor {
            done: 0,
            left: 0,
            mark: None,
        }
    }

    /// Moves the cursor to the next step, unless the current step still has operations to undo. The turn's answer
    /// decides which step is next.
    pub fn move_on(&mut self, gives_up: bool, answer: &TurnAnswer)
        requires { self.old.done ≤ giving_up }
        ensures { self.new ≡ moved_on gives_up answer.now self.old }
    {
        if self.left == 0 {
            self.done = number_after(gives_up, answer.is_refusal(), self.done);
        }
    }
}
