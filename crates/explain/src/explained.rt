//! Types that describe the turns of a plan's run, and explain the refused steps.
ghost use Rattle.std.specs.Prelude.{◌≡◌};

use crate::check::Check;
use host_commands::Step;

/// The reason why a host refuses a step of a plan.
pub struct Explanation {
    /// The refused step of the plan.
    pub step: Step,
    /// The checks of the step, up to and including the first failed check.
    pub checks: Vec<Check>,
    /// The error message for the failed check.
    pub error: String,
    /// The help message; empty if there is none.
    pub help: String,
}

impl Drop for Explanation {
    fn drop(self) {
        let Explanation {
            step: _,
            checks: _,
            error: _,
            help: _,
        } = self;
    }
}

impl Explanation {
    /// Consumes the explanation, and returns its error message and its help message.
    pub fn into_messages(self) -> (String, String)
        ensures error { result.0 ≡ self.error }
        ensures help { result.1 ≡ self.help }
    {
        let Explanation {
            step: _,
            checks: _,
            error,
            help,
        } = self;
        (error, help)
    }
}

/// The printed line of one turn in a plan's schedule, with the reason for any refusal.
pub struct ExplainedTurn {
    /// The line of the turn, as a replay prints it.
    pub line: String,
    /// The reason for the refusal, if the host refuses the step.
    pub reason: Option<Explanation>,
}

impl Drop for ExplainedTurn {
    fn drop(self) {
        let ExplainedTurn { line: _, reason: _ } = self;
    }
}

impl ExplainedTurn {
    /// Consumes the turn, and returns the reason for the refusal, if any.
    pub fn into_reason(self) -> Option<Explanation>
        ensures { result ≡ self.reason }
    {
        let ExplainedTurn { line: _, reason } = self;
        reason
    }
}
