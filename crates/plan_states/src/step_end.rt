//! The record of a step that a build has finished.
ghost use Rattle.std.specs.Prelude.{◌≡◌, ◌≢◌};
ghost use Rattle.std.specs.Bool.{OnTrue, OnFalse};

use host_commands::Refusal;

/// The outcome of a finished step of a build: accepted, or refused with a reason. `step` is the step's index, or
/// `GIVING_UP` for the abort of a build that gives up.
#[derive(Clone, Copy, PartialEq, Eq)]
pub struct EndOfStep {
    pub build: usize,
    pub step: usize,
    pub refusal: Option<Refusal>,
}

/// Returns whether two outcomes of steps are the same.
pub(crate) fn is_same_end(one: &EndOfStep, other: &EndOfStep) -> bool
    ensures same { OnTrue result (one.now ≡ other.now) }
    ensures differ { OnFalse result (one.now ≢ other.now) }
{
    one == other
}
