//! The RMM's refusals of commands, each with a failure condition and an answer.
ghost use Rattle.std.specs.Prelude.{◌≡◌};
ghost use Rattle.rmm_model.specs.Check as checks;

use crate::Condition;
use rmi_abi::{SmcResult, Word};

/// The failure condition for which the RMM refuses a command, and the RMM's answer.
#[derive(Clone, Copy, Drop)]
pub struct FailedCondition {
    pub condition: Condition,
    pub answer: SmcResult,
}

impl FailedCondition {
    /// Returns the RMM's answer to the refused command. The answer is copied field by field, so that a caller keeps it
    /// in registers. A copy of the whole structure would go through memory.
    pub fn into_answer(self) -> SmcResult
        ensures { result ≡ self.answer }
    {
        SmcResult {
            word: self.answer.word,
            x1: self.answer.x1,
            x2: self.answer.x2,
            x3: self.answer.x3,
            x4: self.answer.x4,
        }
    }
}

/// Returns a refusal with RMI_ERROR_INPUT for the failure condition `condition`.
pub fn error_input(condition: Condition) -> FailedCondition
    ensures { result ≡ record { condition = condition; answer = checks.error_input } }
{
    FailedCondition {
        condition,
        answer: SmcResult::only(Word::ErrorInput),
    }
}

/// Returns a refusal with RMI_ERROR_RTT and the level of a table, for the failure condition `condition`.
pub fn error_rtt(condition: Condition, level: u8) -> FailedCondition
    ensures { result ≡ record { condition = condition; answer = checks.error_rtt level } }
{
    FailedCondition {
        condition,
        answer: SmcResult::only(Word::ErrorRtt(level)),
    }
}
