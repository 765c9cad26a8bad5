//! Functions that decide from an RMI call's checks which answers an RMM may give.
ghost use Rattle.std.specs.Prelude.{◌≡◌, None};
ghost use Rattle.std.specs.List.{list_any};
ghost use Rattle.rmm_checks.specs.Evaluated as specs;

use crate::{CheckOutcome, EvaluatedCheck, EvaluatedChecks};
use rmi_abi::Word;
use rmm_model::FailedCondition;

impl CheckOutcome {
    /// Returns whether the check was made.
    pub fn is_made(&self) -> bool
        ensures { result ≡ specs.was_made self.now }
    {
        !matches!(self, CheckOutcome::NotMade)
    }

    /// Returns whether the check was made and failed.
    pub fn is_failure(&self) -> bool
        ensures { result ≡ specs.is_failure self.now }
    {
        matches!(self, CheckOutcome::Failed(_))
    }

    // Whether the check was made and failed, with the word `word` in its answer.
    fn has_word(&self, word: Word) -> bool
        ensures { result ≡ specs.has_word word self.now }
    {
        match self {
            CheckOutcome::Failed(answer) => word.number() == answer.word.number(),
            _ => false,
        }
    }
}

// The refusal by a check, if it was made and failed.
fn refusal(row: &EvaluatedCheck) -> Option<FailedCondition>
    ensures { result ≡ specs.refusal_or row.now row.now.outcome None }
{
    match row.outcome {
        CheckOutcome::Failed(answer) => Some(FailedCondition {
            condition: row.condition,
            answer,
        }),
        _ => None,
    }
}

// The refusal by the first check that was made and failed.
#[tactic(auto, using(crate::proofs::FirstFailed::failed_end))]
fn first_failed(rows: &[EvaluatedCheck]) -> Option<FailedCondition>
    ensures { result ≡ specs.first_failed rows.now }
{
    for row in rows {
        if let Some(found) = refusal(row) {
            return Some(found);
        }
    }
    None
}

// Whether one of the checks was made and failed.
fn has_failed(rows: &[EvaluatedCheck]) -> bool
    ensures { result ≡ list_any (λ row. specs.is_failure row.outcome) rows.now }
{
    rows.iter().any(|row| row.outcome.is_failure())
}

// Whether one of the checks was made and failed, with the word `word` in its answer.
fn has_word(rows: &[EvaluatedCheck], word: Word) -> bool
    ensures { result ≡ list_any (λ row. specs.has_word word row.outcome) rows.now }
{
    rows.iter().any(|row| row.outcome.has_word(word))
}

impl EvaluatedChecks {
    /// Returns the failure condition and the answer of the first failed check, which decides the call; `None` if no
    /// check failed.
    pub fn deciding(&self) -> Option<FailedCondition>
        ensures { result ≡ specs.first_failed self.now }
    {
        first_failed(self.rows())
    }

    /// Returns whether an RMM may answer the call with a given result word.
    #[tactic(auto, using(crate::proofs::Words::allowed_failed, crate::proofs::Words::allowed_success))]
    pub fn allows(&self, word: Word) -> bool
        ensures { result ≡ specs.is_allowed self.now word }
    {
        let rows = self.rows();
        if has_failed(rows) {
            has_word(rows, word)
        } else {
            word.number() == 0
        }
    }
}
