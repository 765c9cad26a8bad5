//! The checks of an RMI call, with their outcomes.
ghost use Rattle.std.specs.Prelude.{◌≡◌, ◌+◌, ◌<◌, [], ◌∷◌, length};
ghost use Rattle.rmm_model.specs.Allowed.{condition_number};
ghost use Rattle.rmm_model.specs.Check.{check, error_input, error_realm, error_rec, error_rtt};
ghost use Rattle.rmm_checks.specs.Evaluated.{Adds, is_pass, is_passed, is_made};

use arrayvec::ArrayVec;
use rmi_abi::{SmcResult, Word};
use rmm_model::Condition;
use std::marker::Model;

/// The outcome of a check of an RMI call: not made, passed or failed. A check is made if each check that it comes after
/// was made and passed.
#[derive(Clone, Copy)]
pub enum CheckOutcome {
    NotMade,
    Passed,
    /// A failed check, with the answer that reports this failure. The command gives that answer if this check decides.
    Failed(SmcResult),
}

/// The outcome of a check of an RMI call, with the check's failure condition.
#[derive(Clone, Copy)]
pub struct EvaluatedCheck {
    pub condition: Condition,
    pub outcome: CheckOutcome,
}

impl Default for EvaluatedCheck {
    ghost use Rattle.rmm_model.specs.declared.condition.Condition.TheVariants.{Version};
    ghost use Rattle.rmm_checks.specs.declared.evaluated.CheckOutcome.TheVariants.{NotMade};

    ghost is_default = { λ check. check ≡ record { condition = Version; outcome = NotMade } };

    fn default() -> EvaluatedCheck {
        EvaluatedCheck {
            condition: Condition::Version,
            outcome: CheckOutcome::NotMade,
        }
    }
}

/// The checks of an RMI call, each with its outcome, in the sequence of the command's definition.
#[derive(Drop)]
pub struct EvaluatedChecks {
    rows: ArrayVec<EvaluatedCheck, 18>,
}

impl Model for EvaluatedChecks {
    ghost use Rattle.std.specs.Prelude.{List};
    ghost use Rattle.rmm_checks.specs.declared.evaluated.EvaluatedCheck.{EvaluatedCheck};

    ghost Value = { List EvaluatedCheck };

    ghost view = { λ checks. checks.rows.items };
}

impl CheckOutcome {
    /// Returns whether the check was made and passed.
    pub fn is_pass(&self) -> bool
        ensures { result ≡ is_pass self.now }
    {
        matches!(self, CheckOutcome::Passed)
    }
}

// The number of a condition, by which conditions are compared.
fn number(condition: Condition) -> u8
    ensures { result ≡ condition_number condition }
{
    condition as u8 + 1
}

// Whether a check of a condition was made and passed.
#[tactic(auto, unfolding(crate::specs::Evaluated::is_passed))]
fn is_passed(rows: &[EvaluatedCheck], condition: Condition) -> bool
    ensures { result ≡ is_passed rows.now condition }
{
    rows.iter().any(|row| number(row.condition) == number(condition) && row.outcome.is_pass())
}

// Whether a check of each condition in `after` was made and passed.
#[tactic(auto, unfolding(crate::specs::Evaluated::is_made))]
fn is_made(rows: &[EvaluatedCheck], after: &[Condition]) -> bool
    ensures { result ≡ is_made rows.now after.now }
{
    after.iter().all(|condition| is_passed(rows, *condition))
}

impl EvaluatedChecks {
    /// Creates an empty list of checks.
    pub fn new() -> EvaluatedChecks
        ensures { result ≡ [] }
    {
        EvaluatedChecks {
            rows: ArrayVec::new(),
        }
    }

    /// Returns the checks as a slice, in the sequence in which they were added.
    pub fn rows(&self) -> &[EvaluatedCheck]
        ensures { result.now ≡ self.now }
    {
        self.rows.as_slice()
    }

    // Adds a check, with the answer of the command if this check decides. The check is made if a check of each
    // condition in `after` was made and passed.
    #[tactic(auto, unfolding(crate::specs::Evaluated::evaluated_after))]
    pub(crate) fn add(
        &mut self,
        condition: Condition,
        after: &[Condition],
        fails: bool,
        answer: SmcResult,
    )
        requires room { length self.old < 18 }
        ensures rows { Adds self.old (check condition after.now fails answer ∷ []) self.new }
        ensures length { length self.new ≡ length self.old + 1 }
    {
        let outcome = if !is_made(self.rows.as_slice(), after) {
            CheckOutcome::NotMade
        } else if fails {
            CheckOutcome::Failed(answer)
        } else {
            CheckOutcome::Passed
        };
        self.rows.push(EvaluatedCheck { condition, outcome });
    }

    // Adds a check that answers RMI_ERROR_INPUT if it fails.
    pub(crate) fn input(&mut self, condition: Condition, after: &[Condition], fails: bool)
        requires room { length self.old < 18 }
        ensures rows { Adds self.old (check condition after.now fails error_input ∷ []) self.new }
        ensures length { length self.new ≡ length self.old + 1 }
    {
        self.add(condition, after, fails, SmcResult::only(Word::ErrorInput));
    }

    // Adds a check that answers RMI_ERROR_REALM if it fails.
    pub(crate) fn realm(&mut self, condition: Condition, after: &[Condition], fails: bool)
        requires room { length self.old < 18 }
        ensures rows { Adds self.old (check condition after.now fails error_realm ∷ []) self.new }
        ensures length { length self.new ≡ length self.old + 1 }
    {
        self.add(
            condition,
            after,
            fails,
            SmcResult::only(Word::ErrorRealm(0)),
        );
    }

    // Adds a check that answers RMI_ERROR_REC if it fails.
    pub(crate) fn rec(&mut self, condition: Condition, after: &[Condition], fails: bool)
        requires room { length self.old < 18 }
        ensures rows { Adds self.old (check condition after.now fails error_rec ∷ []) self.new }
        ensures length { length self.new ≡ length self.old + 1 }
    {
        self.add(condition, after, fails, SmcResult::only(Word::ErrorRec));
    }

    // Adds a check that answers RMI_ERROR_RTT with the level of a table if it fails.
    pub(crate) fn rtt(&mut self, condition: Condition, after: &[Condition], fails: bool, level: u8)
        requires room { length self.old < 18 }
        ensures rows { Adds self.old (check condition after.now fails (error_rtt level) ∷ []) self.new }
        ensures length { length self.new ≡ length self.old + 1 }
    {
        self.add(
            condition,
            after,
            fails,
            SmcResult::only(Word::ErrorRtt(level)),
        );
    }
}
