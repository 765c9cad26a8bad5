//! The types for the checks that a step of a plan must pass, and functions that create and append checks.
ghost use Rattle.std.specs.Prelude.{◌≡◌, ◌∷◌, ◌++◌, [], OnOk};
ghost use Rattle.std.specs.List.{cons_option};
ghost use Rattle.explain.specs.RmiChecks.{rmi_check};

use crate::host_facts::{BuildFact, RoomFact, UndoFact};
use crate::rmi_facts::{InputFact, RealmFact, RecFact, WalkFact};
use realm_host::{Refusal, Rmi};
use std::alloc::AllocError;

/// A fact that a check of a step requires, with the values that the check reads.
#[derive(Clone, Copy)]
pub enum Fact {
    Build(BuildFact),
    Room(RoomFact),
    Undo(UndoFact),
    Input(InputFact),
    Realm(RealmFact),
    Rec(RecFact),
    Walk(WalkFact),
}

/// A check that a step of a plan must pass, with the required fact, whether the check fails, and the refusal that a
/// failure gives.
#[derive(Clone, Copy)]
pub struct Check {
    pub fact: Fact,
    pub fails: bool,
    pub refusal: Refusal,
}

/// Creates a check whose failure gives the RMI result `rmi`.
pub(crate) fn rmi_check(fact: Fact, fails: bool, rmi: Rmi) -> Check
    ensures { result ≡ rmi_check fact fails rmi }
{
    Check {
        fact,
        fails,
        refusal: Refusal::Rmi(rmi),
    }
}

/// Appends checks to a list of checks.
pub(crate) fn add_all(checks: &mut Vec<Check>, more: &[Check]) -> Result<(), AllocError>
    ensures { OnOk result (checks.new.items ≡ checks.old.items ++ more.now) }
{
    checks.extend_from_slice(more)
}

/// Appends a check to a list of checks.
pub(crate) fn add(checks: &mut Vec<Check>, check: Check) -> Result<(), AllocError>
    ensures { OnOk result (checks.new.items ≡ checks.old.items ++ check ∷ []) }
{
    add_all(checks, &[check])
}

/// Appends a check to a list, unless the check is `None`.
pub(crate) fn add_some(checks: &mut Vec<Check>, check: Option<Check>) -> Result<(), AllocError>
    ensures { OnOk result (checks.new.items ≡ checks.old.items ++ cons_option check []) }
{
    match check {
        Some(check) => add(checks, check),
        None => Ok(()),
    }
}
