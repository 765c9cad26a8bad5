//! The checks of RMI_PSCI_COMPLETE.
ghost use Rattle.std.specs.Prelude.{◌≡◌, ◌==◌, ◌+◌, ◌≤◌, length};
ghost use Rattle.rmm_model.specs.Machine.{number_of};
ghost use Rattle.rmm_model.specs.Command.Operand.{rec_at};
ghost use Rattle.rmm_model.specs.Command.PsciComplete as command;
ghost use Rattle.rmm_checks.specs.Evaluated.{Adds, evaluated};

use crate::EvaluatedChecks;
use crate::operand::owner_at;
use crate::rec::{add_rec, rec_at};
use page_arena::PageStore;
use rmm_granules::{Granules, OperandConditions, is_pending, is_same_owner, is_status, target_of};
use rmm_model::Condition;

// Whether two numbers are equal.
fn is_same(a: u64, b: u64) -> bool
    ensures { result ≡ (a == b) }
{
    a == b
}

// Adds the checks that a PSCI request can be completed. The request is pending, both RECs belong to one realm, the
// second is the target, and the status is one that the host may give.
#[tactic(auto, unfolding(rmm_model::specs::Command::PsciComplete::request_checks))]
fn add_request<S: PageStore>(
    checks: &mut EvaluatedChecks,
    granules: &Granules<S>,
    calling: u64,
    target: u64,
    status: u64,
)
    requires room { length checks.old + 4 ≤ 18 }
    ensures rows { Adds checks.old
        (command.request_checks granules.now (number_of granules.now calling) (rec_at granules.now calling)
        (number_of granules.now target) (rec_at granules.now target) status)
        checks.new }
    ensures length { length checks.new ≡ length checks.old + 4 }
{
    let caller = rec_at(granules, calling);
    let named = rec_at(granules, target);
    let first = owner_at(granules, calling);
    let second = owner_at(granules, target);
    checks.input(
        Condition::Pending,
        &[Condition::CallingState],
        !is_pending(caller.psci),
    );
    checks.input(
        Condition::Owner,
        &[Condition::CallingState, Condition::TargetState],
        !is_same_owner(first, second),
    );
    checks.input(
        Condition::Target,
        &[Condition::Pending, Condition::TargetState],
        !is_same(target_of(caller.psci), named.mpidr),
    );
    checks.input(
        Condition::Status,
        &[Condition::Pending],
        !is_status(caller.psci, status),
    );
}

// The checks of RMI_PSCI_COMPLETE.
pub fn psci_complete<S: PageStore>(
    granules: &Granules<S>,
    calling: u64,
    target: u64,
    status: u64,
) -> EvaluatedChecks
    ensures { result ≡ evaluated (command.psci_complete calling target status granules.now).checks }
{
    let mut checks = EvaluatedChecks::new();
    checks.input(Condition::Alias, &[], is_same(calling, target));
    add_rec(&mut checks, granules, OperandConditions::CALLING, calling);
    add_rec(&mut checks, granules, OperandConditions::TARGET, target);
    add_request(&mut checks, granules, calling, target, status);
    checks
}
