//! The checks of RMI_GRANULE_DELEGATE and RMI_GRANULE_UNDELEGATE.
ghost use Rattle.std.specs.Prelude.{◌≡◌};
ghost use Rattle.rmm_model.specs.Command.GranuleDelegate.{granule_delegate as delegating};
ghost use Rattle.rmm_model.specs.Command.GranuleUndelegate.{granule_undelegate as undelegating};
ghost use Rattle.rmm_checks.specs.Evaluated.{evaluated};

use crate::EvaluatedChecks;
use crate::operand::{add_address, add_delegated, state_at};
use page_arena::PageStore;
use rmm_granules::{Granules, OperandConditions};
use rmm_model::Condition;

// The checks of RMI_GRANULE_DELEGATE.
pub fn granule_delegate<S: PageStore>(granules: &Granules<S>, address: u64) -> EvaluatedChecks
    ensures { result ≡ evaluated (delegating address granules.now).checks }
{
    let mut checks = EvaluatedChecks::new();
    add_address(
        &mut checks,
        granules,
        Condition::GranAlign,
        Condition::GranBound,
        address,
    );
    let state = state_at(granules, address);
    checks.input(
        Condition::GranState,
        &[Condition::GranBound],
        !state.is_undelegated(),
    );
    checks.input(
        Condition::GranGpt,
        &[Condition::GranBound],
        granules.is_secure(address),
    );
    checks
}

// The checks of RMI_GRANULE_UNDELEGATE.
pub fn granule_undelegate<S: PageStore>(granules: &Granules<S>, address: u64) -> EvaluatedChecks
    ensures { result ≡ evaluated (undelegating address granules.now).checks }
{
    let mut checks = EvaluatedChecks::new();
    add_delegated(&mut checks, granules, OperandConditions::GRANULE, address);
    checks
}
