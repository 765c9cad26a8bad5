//! The commands RMI_GRANULE_DELEGATE and RMI_GRANULE_UNDELEGATE.
ghost use Rattle.std.specs.Prelude.{◌≡◌, ◌<◌, None, IfOk};
ghost use Rattle.rmm_model.specs.Check.{outcome, first_failing, refusal_in};
ghost use Rattle.rmm_model.specs.Granule.{realm_of};
ghost use Rattle.rmm_model.specs.Machine.{granule_count, number_of, with_blank};
ghost use Rattle.rmm_model.specs.Command.GranuleDelegate.{granule_delegate as delegating};
ghost use Rattle.rmm_model.specs.Command.GranuleUndelegate.{granule_undelegate as undelegating};

use crate::operand::{delegated, named};
use granule_addr::Gran;
use page_arena::PageStore;
use rmi_abi::{SmcResult, Word};
use rmm_granules::{Granules, OperandConditions};
use rmm_model::{Condition, FailedCondition, RmmGranule, RmmGranuleState, error_input};

// Sets the state of a granule, removes its owner, and zeros its page.
pub fn blank<S: PageStore>(granules: &mut Granules<S>, granule: Gran, state: RmmGranuleState)
    requires inside { granule < granule_count granules.old }
    requires plain { realm_of state ≡ None }
    ensures { granules.new ≡ with_blank granules.old granule state }
{
    granules.fill(granule, 0);
    granules.set(granule, RmmGranule { state, owner: None });
}

// Returns the granule that RMI_GRANULE_DELEGATE delegates, or the failed condition.
#[tactic(auto, unfolding(rmm_model::specs::Command::GranuleDelegate::granule_delegate))]
fn find_undelegated<S: PageStore>(
    granules: &Granules<S>,
    address: u64,
) -> Result<Gran, FailedCondition>
    ensures refusal { refusal_in result
        ≡ first_failing (delegating address granules.now).checks }
    ensures number { IfOk result (λ granule. granule ≡ number_of granules.now address) }
    ensures inside { IfOk result (λ granule. granule < granule_count granules.now) }
{
    let granule = named(granules, address, OperandConditions::GRANULE)?;
    if !granules.is_undelegated(granule) {
        return Err(error_input(Condition::GranState));
    }
    if granules.is_secure(address) {
        return Err(error_input(Condition::GranGpt));
    }
    Ok(granule)
}

// Performs RMI_GRANULE_DELEGATE.
#[tactic(auto, unfolding(rmm_model::specs::Command::GranuleDelegate::granule_delegate))]
pub fn granule_delegate<S: PageStore>(granules: &mut Granules<S>, address: u64) -> SmcResult
    ensures answer { result ≡ (outcome (delegating address granules.old) granules.old).0 }
    ensures machine { granules.new ≡ (outcome (delegating address granules.old) granules.old).1 }
{
    match find_undelegated(granules, address) {
        Ok(granule) => {
            blank(granules, granule, RmmGranuleState::Delegated);
            SmcResult::only(Word::Success)
        }
        Err(refusal) => refusal.into_answer(),
    }
}

// Performs RMI_GRANULE_UNDELEGATE.
#[tactic(auto, unfolding(rmm_model::specs::Command::GranuleUndelegate::granule_undelegate))]
pub fn granule_undelegate<S: PageStore>(granules: &mut Granules<S>, address: u64) -> SmcResult
    ensures answer { result ≡ (outcome (undelegating address granules.old) granules.old).0 }
    ensures machine { granules.new ≡ (outcome (undelegating address granules.old) granules.old).1 }
{
    match delegated(granules, address, OperandConditions::GRANULE) {
        Ok(granule) => {
            blank(granules, granule, RmmGranuleState::Undelegated);
            SmcResult::only(Word::Success)
        }
        Err(refusal) => refusal.into_answer(),
    }
}
