//! The command RMI_REC_DESTROY.
ghost use Rattle.std.specs.Prelude.{◌≡◌, ◌<◌, IfOk};
ghost use Rattle.rmm_model.specs.Check.{outcome, first_failing, refusal_in};
ghost use Rattle.rmm_model.specs.Machine.{granule_count, number_of};
ghost use Rattle.rmm_model.specs.Command.RecDestroy as command;

use crate::auxiliary::set_aux;
use crate::granule::blank;
use crate::rec::{error_rec, rec_of};
use granule_addr::Gran;
use page_arena::PageStore;
use rmi_abi::{SmcResult, Word};
use rmm_granules::{Granules, OperandConditions, RealmEdit};
use rmm_model::{Condition, FailedCondition, RmmGranule, RmmGranuleState};

// Subtracts one from the REC count of the realm that owns a REC.
fn leave_realm<S: PageStore>(granules: &mut Granules<S>, owner: Option<Gran>)
    ensures machine { granules.new ≡ command.without_rec granules.old owner }
    ensures count { granule_count granules.new ≡ granule_count granules.old }
{
    if let Some(rd) = owner {
        granules.edit_realm(rd, RealmEdit::RemoveRec);
    }
}

// Returns the granule of the REC that RMI_REC_DESTROY destroys, or the failed condition.
#[inline(always)]
#[tactic(auto, unfolding(rmm_model::specs::Command::RecDestroy::rec_destroy))]
fn find_ready<S: PageStore>(granules: &Granules<S>, rec: u64) -> Result<Gran, FailedCondition>
    ensures refusal { refusal_in result ≡ first_failing (command.rec_destroy rec granules.now).checks }
    ensures number { IfOk result (λ granule. granule ≡ number_of granules.now rec) }
    ensures inside { IfOk result (λ granule. granule < granule_count granules.now) }
{
    let found = rec_of(granules, rec, OperandConditions::REC)?;
    if found.rec.is_running() {
        Err(error_rec(Condition::RecState))
    } else {
        Ok(found.granule)
    }
}

// Performs RMI_REC_DESTROY.
#[inline(never)]
#[tactic(auto, unfolding(rmm_model::specs::Command::RecDestroy::rec_destroy))]
pub fn rec_destroy<S: PageStore>(granules: &mut Granules<S>, rec: u64) -> SmcResult
    ensures answer { result ≡ (outcome (command.rec_destroy rec granules.old) granules.old).0 }
    ensures machine { granules.new ≡ (outcome (command.rec_destroy rec granules.old) granules.old).1 }
{
    match find_ready(granules, rec) {
        Ok(granule) => {
            let count = granules.settings().aux;
            let owner = granules.owner(granule);
            leave_realm(granules, owner);
            let free = RmmGranule {
                state: RmmGranuleState::Delegated,
                owner: None,
            };
            set_aux(granules, granule, &free, count);
            blank(granules, granule, RmmGranuleState::Delegated);
            SmcResult::only(Word::Success)
        }
        Err(refusal) => refusal.into_answer(),
    }
}
