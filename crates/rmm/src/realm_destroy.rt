//! The command RMI_REALM_DESTROY.
ghost use Rattle.std.specs.Prelude.{◌≡◌, ◌<◌, IfOk};
ghost use Rattle.rmm_model.specs.Check.{outcome, first_failing, refusal_in};
ghost use Rattle.rmm_model.specs.Machine.{granule_count, number_of};
ghost use Rattle.rmm_model.specs.Realm.{IsServed};
ghost use Rattle.rmm_model.specs.Command.Operand.{realm_at};
ghost use Rattle.rmm_model.specs.Command.RealmDestroy as command;

use crate::granule::blank;
use crate::operand::{Rd, realm_of};
use crate::realm::error_realm;
use page_arena::PageStore;
use rmi_abi::{SmcResult, Word};
use rmm_granules::{Granules, is_realm_live, start_table};
use rmm_model::{Condition, FailedCondition, RmmGranuleState, RmmRealm};

// Returns the realm that RMI_REALM_DESTROY destroys, or the failed condition.
#[tactic(auto, unfolding(rmm_model::specs::Command::RealmDestroy::realm_destroy))]
fn find_unused<S: PageStore>(granules: &Granules<S>, rd: u64) -> Result<Rd, FailedCondition>
    ensures refusal { refusal_in result ≡ first_failing (command.realm_destroy rd granules.now).checks }
    ensures number { IfOk result (λ found. found.granule ≡ number_of granules.now rd) }
    ensures inside { IfOk result (λ found. found.granule < granule_count granules.now) }
    ensures realm { IfOk result (λ found. found.realm ≡ realm_at granules.now rd) }
    ensures served { IfOk result (λ found. IsServed (granule_count granules.now) found.realm) }
{
    let found = realm_of(granules, rd)?;
    if is_realm_live(granules, &found.realm) {
        Err(error_realm(Condition::RealmLive))
    } else {
        Ok(found)
    }
}

// Turns the starting tables of a realm back into DELEGATED granules.
fn remove_tables<S: PageStore>(granules: &mut Granules<S>, realm: &RmmRealm)
    requires { IsServed (granule_count granules.old) realm.now }
    ensures tables { granules.new ≡ command.without_tables granules.old realm.now realm.now.table_count }
    ensures count { granule_count granules.new ≡ granule_count granules.old }
{
    for k in 0..realm.table_count {
        let table = start_table(granules, realm, k);
        blank(granules, table, RmmGranuleState::Delegated);
    }
}

// Performs RMI_REALM_DESTROY.
#[inline(never)]
#[tactic(auto, unfolding(rmm_model::specs::Command::RealmDestroy::realm_destroy))]
pub fn realm_destroy<S: PageStore>(granules: &mut Granules<S>, rd: u64) -> SmcResult
    ensures answer { result ≡ (outcome (command.realm_destroy rd granules.old) granules.old).0 }
    ensures machine { granules.new ≡ (outcome (command.realm_destroy rd granules.old) granules.old).1 }
{
    match find_unused(granules, rd) {
        Ok(found) => {
            remove_tables(granules, &found.realm);
            blank(granules, found.granule, RmmGranuleState::Delegated);
            granules.set_vmid(found.realm.vmid, false);
            SmcResult::only(Word::Success)
        }
        Err(refusal) => refusal.into_answer(),
    }
}
