//! The command RMI_REALM_ACTIVATE, with helper functions that check for a NEW realm, make the refusal RMI_ERROR_REALM,
//! and set a realm's RIM.
ghost use Rattle.std.specs.Prelude.{◌≡◌, ◌<◌, IfOk};
ghost use Rattle.rmm_model.specs.Check.{outcome, first_failing, refusal_in, error_realm};
ghost use Rattle.rmm_model.specs.Machine.{granule_count, number_of, with_realm};
ghost use Rattle.rmm_model.specs.Realm.{is_new, with_rim, IsServed};
ghost use Rattle.rmm_model.specs.Command.Operand.{realm_at, new_checks};
ghost use Rattle.rmm_model.specs.Command.RealmActivate.{realm_activate as activating};

use crate::operand::{Rd, realm_of};
use page_arena::PageStore;
use rmi_abi::{SmcResult, Word};
use rmm_granules::Granules;
use rmm_model::{Condition, FailedCondition, RmmGranule, RmmGranuleState, RmmRealm, RmmRealmState};

// Whether a realm is NEW.
pub fn is_new(realm: &RmmRealm) -> bool
    ensures { result ≡ is_new realm.now.state }
{
    matches!(realm.state, RmmRealmState::New)
}

// The refusal RMI_ERROR_REALM for a failed condition.
pub fn error_realm(condition: Condition) -> FailedCondition
    ensures { result ≡ record { condition = condition; answer = error_realm } }
{
    FailedCondition {
        condition,
        answer: SmcResult::only(Word::ErrorRealm(0)),
    }
}

// Checks that a realm is NEW.
pub fn check_new(realm: &RmmRealm) -> Result<(), FailedCondition>
    ensures { refusal_in result ≡ first_failing (new_checks realm.now) }
{
    if is_new(realm) {
        Ok(())
    } else {
        Err(error_realm(Condition::RealmState))
    }
}

// Writes the measurement of a realm.
pub fn set_rim<S: PageStore>(granules: &mut Granules<S>, owner: &Rd, rim: &[u8; 64])
    requires inside { owner.now.granule < granule_count granules.old }
    requires served { IsServed (granule_count granules.old) owner.now.realm }
    ensures { granules.new
        ≡ with_realm granules.old owner.now.granule (with_rim owner.now.realm rim.now) }
{
    let realm = RmmRealm {
        rim: *rim,
        ..owner.realm
    };
    let kept = RmmGranule {
        state: RmmGranuleState::Rd(realm),
        owner: None,
    };
    granules.set(owner.granule, kept);
}

// Returns the NEW realm that RMI_REALM_ACTIVATE activates, or the failed condition.
#[tactic(auto, unfolding(rmm_model::specs::Command::RealmActivate::realm_activate))]
fn find_new<S: PageStore>(granules: &Granules<S>, rd: u64) -> Result<Rd, FailedCondition>
    ensures refusal { refusal_in result ≡ first_failing (activating rd granules.now).checks }
    ensures number { IfOk result (λ found. found.granule ≡ number_of granules.now rd) }
    ensures inside { IfOk result (λ found. found.granule < granule_count granules.now) }
    ensures realm { IfOk result (λ found. found.realm ≡ realm_at granules.now rd) }
    ensures served { IfOk result (λ found. IsServed (granule_count granules.now) found.realm) }
{
    let found = realm_of(granules, rd)?;
    check_new(&found.realm)?;
    Ok(found)
}

// Performs RMI_REALM_ACTIVATE.
#[tactic(auto, unfolding(rmm_model::specs::Command::RealmActivate::realm_activate))]
pub fn realm_activate<S: PageStore>(granules: &mut Granules<S>, rd: u64) -> SmcResult
    ensures answer { result ≡ (outcome (activating rd granules.old) granules.old).0 }
    ensures machine { granules.new ≡ (outcome (activating rd granules.old) granules.old).1 }
{
    match find_new(granules, rd) {
        Ok(found) => {
            let realm = RmmRealm {
                state: RmmRealmState::Active,
                ..found.realm
            };
            let kept = RmmGranule {
                state: RmmGranuleState::Rd(realm),
                owner: None,
            };
            granules.set(found.granule, kept);
            SmcResult::only(Word::Success)
        }
        Err(refusal) => refusal.into_answer(),
    }
}
