//! Functions that read a realm's state and its starting tables.
ghost use Rattle.std.specs.Prelude.{◌≡◌, ◌+◌, ◌<◌};
ghost use Rattle.rmm_model.specs.Machine.{granule_count};
ghost use Rattle.rmm_model.specs.Realm.{IsServed};
ghost use Rattle.rmm_model.specs.Command.RealmDestroy as destroying;
ghost use Rattle.rmm_model.specs.Command.RecEnter as entering;

use crate::{Granules, granule_after};
use granule_addr::Gran;
use page_arena::PageStore;
use rmm_model::{RmmRealm, RmmRealmState, has_live};

/// Returns the state of a realm; NEW if there is no realm.
pub fn state_of(realm: Option<RmmRealm>) -> RmmRealmState
    ensures { result ≡ entering.state_of realm }
{
    match realm {
        Some(realm) => realm.state,
        None => RmmRealmState::New,
    }
}

/// Returns the granule of a realm's starting table `k`.
pub fn start_table<S: PageStore>(granules: &Granules<S>, realm: &RmmRealm, k: u8) -> Gran
    requires served { IsServed (granule_count granules.now) realm.now }
    requires below { k < realm.now.table_count }
    ensures value { result ≡ realm.now.first_table + k }
    ensures inside { result < granule_count granules.now }
{
    granule_after(realm.first_table, k as u16)
}

// Whether a starting table of a realm has a live entry.
fn has_live_table<S: PageStore>(granules: &Granules<S>, realm: &RmmRealm) -> bool
    requires { IsServed (granule_count granules.now) realm.now }
    ensures { result ≡ destroying.has_live_table granules.now realm.now.first_table realm.now.table_count }
{
    for k in 0..realm.table_count {
        if has_live(granules.page(start_table(granules, realm, k))) {
            return true;
        }
    }
    false
}

/// Returns whether a realm has a REC, or a live entry in a starting table.
#[tactic(auto, unfolding(rmm_model::specs::Command::RealmDestroy::is_realm_live))]
pub fn is_realm_live<S: PageStore>(granules: &Granules<S>, realm: &RmmRealm) -> bool
    requires { IsServed (granule_count granules.now) realm.now }
    ensures { result ≡ destroying.is_realm_live granules.now realm.now }
{
    realm.rec_count > 0 || has_live_table(granules, realm)
}
