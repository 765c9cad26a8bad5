//! Functions that walk a realm's translation tables for the checks of commands.
ghost use Rattle.std.specs.Prelude.{◌≡◌, ◌^◌, ◌<◌, true, is_some, IfSome};
ghost use Rattle.rmm_model.specs.Machine.{granule_count};
ghost use Rattle.rmm_model.specs.Walk as walks;
ghost use Rattle.rmm_model.specs.Command.Operand.{realm_at};
ghost use Rattle.rmm_checks.specs.CanWalk.{can_walk};

use crate::realm::realm_named;
use page_arena::PageStore;
use rmm_granules::{Granules, entry_at, top, walk};
use rmm_model::{RmmRttEntry, RttWalk};

// ---- walks of calls

// The level at which a walk ends, the entry there, and the top that the walk gives.
#[derive(Clone, Copy)]
pub struct Reached {
    pub level: u8,
    pub entry: RmmRttEntry,
    pub top: u64,
}

// The end of the walk towards a level for an IPA of an RD's realm, if the walk can be made.
fn find<S: PageStore>(granules: &Granules<S>, rd: u64, ipa: u64, to: u64) -> Option<RttWalk>
    ensures found { can_walk granules.now rd ipa to ≡ true
        → IfSome result (λ found. found ≡ walks.walk granules.now (realm_at granules.now rd) ipa to) }
    ensures some { can_walk granules.now rd ipa to ≡ true → is_some result ≡ true }
    ensures inside { IfSome result (λ found. found.table < granule_count granules.now) }
    ensures low { IfSome result (λ found. ipa < 2 ^ 48) }
{
    match realm_named(granules, rd) {
        Some(realm) => {
            if to > 3 || ipa >= 1 << realm.s2sz {
                return None;
            }
            Some(walk(granules, &realm, ipa, to as u8))
        }
        None => None,
    }
}

// The end of the walk towards a level for an IPA of an RD's realm, with the entry there.
pub fn reach<S: PageStore>(granules: &Granules<S>, rd: u64, ipa: u64, to: u64) -> Reached
    ensures level { can_walk granules.now rd ipa to ≡ true
        → result.level ≡ (walks.walk granules.now (realm_at granules.now rd) ipa to).level }
    ensures entry { can_walk granules.now rd ipa to ≡ true
        → result.entry ≡ walks.entry_at granules.now (walks.walk granules.now (realm_at granules.now rd) ipa to) ipa }
    ensures top { can_walk granules.now rd ipa to ≡ true
        → result.top ≡ walks.top granules.now (walks.walk granules.now (realm_at granules.now rd) ipa to) ipa }
{
    match find(granules, rd, ipa, to) {
        Some(found) => Reached {
            level: found.level,
            entry: entry_at(granules, &found, ipa),
            top: top(granules, &found, ipa),
        },
        None => Reached {
            level: 0,
            entry: RmmRttEntry::UnassignedNs,
            top: 0,
        },
    }
}
