//! Functions that walk a realm's translation tables, and read the entry where a walk ends. RMM 1.0, RTT walk.
ghost use Rattle.std.specs.Prelude.{◌≡◌, ◌^◌, ◌<◌, ◌≤◌, IfSome};
ghost use Rattle.rmm_model.specs.Entry.{descriptor_of};
ghost use Rattle.rmm_model.specs.Machine.{granule_count};
ghost use Rattle.rmm_model.specs.Realm.{IsServed};
ghost use Rattle.rmm_model.specs.Walk as walks;

use crate::{Granules, granule_named};
use granule_addr::Gran;
use page_arena::{PageStore, word_in};
use rmm_model::{
    RmmRealm, RmmRttEntry, RttWalk, entry_from_word, entry_index, entry_number, entry_size,
    first_live, start_table_index,
};

/// Returns the entry that covers an IPA, in the translation table at which a walk ended.
#[tactic(auto, unfolding(rmm_model::specs::Walk::entry_at, rmm_model::specs::Table::entry_in_page))]
pub fn entry_at<S: PageStore>(granules: &Granules<S>, found: &RttWalk, ipa: u64) -> RmmRttEntry
    requires { found.now.table < granule_count granules.now }
    ensures value { result ≡ walks.entry_at granules.now found.now ipa }
    ensures fits { descriptor_of result < 2 ^ 48 }
{
    let index = entry_index(found.level, ipa);
    entry_from_word(word_in(granules.page(found.table), index as usize))
}

/// Returns the granule of the table that an entry leads to, or `None` if the entry is not TABLE or its address is
/// outside the machine.
pub fn table_below<S: PageStore>(granules: &Granules<S>, entry: RmmRttEntry) -> Option<Gran>
    ensures value { result ≡ walks.table_below granules.now entry }
    ensures inside { IfSome result (λ table. table < granule_count granules.now) }
{
    match entry {
        RmmRttEntry::Table(address) => granule_named(granules, address),
        _ => None,
    }
}

/// Returns the granule at the address that an ASSIGNED entry holds, or `None` if the entry is not ASSIGNED or the
/// address is outside the machine.
pub fn memory_below<S: PageStore>(granules: &Granules<S>, entry: RmmRttEntry) -> Option<Gran>
    ensures value { result ≡ walks.memory_below granules.now entry }
    ensures inside { IfSome result (λ page. page < granule_count granules.now) }
{
    match entry {
        RmmRttEntry::Assigned(_, address) => granule_named(granules, address),
        _ => None,
    }
}

// The starting table that covers an address.
#[tactic(auto, unfolding(rmm_model::specs::Walk::start_of))]
fn start_of(realm: &RmmRealm, ipa: u64, count: u16) -> RttWalk
    requires served { IsServed count realm.now }
    requires few { count ≤ 4096 }
    requires in_space { ipa < 2 ^ realm.now.s2sz }
    ensures value { result ≡ walks.start_of realm.now ipa }
    ensures inside { result.table < count }
{
    let table = realm.first_table.number() as u64 + start_table_index(realm.start_level, ipa);
    RttWalk {
        table: Gran::from_number(table as u16),
        level: realm.start_level,
    }
}

/// Walks a realm's tables for an IPA, down to level `to`. Returns the table at which the walk ends, with the table's
/// level. RMM 1.0, RttWalk.
///
/// The walk ends at level `to`, or above it at an entry that leads to no table. If level `to` is above the starting
/// level, the walk ends at a starting table.
#[inline(always)]
pub fn walk<S: PageStore>(granules: &Granules<S>, realm: &RmmRealm, ipa: u64, to: u8) -> RttWalk
    requires served { IsServed (granule_count granules.now) realm.now }
    requires in_space { ipa < 2 ^ realm.now.s2sz }
    ensures value { result ≡ walks.walk granules.now realm.now ipa to }
    ensures inside { result.table < granule_count granules.now }
{
    let start = start_of(realm, ipa, granules.count());
    let mut table = start.table;
    let mut level = start.level;
    'levels: while level < to {
        match table_below(granules, entry_at(granules, &RttWalk { table, level }, ipa)) {
            Some(child) => {
                table = child;
                level += 1;
            }
            None => break,
        }
    }
    RttWalk { table, level }
}

/// Returns the IPA of the first live entry at or after `ipa`, in the table where a walk ended. RMM 1.0,
/// RttSkipNonLiveEntries.
///
/// The result is the end of the table if there is none. If the entry of the address is live itself, the result is the
/// address, or where that entry begins, as settings say.
#[tactic(auto, unfolding(rmm_model::specs::Walk::top, rmm_model::specs::Walk::top_at))]
pub fn top<S: PageStore>(granules: &Granules<S>, found: &RttWalk, ipa: u64) -> u64
    requires inside { found.now.table < granule_count granules.now }
    requires low { ipa < 2 ^ 48 }
    ensures { result ≡ walks.top granules.now found.now ipa }
{
    let index = entry_index(found.level, ipa);
    let live = first_live(granules.page(found.table), index);
    let number = entry_number(found.level, ipa);
    if live != index {
        return (number + (live - index) as u64) * entry_size(found.level);
    }
    if granules.settings().aligns_live_top {
        number * entry_size(found.level)
    } else {
        ipa
    }
}
