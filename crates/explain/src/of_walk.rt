//! Checks on the end of a table walk: its level and its entry. The refusal is RMI_ERROR_RTT, unless stated otherwise.
//! RMM 1.0, RTT walk, RMI_ERROR_RTT.
ghost use Rattle.std.specs.Prelude.{◌≡◌, ◌+◌, ◌-◌, ◌≤◌};
ghost use Rattle.realm_host.specs.declared.reading.RowView.{RowView as Row};
ghost use Rattle.explain.specs.OfWalk.{rtt_check, level_of, state_of, granule_of_row, walk_ends, entry_unassigned};
ghost use Rattle.explain.specs.OfWalk.{entry_assigned, entry_no_table, entry_leads, is_free_entry, are_free, entries_free};

use crate::check::{Check, Fact};
use crate::of_input::input_check;
use crate::rmi_facts::WalkFact;
use granule_addr::{BuildId, Gran, Level};
use page_arena::PageStore;
use realm_host::{EntryState, Host, Refusal, Rmi, RowView};
use realm_model::Status;

// A check on translation tables, whose refusal is RMI_ERROR_RTT with the given level.
fn rtt_check(fact: WalkFact, fails: bool, level: u8) -> Check
    ensures { result ≡ rtt_check fact fails level }
{
    Check {
        fact: Fact::Walk(fact),
        fails,
        refusal: Refusal::Rmi(Rmi {
            status: Status::Rtt,
            index: level,
        }),
    }
}

// The level of the row at which a walk ends; 0 if there is no row.
fn level_of(row: Option<RowView>) -> u8
    ensures { result ≡ level_of row }
{
    match row {
        Some(row) => row.level.number(),
        None => 0,
    }
}

fn state_of(row: Option<RowView>) -> Option<EntryState>
    ensures { result ≡ state_of row }
{
    match row {
        Some(row) => Some(row.entry.state),
        None => None,
    }
}

fn granule_of_row(row: Option<RowView>) -> Option<Gran>
    ensures { result ≡ granule_of_row row }
{
    match row {
        Some(row) => row.entry.granule,
        None => None,
    }
}

/// Creates the check that the walk for an IPA granule towards a level ends at that level.
pub(crate) fn walk_ends<S: PageStore>(host: &Host<S>, build: BuildId, ipa: u32, to: Level) -> Check
    ensures { result ≡ walk_ends host.now build ipa to }
{
    let ended = level_of(host.row(build, ipa, to));
    let required = to.number();
    let fact = WalkFact::Walk {
        ipa,
        required,
        ended,
    };
    rtt_check(fact, ended != required, ended)
}

/// Creates the check that the last entry of the walk for an IPA granule towards level 3 is UNASSIGNED.
pub(crate) fn entry_unassigned<S: PageStore>(host: &Host<S>, build: BuildId, ipa: u32) -> Check
    ensures { result ≡ entry_unassigned host.now build ipa }
{
    let row = host.row(build, ipa, Level::last());
    let (level, found) = (level_of(row), state_of(row));
    let fact = WalkFact::Entry {
        level,
        required: EntryState::Unassigned,
        found,
    };
    rtt_check(fact, !matches!(found, Some(EntryState::Unassigned)), level)
}

/// Creates the check that the last entry of the walk for an IPA granule towards level 3 is ASSIGNED.
pub(crate) fn entry_assigned<S: PageStore>(host: &Host<S>, build: BuildId, ipa: u32) -> Check
    ensures { result ≡ entry_assigned host.now build ipa }
{
    let row = host.row(build, ipa, Level::last());
    let (level, found) = (level_of(row), state_of(row));
    let fact = WalkFact::Entry {
        level,
        required: EntryState::Assigned,
        found,
    };
    rtt_check(fact, !matches!(found, Some(EntryState::Assigned)), level)
}

/// Creates the check that the last entry of the walk for an IPA granule towards a level is not TABLE.
pub(crate) fn entry_no_table<S: PageStore>(
    host: &Host<S>,
    build: BuildId,
    ipa: u32,
    to: Level,
) -> Check
    ensures { result ≡ entry_no_table host.now build ipa to }
{
    let row = host.row(build, ipa, to);
    let (level, found) = (level_of(row), state_of(row));
    rtt_check(
        WalkFact::NoTable { level, found },
        matches!(found, Some(EntryState::Table)),
        level,
    )
}

/// Creates the check that the last entry of the walk for an IPA granule towards level 3 leads to a granule. The refusal
/// is RMI_ERROR_INPUT.
pub(crate) fn entry_leads<S: PageStore>(host: &Host<S>, build: BuildId, ipa: u32) -> Check
    ensures { result ≡ entry_leads host.now build ipa }
{
    let granule = granule_of_row(host.row(build, ipa, Level::last()));
    input_check(Fact::Walk(WalkFact::Leads(granule)), granule.is_none())
}

// Whether the walk of an IPA granule towards level 3 ends at an UNASSIGNED entry.
fn is_free_entry<S: PageStore>(host: &Host<S>, build: BuildId, ipa: u32) -> bool
    ensures { result ≡ is_free_entry host.now build ipa }
{
    let found = state_of(host.row(build, ipa, Level::last()));
    matches!(found, Some(EntryState::Unassigned))
}

// Whether, for each of the `count` IPA granules from `ipa` on, the walk towards level 3 ends at an UNASSIGNED entry.
fn are_free<S: PageStore>(host: &Host<S>, build: BuildId, ipa: u32, count: u16) -> bool
    requires { ipa + count ≤ 4294967296 }
    ensures { result ≡ are_free host.now build ipa count }
{
    for number in 0..count {
        if !is_free_entry(host, build, ipa + number as u32) {
            return false;
        }
    }
    true
}

/// Creates the check that, for each of the `count` IPA granules from `ipa` on, the walk towards level 3 ends at an
/// UNASSIGNED entry.
pub(crate) fn entries_free<S: PageStore>(
    host: &Host<S>,
    build: BuildId,
    ipa: u32,
    count: u16,
) -> Check
    ensures { result ≡ entries_free host.now build ipa count }
{
    let behind = ipa as u64 + count as u64;
    let free = behind <= 4_294_967_296 && are_free(host, build, ipa, count);
    rtt_check(WalkFact::Free { ipa, count }, !free, 3)
}
