//! Functions that check and change the states of granules. The checks are on granules that are to become an RD, a
//! table, a page or a REC, or that are to be copied. Two other functions give a realm's tables, and extend its
//! measurement.
ghost use Rattle.std.specs.Prelude.{◌≡◌, ◌<◌, ◌&&◌, ◌∷◌, All, IsTrue, length, Some, None, option_map, slice_set};
ghost use Rattle.std.specs.List.{list_all};
ghost use Rattle.granule_addr.specs.Page.{zero_page};
ghost use Rattle.realm_model.specs.Command.Check.{is_apart_from, are_distinct};
ghost use Rattle.realm_model.specs.StepLaw.{set_each};
ghost use Rattle.realm_model.specs.declared.states.GranuleState.TheVariants.{Delegated};
ghost use Rattle.rmi_monitor.specs.Places.{measured_by, is_delegated_at, is_undelegated_at, are_fit_for_rec, IsInState, HasPage};

use crate::RealmDesc;
use granule_addr::Gran;
use page_arena::PageStore;
use realm_model::GranuleState;
use rtt::{GranuleTable, Tables};

// The tables of the realm with RD `rd`.
pub(crate) fn tables_of(rd: Gran, realm: &RealmDesc) -> Tables
    ensures { result ≡ record { rd = rd; root = realm.now.root } }
{
    Tables {
        rd,
        root: realm.root(),
    }
}

// Extends the measurement of a realm; changes nothing if there is no realm.
pub(crate) fn measure(place: &mut Option<RealmDesc>, event: &[u8])
    ensures { place.new ≡ option_map (measured_by event.now) place.old }
{
    if let Some(realm) = place {
        realm.measure(event);
    }
}

// Whether a granule is DELEGATED.
pub(crate) fn is_delegated(granules: &GranuleTable, granule: Gran) -> bool
    requires { granule < length granules.now }
    ensures { result ≡ is_delegated_at granules.now granule }
{
    matches!(granules.state(granule), GranuleState::Delegated)
}

// Whether a granule is UNDELEGATED.
fn is_undelegated(granules: &GranuleTable, granule: Gran) -> bool
    requires { granule < length granules.now }
    ensures { result ≡ is_undelegated_at granules.now granule }
{
    matches!(granules.state(granule), GranuleState::Undelegated)
}

// Whether the bytes of `source` can be copied into `page`: `source` is UNDELEGATED, and `page` is DELEGATED.
pub(crate) fn can_be_copied(granules: &GranuleTable, source: Gran, page: Gran) -> bool
    requires source { source < length granules.now }
    requires page { page < length granules.now }
    ensures { result ≡ (is_delegated_at granules.now page && is_undelegated_at granules.now source) }
{
    is_delegated(granules, page) && is_undelegated(granules, source)
}

// Whether all the given granules are DELEGATED.
pub(crate) fn are_delegated(granules: &GranuleTable, all: &[Gran]) -> bool
    requires { All (λ granule. granule < length granules.now) all.now }
    ensures { result ≡ list_all (is_delegated_at granules.now) all.now }
{
    for granule in all {
        if !is_delegated(granules, *granule) {
            return false;
        }
    }
    true
}

// Whether `granule` is not one of `others`.
pub(crate) fn is_apart(granule: Gran, others: &[Gran]) -> bool
    ensures { result ≡ is_apart_from granule others.now }
{
    for other in others {
        if granule == *other {
            return false;
        }
    }
    true
}

// Whether `first` and the granules of `others` are all distinct.
pub(crate) fn are_different(first: Gran, others: &[Gran]) -> bool
    ensures { result ≡ are_distinct (first ∷ others.now) }
{
    for i in 0..others.len() {
        if !is_apart(others[i], &others[i + 1..]) {
            return false;
        }
    }
    is_apart(first, others)
}

// Whether `first` and `others` are DELEGATED and all distinct, and `others` has `count` granules.
pub(crate) fn can_be_rec(granules: &GranuleTable, first: Gran, others: &[Gran], count: u8) -> bool
    requires first { first < length granules.now }
    requires others { All (λ granule. granule < length granules.now) others.now }
    ensures { result ≡ are_fit_for_rec granules.now first others.now count }
{
    others.len() == count as usize
        && is_delegated(granules, first)
        && are_delegated(granules, others)
        && are_different(first, others)
}

// Moves distinct granules from the state `from` to the state `to`, and makes them granules of the realm with RD `rd`.
pub(crate) fn shift_all(
    granules: &mut GranuleTable,
    all: &[Gran],
    from: GranuleState,
    to: GranuleState,
    rd: Gran,
)
    requires stand { All (IsInState granules.old from) all.now }
    requires distinct { IsTrue (are_distinct all.now) }
    ensures { granules.new ≡ set_each (record { state = to; realm = Some rd }) all.now granules.old }
{
    for granule in all {
        granules.shift(*granule, from, to, Some(rd));
    }
}

// Clears a granule's page, and makes the granule DELEGATED and a granule of no realm.
pub(crate) fn release<S: PageStore>(
    store: &mut S,
    granules: &mut GranuleTable,
    granule: Gran,
    from: GranuleState,
)
    requires page { HasPage (S.page_bytes store.old) (S.free_flags store.old) granule }
    requires stands { IsInState granules.old from granule }
    ensures cleared { S.page_bytes store.new ≡ slice_set (S.page_bytes store.old) granule zero_page }
    ensures flags { S.free_flags store.new ≡ S.free_flags store.old }
    ensures shifted { granules.new
        ≡ slice_set granules.old granule (record { state = Delegated; realm = None }) }
{
    store.fill(granule, 0);
    granules.shift(granule, from, GranuleState::Delegated, None);
}

// Clears the pages of distinct granules, and makes the granules DELEGATED and granules of no realm.
pub(crate) fn release_all<S: PageStore>(
    store: &mut S,
    granules: &mut GranuleTable,
    all: &[Gran],
    from: GranuleState,
)
    requires pages { All (HasPage (S.page_bytes store.old) (S.free_flags store.old)) all.now }
    requires stand { All (IsInState granules.old from) all.now }
    requires distinct { IsTrue (are_distinct all.now) }
    ensures cleared { S.page_bytes store.new ≡ set_each zero_page all.now (S.page_bytes store.old) }
    ensures flags { S.free_flags store.new ≡ S.free_flags store.old }
    ensures shifted { granules.new
        ≡ set_each (record { state = Delegated; realm = None }) all.now granules.old }
{
    for granule in all {
        release(store, granules, *granule, from);
    }
}
