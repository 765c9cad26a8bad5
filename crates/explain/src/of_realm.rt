//! Checks on the creation and the state of a realm. RMM 1.0, RMI_REALM_CREATE, Realm attributes.
ghost use Rattle.std.specs.Prelude.{◌≡◌, ◌++◌, ◌∷◌, ◌≤◌, OnOk, length};
ghost use Rattle.explain.specs.OfRealm.{state_of_realm, state_check, realm_new, realm_active, follow, are_adjacent, begins_right, width_check, apart_check, start_checks, realm_create_checks};

use crate::check::{Check, Fact, add, add_all, rmi_check};
use crate::of_input::{add_delegated, input_check};
use crate::rmi_facts::RealmFact;
use granule_addr::{BuildId, Gran, IpaWidth};
use page_arena::PageStore;
use realm_host::{Host, RealmState, Rmi};
use realm_model::RealmState::{Active, New};
use std::alloc::AllocError;

// The state of a build's realm, if the build has one.
fn state_of_realm<S: PageStore>(host: &Host<S>, build: BuildId) -> Option<RealmState>
    ensures { result ≡ state_of_realm host.now build }
{
    match host.realm_view(build) {
        Some((state, _vmid)) => Some(state),
        None => None,
    }
}

// A check of the found state of a realm against the required state.
fn state_check(found: Option<RealmState>, required: RealmState, fails: bool) -> Check
    ensures { result ≡ state_check found required fails }
{
    let fact = Fact::Realm(RealmFact::State { required, found });
    rmi_check(fact, fails, Rmi::REALM)
}

/// Creates the check that the realm of a build is NEW.
pub(crate) fn realm_new<S: PageStore>(host: &Host<S>, build: BuildId) -> Check
    ensures { result ≡ realm_new host.now build }
{
    let found = state_of_realm(host, build);
    state_check(found, New, !matches!(found, Some(New)))
}

/// Creates the check that the realm of a build is ACTIVE.
pub(crate) fn realm_active<S: PageStore>(host: &Host<S>, build: BuildId) -> Check
    ensures { result ≡ realm_active host.now build }
{
    let found = state_of_realm(host, build);
    state_check(found, Active, !matches!(found, Some(Active)))
}

// Whether the granules have successive numbers from `first` on.
fn follow(first: u16, granules: &[Gran]) -> bool
    requires { first ≤ 4096 }
    ensures { result ≡ follow first granules.now }
{
    let mut next = first;
    let mut rest = granules;
    'granules: while let Some((granule, others)) = rest.split_first() {
        if granule.number() != next {
            return false;
        }
        next += 1;
        rest = others;
    }
    true
}

// Whether the granules have successive numbers.
fn are_adjacent(tables: &[Gran]) -> bool
    ensures { result ≡ are_adjacent tables.now }
{
    match tables.split_first() {
        Some((first, rest)) => follow(first.number() + 1, rest),
        None => true,
    }
}

// Whether the number of the first granule is a multiple of the count of granules.
fn begins_right(tables: &[Gran]) -> bool
    ensures { result ≡ begins_right tables.now }
{
    match tables.first() {
        Some(first) => first.number() as usize % tables.len() == 0,
        None => true,
    }
}

// The check that `width` is an IPA width that a realm may have.
fn width_check(width: u8) -> Check
    ensures { result ≡ width_check width }
{
    input_check(
        Fact::Realm(RealmFact::Width(width)),
        IpaWidth::new(width).is_none(),
    )
}

// The check that the RD is not one of the starting tables.
fn apart_check(rd: Gran, tables: &[Gran]) -> Check
    ensures { result ≡ apart_check rd tables.now }
{
    input_check(Fact::Realm(RealmFact::Apart), tables.contains(&rd))
}

// Adds the checks of the starting tables, except the checks of their states.
fn add_tables(rd: Gran, tables: &[Gran], checks: &mut Vec<Check>) -> Result<(), AllocError>
    ensures { OnOk result (checks.new.items ≡ checks.old.items ++ start_checks rd tables.now) }
{
    add_all(
        checks,
        &[
            input_check(Fact::Realm(RealmFact::Adjacent), !are_adjacent(tables)),
            input_check(
                Fact::Realm(RealmFact::Multiple(tables.len())),
                !begins_right(tables),
            ),
            apart_check(rd, tables),
        ],
    )
}

/// Appends the checks of RMI_REALM_CREATE to a list. The pages and the granules are those of the RD and the starting
/// tables.
#[tactic(auto, unfolding(crate::specs::OfRealm::realm_create_checks))]
pub(crate) fn add_realm_create<S: PageStore>(
    host: &Host<S>,
    build: BuildId,
    width: u8,
    pages: &[u16],
    granules: &[Gran],
    checks: &mut Vec<Check>,
) -> Result<(), AllocError>
    ensures { OnOk result (checks.new.items ≡ checks.old.items ++ realm_create_checks host.now build width pages.now granules.now) }
{
    let Some((rd, tables)) = granules.split_first() else {
        return Ok(());
    };
    add(checks, width_check(width))?;
    add_tables(*rd, tables, checks)?;
    add_delegated(host, build, pages, checks)
}
