//! Checks on the creation, the existence and the state of a REC. RMM 1.0, RMI_REC_CREATE, REC attributes.
ghost use Rattle.std.specs.Prelude.{◌≡◌, ◌++◌, ◌∷◌, ◌≤◌, OnOk, length};
ghost use Rattle.realm_model.specs.Command.Check.{are_distinct};
ghost use Rattle.explain.specs.OfRec.{state_of_rec, rec_check, rec_there, rec_ready, rec_is_running, rec_create_checks};

use crate::check::{Check, Fact, add_all, rmi_check};
use crate::of_input::{add_delegated, input_check};
use crate::of_realm::realm_new;
use crate::rmi_facts::RecFact;
use granule_addr::{BuildId, Gran, RecNo};
use page_arena::PageStore;
use realm_host::{Host, RecState, Rmi};
use realm_model::RecState::{Ready, Running};
use std::alloc::AllocError;

// Whether the granules of a list are distinct.
fn are_distinct(granules: &[Gran]) -> bool
    ensures { result ≡ are_distinct granules.now }
{
    let mut rest = granules;
    'granules: while let Some((granule, others)) = rest.split_first() {
        if others.contains(granule) {
            return false;
        }
        rest = others;
    }
    true
}

/// Appends the checks of RMI_REC_CREATE to a list. The pages and the granules are those of the REC and its auxiliaries.
#[tactic(auto, unfolding(crate::specs::OfRec::rec_create_checks))]
pub(crate) fn add_rec_create<S: PageStore>(
    host: &Host<S>,
    build: BuildId,
    pages: &[u16],
    granules: &[Gran],
    checks: &mut Vec<Check>,
) -> Result<(), AllocError>
    ensures { OnOk result (checks.new.items ≡ checks.old.items ++ rec_create_checks host.now build pages.now granules.now) }
{
    let needed = host.rec_aux_count();
    let named = granules.len().saturating_sub(1);
    add_delegated(host, build, pages, checks)?;
    add_all(
        checks,
        &[
            input_check(Fact::Rec(RecFact::Distinct), !are_distinct(granules)),
            input_check(
                Fact::Rec(RecFact::Auxiliaries { named, needed }),
                named != needed as usize,
            ),
            realm_new(host, build),
        ],
    )
}

// The state of a REC of a build's realm, if the realm has that REC.
fn state_of_rec<S: PageStore>(host: &Host<S>, build: BuildId, number: RecNo) -> Option<RecState>
    ensures { result ≡ state_of_rec host.now build number }
{
    match host.rec(build, number) {
        Some((_granule, rec)) => Some(rec.state()),
        None => None,
    }
}

/// Creates the check that the realm of a build has REC `number`.
pub(crate) fn rec_there<S: PageStore>(host: &Host<S>, build: BuildId, number: RecNo) -> Check
    ensures { result ≡ rec_there host.now build number }
{
    let found = state_of_rec(host, build, number);
    input_check(Fact::Rec(RecFact::There(number)), found.is_none())
}

// A check of the found state of a REC against the required state.
fn rec_check(number: RecNo, found: Option<RecState>, required: RecState, fails: bool) -> Check
    ensures { result ≡ rec_check number found required fails }
{
    let fact = Fact::Rec(RecFact::State {
        number,
        required,
        found,
    });
    rmi_check(fact, fails, Rmi::REC)
}

/// Creates the check that REC `number` of a build's realm is READY.
pub(crate) fn rec_ready<S: PageStore>(host: &Host<S>, build: BuildId, number: RecNo) -> Check
    ensures { result ≡ rec_ready host.now build number }
{
    let found = state_of_rec(host, build, number);
    rec_check(number, found, Ready, !matches!(found, Some(Ready)))
}

/// Creates the check that REC `number` of a build's realm is RUNNING.
pub(crate) fn rec_is_running<S: PageStore>(host: &Host<S>, build: BuildId, number: RecNo) -> Check
    ensures { result ≡ rec_is_running host.now build number }
{
    let found = state_of_rec(host, build, number);
    rec_check(number, found, Running, !matches!(found, Some(Running)))
}
