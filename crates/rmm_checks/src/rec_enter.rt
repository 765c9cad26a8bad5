//! The checks of RMI_REC_ENTER.
ghost use Rattle.std.specs.Prelude.{◌≡◌, ◌+◌, ◌≤◌, true, length};
ghost use Rattle.rmi_abi.specs.RecRun.{flags_in};
ghost use Rattle.rmm_model.specs.Realm as realms;
ghost use Rattle.rmm_model.specs.Machine.{is_inside, number_of, page_in};
ghost use Rattle.rmm_model.specs.Command.RecEnter as command;
ghost use Rattle.rmm_checks.specs.Evaluated.{Adds, evaluated};
ghost use Rattle.rmm_checks.specs.Ready.{ready_checks};

use crate::EvaluatedChecks;
use crate::operand::{add_host, owner_at};
use crate::rec::{add_rec, rec_at};
use page_arena::PageStore;
use rmi_abi::{EnterFlags, SmcResult, Word};
use rmm_granules::{
    Granules, OperandConditions, is_no_mmio, is_pending, realm_in, refuses_gic, state_of,
};
use rmm_model::{Condition, RmmRealm, RmmRealmState, RmmRec};

// ---- the realm of a REC

// The realm that owns the granule at an address.
fn owner_realm<S: PageStore>(granules: &Granules<S>, address: u64) -> Option<RmmRealm>
    ensures { result ≡ command.owner_realm granules.now (number_of granules.now address) }
{
    match owner_at(granules, address) {
        Some(rd) => realm_in(granules, rd),
        None => None,
    }
}

// ---- the run page

// The flags in the run page at an address.
fn flags_at<S: PageStore>(granules: &Granules<S>, address: u64) -> u64
    ensures { is_inside granules.now address ≡ true
        → result ≡ flags_in (page_in granules.now (number_of granules.now address)) }
{
    if granules.is_inside(address) {
        EnterFlags::read(granules.page(granules.number_of(address)))
    } else {
        0
    }
}

// Whether the RMM's settings refuse the GIC fields in the run page at an address.
fn is_gic_wrong<S: PageStore>(granules: &Granules<S>, address: u64) -> bool
    ensures { is_inside granules.now address ≡ true
        → result
        ≡ command.is_gic_wrong granules.now.settings (page_in granules.now (number_of granules.now address)) }
{
    if granules.is_inside(address) {
        refuses_gic(
            granules.settings(),
            granules.page(granules.number_of(address)),
        )
    } else {
        false
    }
}

// ---- checks

// Whether a realm is NEW.
fn is_new(state: RmmRealmState) -> bool
    ensures { result ≡ realms.is_new state }
{
    matches!(state, RmmRealmState::New)
}

// Whether a realm is SYSTEM_OFF.
fn is_system_off(state: RmmRealmState) -> bool
    ensures { result ≡ command.is_system_off state }
{
    matches!(state, RmmRealmState::SystemOff)
}

// Adds the checks that a realm is ACTIVE, and that a REC is READY and runnable.
fn add_ready(checks: &mut EvaluatedChecks, state: RmmRealmState, rec: &RmmRec)
    requires room { length checks.old + 4 ≤ 18 }
    ensures rows { Adds checks.old (ready_checks state rec.now) checks.new }
    ensures length { length checks.new ≡ length checks.old + 4 }
{
    checks.realm(
        Condition::RealmNew,
        &[Condition::RecGranState],
        is_new(state),
    );
    let off = SmcResult::only(Word::ErrorRealm(1));
    checks.add(
        Condition::SystemOff,
        &[Condition::RecGranState],
        is_system_off(state),
        off,
    );
    checks.rec(
        Condition::RecState,
        &[Condition::RecGranState],
        rec.is_running(),
    );
    checks.rec(
        Condition::RecRunnable,
        &[Condition::RecState],
        !rec.is_runnable,
    );
}

// The checks of RMI_REC_ENTER.
pub fn rec_enter<S: PageStore>(granules: &Granules<S>, rec: u64, address: u64) -> EvaluatedChecks
    ensures { result ≡ evaluated (command.rec_enter rec address granules.now).checks }
{
    let mut checks = EvaluatedChecks::new();
    add_host(&mut checks, granules, OperandConditions::RUN, address);
    add_rec(&mut checks, granules, OperandConditions::REC, rec);
    let found = rec_at(granules, rec);
    let owner = owner_realm(granules, rec);
    let state = state_of(owner);
    add_ready(&mut checks, state, &found);
    let flags = flags_at(granules, address);
    let no_mmio = is_no_mmio(&found, flags);
    checks.rec(
        Condition::RecMmio,
        &[Condition::RecState, Condition::RunPas],
        no_mmio,
    );
    let is_wrong = is_gic_wrong(granules, address);
    checks.rec(
        Condition::RecGicv3,
        &[Condition::RecState, Condition::RunPas],
        is_wrong,
    );
    let pending = is_pending(found.psci);
    checks.rec(Condition::RecPsci, &[Condition::RecState], pending);
    checks
}
