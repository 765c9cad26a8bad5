//! The command RMI_REC_CREATE.
ghost use Rattle.std.specs.Prelude.{◌≡◌, ◌≢◌, ◌^◌, ◌<◌, ◌≤◌, nat_lt, length, IfOk, OnOk};
ghost use Rattle.rmm_model.specs.Check.{outcome, first_failing, refusal_in};
ghost use Rattle.rmm_model.specs.Machine.{granule_count, page_in, with_page};
ghost use Rattle.rmm_model.specs.Command.RecCreate as command;
ghost use Rattle.rmm_model.specs.Command.RecMeasurement as measuring;
ghost use Rattle.rmm.specs.CheckedOperands.{IsNewRec};

use crate::auxiliary::set_aux;
use crate::operand::{delegated, host_page, realm_of};
use crate::realm::{error_realm, is_new};
use granule_addr::Gran;
use page_arena::PageStore;
use rmi_abi::{RecParams, RmmSettings, SmcResult, Word, is_mpidr, rec_number};
use rmm_granules::{
    Granules, OperandConditions, are_aux_aligned, are_aux_apart, are_aux_delegated, are_aux_inside,
};
use rmm_model::{
    Condition, Extension, FailedCondition, RmmGranule, RmmGranuleState, RmmRealm, RmmRec,
    error_input, extend, rec_digest,
};

// A REC that can be created: its granule, the granule of its parameters, the RD of its realm, and the realm.
#[derive(Clone, Copy)]
pub struct NewRec {
    pub rec: Gran,
    pub source: Gran,
    pub rd: Gran,
    pub realm: RmmRealm,
}

// ---- auxiliary granules

// Checks that there are as many auxiliary granules as a REC has, all DELEGATED, and distinct from one another and from
// the REC.
#[tactic(auto, unfolding(rmm_model::specs::Command::RecCreate::aux_checks))]
fn check_aux<S: PageStore>(
    granules: &Granules<S>,
    page: &[u8],
    rec: u64,
) -> Result<(), FailedCondition>
    requires { length page.now ≡ 4096 }
    ensures { refusal_in result ≡ first_failing (command.aux_checks granules.now page.now rec) }
{
    let count = granules.settings().aux;
    if RecParams::num_aux(page) != count as u64 {
        return Err(error_input(Condition::NumAux));
    }
    if !are_aux_aligned(granules, page, count) {
        return Err(error_input(Condition::AuxAlign));
    }
    if !are_aux_inside(granules, page, count) {
        return Err(error_input(Condition::AuxBound));
    }
    if !are_aux_apart(granules, page, rec, count) {
        return Err(error_input(Condition::AuxAlias));
    }
    if !are_aux_delegated(granules, page, count) {
        return Err(error_input(Condition::AuxState));
    }
    Ok(())
}

// ---- the new REC

// Whether a realm has fewer RECs than it can have.
fn can_have_more(settings: &RmmSettings, realm: &RmmRealm) -> bool
    requires { settings.now.max_recs_order ≤ 15 }
    ensures { result ≡ nat_lt realm.now.rec_count (2 ^ settings.now.max_recs_order) }
{
    (realm.rec_count as u64) < 1 << settings.max_recs_order
}

// Checks that an MPIDR is that of a realm's next REC, and that the realm is NEW and can have one more REC.
#[tactic(auto, unfolding(rmm_model::specs::Command::RecCreate::number_checks))]
fn check_number(
    settings: &RmmSettings,
    page: &[u8],
    realm: &RmmRealm,
) -> Result<(), FailedCondition>
    requires page { length page.now ≡ 4096 }
    requires order { settings.now.max_recs_order ≤ 15 }
    ensures refusal { refusal_in result
        ≡ first_failing (command.number_checks settings.now page.now realm.now) }
    ensures next { OnOk result (realm.now.next_rec < 2 ^ 31) }
    ensures count { OnOk result (realm.now.rec_count < 2 ^ 15) }
{
    let mpidr = RecParams::mpidr(page);
    if !is_mpidr(mpidr) {
        return Err(error_input(Condition::ParamsValid));
    }
    if rec_number(mpidr) != realm.next_rec as u64 {
        return Err(error_input(Condition::MpidrIndex));
    }
    if !is_new(realm) {
        return Err(error_realm(Condition::RealmState));
    }
    if !can_have_more(settings, realm) {
        return Err(error_realm(Condition::NumRecs));
    }
    Ok(())
}

// Word k of the page of a new REC.
fn rec_word(page: &[u8], k: u8) -> u64
    requires page { length page.now ≡ 4096 }
    requires below { k < 48 }
    ensures { result ≡ command.rec_word page.now k }
{
    if k < 8 {
        RecParams::gpr(page, k)
    } else if k == 31 {
        RecParams::pc(page)
    } else if k >= 32 {
        RecParams::aux(page, k - 32)
    } else {
        0
    }
}

// Writes the page of a new REC, with the parameters from the page of `source`.
fn write_rec_page<S: PageStore>(granules: &mut Granules<S>, rec: Gran, source: Gran)
    requires inside { rec < granule_count granules.old }
    requires source { source < granule_count granules.old }
    requires different { source ≢ rec }
    ensures page { granules.new
        ≡ with_page granules.old rec (command.rec_page (page_in granules.old source)) }
{
    granules.fill(rec, 0);
    for k in 0..48 {
        let word = rec_word(granules.page(source), k);
        granules.set_word(rec, k as u16, word);
    }
}

// Turns a granule into a REC of an RD's realm, with the parameters from the page of `source`.
fn write_rec<S: PageStore>(granules: &mut Granules<S>, rd: Gran, rec: Gran, source: Gran)
    requires inside { rec < granule_count granules.old }
    requires source { source < granule_count granules.old }
    requires different { source ≢ rec }
    ensures { granules.new ≡ command.with_created_rec granules.old rd rec (page_in granules.old source) }
{
    let page = granules.page(source);
    let attributes = RmmRec::new(RecParams::is_runnable(page), RecParams::mpidr(page));
    let kept = RmmGranule {
        state: RmmGranuleState::Rec(attributes),
        owner: Some(rd),
    };
    granules.set(rec, kept);
    write_rec_page(granules, rec, source);
}

// ---- the measurement

// The measurement of a realm after a REC with the parameters in a page is created.
#[tactic(auto, unfolding(rmm_model::specs::Command::RecMeasurement::rim_with_rec))]
fn rim_with_rec(settings: &RmmSettings, realm: &RmmRealm, page: &[u8]) -> [u8; 64]
    requires { length page.now ≡ 4096 }
    ensures { result ≡ measuring.rim_with_rec settings.now realm.now page.now }
{
    if RecParams::is_runnable(page) || settings.measures_all_recs {
        let extension = Extension::Rec {
            digest: rec_digest(realm.hash, page),
        };
        extend(realm.hash, &realm.rim, &extension)
    } else {
        realm.rim
    }
}

// The measurement of a new REC's realm after the REC is created.
fn measured_rim<S: PageStore>(granules: &Granules<S>, found: &NewRec) -> [u8; 64]
    requires { found.now.source < granule_count granules.now }
    ensures { result
        ≡ measuring.rim_with_rec granules.now.settings found.now.realm (page_in granules.now found.now.source) }
{
    rim_with_rec(
        granules.settings(),
        &found.realm,
        granules.page(found.source),
    )
}

// ---- the command

// Returns the REC that RMI_REC_CREATE creates, or the failed condition.
fn find_new<S: PageStore>(
    granules: &Granules<S>,
    rd: u64,
    rec: u64,
    params: u64,
) -> Result<NewRec, FailedCondition>
    ensures refusal { refusal_in result
        ≡ first_failing (command.rec_create rd rec params granules.now).checks }
    ensures found { IfOk result (IsNewRec granules.now rd rec params) }
{
    let source = host_page(granules, params, OperandConditions::PARAMS)?;
    let granule = delegated(granules, rec, OperandConditions::NEW_REC)?;
    let owner = realm_of(granules, rd)?;
    let page = granules.page(source);
    check_aux(granules, page, rec)?;
    check_number(granules.settings(), page, &owner.realm)?;
    Ok(NewRec {
        rec: granule,
        source,
        rd: owner.granule,
        realm: owner.realm,
    })
}

// Performs RMI_REC_CREATE.
#[inline(never)]
#[tactic(auto, unfolding(rmm_model::specs::Command::RecCreate::rec_create))]
pub fn rec_create<S: PageStore>(
    granules: &mut Granules<S>,
    rd: u64,
    rec: u64,
    params: u64,
) -> SmcResult
    ensures answer { result
        ≡ (outcome (command.rec_create rd rec params granules.old) granules.old).0 }
    ensures machine { granules.new
        ≡ (outcome (command.rec_create rd rec params granules.old) granules.old).1 }
{
    match find_new(granules, rd, rec, params) {
        Ok(found) => {
            let count = granules.settings().aux;
            let rim = measured_rim(granules, &found);
            write_rec(granules, found.rd, found.rec, found.source);
            let aux = RmmGranule {
                state: RmmGranuleState::RecAux,
                owner: Some(found.rd),
            };
            set_aux(granules, found.rec, &aux, count);
            let realm = RmmRealm {
                rim,
                next_rec: found.realm.next_rec + 1,
                rec_count: found.realm.rec_count + 1,
                ..found.realm
            };
            let kept = RmmGranule {
                state: RmmGranuleState::Rd(realm),
                owner: None,
            };
            granules.set(found.rd, kept);
            SmcResult::only(Word::Success)
        }
        Err(refusal) => refusal.into_answer(),
    }
}
