//! The checks of RMI_REC_CREATE.
ghost use Rattle.std.specs.Prelude.{◌≡◌, ◌^◌, ◌+◌, ◌≤◌, nat_eq, nat_lt, true, false, [], ◌∷◌, length};
ghost use Rattle.rmm_model.specs.declared.condition.Condition.TheVariants.{ParamsPas, ParamsValid, NumAux};
ghost use Rattle.rmm_model.specs.declared.condition.Condition.TheVariants.{AuxAlign, AuxBound};
ghost use Rattle.rmm_model.specs.Machine.{is_inside, number_of, page_in};
ghost use Rattle.rmm_model.specs.Command.Operand.{realm_at};
ghost use Rattle.rmm_model.specs.Command.RecCreate as command;
ghost use Rattle.rmm_checks.specs.Evaluated.{Adds, evaluated, is_made, is_passed};
ghost use Rattle.rmm_checks.specs.NewRec.{facts_in, aux_rows, number_rows};
ghost use Rattle.rmm_checks.specs.declared.rec_create.RecFacts.{RecFacts as Facts};

use crate::EvaluatedChecks;
use crate::operand::{add_delegated, add_host};
use crate::realm::{add_rd, is_new_at, realm_named};
use page_arena::PageStore;
use rmi_abi::{RecParams, is_mpidr, rec_number};
use rmm_granules::{
    Granules, OperandConditions, are_aux_aligned, are_aux_apart, are_aux_delegated, are_aux_inside,
};
use rmm_model::Condition;

// Facts about the parameters of a REC, for the checks of RMI_REC_CREATE.
#[derive(Clone, Copy)]
pub struct RecFacts {
    pub has_count: bool,
    pub are_aligned: bool,
    pub are_inside: bool,
    pub are_apart: bool,
    pub are_delegated: bool,
    pub is_mpidr: bool,
    pub number: u64,
}

// ---- parameters

// The facts about the REC parameters in a page.
fn facts_of<S: PageStore>(granules: &Granules<S>, page: &[u8], rec: u64) -> RecFacts
    requires { length page.now ≡ 4096 }
    ensures { result ≡ facts_in granules.now page.now rec }
{
    let count = granules.settings().aux;
    let mpidr = RecParams::mpidr(page);
    RecFacts {
        has_count: RecParams::num_aux(page) == count as u64,
        are_aligned: are_aux_aligned(granules, page, count),
        are_inside: are_aux_inside(granules, page, count),
        are_apart: are_aux_apart(granules, page, rec, count),
        are_delegated: are_aux_delegated(granules, page, count),
        is_mpidr: is_mpidr(mpidr),
        number: rec_number(mpidr),
    }
}

// The facts about the REC parameters in the page at an address.
fn facts_at<S: PageStore>(granules: &Granules<S>, params: u64, rec: u64) -> RecFacts
    ensures { is_inside granules.now params ≡ true
        → result ≡ facts_in granules.now (page_in granules.now (number_of granules.now params)) rec }
{
    if granules.is_inside(params) {
        return facts_of(granules, granules.page(granules.number_of(params)), rec);
    }
    RecFacts {
        has_count: false,
        are_aligned: false,
        are_inside: false,
        are_apart: false,
        are_delegated: false,
        is_mpidr: false,
        number: 0,
    }
}

// ---- the realm

// The number of the next REC of an RD's realm; 0 if there is no realm.
fn next_rec_at<S: PageStore>(granules: &Granules<S>, rd: u64) -> u32
    ensures { result ≡ (realm_at granules.now rd).next_rec }
{
    match realm_named(granules, rd) {
        Some(realm) => realm.next_rec,
        None => 0,
    }
}

// The number of RECs of an RD's realm; 0 if there is no realm.
fn rec_count_at<S: PageStore>(granules: &Granules<S>, rd: u64) -> u16
    ensures { result ≡ (realm_at granules.now rd).rec_count }
{
    match realm_named(granules, rd) {
        Some(realm) => realm.rec_count,
        None => 0,
    }
}

// Whether an RD's realm has fewer RECs than it can have.
fn can_have_more<S: PageStore>(granules: &Granules<S>, rd: u64) -> bool
    ensures { result
        ≡ nat_lt (realm_at granules.now rd).rec_count (2 ^ granules.now.settings.max_recs_order) }
{
    (rec_count_at(granules, rd) as u64) < 1 << granules.settings().max_recs_order
}

// Whether a number is that of the next REC of an RD's realm.
fn is_next<S: PageStore>(granules: &Granules<S>, rd: u64, number: u64) -> bool
    ensures { result ≡ nat_eq number (realm_at granules.now rd).next_rec }
{
    number == next_rec_at(granules, rd) as u64
}

// ---- checks

// Adds the checks of a REC's auxiliary granules: their number, their addresses, that they differ, and their states.
fn add_aux(checks: &mut EvaluatedChecks, facts: &RecFacts)
    requires room { length checks.old + 5 ≤ 18 }
    ensures rows { (known : Facts) → (is_made checks.old (ParamsPas ∷ []) ≡ true → facts.now ≡ known)
        → is_passed checks.old NumAux ≡ false → is_passed checks.old AuxAlign ≡ false
        → is_passed checks.old AuxBound ≡ false → Adds checks.old (aux_rows known) checks.new }
    ensures length { length checks.new ≡ length checks.old + 5 }
{
    checks.input(Condition::NumAux, &[Condition::ParamsPas], !facts.has_count);
    checks.input(
        Condition::AuxAlign,
        &[Condition::NumAux],
        !facts.are_aligned,
    );
    checks.input(
        Condition::AuxBound,
        &[Condition::AuxAlign],
        !facts.are_inside,
    );
    checks.input(Condition::AuxAlias, &[Condition::NumAux], !facts.are_apart);
    checks.input(
        Condition::AuxState,
        &[Condition::AuxBound],
        !facts.are_delegated,
    );
}

// Adds the checks that an MPIDR is that of a NEW realm's next REC, and that the realm can have one more REC.
fn add_number<S: PageStore>(
    checks: &mut EvaluatedChecks,
    granules: &Granules<S>,
    rd: u64,
    facts: &RecFacts,
)
    requires room { length checks.old + 4 ≤ 18 }
    ensures rows { (known : Facts) → (is_made checks.old (ParamsPas ∷ []) ≡ true → facts.now ≡ known)
        → is_passed checks.old ParamsValid ≡ false
        → Adds checks.old (number_rows granules.now.settings (realm_at granules.now rd) known) checks.new }
    ensures length { length checks.new ≡ length checks.old + 4 }
{
    checks.input(
        Condition::ParamsValid,
        &[Condition::ParamsPas],
        !facts.is_mpidr,
    );
    let is_next = is_next(granules, rd, facts.number);
    checks.input(
        Condition::MpidrIndex,
        &[Condition::ParamsValid, Condition::RdState],
        !is_next,
    );
    let is_new = is_new_at(granules, rd);
    checks.realm(Condition::RealmState, &[Condition::RdState], !is_new);
    let more = can_have_more(granules, rd);
    checks.realm(Condition::NumRecs, &[Condition::RdState], !more);
}

// The checks of RMI_REC_CREATE.
pub fn rec_create<S: PageStore>(
    granules: &Granules<S>,
    rd: u64,
    rec: u64,
    params: u64,
) -> EvaluatedChecks
    ensures { result ≡ evaluated (command.rec_create rd rec params granules.now).checks }
{
    let mut checks = EvaluatedChecks::new();
    add_host(&mut checks, granules, OperandConditions::PARAMS, params);
    add_delegated(&mut checks, granules, OperandConditions::NEW_REC, rec);
    add_rd(&mut checks, granules, rd);
    let facts = facts_at(granules, params, rec);
    add_aux(&mut checks, &facts);
    add_number(&mut checks, granules, rd, &facts);
    checks
}
