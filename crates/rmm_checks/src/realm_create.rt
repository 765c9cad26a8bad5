//! The checks of RMI_REALM_CREATE.
ghost use Rattle.std.specs.Prelude.{◌≡◌, ◌+◌, ◌*◌, ◌%◌, ◌<◌, ◌≤◌, ◌==◌, nat_le, true, false, [], ◌∷◌, length};
ghost use Rattle.rmi_abi.specs.declared.realm_params.RealmParams.{RealmParams as Params};
ghost use Rattle.rmm_model.specs.declared.condition.Condition.TheVariants.{ParamsPas, ParamsSupp, RttNumLevel};
ghost use Rattle.rmm_model.specs.declared.condition.Condition.TheVariants.{RttAlign};
ghost use Rattle.rmm_model.specs.Machine.{is_inside};
ghost use Rattle.rmm_model.specs.Realm.{is_start as can_begin};
ghost use Rattle.rmm_model.specs.Command.RealmCreate as command;
ghost use Rattle.rmm_checks.specs.Evaluated.{Adds, evaluated, is_made, is_passed};

use crate::EvaluatedChecks;
use crate::operand::{add_delegated, add_host};
use page_arena::PageStore;
use rmi_abi::{RealmParams, RmmSettings};
use rmm_granules::{
    Granules, OperandConditions, can_start, is_start, is_start_table, is_supported, is_vmid_valid,
};
use rmm_model::Condition;

// ---- parameters

// The parameters of a realm in the page at an address.
#[tactic(auto, unfolding(rmm_model::specs::Command::RealmCreate::params_at))]
fn params_at<S: PageStore>(granules: &Granules<S>, params: u64) -> RealmParams
    ensures { is_inside granules.now params ≡ true → result ≡ command.params_at granules.now params }
{
    if granules.is_inside(params) {
        return RealmParams::read(granules.page(granules.number_of(params)));
    }
    RealmParams {
        flags: 0,
        s2sz: 0,
        sve_vl: 0,
        num_bps: 0,
        num_wps: 0,
        pmu_num_ctrs: 0,
        hash_algo: 0,
        vmid: 0,
        rtt_base: 0,
        rtt_level_start: 0,
        rtt_num_start: 0,
    }
}

// Whether a code is that of a hash algorithm.
fn is_hash(code: u8) -> bool
    ensures { result ≡ nat_le code 1 }
{
    code <= 1
}

// Whether the starting tables that a realm's parameters ask for serve its IPA width; `false` for more than 48 bits.
fn is_served(p: &RealmParams) -> bool
    ensures { p.now.s2sz ≤ 48
        → result ≡ can_begin p.now.s2sz p.now.rtt_level_start p.now.rtt_num_start }
{
    p.s2sz <= 48 && is_start(p.s2sz, p.rtt_level_start, p.rtt_num_start)
}

// Whether the starting tables that a realm's parameters ask for begin at a multiple of their total size; `false` if
// there are none.
fn is_base_aligned(p: &RealmParams) -> bool
    ensures { 0 < p.now.rtt_num_start
        → result ≡ (p.now.rtt_base % (p.now.rtt_num_start * 4096) == 0) }
{
    let size = p.rtt_num_start as u64 * 4096;
    if size == 0 {
        return false;
    }
    p.rtt_base % size == 0
}

// Adds the checks that a realm's parameters are valid and supported, and that its RD is none of its starting tables.
#[tactic(auto, unfolding(rmm_model::specs::Command::RealmCreate::params_checks))]
fn add_params(checks: &mut EvaluatedChecks, settings: &RmmSettings, p: &RealmParams, rd: u64)
    requires room { length checks.old + 5 ≤ 18 }
    requires narrow { settings.now.s2sz ≤ 48 }
    ensures rows { (q : Params) → (is_made checks.old (ParamsPas ∷ []) ≡ true → p.now ≡ q)
        → is_passed checks.old ParamsSupp ≡ false → is_passed checks.old RttNumLevel ≡ false
        → Adds checks.old (command.params_checks settings.now q rd) checks.new }
    ensures passed { is_passed checks.old ParamsSupp ≡ false → is_passed checks.old RttNumLevel ≡ false
        → is_passed checks.old RttAlign ≡ false
        → is_made checks.new (RttAlign ∷ []) ≡ true → is_made checks.old (ParamsPas ∷ []) ≡ true }
    ensures length { length checks.new ≡ length checks.old + 5 }
{
    let valid = is_hash(p.hash_algo);
    checks.input(Condition::ParamsValid, &[Condition::ParamsPas], !valid);
    let supported = is_supported(settings, p);
    checks.input(Condition::ParamsSupp, &[Condition::ParamsPas], !supported);
    let served = is_served(p);
    checks.input(Condition::RttNumLevel, &[Condition::ParamsSupp], !served);
    let aligned = is_base_aligned(p);
    checks.input(Condition::RttAlign, &[Condition::RttNumLevel], !aligned);
    let alias = is_start_table(p, rd);
    checks.input(Condition::Alias, &[Condition::RttNumLevel], alias);
}

// ---- the granules and the VMID of the realm

// Adds the checks that a realm's starting tables can be used, and that its VMID is valid and free.
fn add_free<S: PageStore>(checks: &mut EvaluatedChecks, granules: &Granules<S>, p: &RealmParams)
    requires room { length checks.old + 2 ≤ 18 }
    ensures rows { (q : Params) → (is_made checks.old (RttAlign ∷ []) ≡ true → p.now ≡ q)
        → (is_made checks.old (ParamsPas ∷ []) ≡ true → p.now ≡ q)
        → Adds checks.old (command.free_checks granules.now q) checks.new }
    ensures length { length checks.new ≡ length checks.old + 2 }
{
    let usable = can_start(granules, p);
    checks.input(Condition::RttState, &[Condition::RttAlign], !usable);
    let valid = is_vmid_valid(granules, p.vmid);
    checks.input(Condition::VmidValid, &[Condition::ParamsPas], !valid);
}

// The checks of RMI_REALM_CREATE.
pub fn realm_create<S: PageStore>(granules: &Granules<S>, rd: u64, params: u64) -> EvaluatedChecks
    ensures { result ≡ evaluated (command.realm_create rd params granules.now).checks }
{
    let mut checks = EvaluatedChecks::new();
    add_host(&mut checks, granules, OperandConditions::PARAMS, params);
    let p = params_at(granules, params);
    let settings = granules.settings();
    add_params(&mut checks, settings, &p, rd);
    add_delegated(&mut checks, granules, OperandConditions::RD, rd);
    add_free(&mut checks, granules, &p);
    checks
}
