//! The command RMI_REALM_CREATE.
ghost use Rattle.std.specs.Prelude.{◌≡◌, ◌<◌, ◌≤◌, true, IfOk, OnOk};
ghost use Rattle.rmm_model.specs.declared.condition.Condition.TheVariants.{ParamsAlign, ParamsBound, ParamsPas};
ghost use Rattle.rmm_model.specs.Check.{outcome, first_failing, refusal_in};
ghost use Rattle.rmm_model.specs.Machine.{granule_count, with_page};
ghost use Rattle.rmm_model.specs.Realm.{is_start, IsServed};
ghost use Rattle.rmm_model.specs.Command.Operand.{host_checks};
ghost use Rattle.rmm_model.specs.Command.RealmCreate as command;
ghost use Rattle.rmm.specs.CheckedOperands.{IsNewRealm};

use crate::operand::{delegated, host_page, is_protected};
use granule_addr::Gran;
use page_arena::PageStore;
use rmi_abi::{HashAlgorithm, RealmParams, RmmSettings, SmcResult, Word};
use rmm_granules::{
    Granules, OperandConditions, can_start, is_start, is_start_table, is_supported, is_vmid_valid,
    start_table,
};
use rmm_model::{
    Condition, FailedCondition, RmmGranule, RmmGranuleState, RmmRealm, RmmRealmState, RmmRipas,
    RmmRttEntry, entry_size, error_input, initial,
};

// A realm that can be created, and the granule that becomes its RD.
#[derive(Clone, Copy)]
pub struct NewRealm {
    pub rd: Gran,
    pub realm: RmmRealm,
}

// ---- parameters

// Returns the parameters in the host's page at an address, or the failed condition.
#[tactic(auto, unfolding(rmm_model::specs::Command::RealmCreate::params_at))]
fn read_params<S: PageStore>(
    granules: &Granules<S>,
    params: u64,
) -> Result<RealmParams, FailedCondition>
    ensures refusal { refusal_in result
        ≡ first_failing (host_checks ParamsAlign ParamsBound ParamsPas granules.now params) }
    ensures value { IfOk result (λ p. p ≡ command.params_at granules.now params) }
{
    let source = host_page(granules, params, OperandConditions::PARAMS)?;
    Ok(RealmParams::read(granules.page(source)))
}

// Checks that a realm can have these parameters, and that its RD is not one of its starting tables.
#[tactic(auto, unfolding(rmm_model::specs::Command::RealmCreate::params_checks))]
fn check_params(settings: &RmmSettings, p: &RealmParams, rd: u64) -> Result<(), FailedCondition>
    requires { settings.now.s2sz ≤ 48 }
    ensures refusal { refusal_in result
        ≡ first_failing (command.params_checks settings.now p.now rd) }
    ensures width { OnOk result (p.now.s2sz ≤ 48) }
    ensures start { OnOk result (is_start p.now.s2sz p.now.rtt_level_start p.now.rtt_num_start ≡ true) }
{
    if p.hash_algo > 1 {
        return Err(error_input(Condition::ParamsValid));
    }
    if !is_supported(settings, p) {
        return Err(error_input(Condition::ParamsSupp));
    }
    if !is_start(p.s2sz, p.rtt_level_start, p.rtt_num_start) {
        return Err(error_input(Condition::RttNumLevel));
    }
    if p.rtt_base % (p.rtt_num_start as u64 * 4096) != 0 {
        return Err(error_input(Condition::RttAlign));
    }
    if is_start_table(p, rd) {
        return Err(error_input(Condition::Alias));
    }
    Ok(())
}

// ---- what the realm takes

// Checks that the starting tables are DELEGATED granules, and that the VMID is in range and free.
fn check_free<S: PageStore>(granules: &Granules<S>, p: &RealmParams) -> Result<(), FailedCondition>
    ensures refusal { refusal_in result ≡ first_failing (command.free_checks granules.now p.now) }
    ensures start { OnOk result (command.can_start granules.now p.now ≡ true) }
    ensures few { granule_count granules.now ≤ 4096 }
{
    if !can_start(granules, p) {
        return Err(error_input(Condition::RttState));
    }
    if !is_vmid_valid(granules, p.vmid) {
        return Err(error_input(Condition::VmidValid));
    }
    Ok(())
}

// ---- the new realm

// The hash algorithm with a code: SHA-512 for 1, and SHA-256 otherwise.
fn hash_of(code: u8) -> HashAlgorithm
    ensures { result ≡ command.hash_of code }
{
    match code {
        1 => HashAlgorithm::Sha512,
        _ => HashAlgorithm::Sha256,
    }
}

// The new realm that parameters describe.
#[tactic(auto, unfolding(rmm_model::specs::Command::RealmCreate::realm_for))]
fn realm_for<S: PageStore>(granules: &Granules<S>, p: &RealmParams) -> RmmRealm
    requires width { p.now.s2sz ≤ 48 }
    requires start { is_start p.now.s2sz p.now.rtt_level_start p.now.rtt_num_start ≡ true }
    requires free { command.can_start granules.now p.now ≡ true }
    requires few { granule_count granules.now ≤ 4096 }
    ensures value { result ≡ command.realm_for granules.now p.now }
    ensures served { IsServed (granule_count granules.now) result }
{
    let hash = hash_of(p.hash_algo);
    RmmRealm {
        state: RmmRealmState::New,
        hash,
        rim: initial(hash, p),
        s2sz: p.s2sz,
        start_level: p.rtt_level_start as u8,
        first_table: granules.number_of(p.rtt_base),
        table_count: p.rtt_num_start as u8,
        vmid: p.vmid,
        next_rec: 0,
        rec_count: 0,
    }
}

// Entry n of a new realm's starting tables, counted through all of them.
fn start_entry(realm: &RmmRealm, n: u16) -> RmmRttEntry
    requires width { realm.now.s2sz ≤ 48 }
    requires below { n < 8192 }
    ensures { result ≡ command.start_entry realm.now n }
{
    if is_protected(realm, n as u64 * entry_size(realm.start_level)) {
        RmmRttEntry::Unassigned(RmmRipas::Empty)
    } else {
        RmmRttEntry::UnassignedNs
    }
}

// Writes starting table k of a realm.
fn write_start_page<S: PageStore>(granules: &mut Granules<S>, table: Gran, realm: &RmmRealm, k: u8)
    requires inside { table < granule_count granules.old }
    requires width { realm.now.s2sz ≤ 48 }
    requires below { k < 16 }
    ensures { granules.new ≡ with_page granules.old table (command.start_page realm.now k) }
{
    granules.fill(table, 0);
    for index in 0..512 {
        granules.set_word(
            table,
            index,
            start_entry(realm, k as u16 * 512 + index).word(),
        );
    }
}

// Creates the starting tables of a realm.
fn write_tables<S: PageStore>(granules: &mut Granules<S>, rd: Gran, realm: &RmmRealm)
    requires { IsServed (granule_count granules.old) realm.now }
    ensures tables { granules.new
        ≡ command.with_tables granules.old rd realm.now realm.now.table_count }
    ensures count { granule_count granules.new ≡ granule_count granules.old }
{
    for k in 0..realm.table_count {
        let table = start_table(granules, realm, k);
        let kept = RmmGranule {
            state: RmmGranuleState::Rtt,
            owner: Some(rd),
        };
        granules.set(table, kept);
        write_start_page(granules, table, realm, k);
    }
}

// ---- the command

// Returns the realm that RMI_REALM_CREATE creates, or the failed condition.
fn find_realm<S: PageStore>(
    granules: &Granules<S>,
    rd: u64,
    params: u64,
) -> Result<NewRealm, FailedCondition>
    ensures refusal { refusal_in result
        ≡ first_failing (command.realm_create rd params granules.now).checks }
    ensures found { IfOk result (IsNewRealm granules.now rd params) }
{
    let p = read_params(granules, params)?;
    check_params(granules.settings(), &p, rd)?;
    let granule = delegated(granules, rd, OperandConditions::RD)?;
    check_free(granules, &p)?;
    Ok(NewRealm {
        rd: granule,
        realm: realm_for(granules, &p),
    })
}

// Performs RMI_REALM_CREATE.
#[inline(never)]
#[tactic(auto, unfolding(rmm_model::specs::Command::RealmCreate::realm_create))]
pub fn realm_create<S: PageStore>(granules: &mut Granules<S>, rd: u64, params: u64) -> SmcResult
    ensures answer { result
        ≡ (outcome (command.realm_create rd params granules.old) granules.old).0 }
    ensures machine { granules.new
        ≡ (outcome (command.realm_create rd params granules.old) granules.old).1 }
{
    match find_realm(granules, rd, params) {
        Ok(found) => {
            write_tables(granules, found.rd, &found.realm);
            let kept = RmmGranule {
                state: RmmGranuleState::Rd(found.realm),
                owner: None,
            };
            granules.set(found.rd, kept);
            granules.set_vmid(found.realm.vmid, true);
            SmcResult::only(Word::Success)
        }
        Err(refusal) => refusal.into_answer(),
    }
}
