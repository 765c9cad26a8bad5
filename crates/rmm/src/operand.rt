//! Operands of RMI commands, and the checks that they have to pass.
ghost use Rattle.std.specs.Prelude.{◌≡◌, ◌^◌, ◌<◌, ◌≤◌, [], true, IfOk, OnOk};
ghost use Rattle.rmm_model.specs.Check.{first_failing, refusal_in, error_rtt, error_rtt_top as with_top};
ghost use Rattle.rmm_model.specs.Machine.{granule_count, granule_at, number_of};
ghost use Rattle.rmm_model.specs.Granule.{is_undelegated, is_delegated};
ghost use Rattle.rmm_model.specs.Realm as realms;
ghost use Rattle.rmm_model.specs.Realm.{IsServed};
ghost use Rattle.rmm_model.specs.Command.Operand as operands;

use granule_addr::Gran;
use page_arena::PageStore;
use rmi_abi::{RmmSettings, SmcResult, Word};
use rmm_granules::{Granules, OperandConditions};
use rmm_model::{
    Condition, FailedCondition, RmmRealm, RttWalk, entry_offset, error_input, error_rtt,
};

// An RD, and its realm.
#[derive(Clone, Copy)]
pub struct Rd {
    pub granule: Gran,
    pub realm: RmmRealm,
}

// ---- granules

// Returns the granule that an address names, or the failed condition.
pub fn named<S: PageStore>(
    granules: &Granules<S>,
    address: u64,
    conditions: OperandConditions,
) -> Result<Gran, FailedCondition>
    ensures refusal { refusal_in result
        ≡ first_failing (operands.address_checks conditions.align conditions.bound granules.now address) }
    ensures number { IfOk result (λ granule. granule ≡ number_of granules.now address) }
    ensures inside { IfOk result (λ granule. granule < granule_count granules.now) }
{
    if address % 4096 != 0 {
        return Err(error_input(conditions.align));
    }
    if !granules.is_inside(address) {
        return Err(error_input(conditions.bound));
    }
    Ok(granules.number_of(address))
}

// Returns the granule of the host's page that an address names, or the failed condition.
pub fn host_page<S: PageStore>(
    granules: &Granules<S>,
    address: u64,
    conditions: OperandConditions,
) -> Result<Gran, FailedCondition>
    ensures refusal { refusal_in result
        ≡ first_failing (operands.host_checks conditions.align conditions.bound conditions.state granules.now address) }
    ensures number { IfOk result (λ granule. granule ≡ number_of granules.now address) }
    ensures state { IfOk result (λ granule. is_undelegated (granule_at granules.now granule).state ≡ true) }
    ensures inside { IfOk result (λ granule. granule < granule_count granules.now) }
{
    let granule = named(granules, address, conditions)?;
    if granules.is_undelegated(granule) && !granules.is_secure(address) {
        Ok(granule)
    } else {
        Err(error_input(conditions.state))
    }
}

// Returns the DELEGATED granule that an address names, or the failed condition.
pub fn delegated<S: PageStore>(
    granules: &Granules<S>,
    address: u64,
    conditions: OperandConditions,
) -> Result<Gran, FailedCondition>
    ensures refusal { refusal_in result
        ≡ first_failing (operands.delegated_checks conditions.align conditions.bound conditions.state granules.now address) }
    ensures number { IfOk result (λ granule. granule ≡ number_of granules.now address) }
    ensures state { IfOk result (λ granule. is_delegated (granule_at granules.now granule).state ≡ true) }
    ensures inside { IfOk result (λ granule. granule < granule_count granules.now) }
{
    let granule = named(granules, address, conditions)?;
    if granules.is_delegated(granule) {
        Ok(granule)
    } else {
        Err(error_input(conditions.state))
    }
}

// Returns the RD that an address names, with its realm, or the failed condition.
pub fn realm_of<S: PageStore>(granules: &Granules<S>, address: u64) -> Result<Rd, FailedCondition>
    ensures refusal { refusal_in result ≡ first_failing (operands.rd_checks granules.now address) }
    ensures number { IfOk result (λ rd. rd.granule ≡ number_of granules.now address) }
    ensures inside { IfOk result (λ rd. rd.granule < granule_count granules.now) }
    ensures realm { IfOk result (λ rd. rd.realm ≡ operands.realm_at granules.now address) }
    ensures served { IfOk result (λ rd. IsServed (granule_count granules.now) rd.realm) }
{
    let granule = named(granules, address, OperandConditions::RD)?;
    match granules.realm(granule) {
        Some(realm) => Ok(Rd { granule, realm }),
        None => Err(error_input(OperandConditions::RD.state)),
    }
}

// ---- addresses of a realm

// Whether an address is in the address space of a realm.
pub fn is_in_space(realm: &RmmRealm, ipa: u64) -> bool
    requires { realm.now.s2sz ≤ 48 }
    ensures { result ≡ realms.is_in_space realm.now ipa }
{
    ipa < 1 << realm.s2sz
}

// Whether an address is in the lower half of the address space of a realm.
pub fn is_protected(realm: &RmmRealm, ipa: u64) -> bool
    requires { realm.now.s2sz ≤ 48 }
    ensures { result ≡ realms.is_protected realm.now ipa }
{
    ipa < 1 << realm.s2sz.saturating_sub(1)
}

// Checks that a level is from `least` to 3, and that an entry `above` levels higher begins at `ipa`, in the realm's
// address space.
pub fn check_ipa(
    realm: &RmmRealm,
    least: u8,
    level: u64,
    above: u8,
    ipa: u64,
) -> Result<u8, FailedCondition>
    requires above { above ≤ least }
    requires width { realm.now.s2sz ≤ 48 }
    ensures refusal { refusal_in result
        ≡ first_failing (operands.ipa_checks realm.now least level above ipa) }
    ensures level { IfOk result (λ found. found ≡ level) }
    ensures least { IfOk result (λ found. least ≤ found) }
    ensures most { IfOk result (λ found. found ≤ 3) }
    ensures in_space { OnOk result (ipa < 2 ^ realm.now.s2sz) }
    ensures low { OnOk result (ipa < 2 ^ 48) }
{
    if level < least as u64 || level > 3 {
        return Err(error_input(Condition::LevelBound));
    }
    let found = level as u8;
    if entry_offset(found - above, ipa) != 0 {
        return Err(error_input(Condition::IpaAlign));
    }
    if !is_in_space(realm, ipa) {
        return Err(error_input(Condition::IpaBound));
    }
    Ok(found)
}

// Checks that an address is page-aligned and in the protected half of a realm's address space.
pub fn check_page(realm: &RmmRealm, ipa: u64) -> Result<(), FailedCondition>
    requires { realm.now.s2sz ≤ 48 }
    ensures refusal { refusal_in result ≡ first_failing (operands.page_checks realm.now ipa) }
    ensures in_space { OnOk result (ipa < 2 ^ realm.now.s2sz) }
    ensures low { OnOk result (ipa < 2 ^ 48) }
{
    if ipa % 4096 != 0 {
        return Err(error_input(Condition::IpaAlign));
    }
    if !is_protected(realm, ipa) {
        return Err(error_input(Condition::IpaBound));
    }
    Ok(())
}

// Whether an address is in the upper half of the address space of a realm.
fn is_unprotected(realm: &RmmRealm, ipa: u64) -> bool
    requires { realm.now.s2sz ≤ 48 }
    ensures { result ≡ realms.is_unprotected realm.now ipa }
{
    let half = (1u64 << realm.s2sz) / 2;
    ipa >= half && ipa - half < half
}

// Checks that a level can have pages or blocks, and that one of them can begin at `ipa`, in a realm's unprotected half.
pub fn check_unprotected(
    settings: &RmmSettings,
    realm: &RmmRealm,
    level: u64,
    ipa: u64,
) -> Result<u8, FailedCondition>
    requires { realm.now.s2sz ≤ 48 }
    ensures refusal { refusal_in result
        ≡ first_failing (operands.unprotected_checks settings.now realm.now level ipa) }
    ensures level { IfOk result (λ found. found ≡ level) }
    ensures in_space { OnOk result (ipa < 2 ^ realm.now.s2sz) }
    ensures low { OnOk result (ipa < 2 ^ 48) }
{
    if level < settings.block_level as u64 || level < realm.start_level as u64 || level > 3 {
        return Err(error_input(Condition::LevelBound));
    }
    let found = level as u8;
    if entry_offset(found, ipa) != 0 {
        return Err(error_input(Condition::IpaAlign));
    }
    if !is_unprotected(realm, ipa) {
        return Err(error_input(Condition::IpaBound));
    }
    Ok(found)
}

// ---- walks

// The refusal RMI_ERROR_RTT for a failed condition, with the level of a table, and the address of the next live entry
// in X2.
pub fn error_rtt_top(condition: Condition, level: u8, top: u64) -> FailedCondition
    ensures { result ≡ record { condition = condition; answer = with_top top level } }
{
    FailedCondition {
        condition,
        answer: SmcResult {
            x2: top,
            ..SmcResult::only(Word::ErrorRtt(level))
        },
    }
}

// Checks that a walk reached a level, and that `fits`, the caller's check of the entry there, is `true`.
pub fn check_entry(found: &RttWalk, level: u8, fits: bool) -> Result<(), FailedCondition>
    ensures { refusal_in result
        ≡ first_failing (operands.entry_checks [] found.now level fits error_rtt) }
{
    if found.level != level {
        return Err(error_rtt(Condition::RttWalk, found.level));
    }
    if !fits {
        return Err(error_rtt(Condition::RtteState, found.level));
    }
    Ok(())
}
