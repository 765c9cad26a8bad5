//! Checks on RD and IPA operands, and the checks of RMI_REALM_ACTIVATE.
ghost use Rattle.std.specs.Prelude.{◌≡◌, ◌+◌, ◌<◌, ◌≤◌, ◌&&◌, nat_le, length, IfSome};
ghost use Rattle.rmm_model.specs.Granule.{realm_of};
ghost use Rattle.rmm_model.specs.Level as levels;
ghost use Rattle.rmm_model.specs.Machine.{granule_count, state_at};
ghost use Rattle.rmm_model.specs.Realm as realms;
ghost use Rattle.rmm_model.specs.Realm.{IsServed};
ghost use Rattle.rmm_model.specs.Command.Operand as operands;
ghost use Rattle.rmm_model.specs.Command.Operand.{realm_at};
ghost use Rattle.rmm_model.specs.Command.RealmActivate.{realm_activate as activating};
ghost use Rattle.rmm_checks.specs.Evaluated.{Adds, evaluated};

use crate::EvaluatedChecks;
use crate::operand::{add_address, covering, is_aligned};
use page_arena::PageStore;
use rmm_granules::Granules;
use rmm_model::{Condition, RmmRealm, RmmRealmState};

// ---- realms

// The realm of the RD at an address, if there is one.
#[tactic(auto, using(crate::proofs::Outside::outside))]
pub fn realm_named<S: PageStore>(granules: &Granules<S>, rd: u64) -> Option<RmmRealm>
    ensures value { result ≡ realm_of (state_at granules.now rd) }
    ensures served { IfSome result (IsServed (granule_count granules.now)) }
{
    match covering(granules, rd) {
        Some(granule) => granules.realm(granule),
        None => None,
    }
}

// The IPA width of an RD's realm, in bits; 0 if there is no realm.
pub fn s2sz_at<S: PageStore>(granules: &Granules<S>, rd: u64) -> u8
    ensures value { result ≡ (realm_at granules.now rd).s2sz }
    ensures narrow { result ≤ 48 }
{
    match realm_named(granules, rd) {
        Some(realm) => realm.s2sz,
        None => 0,
    }
}

// The starting level of an RD's realm; 0 if there is no realm.
pub fn start_level_at<S: PageStore>(granules: &Granules<S>, rd: u64) -> u8
    ensures value { result ≡ (realm_at granules.now rd).start_level }
    ensures low { result ≤ 3 }
{
    match realm_named(granules, rd) {
        Some(realm) => realm.start_level,
        None => 0,
    }
}

// Whether an RD's realm is NEW; `true` if there is no realm.
pub fn is_new_at<S: PageStore>(granules: &Granules<S>, rd: u64) -> bool
    ensures { result ≡ realms.is_new (realm_at granules.now rd).state }
{
    match realm_named(granules, rd) {
        Some(realm) => matches!(realm.state, RmmRealmState::New),
        None => true,
    }
}

// Whether an address is in the address space of an RD's realm.
pub fn is_in_space<S: PageStore>(granules: &Granules<S>, rd: u64, ipa: u64) -> bool
    ensures { result ≡ realms.is_in_space (realm_at granules.now rd) ipa }
{
    ipa < 1 << s2sz_at(granules, rd)
}

// Whether an address is in the lower half of the address space of an RD's realm.
pub fn is_protected<S: PageStore>(granules: &Granules<S>, rd: u64, ipa: u64) -> bool
    ensures { result ≡ realms.is_protected (realm_at granules.now rd) ipa }
{
    ipa < 1 << s2sz_at(granules, rd).saturating_sub(1)
}

// Whether an address is in the upper half of the address space of an RD's realm.
pub fn is_unprotected<S: PageStore>(granules: &Granules<S>, rd: u64, ipa: u64) -> bool
    ensures { result ≡ realms.is_unprotected (realm_at granules.now rd) ipa }
{
    !is_protected(granules, rd, ipa) && is_in_space(granules, rd, ipa)
}

// ---- levels

// The number of bytes that an entry of a level covers; a level above 3 counts as level 0.
#[tactic(auto, unfolding(rmm_model::specs::Level::entry_size))]
pub fn size_of(level: u64) -> u64
    ensures value { result ≡ levels.entry_size level }
    ensures some { 0 < result }
{
    match level {
        3 => 4096,
        2 => 0x20_0000,
        1 => 0x4000_0000,
        _ => 0x80_0000_0000,
    }
}

// Whether an address is a multiple of a size.
pub fn is_multiple(ipa: u64, size: u64) -> bool
    requires { 0 < size }
    ensures { result ≡ operands.is_multiple ipa size }
{
    ipa % size == 0
}

// Whether a level is from `least` to 3.
pub fn is_level(least: u8, level: u64) -> bool
    ensures { result ≡ operands.is_level least level }
{
    least as u64 <= level && level <= 3
}

// Whether entries at a level of an RD's realm can map pages or blocks.
fn is_block_level<S: PageStore>(granules: &Granules<S>, rd: u64, level: u64) -> bool
    ensures { result
        ≡ (nat_le granules.now.settings.block_level level
        && operands.is_level (realm_at granules.now rd).start_level level) }
{
    granules.settings().block_level as u64 <= level && is_level(start_level_at(granules, rd), level)
}

// ---- checks

// Adds the checks that an address is the address of an RD.
pub fn add_rd<S: PageStore>(checks: &mut EvaluatedChecks, granules: &Granules<S>, rd: u64)
    requires room { length checks.old + 3 ≤ 18 }
    ensures rows { Adds checks.old (operands.rd_checks granules.now rd) checks.new }
    ensures length { length checks.new ≡ length checks.old + 3 }
{
    add_address(checks, granules, Condition::RdAlign, Condition::RdBound, rd);
    let realm = realm_named(granules, rd);
    checks.input(Condition::RdState, &[Condition::RdBound], realm.is_none());
}

// Adds the check that a realm is NEW.
pub fn add_new<S: PageStore>(checks: &mut EvaluatedChecks, granules: &Granules<S>, rd: u64)
    requires room { length checks.old < 18 }
    ensures rows { Adds checks.old (operands.new_checks (realm_at granules.now rd)) checks.new }
    ensures length { length checks.new ≡ length checks.old + 1 }
{
    checks.realm(
        Condition::RealmState,
        &[Condition::RdState],
        !is_new_at(granules, rd),
    );
}

// Adds the checks that a level is from `least` to 3, and that an entry `above` levels higher begins at an IPA.
pub fn add_ipa<S: PageStore>(
    checks: &mut EvaluatedChecks,
    granules: &Granules<S>,
    rd: u64,
    least: u8,
    level: u64,
    above: u64,
    ipa: u64,
)
    requires room { length checks.old + 3 ≤ 18 }
    ensures rows { Adds checks.old
        (operands.ipa_checks (realm_at granules.now rd) least level above ipa) checks.new }
    ensures length { length checks.new ≡ length checks.old + 3 }
{
    checks.input(
        Condition::LevelBound,
        &[Condition::RdState],
        !is_level(least, level),
    );
    let size = size_of(level.saturating_sub(above));
    checks.input(
        Condition::IpaAlign,
        &[Condition::LevelBound],
        !is_multiple(ipa, size),
    );
    checks.input(
        Condition::IpaBound,
        &[Condition::RdState],
        !is_in_space(granules, rd, ipa),
    );
}

// Adds the checks that a page begins at an IPA, and that the IPA is in the protected half of the realm.
pub fn add_page<S: PageStore>(
    checks: &mut EvaluatedChecks,
    granules: &Granules<S>,
    rd: u64,
    ipa: u64,
)
    requires room { length checks.old + 2 ≤ 18 }
    ensures rows { Adds checks.old (operands.page_checks (realm_at granules.now rd) ipa) checks.new }
    ensures length { length checks.new ≡ length checks.old + 2 }
{
    checks.input(Condition::IpaAlign, &[], !is_aligned(ipa));
    checks.input(
        Condition::IpaBound,
        &[Condition::RdState],
        !is_protected(granules, rd, ipa),
    );
}

// Adds the checks that a level can have pages or blocks, and that an entry of the level begins at an unprotected IPA.
pub fn add_unprotected<S: PageStore>(
    checks: &mut EvaluatedChecks,
    granules: &Granules<S>,
    rd: u64,
    level: u64,
    ipa: u64,
)
    requires room { length checks.old + 3 ≤ 18 }
    ensures rows { Adds checks.old
        (operands.unprotected_checks granules.now.settings (realm_at granules.now rd) level ipa) checks.new }
    ensures length { length checks.new ≡ length checks.old + 3 }
{
    checks.input(
        Condition::LevelBound,
        &[Condition::RdState],
        !is_block_level(granules, rd, level),
    );
    checks.input(
        Condition::IpaAlign,
        &[Condition::LevelBound],
        !is_multiple(ipa, size_of(level)),
    );
    checks.input(
        Condition::IpaBound,
        &[Condition::RdState],
        !is_unprotected(granules, rd, ipa),
    );
}

// The checks of RMI_REALM_ACTIVATE.
#[tactic(auto, unfolding(rmm_model::specs::Command::RealmActivate::realm_activate))]
pub fn realm_activate<S: PageStore>(granules: &Granules<S>, rd: u64) -> EvaluatedChecks
    ensures { result ≡ evaluated (activating rd granules.now).checks }
{
    let mut checks = EvaluatedChecks::new();
    add_rd(&mut checks, granules, rd);
    add_new(&mut checks, granules, rd);
    checks
}
