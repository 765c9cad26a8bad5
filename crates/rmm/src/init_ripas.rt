//! The command RMI_RTT_INIT_RIPAS.
ghost use Rattle.std.specs.Prelude.{◌≡◌, ◌^◌, ◌<◌, ◌≤◌, IfOk, OnOk};
ghost use Rattle.rmm_model.specs.Check.{outcome, first_failing, refusal_in};
ghost use Rattle.rmm_model.specs.Command.RttInitRipas as command;
ghost use Rattle.rmm.specs.CheckedOperands.{IsRipasRange};

use crate::operand::{Rd, is_protected, realm_of};
use crate::realm::{error_realm, is_new, set_rim};
use crate::ripas_range::{change_count, check_progress, check_size, write_ripas};
use page_arena::PageStore;
use rmi_abi::{SmcResult, Word};
use rmm_granules::{Granules, init_changeable, walk};
use rmm_model::{
    Condition, Extension, FailedCondition, RmmRealm, RmmRipas, RttWalk, entry_index, entry_size,
    error_input, extend,
};

// The RD and the realm of a range, and the table with the range's first entry.
#[derive(Clone, Copy)]
pub struct RipasRange {
    pub owner: Rd,
    pub found: RttWalk,
}

// ---- operands

// Checks that a range consists of pages in the protected half of a realm, and that the realm is NEW.
#[tactic(auto, unfolding(rmm_model::specs::Command::RttInitRipas::range_checks))]
fn check_range(realm: &RmmRealm, base: u64, top: u64) -> Result<(), FailedCondition>
    requires { realm.now.s2sz ≤ 48 }
    ensures refusal { refusal_in result ≡ first_failing (command.range_checks realm.now base top) }
    ensures in_space { OnOk result (base < 2 ^ realm.now.s2sz) }
    ensures low { OnOk result (base < 2 ^ 48) }
{
    if base % 4096 != 0 {
        return Err(error_input(Condition::BaseGranAlign));
    }
    if top % 4096 != 0 {
        return Err(error_input(Condition::TopGranAlign));
    }
    if !is_protected(realm, base) {
        return Err(error_input(Condition::BaseBound));
    }
    if !is_protected(realm, top.saturating_sub(4096)) {
        return Err(error_input(Condition::TopBound));
    }
    if !is_new(realm) {
        return Err(error_realm(Condition::RealmState));
    }
    Ok(())
}

// Returns the range that RMI_RTT_INIT_RIPAS changes, or the failed condition.
#[tactic(auto, unfolding(rmm_model::specs::Command::RttInitRipas::rtt_init_ripas))]
fn find_range<S: PageStore>(
    granules: &Granules<S>,
    rd: u64,
    base: u64,
    top: u64,
) -> Result<RipasRange, FailedCondition>
    ensures refusal { refusal_in result
        ≡ first_failing (command.rtt_init_ripas rd base top granules.now).checks }
    ensures found { IfOk result (IsRipasRange granules.now rd base) }
    ensures size { OnOk result (base < top) }
{
    check_size(base, top)?;
    let owner = realm_of(granules, rd)?;
    check_range(&owner.realm, base, top)?;
    let found = walk(granules, &owner.realm, base, 3);
    check_progress(
        granules,
        init_changeable(granules.settings()),
        &found,
        base,
        top,
    )?;
    Ok(RipasRange { owner, found })
}

// ---- the measurement

// The measurement of a realm after the RIPAS of `count` entries of `size` bytes, from `base` on, is set to RAM.
fn rim_with_ripas(realm: &RmmRealm, size: u64, base: u64, count: u16) -> [u8; 64]
    requires low { base < 2 ^ 48 }
    requires size { size ≤ 2 ^ 39 }
    requires count { count ≤ 512 }
    ensures { result ≡ command.rim_with_ripas realm.now.hash realm.now.rim size base count }
{
    let mut rim = realm.rim;
    for k in 0..count {
        let extension = Extension::Ripas {
            base: base + k as u64 * size,
            top: base + (k as u64 + 1) * size,
        };
        rim = extend(realm.hash, &rim, &extension);
    }
    rim
}

// ---- the command

// Performs RMI_RTT_INIT_RIPAS.
#[inline(never)]
#[tactic(auto, unfolding(rmm_model::specs::Command::RttInitRipas::rtt_init_ripas))]
pub fn rtt_init_ripas<S: PageStore>(
    granules: &mut Granules<S>,
    rd: u64,
    base: u64,
    top: u64,
) -> SmcResult
    ensures answer { result
        ≡ (outcome (command.rtt_init_ripas rd base top granules.old) granules.old).0 }
    ensures machine { granules.new
        ≡ (outcome (command.rtt_init_ripas rd base top granules.old) granules.old).1 }
{
    match find_range(granules, rd, base, top) {
        Ok(range) => {
            let changeable = init_changeable(granules.settings());
            let count = change_count(granules, changeable, &range.found, base, top);
            let size = entry_size(range.found.level);
            let rim = rim_with_ripas(&range.owner.realm, size, base, count);
            let first = entry_index(range.found.level, base);
            write_ripas(granules, &range.found, first, RmmRipas::Ram, count);
            set_rim(granules, &range.owner, &rim);
            SmcResult {
                x1: base + count as u64 * size,
                ..SmcResult::only(Word::Success)
            }
        }
        Err(refusal) => refusal.into_answer(),
    }
}
