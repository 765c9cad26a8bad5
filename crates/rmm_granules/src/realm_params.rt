//! Checks of a new realm's parameters, and of the granules and the VMID that the realm takes. RMM 1.0,
//! RMI_REALM_CREATE.
ghost use Rattle.std.specs.Prelude.{◌≡◌, ◌+◌, ◌≤◌, true};
ghost use Rattle.rmm_model.specs.Machine.{granule_count, number_of};
ghost use Rattle.rmm_model.specs.Realm.{is_start};
ghost use Rattle.rmm_model.specs.Command.RealmCreate as command;

use crate::{Granules, granule_after};
use granule_addr::Gran;
use page_arena::PageStore;
use rmi_abi::{RealmParams, RmmSettings};
use rmm_model::{entry_size, start_count};

// ---- parameters

// Whether the numbers of breakpoints and watchpoints and the vector length are within feature register 0.
fn fits_features(settings: &RmmSettings, p: &RealmParams) -> bool
    ensures { result ≡ command.fits_features settings.now p.now }
{
    p.num_bps <= settings.bps && p.num_wps <= settings.wps && p.sve_vl == 0
}

/// Returns whether the RMM supports the parameters of a realm. Supported parameters set no flag, and have an IPA width
/// that the RMM supports. If settings say so, breakpoints, watchpoints and vectors are within feature register 0 too.
pub fn is_supported(settings: &RmmSettings, p: &RealmParams) -> bool
    ensures { result ≡ command.is_supported settings.now p.now }
{
    p.flags == 0
        && 32 <= p.s2sz
        && p.s2sz <= settings.s2sz
        && (!settings.checks_params || fits_features(settings, p))
}

/// Returns whether a realm with an address space of `s2sz` bits can have `count` starting tables at a level.
#[tactic(auto, unfolding(rmm_model::specs::Realm::is_start))]
pub fn is_start(s2sz: u8, level: u64, count: u32) -> bool
    requires { s2sz ≤ 48 }
    ensures { result ≡ is_start s2sz level count }
{
    if level > 3 {
        return false;
    }
    entry_size(level as u8) < 1 << s2sz
        && count <= 16
        && count as u64 == start_count(s2sz, level as u8)
}

/// Returns whether `rd` is the address of one of a new realm's starting tables.
pub fn is_start_table(p: &RealmParams, rd: u64) -> bool
    ensures { result ≡ command.is_start_table p.now rd }
{
    p.rtt_base <= rd
        && rd - p.rtt_base < p.rtt_num_start as u64 * 4096
        && (rd - p.rtt_base) % 4096 == 0
}

// ---- what the realm takes

// Whether `count` granules from an address on are granules of the machine.
fn is_range_inside<S: PageStore>(granules: &Granules<S>, base: u64, count: u32) -> bool
    ensures value { result ≡ command.is_range_inside granules.now base count }
    ensures few { granule_count granules.now ≤ 4096 }
    ensures fits { result ≡ true → number_of granules.now base + count ≤ granule_count granules.now }
{
    let most = granules.count() as u64;
    granules.is_inside(base) && granules.number_of(base).number() as u64 + count as u64 <= most
}

// Whether `count` granules from `first` on are all DELEGATED.
fn are_delegated<S: PageStore>(granules: &Granules<S>, first: Gran, count: u16) -> bool
    requires inside { first + count ≤ granule_count granules.now }
    requires few { granule_count granules.now ≤ 4096 }
    ensures { result ≡ command.are_delegated granules.now first count }
{
    for k in 0..count {
        if !granules.is_delegated(granule_after(first, k)) {
            return false;
        }
    }
    true
}

/// Returns whether each starting table of a new realm is a DELEGATED granule.
#[tactic(auto, unfolding(rmm_model::specs::Command::RealmCreate::can_start))]
pub fn can_start<S: PageStore>(granules: &Granules<S>, p: &RealmParams) -> bool
    ensures value { result ≡ command.can_start granules.now p.now }
    ensures few { granule_count granules.now ≤ 4096 }
{
    if !is_range_inside(granules, p.rtt_base, p.rtt_num_start) {
        return false;
    }
    let first = granules.number_of(p.rtt_base);
    are_delegated(granules, first, p.rtt_num_start as u16)
}

/// Returns whether a VMID is in the RMM's range, and no realm has it.
#[tactic(auto, unfolding(rmm_model::specs::Command::RealmCreate::is_vmid_valid))]
pub fn is_vmid_valid<S: PageStore>(granules: &Granules<S>, vmid: u16) -> bool
    ensures { result ≡ command.is_vmid_valid granules.now vmid }
{
    (vmid as u64) < 1 << granules.settings().vmid_bits && !granules.is_vmid_used(vmid)
}
