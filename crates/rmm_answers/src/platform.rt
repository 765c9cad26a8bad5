//! Functions that open an RMM with the settings in a `platform` line of a trace.
ghost use Rattle.std.specs.Prelude.{◌≡◌, ◌<◌, ◌≤◌, ◌==◌, IfOk, Some, replicate};
ghost use Rattle.granule_addr.specs.Page.{zero_page};
ghost use Rattle.rmm_granules.specs.Inside.{platform_machine};
ghost use Rattle.rmm_trace.specs.Compare.{rest_of};
ghost use Rattle.rmm_answers.specs.Platform as platforms;
ghost use Rattle.rmm_answers.specs.Words.{first_place};

use crate::words::{first_place, rest};
use page_arena::{BuildError, PlainStore};
use rmi_abi::{Layout, Platform, RmmSettings};
use rmm::Rmm;
use rmm_granules::Granules;
use rmm_trace::place::{
    ALL, ANY_RIPAS, AUX, BLOCK_LEVEL, BPS, CHANGE, CHECKED, DATA_FLAGS, DATA_RIPAS, DESC_SH, GIC,
    GIVEN, INIT_DESTROYED, LAYOUT, LIVE_TOP, LOOSE, LRS, MAX_RECS_ORDER, MEASURE_REC, NONE, PARAMS,
    PLATFORM, PSCI_ARGS, REL0, RUNNABLE, S2SZ, SECURE, VMID_BITS, WPS, ZERO,
};
use rmm_trace::{Atom, TraceWord, after_name, operand};
use std::alloc::{AllocError, Global};

// The number that the words give a setting, or the setting's default.
fn number_after(words: &[TraceWord], name: usize, default: u8) -> u8
    ensures { result ≡ platforms.number_after words.now name default }
{
    let values = after_name(words, name);
    match values {
        [] => default,
        [_, ..] => (operand(values, 0, 0) % 0x100) as u8,
    }
}

// Whether a setting has the second of its two values. The name of the second is at the place after `first`.
fn is_second(words: &[TraceWord], name: usize, first: usize) -> bool
    requires { first < 256 }
    ensures { result ≡ platforms.is_second words.now name first }
{
    match after_name(words, name) {
        [value, ..] => match value.value {
            Atom::Name(place) => place == first + 1,
            Atom::Decimal(_) => false,
            Atom::Hexadecimal(_) => false,
        },
        [] => false,
    }
}

// The settings of a platform.
#[tactic(auto, unfolding(crate::specs::Platform::settings_in))]
fn settings_in(words: &[TraceWord]) -> RmmSettings
    ensures { result ≡ platforms.settings_in words.now }
{
    let secure = after_name(words, SECURE);
    RmmSettings {
        base: operand(words, 0, 0),
        secure_base: operand(secure, 0, 0),
        secure_count: (operand(secure, 1, 0) % 0x1_0000) as u16,
        aux: number_after(words, AUX, 2),
        vmid_bits: number_after(words, VMID_BITS, 16),
        s2sz: number_after(words, S2SZ, 48),
        max_recs_order: number_after(words, MAX_RECS_ORDER, 4),
        block_level: number_after(words, BLOCK_LEVEL, 2),
        bps: number_after(words, BPS, 0),
        wps: number_after(words, WPS, 0),
        lrs: number_after(words, LRS, 0),
        layout: if is_second(words, LAYOUT, REL0) {
            Layout::Eac5
        } else {
            Layout::Rel0
        },
        stops_at_destroyed: is_second(words, INIT_DESTROYED, CHANGE),
        measures_all_recs: is_second(words, MEASURE_REC, RUNNABLE),
        ignores_data_flags: is_second(words, DATA_FLAGS, CHECKED),
        aligns_live_top: is_second(words, LIVE_TOP, GIVEN),
        shows_target_alone: is_second(words, PSCI_ARGS, ALL),
        takes_shareability: is_second(words, DESC_SH, ZERO),
        data_needs_ram: is_second(words, DATA_RIPAS, ANY_RIPAS),
        checks_params: is_second(words, PARAMS, LOOSE),
        checks_gic: is_second(words, GIC, NONE),
    }
}

// Opens the RMM of a platform over `count` granules.
fn open_granules(
    alloc: Global,
    platform: Platform,
    count: u16,
) -> Result<Option<Rmm<PlainStore>>, AllocError>
    requires { (1 ≤ count) × (count ≤ 4096) }
    ensures { IfOk result (λ rmm. rmm ≡ Some (platform_machine platform (replicate count zero_page))) }
{
    let store = match PlainStore::build(alloc, count) {
        Ok(store) => store,
        Err(BuildError::BadSize) => return Ok(None),
        Err(BuildError::Memory(error)) => return Err(error),
    };
    match Granules::open(alloc, platform, store) {
        Ok(granules) => Ok(Some(Rmm::over(granules))),
        Err((error, _)) => Err(error),
    }
}

// Opens a fresh RMM for a platform, given the words after the name `platform`.
#[tactic(auto, unfolding(crate::specs::Platform::machine_of_platform))]
fn open(alloc: Global, words: &[TraceWord]) -> Result<Option<Rmm<PlainStore>>, AllocError>
    ensures { IfOk result (λ rmm. rmm ≡ platforms.machine_of_platform words.now) }
{
    let count = operand(words, 1, 0);
    if count < 1 || count > 4_096 {
        return Ok(None);
    }
    match Platform::new(settings_in(words)) {
        Some(platform) => open_granules(alloc, platform, count as u16),
        None => Ok(None),
    }
}

/// Returns whether a question in a trace begins with the word `platform`. Such a question opens a fresh machine, if the
/// number of granules and each setting are in range.
pub fn is_platform(question: &[TraceWord]) -> bool
    ensures { result ≡ (first_place question.now == PLATFORM) }
{
    first_place(question) == PLATFORM
}

/// Opens a new RMM with the settings in a trace's `platform` line. Returns `None` if the number of granules or a
/// setting is out of range. A platform has 1 to 4,096 granules below 2^47.
pub fn open_platform(
    alloc: Global,
    question: &[TraceWord],
) -> Result<Option<Rmm<PlainStore>>, AllocError>
    ensures { IfOk result (λ rmm. rmm ≡ platforms.machine_of_platform (rest_of question.now)) }
{
    open(alloc, rest(question))
}
