//! The output lines for idle turns, pages, realms and the number of free granules. They are the lines of a run's text
//! that contain no answer. Each `push_` function appends one line. If allocation fails, the text may have a part of the
//! line.
ghost use Rattle.std.specs.Prelude.{◌≡◌, ◌++◌, OnOk, string_bytes};
ghost use Rattle.realm_plan.specs.Lines.{state_word, sum_numbers, realm_word, idle_line, page_line, realm_line, free_line};

use crate::operands::{MOST_NUMBERS, one};
use arrayvec::ArrayVec;
use decimal_text::SpelledText;
use granule_addr::{BuildId, Vmid};
use realm_model::{GranuleState, RealmState};
use std::alloc::AllocError;

/// Returns the RMM 1.0 name of a granule's state, such as `DELEGATED`. RMM 1.0, Granule state.
pub fn state_word(state: GranuleState) -> &'static str
    ensures { result.now ≡ state_word state }
{
    match state {
        GranuleState::Undelegated => "UNDELEGATED",
        GranuleState::Delegated => "DELEGATED",
        GranuleState::Rd => "RD",
        GranuleState::Rec => "REC",
        GranuleState::RecAux => "REC_AUX",
        GranuleState::Data => "DATA",
        GranuleState::Rtt => "RTT",
    }
}

// The sum of a page's bytes if the page is UNDELEGATED or DATA, and else no number.
fn sum_numbers(state: GranuleState, sum: u32) -> ArrayVec<u32, MOST_NUMBERS>
    ensures { result.items ≡ sum_numbers state sum }
{
    match state {
        GranuleState::Undelegated | GranuleState::Data => one(sum),
        _ => ArrayVec::new(),
    }
}

/// Returns the RMM 1.0 name of a realm's state, `NEW` or `ACTIVE`. RMM 1.0, Realm state.
pub fn realm_word(state: RealmState) -> &'static str
    ensures { result.now ≡ realm_word state }
{
    match state {
        RealmState::New => "NEW",
        RealmState::Active => "ACTIVE",
    }
}

/// Appends the output line for a turn of a build that has no step left.
pub fn push_idle(text: &mut String, build: BuildId) -> Result<(), AllocError>
    ensures { OnOk result (string_bytes text.new ≡ string_bytes text.old ++ idle_line build) }
{
    writeln!(text, "{} - idle", build.number())
}

/// Appends the line for a build's page to the printed map of a host. The line has the sum of the page's bytes if the
/// page is UNDELEGATED or DATA.
pub fn push_page(
    text: &mut String,
    build: BuildId,
    page: u16,
    state: GranuleState,
    sum: u32,
) -> Result<(), AllocError>
    ensures { OnOk result (string_bytes text.new ≡ string_bytes text.old ++ page_line build page state sum) }
{
    let build = build.number();
    let word = state_word(state);
    let numbers = sum_numbers(state, sum);
    writeln!(
        text,
        "{build} page {page} {}",
        SpelledText(word, numbers.as_slice())
    )
}

/// Appends the line for a build's realm to the printed map of a host.
pub fn push_realm(
    text: &mut String,
    build: BuildId,
    state: RealmState,
    vmid: Vmid,
) -> Result<(), AllocError>
    ensures { OnOk result (string_bytes text.new ≡ string_bytes text.old ++ realm_line build state vmid) }
{
    let build = build.number();
    let word = realm_word(state);
    writeln!(text, "{build} realm {word} vmid {}", vmid.number())
}

/// Appends the line that gives the number of unleased granules. It is the last line of a host's map.
pub fn push_free(text: &mut String, count: u16) -> Result<(), AllocError>
    ensures { OnOk result (string_bytes text.new ≡ string_bytes text.old ++ free_line count) }
{
    writeln!(text, "free {count}")
}
