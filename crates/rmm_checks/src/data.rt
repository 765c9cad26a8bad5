//! The checks of RMI_DATA_CREATE, RMI_DATA_CREATE_UNKNOWN and RMI_DATA_DESTROY.
ghost use Rattle.std.specs.Prelude.{◌≡◌, ◌+◌, ◌≤◌, length};
ghost use Rattle.rmm_model.specs.Command.DataCreate as creating;
ghost use Rattle.rmm_model.specs.Command.DataCreateUnknown.{data_create_unknown as making};
ghost use Rattle.rmm_model.specs.Command.DataDestroy.{data_destroy as destroying};
ghost use Rattle.rmm_checks.specs.Evaluated.{Adds, evaluated};

use crate::EvaluatedChecks;
use crate::entry::{add_entry, rtt_top};
use crate::operand::{add_delegated, add_host};
use crate::realm::{add_new, add_page, add_rd};
use crate::walking::reach;
use page_arena::PageStore;
use rmi_abi::{RmmSettings, SmcResult, Word};
use rmm_granules::{Granules, OperandConditions, memory_below};
use rmm_model::{Condition, RmmRttEntry};

// The checks of RMI_DATA_CREATE_UNKNOWN.
pub fn data_create_unknown<S: PageStore>(
    granules: &Granules<S>,
    rd: u64,
    page: u64,
    ipa: u64,
) -> EvaluatedChecks
    ensures { result ≡ evaluated (making rd page ipa granules.now).checks }
{
    let mut checks = EvaluatedChecks::new();
    add_delegated(&mut checks, granules, OperandConditions::DATA, page);
    add_rd(&mut checks, granules, rd);
    add_page(&mut checks, granules, rd, ipa);
    let reached = reach(granules, rd, ipa, 3);
    let fits = reached.entry.is_unassigned();
    let answer = SmcResult::only(Word::ErrorRtt(reached.level));
    add_entry(
        &mut checks,
        &[Condition::RdState, Condition::IpaAlign, Condition::IpaBound],
        &reached,
        3,
        fits,
        answer,
    );
    checks
}

// The checks of RMI_DATA_DESTROY.
pub fn data_destroy<S: PageStore>(granules: &Granules<S>, rd: u64, ipa: u64) -> EvaluatedChecks
    ensures { result ≡ evaluated (destroying rd ipa granules.now).checks }
{
    let mut checks = EvaluatedChecks::new();
    add_rd(&mut checks, granules, rd);
    add_page(&mut checks, granules, rd, ipa);
    let reached = reach(granules, rd, ipa, 3);
    let page = memory_below(granules, reached.entry);
    let answer = rtt_top(reached.level, reached.top);
    add_entry(
        &mut checks,
        &[Condition::RdState, Condition::IpaAlign, Condition::IpaBound],
        &reached,
        3,
        page.is_some(),
        answer,
    );
    checks
}

// ---- RMI_DATA_CREATE

// Whether the flags above bit 0 are clear, or the RMM's settings ignore them.
fn are_flags_valid(settings: &RmmSettings, flags: u64) -> bool
    ensures { result ≡ creating.are_flags_valid settings.now flags }
{
    settings.ignores_data_flags || flags <= 1
}

// Whether the RIPAS of an entry is RAM, or the RMM's settings do not require RAM.
fn is_ripas_right(settings: &RmmSettings, entry: RmmRttEntry) -> bool
    ensures { result ≡ creating.is_ripas_right settings.now entry }
{
    !settings.data_needs_ram || entry.ripas().is_ram()
}

// Adds the checks that flags are valid, that a source is a page of the host, and that a granule is DELEGATED.
fn add_source<S: PageStore>(
    checks: &mut EvaluatedChecks,
    granules: &Granules<S>,
    page: u64,
    source: u64,
    flags: u64,
)
    requires room { length checks.old + 7 ≤ 18 }
    ensures rows { Adds checks.old (creating.source_checks granules.now page source flags) checks.new }
    ensures length { length checks.new ≡ length checks.old + 7 }
{
    let settings = granules.settings();
    let valid = are_flags_valid(settings, flags);
    checks.input(Condition::FlagsValid, &[], !valid);
    add_host(checks, granules, OperandConditions::SOURCE, source);
    add_delegated(checks, granules, OperandConditions::DATA, page);
}

// The checks of RMI_DATA_CREATE.
pub fn data_create<S: PageStore>(
    granules: &Granules<S>,
    rd: u64,
    page: u64,
    ipa: u64,
    source: u64,
    flags: u64,
) -> EvaluatedChecks
    ensures { result ≡ evaluated (creating.data_create rd page ipa source flags granules.now).checks }
{
    let mut checks = EvaluatedChecks::new();
    add_source(&mut checks, granules, page, source, flags);
    add_rd(&mut checks, granules, rd);
    add_page(&mut checks, granules, rd, ipa);
    add_new(&mut checks, granules, rd);
    let reached = reach(granules, rd, ipa, 3);
    let fits = reached.entry.is_unassigned();
    let answer = SmcResult::only(Word::ErrorRtt(reached.level));
    add_entry(
        &mut checks,
        &[
            Condition::RdState,
            Condition::IpaAlign,
            Condition::IpaBound,
            Condition::RealmState,
        ],
        &reached,
        3,
        fits,
        answer,
    );
    let right = is_ripas_right(granules.settings(), reached.entry);
    checks.rtt(
        Condition::RtteRipas,
        &[Condition::RtteState],
        !right,
        reached.level,
    );
    checks
}
