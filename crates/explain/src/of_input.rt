//! Checks on operands of commands: pages, IPA granules, levels and counts. The refusal of each check is
//! RMI_ERROR_INPUT. RMM 1.0, RMI command conditions.
ghost use Rattle.std.specs.Prelude.{◌≡◌, ◌++◌, OnOk, map, unwrap_or, option_map};
ghost use Rattle.explain.specs.OfInput.{input_check, page_check, state_of_page, page_delegated, page_undelegated, width_of, protected, table_level, table_start, run_count, one_table};
ghost use Rattle.granule_addr.specs.Ipa.{is_protected_at};

use crate::check::{Check, Fact, add};
use crate::rmi_facts::InputFact;
use granule_addr::BuildId;
use page_arena::PageStore;
use realm_host::{GranuleState, Host, Refusal, Rmi};
use realm_model::GranuleState::{Delegated, Undelegated};
use std::alloc::AllocError;

/// Creates a check whose failure gives RMI_ERROR_INPUT.
pub(crate) fn input_check(fact: Fact, fails: bool) -> Check
    ensures { result ≡ input_check fact fails }
{
    Check {
        fact,
        fails,
        refusal: Refusal::Rmi(Rmi::INPUT),
    }
}

// A check of the found state of a page's granule against the required state.
fn page_check(page: u16, found: Option<GranuleState>, required: GranuleState, fails: bool) -> Check
    ensures { result ≡ page_check page found required fails }
{
    let fact = InputFact::Page {
        page,
        required,
        found,
    };
    input_check(Fact::Input(fact), fails)
}

/// Creates the check that the granule of a given page of a build is DELEGATED.
pub(crate) fn page_delegated<S: PageStore>(host: &Host<S>, build: BuildId, page: u16) -> Check
    ensures { result ≡ page_delegated host.now build page }
{
    let now = host.page_state(build, page);
    page_check(page, now, Delegated, !matches!(now, Some(Delegated)))
}

/// Appends, for each of the given pages of a build, the check that its granule is DELEGATED.
pub(crate) fn add_delegated<S: PageStore>(
    host: &Host<S>,
    build: BuildId,
    pages: &[u16],
    checks: &mut Vec<Check>,
) -> Result<(), AllocError>
    ensures { OnOk result (checks.new.items ≡ checks.old.items ++ map (page_delegated host.now build) pages.now) }
{
    for page in pages {
        add(checks, page_delegated(host, build, *page))?;
    }
    Ok(())
}

/// Creates the check that the granule of a given page of a build is UNDELEGATED.
pub(crate) fn page_undelegated<S: PageStore>(host: &Host<S>, build: BuildId, page: u16) -> Check
    ensures { result ≡ page_undelegated host.now build page }
{
    let now = host.page_state(build, page);
    page_check(page, now, Undelegated, !matches!(now, Some(Undelegated)))
}

// The IPA width of a build's realm; 0 if the build has no realm.
fn width_of<S: PageStore>(host: &Host<S>, build: BuildId) -> u8
    ensures { result ≡ width_of host.now build }
{
    match host.realm(build) {
        Some(realm) => realm.root().width.number(),
        None => 0,
    }
}

// Whether an IPA granule lies in the protected half of an address space of `width` bits.
fn is_protected_at(ipa: u32, width: u8) -> bool
    ensures { result ≡ is_protected_at ipa width }
{
    let top = width.saturating_sub(13);
    if top >= 32 {
        return true;
    }
    ipa < 1 << top
}

/// Creates the check that an IPA granule lies in the protected half of the address space of a build's realm.
pub(crate) fn protected<S: PageStore>(host: &Host<S>, build: BuildId, ipa: u32) -> Check
    ensures { result ≡ protected host.now build ipa }
{
    let width = width_of(host, build);
    input_check(
        Fact::Input(InputFact::Protected { ipa, width }),
        !is_protected_at(ipa, width),
    )
}

/// Creates the check that the level of a new table is 2 or 3.
pub(crate) fn table_level(level: u8) -> Check
    ensures { result ≡ table_level level }
{
    input_check(
        Fact::Input(InputFact::Level(level)),
        level != 2 && level != 3,
    )
}

/// Creates the check that the first IPA granule of a table is aligned for the level of the table.
pub(crate) fn table_start(ipa: u32, level: u8) -> Check
    ensures { result ≡ table_start ipa level }
{
    let served = if level == 2 { 262_144 } else { 512 };
    input_check(
        Fact::Input(InputFact::Start { ipa, level }),
        ipa % served != 0,
    )
}

/// Creates the check that the count of a `ripas` step is from 1 to 512. The step sets the RIPAS of that many pages to
/// RAM.
pub(crate) fn run_count(count: u16) -> Check
    ensures { result ≡ run_count count }
{
    input_check(
        Fact::Input(InputFact::Count(count)),
        count < 1 || count > 512,
    )
}

/// Creates the check that one table of level 3 covers the `count` IPA granules from `ipa` on.
pub(crate) fn one_table(ipa: u32, count: u16) -> Check
    ensures { result ≡ one_table ipa count }
{
    let behind = ipa as u64 + count as u64;
    input_check(
        Fact::Input(InputFact::OneTable { ipa, count }),
        ipa as u64 / 512 != behind.saturating_sub(1) / 512,
    )
}
