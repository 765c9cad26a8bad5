//! The command RMI_DATA_CREATE.
ghost use Rattle.std.specs.Prelude.{◌≡◌, ◌≢◌, ◌<◌, IfOk};
ghost use Rattle.rmm_model.specs.Check.{outcome, first_failing, refusal_in};
ghost use Rattle.rmm_model.specs.Machine.{granule_count};
ghost use Rattle.rmm_model.specs.Command.DataCreate as command;
ghost use Rattle.rmm.specs.NewPages.{flags_checks, with_data};
ghost use Rattle.rmm.specs.CheckedOperands.{IsSource, IsTarget, IsNewPage};

use crate::operand::{Rd, check_entry, check_page, delegated, host_page, realm_of};
use crate::realm::{check_new, set_rim};
use crate::walking::write;
use granule_addr::Gran;
use page_arena::PageStore;
use rmi_abi::{HashAlgorithm, RmmSettings, SmcResult, Word};
use rmm_granules::{Granules, OperandConditions, entry_at, walk};
use rmm_model::{
    Condition, Extension, FailedCondition, RmmGranule, RmmGranuleState, RmmRealm, RmmRipas,
    RmmRttEntry, RttWalk, error_input, error_rtt, extend, page_digest,
};

// The host's page to copy, and the granule that becomes the page of data.
#[derive(Clone, Copy)]
pub struct Source {
    pub page: Gran,
    pub granule: Gran,
}

// The RD and the realm of a new page, and the table with the page's entry.
#[derive(Clone, Copy)]
pub struct Target {
    pub owner: Rd,
    pub found: RttWalk,
}

// A page of data that can be created: its source, its granule, its RD with the realm, and the table with its entry.
#[derive(Clone, Copy)]
pub struct NewPage {
    pub source: Gran,
    pub granule: Gran,
    pub owner: Rd,
    pub found: RttWalk,
}

// ---- operands

// Checks that all flags but bit 0 are clear, if the settings require the check.
fn check_flags(settings: &RmmSettings, flags: u64) -> Result<(), FailedCondition>
    ensures { refusal_in result ≡ first_failing (flags_checks settings.now flags) }
{
    if !settings.ignores_data_flags && flags > 1 {
        return Err(error_input(Condition::FlagsValid));
    }
    Ok(())
}

// Returns the source and the granule of a page of data, or the failed condition.
#[tactic(auto, unfolding(rmm_model::specs::Command::DataCreate::source_checks), using(crate::proofs::StatesDiffer::delegated_apart))]
fn find_source<S: PageStore>(
    granules: &Granules<S>,
    page: u64,
    source: u64,
    flags: u64,
) -> Result<Source, FailedCondition>
    ensures refusal { refusal_in result
        ≡ first_failing (command.source_checks granules.now page source flags) }
    ensures found { IfOk result (IsSource granules.now page source) }
{
    check_flags(granules.settings(), flags)?;
    let source = host_page(granules, source, OperandConditions::SOURCE)?;
    let granule = delegated(granules, page, OperandConditions::DATA)?;
    Ok(Source {
        page: source,
        granule,
    })
}

// Checks that a walk reached level 3, and that the entry is UNASSIGNED, with RIPAS RAM if the settings require it.
fn check_vacant(
    settings: &RmmSettings,
    found: &RttWalk,
    entry: RmmRttEntry,
) -> Result<(), FailedCondition>
    ensures { refusal_in result ≡ first_failing (command.vacancy_checks settings.now found.now entry) }
{
    check_entry(found, 3, entry.is_unassigned())?;
    if settings.data_needs_ram && !entry.ripas().is_ram() {
        return Err(error_rtt(Condition::RtteRipas, found.level));
    }
    Ok(())
}

// Returns the realm of a new page of data and the table with the page's entry, or the failed condition.
#[tactic(auto, unfolding(rmm_model::specs::Command::DataCreate::target_checks))]
fn find_target<S: PageStore>(
    granules: &Granules<S>,
    rd: u64,
    ipa: u64,
) -> Result<Target, FailedCondition>
    ensures refusal { refusal_in result ≡ first_failing (command.target_checks granules.now rd ipa) }
    ensures found { IfOk result (IsTarget granules.now rd ipa) }
{
    let owner = realm_of(granules, rd)?;
    check_page(&owner.realm, ipa)?;
    check_new(&owner.realm)?;
    let found = walk(granules, &owner.realm, ipa, 3);
    check_vacant(granules.settings(), &found, entry_at(granules, &found, ipa))?;
    Ok(Target { owner, found })
}

// Returns the page that RMI_DATA_CREATE creates, or the failed condition.
fn find_page<S: PageStore>(
    granules: &Granules<S>,
    rd: u64,
    page: u64,
    ipa: u64,
    source: u64,
    flags: u64,
) -> Result<NewPage, FailedCondition>
    ensures refusal { refusal_in result
        ≡ first_failing (command.data_create rd page ipa source flags granules.now).checks }
    ensures found { IfOk result (IsNewPage granules.now rd page ipa source) }
{
    let source = find_source(granules, page, source, flags)?;
    let target = find_target(granules, rd, ipa)?;
    Ok(NewPage {
        source: source.page,
        granule: source.granule,
        owner: target.owner,
        found: target.found,
    })
}

// ---- the measurement

// The digest of a page if the flags ask for its measurement, and zeros otherwise.
#[tactic(auto, unfolding(rmm_model::specs::Command::DataCreate::content_digest, rmm_model::specs::Bytes::zeros))]
fn content_digest(hash: HashAlgorithm, flags: u64, page: &[u8]) -> [u8; 64]
    ensures { result ≡ command.content_digest hash flags page.now }
{
    if flags % 2 == 1 {
        page_digest(hash, page)
    } else {
        [0; 64]
    }
}

// The measurement of a realm after a page of data is created.
#[tactic(auto, unfolding(rmm_model::specs::Command::DataCreate::rim_with_data))]
fn rim_with_data(realm: &RmmRealm, ipa: u64, flags: u64, page: &[u8]) -> [u8; 64]
    ensures { result ≡ command.rim_with_data realm.now ipa flags page.now }
{
    let extension = Extension::Data {
        ipa,
        flags,
        digest: content_digest(realm.hash, flags, page),
    };
    extend(realm.hash, &realm.rim, &extension)
}

// ---- the command

// Turns a granule into a page of data with the bytes of the source, and writes the entry that leads to the page.
fn write_page<S: PageStore>(granules: &mut Granules<S>, place: &NewPage, page: u64, ipa: u64)
    requires source { place.now.source < granule_count granules.old }
    requires inside { place.now.granule < granule_count granules.old }
    requires apart { place.now.granule ≢ place.now.source }
    requires above { place.now.found.table < granule_count granules.old }
    ensures machine { granules.new ≡ with_data granules.old place.now page ipa }
    ensures count { granule_count granules.new ≡ granule_count granules.old }
{
    let kept = RmmGranule {
        state: RmmGranuleState::Data,
        owner: Some(place.owner.granule),
    };
    granules.set(place.granule, kept);
    granules.copy(place.granule, place.source);
    write(
        granules,
        &place.found,
        ipa,
        RmmRttEntry::Assigned(RmmRipas::Ram, page),
    );
}

// Performs RMI_DATA_CREATE.
#[inline(never)]
#[tactic(auto, unfolding(rmm_model::specs::Command::DataCreate::data_create))]
pub fn data_create<S: PageStore>(
    granules: &mut Granules<S>,
    rd: u64,
    page: u64,
    ipa: u64,
    source: u64,
    flags: u64,
) -> SmcResult
    ensures answer { result
        ≡ (outcome (command.data_create rd page ipa source flags granules.old) granules.old).0 }
    ensures machine { granules.new
        ≡ (outcome (command.data_create rd page ipa source flags granules.old) granules.old).1 }
{
    match find_page(granules, rd, page, ipa, source, flags) {
        Ok(place) => {
            let rim = rim_with_data(&place.owner.realm, ipa, flags, granules.page(place.source));
            write_page(granules, &place, page, ipa);
            set_rim(granules, &place.owner, &rim);
            SmcResult::only(Word::Success)
        }
        Err(refusal) => refusal.into_answer(),
    }
}
