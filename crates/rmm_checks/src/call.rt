//! The checks of an RMI call, evaluated on a machine.
ghost use Rattle.std.specs.Prelude.{◌≡◌};
ghost use Rattle.rmm_model.specs.Allowed.{allowed_words, or_success};
ghost use Rattle.rmm_model.specs.Call.{command_of};
ghost use Rattle.rmm_model.specs.Check.{first_failing};
ghost use Rattle.rmm_checks.specs.Evaluated.{evaluated, failed_words, first_failed};

use crate::EvaluatedChecks;
use crate::data::{data_create, data_create_unknown, data_destroy};
use crate::fold::rtt_fold;
use crate::granule::{granule_delegate, granule_undelegate};
use crate::information::{features, rec_aux_count, version};
use crate::psci::psci_complete;
use crate::read_entry::rtt_read_entry;
use crate::realm::realm_activate;
use crate::realm_create::realm_create;
use crate::realm_destroy::realm_destroy;
use crate::rec::rec_destroy;
use crate::rec_create::rec_create;
use crate::rec_enter::rec_enter;
use crate::ripas::{rtt_init_ripas, rtt_set_ripas};
use crate::rtt::{rtt_create, rtt_destroy};
use crate::unprotected::{rtt_map_unprotected, rtt_unmap_unprotected};
use page_arena::PageStore;
use rmi_abi::Call;
use rmm_granules::Granules;

/// Evaluates the checks of an RMI call on a machine. The result has each check with its outcome, in the sequence of the
/// command's definition.
///
/// The first check that was made and failed decides. An RMM may answer with the word of each check that was made and
/// failed; if there is none, with RMI_SUCCESS alone.
pub fn checks_of<S: PageStore>(granules: &Granules<S>, call: Call) -> EvaluatedChecks
    ensures rows { result ≡ evaluated (command_of call granules.now).checks }
    ensures deciding { first_failed result ≡ first_failing (command_of call granules.now).checks }
    ensures words { or_success (failed_words result) ≡ allowed_words (command_of call granules.now) }
{
    evaluate(granules, call)
}

// The checks of a call on a machine with their outcomes.
fn evaluate<S: PageStore>(granules: &Granules<S>, call: Call) -> EvaluatedChecks
    ensures { result ≡ evaluated (command_of call granules.now).checks }
{
    match call {
        Call::Version { requested } => version(granules, requested),
        Call::Features { index } => features(granules, index),
        Call::GranuleDelegate { address } => granule_delegate(granules, address),
        Call::GranuleUndelegate { address } => granule_undelegate(granules, address),
        Call::RealmCreate { rd, params } => realm_create(granules, rd, params),
        Call::RealmActivate { rd } => realm_activate(granules, rd),
        Call::RecAuxCount { rd } => rec_aux_count(granules, rd),
        Call::RttReadEntry { rd, ipa, level } => rtt_read_entry(granules, rd, ipa, level),
        Call::RttCreate {
            rd,
            rtt,
            ipa,
            level,
        } => rtt_create(granules, rd, rtt, ipa, level),
        Call::RttDestroy { rd, ipa, level } => rtt_destroy(granules, rd, ipa, level),
        Call::RealmDestroy { rd } => realm_destroy(granules, rd),
        Call::RttFold { rd, ipa, level } => rtt_fold(granules, rd, ipa, level),
        Call::RttMapUnprotected {
            rd,
            ipa,
            level,
            descriptor,
        } => rtt_map_unprotected(granules, rd, ipa, level, descriptor),
        Call::RttUnmapUnprotected { rd, ipa, level } => rtt_unmap_unprotected(
            granules, rd, ipa, level,
        ),
        Call::DataCreateUnknown { rd, data, ipa } => data_create_unknown(granules, rd, data, ipa),
        Call::DataCreate {
            rd,
            data,
            ipa,
            source,
            flags,
        } => data_create(granules, rd, data, ipa, source, flags),
        Call::RttInitRipas { rd, base, top } => rtt_init_ripas(granules, rd, base, top),
        Call::RttSetRipas { rd, rec, base, top } => rtt_set_ripas(granules, rd, rec, base, top),
        Call::DataDestroy { rd, ipa } => data_destroy(granules, rd, ipa),
        Call::RecCreate { rd, rec, params } => rec_create(granules, rd, rec, params),
        Call::RecDestroy { rec } => rec_destroy(granules, rec),
        Call::RecEnter { rec, run } => rec_enter(granules, rec, run),
        Call::PsciComplete {
            calling,
            target,
            status,
        } => psci_complete(granules, calling, target, status),
    }
}
