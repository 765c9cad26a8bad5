//! The checks of RMI_VERSION, RMI_FEATURES and RMI_REC_AUX_COUNT.
ghost use Rattle.std.specs.Prelude.{◌≡◌, ◌==◌};
ghost use Rattle.rmi_abi.specs.declared.word.Word.TheVariants.{ErrorInput};
ghost use Rattle.rmm_model.specs.Command.Features as asking;
ghost use Rattle.rmm_model.specs.Command.RecAuxCount as counting;
ghost use Rattle.rmm_model.specs.Command.Version as versions;
ghost use Rattle.rmm_checks.specs.Evaluated.{evaluated};

use crate::EvaluatedChecks;
use crate::realm::add_rd;
use page_arena::PageStore;
use rmi_abi::{SmcResult, Word};
use rmm_granules::Granules;
use rmm_model::Condition;

// The version of the RMI, 1.0.
const VERSION: u64 = 0x1_0000;

// Whether a version is the only supported version.
fn is_version(requested: u64) -> bool
    ensures { result ≡ (requested == 0x10000) }
{
    requested == VERSION
}

// RMI_ERROR_INPUT with the lowest and the highest supported version.
fn version_error() -> SmcResult
    ensures { result ≡ versions.versions ErrorInput }
{
    SmcResult {
        x1: VERSION,
        x2: VERSION,
        ..SmcResult::only(Word::ErrorInput)
    }
}

// The checks of RMI_VERSION.
#[tactic(auto, unfolding(rmm_model::specs::Command::Version::version))]
pub fn version<S: PageStore>(granules: &Granules<S>, requested: u64) -> EvaluatedChecks
    ensures { result ≡ evaluated (versions.version requested granules.now).checks }
{
    let mut checks = EvaluatedChecks::new();
    let _settings = granules.settings();
    checks.add(
        Condition::Version,
        &[],
        !is_version(requested),
        version_error(),
    );
    checks
}

// The checks of RMI_FEATURES.
#[tactic(auto, unfolding(rmm_model::specs::Command::Features::features, crate::specs::Evaluated::evaluated_after))]
pub fn features<S: PageStore>(granules: &Granules<S>, index: u64) -> EvaluatedChecks
    ensures { result ≡ evaluated (asking.features index granules.now).checks }
{
    let _settings = granules.settings();
    EvaluatedChecks::new()
}

// The checks of RMI_REC_AUX_COUNT.
#[tactic(auto, unfolding(rmm_model::specs::Command::RecAuxCount::rec_aux_count))]
pub fn rec_aux_count<S: PageStore>(granules: &Granules<S>, rd: u64) -> EvaluatedChecks
    ensures { result ≡ evaluated (counting.rec_aux_count rd granules.now).checks }
{
    let mut checks = EvaluatedChecks::new();
    add_rd(&mut checks, granules, rd);
    checks
}
