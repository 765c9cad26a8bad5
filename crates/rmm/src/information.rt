//! The commands RMI_VERSION, RMI_FEATURES and RMI_REC_AUX_COUNT. These commands report on the RMM and change nothing.
ghost use Rattle.std.specs.Prelude.{◌≡◌};
ghost use Rattle.rmm_model.specs.Check.{outcome};
ghost use Rattle.rmm_model.specs.Command.Version.{version as versions};
ghost use Rattle.rmm_model.specs.Command.Features.{features as feature};
ghost use Rattle.rmm_model.specs.Command.RecAuxCount.{rec_aux_count as counting};

use crate::operand::realm_of;
use page_arena::PageStore;
use rmi_abi::{SmcResult, Word, feature_register};
use rmm_granules::Granules;

// Version 1.0 of the RMI, the only one that this RMM supports.
const VERSION: u64 = 0x1_0000;

// Performs RMI_VERSION.
#[tactic(auto, unfolding(rmm_model::specs::Command::Version::version))]
pub fn version<S: PageStore>(granules: &Granules<S>, requested: u64) -> SmcResult
    ensures answer { result ≡ (outcome (versions requested granules.now) granules.now).0 }
    ensures machine { (outcome (versions requested granules.now) granules.now).1 ≡ granules.now }
{
    let word = if requested == VERSION {
        Word::Success
    } else {
        Word::ErrorInput
    };
    SmcResult {
        x1: VERSION,
        x2: VERSION,
        ..SmcResult::only(word)
    }
}

// Performs RMI_FEATURES.
#[tactic(auto, unfolding(rmm_model::specs::Command::Features::features))]
pub fn features<S: PageStore>(granules: &Granules<S>, index: u64) -> SmcResult
    ensures answer { result ≡ (outcome (feature index granules.now) granules.now).0 }
    ensures machine { (outcome (feature index granules.now) granules.now).1 ≡ granules.now }
{
    SmcResult {
        x1: feature_register(granules.platform(), index),
        ..SmcResult::only(Word::Success)
    }
}

// Performs RMI_REC_AUX_COUNT.
#[tactic(auto, unfolding(rmm_model::specs::Command::RecAuxCount::rec_aux_count))]
pub fn rec_aux_count<S: PageStore>(granules: &Granules<S>, rd: u64) -> SmcResult
    ensures answer { result ≡ (outcome (counting rd granules.now) granules.now).0 }
    ensures machine { (outcome (counting rd granules.now) granules.now).1 ≡ granules.now }
{
    match realm_of(granules, rd) {
        Ok(_) => SmcResult {
            x1: granules.settings().aux as u64,
            ..SmcResult::only(Word::Success)
        },
        Err(refusal) => refusal.into_answer(),
    }
}
