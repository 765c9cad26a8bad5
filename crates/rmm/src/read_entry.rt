//! The command RMI_RTT_READ_ENTRY.
ghost use Rattle.std.specs.Prelude.{◌≡◌, IfOk};
ghost use Rattle.rmm_model.specs.Check.{outcome, first_failing, refusal_in};
ghost use Rattle.rmm_model.specs.Command.RttReadEntry.{rtt_read_entry as reading};

use crate::operand::{check_ipa, realm_of};
use page_arena::PageStore;
use rmi_abi::{SmcResult, Word};
use rmm_granules::{Granules, entry_at, walk};
use rmm_model::FailedCondition;

// Returns the answer of RMI_RTT_READ_ENTRY, or the failed condition.
#[tactic(auto, unfolding(rmm_model::specs::Command::RttReadEntry::rtt_read_entry))]
fn find_entry<S: PageStore>(
    granules: &Granules<S>,
    rd: u64,
    ipa: u64,
    level: u64,
) -> Result<SmcResult, FailedCondition>
    ensures refusal { refusal_in result ≡ first_failing (reading rd ipa level granules.now).checks }
    ensures answer { IfOk result (λ answer. answer ≡ (reading rd ipa level granules.now).answer) }
{
    let owner = realm_of(granules, rd)?;
    let level = check_ipa(&owner.realm, owner.realm.start_level, level, 0, ipa)?;
    let found = walk(granules, &owner.realm, ipa, level);
    let entry = entry_at(granules, &found, ipa);
    Ok(SmcResult {
        word: Word::Success,
        x1: found.level as u64,
        x2: entry.state_code(),
        x3: entry.descriptor(),
        x4: entry.ripas_code(),
    })
}

// Performs RMI_RTT_READ_ENTRY.
#[tactic(auto, unfolding(rmm_model::specs::Command::RttReadEntry::rtt_read_entry))]
pub fn rtt_read_entry<S: PageStore>(
    granules: &Granules<S>,
    rd: u64,
    ipa: u64,
    level: u64,
) -> SmcResult
    ensures answer { result ≡ (outcome (reading rd ipa level granules.now) granules.now).0 }
    ensures machine { (outcome (reading rd ipa level granules.now) granules.now).1 ≡ granules.now }
{
    match find_entry(granules, rd, ipa, level) {
        Ok(answer) => answer,
        Err(refusal) => refusal.into_answer(),
    }
}
