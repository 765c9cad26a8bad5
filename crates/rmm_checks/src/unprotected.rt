//! The checks of RMI_RTT_MAP_UNPROTECTED and RMI_RTT_UNMAP_UNPROTECTED.
ghost use Rattle.std.specs.Prelude.{◌≡◌};
ghost use Rattle.rmm_model.specs.Command.RttMapUnprotected as mapping;
ghost use Rattle.rmm_model.specs.Command.RttUnmapUnprotected as unmapping;
ghost use Rattle.rmm_checks.specs.Evaluated.{evaluated};

use crate::EvaluatedChecks;
use crate::entry::{add_entry, rtt_next};
use crate::realm::{add_rd, add_unprotected, is_multiple, size_of};
use crate::walking::reach;
use page_arena::PageStore;
use rmi_abi::{RmmSettings, SmcResult, Word};
use rmm_granules::{Granules, has_attributes};
use rmm_model::Condition;

// Whether a value is a valid descriptor for an entry of a level.
#[tactic(auto, unfolding(rmm_model::specs::Command::RttMapUnprotected::is_descriptor))]
fn is_descriptor(settings: &RmmSettings, level: u64, desc: u64) -> bool
    ensures { result ≡ mapping.is_descriptor settings.now level desc }
{
    has_attributes(settings, desc) && is_multiple(desc / 4096 * 4096, size_of(level))
}

// The checks of RMI_RTT_MAP_UNPROTECTED.
pub fn rtt_map_unprotected<S: PageStore>(
    granules: &Granules<S>,
    rd: u64,
    ipa: u64,
    level: u64,
    desc: u64,
) -> EvaluatedChecks
    ensures { result ≡ evaluated (mapping.rtt_map_unprotected rd ipa level desc granules.now).checks }
{
    let mut checks = EvaluatedChecks::new();
    add_rd(&mut checks, granules, rd);
    add_unprotected(&mut checks, granules, rd, level, ipa);
    let settings = granules.settings();
    let is_right = is_descriptor(settings, level, desc);
    checks.input(Condition::DescBound, &[Condition::LevelBound], !is_right);
    let reached = reach(granules, rd, ipa, level);
    let fits = reached.entry.is_unassigned_ns();
    let answer = SmcResult::only(Word::ErrorRtt(reached.level));
    add_entry(
        &mut checks,
        &[Condition::RdState, Condition::IpaAlign, Condition::IpaBound],
        &reached,
        level,
        fits,
        answer,
    );
    checks
}

// The checks of RMI_RTT_UNMAP_UNPROTECTED.
pub fn rtt_unmap_unprotected<S: PageStore>(
    granules: &Granules<S>,
    rd: u64,
    ipa: u64,
    level: u64,
) -> EvaluatedChecks
    ensures { result ≡ evaluated (unmapping.rtt_unmap_unprotected rd ipa level granules.now).checks }
{
    let mut checks = EvaluatedChecks::new();
    add_rd(&mut checks, granules, rd);
    add_unprotected(&mut checks, granules, rd, level, ipa);
    let reached = reach(granules, rd, ipa, level);
    let fits = reached.entry.is_assigned_ns();
    let answer = rtt_next(reached.level, reached.top);
    add_entry(
        &mut checks,
        &[Condition::RdState, Condition::IpaAlign, Condition::IpaBound],
        &reached,
        level,
        fits,
        answer,
    );
    checks
}
