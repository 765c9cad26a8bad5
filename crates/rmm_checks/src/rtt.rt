//! The checks of RMI_RTT_CREATE and RMI_RTT_DESTROY.
ghost use Rattle.std.specs.Prelude.{◌≡◌};
ghost use Rattle.rmm_model.specs.Command.RttCreate.{rtt_create as creating};
ghost use Rattle.rmm_model.specs.Command.RttDestroy.{rtt_destroy as destroying};
ghost use Rattle.rmm_checks.specs.Evaluated.{evaluated};

use crate::EvaluatedChecks;
use crate::entry::{add_entry, is_live_below, level_or_zero, rtt_top};
use crate::operand::add_delegated;
use crate::realm::{add_ipa, add_rd, start_level_at};
use crate::walking::reach;
use page_arena::PageStore;
use rmi_abi::{SmcResult, Word};
use rmm_granules::{Granules, OperandConditions, table_below};
use rmm_model::Condition;

// The checks of RMI_RTT_CREATE.
pub fn rtt_create<S: PageStore>(
    granules: &Granules<S>,
    rd: u64,
    rtt: u64,
    ipa: u64,
    level: u64,
) -> EvaluatedChecks
    ensures { result ≡ evaluated (creating rd rtt ipa level granules.now).checks }
{
    let mut checks = EvaluatedChecks::new();
    add_delegated(&mut checks, granules, OperandConditions::RTT, rtt);
    add_rd(&mut checks, granules, rd);
    let least = start_level_at(granules, rd) + 1;
    add_ipa(&mut checks, granules, rd, least, level, 1, ipa);
    let to = level.saturating_sub(1);
    let reached = reach(granules, rd, ipa, to);
    let is_table = reached.entry.is_table();
    let answer = SmcResult::only(Word::ErrorRtt(reached.level));
    add_entry(
        &mut checks,
        &[Condition::RdState, Condition::IpaAlign, Condition::IpaBound],
        &reached,
        to,
        !is_table,
        answer,
    );
    checks
}

// The checks of RMI_RTT_DESTROY.
pub fn rtt_destroy<S: PageStore>(
    granules: &Granules<S>,
    rd: u64,
    ipa: u64,
    level: u64,
) -> EvaluatedChecks
    ensures { result ≡ evaluated (destroying rd ipa level granules.now).checks }
{
    let mut checks = EvaluatedChecks::new();
    add_rd(&mut checks, granules, rd);
    let least = start_level_at(granules, rd) + 1;
    add_ipa(&mut checks, granules, rd, least, level, 1, ipa);
    let to = level.saturating_sub(1);
    let reached = reach(granules, rd, ipa, to);
    let table = table_below(granules, reached.entry);
    let answer = rtt_top(reached.level, reached.top);
    add_entry(
        &mut checks,
        &[Condition::RdState, Condition::IpaAlign, Condition::IpaBound],
        &reached,
        to,
        table.is_some(),
        answer,
    );
    let live = is_live_below(granules, reached.entry);
    let own = level_or_zero(level);
    let refused = rtt_top(own, reached.top);
    checks.add(Condition::RttLive, &[Condition::RtteState], live, refused);
    checks
}
