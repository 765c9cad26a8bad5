//! The checks of RMI_RTT_FOLD.
ghost use Rattle.std.specs.Prelude.{◌≡◌, ◌≤◌, nat_le, true, is_some};
ghost use Rattle.rmm_model.specs.Walk as walks;
ghost use Rattle.rmm_model.specs.Command.RttFold as command;
ghost use Rattle.rmm_checks.specs.CanWalk.{page_below};
ghost use Rattle.rmm_checks.specs.Evaluated.{evaluated};

use crate::EvaluatedChecks;
use crate::entry::add_entry;
use crate::realm::{add_ipa, add_rd, start_level_at};
use crate::walking::reach;
use page_arena::PageStore;
use rmi_abi::{SmcResult, Word};
use rmm_granules::{Granules, is_block_too_high, is_homogeneous, table_below};
use rmm_model::{Condition, RmmRttEntry};

// The level if it is 1 to 3, and 1 otherwise.
fn level_or_one(level: u64) -> u8
    ensures value { nat_le 1 level ≡ true → nat_le level 3 ≡ true → result ≡ level }
    ensures some { 1 ≤ result }
{
    if 1 <= level && level <= 3 {
        level as u8
    } else {
        1
    }
}

// Whether the table that an entry leads to is homogeneous.
fn is_homogeneous_below<S: PageStore>(granules: &Granules<S>, entry: RmmRttEntry, level: u8) -> bool
    requires { 1 ≤ level }
    ensures { is_some (walks.table_below granules.now entry) ≡ true
        → result ≡ command.is_homogeneous (page_below granules.now entry) level }
{
    match table_below(granules, entry) {
        Some(table) => is_homogeneous(granules.page(table), level),
        None => false,
    }
}

// Whether folding the table that an entry leads to would make a block at a level that cannot have blocks.
fn is_too_high_below<S: PageStore>(granules: &Granules<S>, entry: RmmRttEntry, level: u8) -> bool
    ensures { is_some (walks.table_below granules.now entry) ≡ true
        → result ≡ command.is_block_too_high granules.now.settings (page_below granules.now entry) level }
{
    match table_below(granules, entry) {
        Some(table) => is_block_too_high(granules.settings(), granules.page(table), level),
        None => false,
    }
}

// The checks of RMI_RTT_FOLD.
pub fn rtt_fold<S: PageStore>(
    granules: &Granules<S>,
    rd: u64,
    ipa: u64,
    level: u64,
) -> EvaluatedChecks
    ensures { result ≡ evaluated (command.rtt_fold rd ipa level granules.now).checks }
{
    let mut checks = EvaluatedChecks::new();
    add_rd(&mut checks, granules, rd);
    let least = start_level_at(granules, rd) + 1;
    add_ipa(&mut checks, granules, rd, least, level, 1, ipa);
    let to = level.saturating_sub(1);
    let reached = reach(granules, rd, ipa, to);
    let table = table_below(granules, reached.entry);
    let answer = SmcResult::only(Word::ErrorRtt(reached.level));
    add_entry(
        &mut checks,
        &[Condition::RdState, Condition::IpaAlign, Condition::IpaBound],
        &reached,
        to,
        table.is_some(),
        answer,
    );
    let own = level_or_one(level);
    let same = is_homogeneous_below(granules, reached.entry, own);
    checks.rtt(Condition::RttHomo, &[Condition::RtteState], !same, own);
    let high = is_too_high_below(granules, reached.entry, own);
    checks.rtt(Condition::RttBlock, &[Condition::RttHomo], high, own - 1);
    checks
}
