//! Checks on the translation table entries at which walks end, and functions that make RMI_ERROR_RTT answers with an
//! address in X1 or X2.
ghost use Rattle.std.specs.Prelude.{◌≡◌, ◌+◌, ◌≤◌, ◌==◌, Bool, not, nat_le, true, false, [], ◌∷◌, length, is_some};
ghost use Rattle.rmi_abi.specs.declared.registers.SmcResult.{SmcResult as Registers};
ghost use Rattle.rmm_model.specs.declared.condition.Condition.TheVariants.{RttWalk as WalkEnds, RtteState};
ghost use Rattle.rmm_model.specs.Check.{check, error_rtt_top};
ghost use Rattle.rmm_model.specs.Table as tables;
ghost use Rattle.rmm_model.specs.Walk as walks;
ghost use Rattle.rmm_model.specs.Command.RttUnmapUnprotected.{error_rtt_next};
ghost use Rattle.rmm_checks.specs.CanWalk.{page_below};
ghost use Rattle.rmm_checks.specs.Evaluated.{Adds, is_made, is_passed};

use crate::EvaluatedChecks;
use crate::walking::Reached;
use page_arena::PageStore;
use rmi_abi::{SmcResult, Word};
use rmm_granules::{Granules, table_below};
use rmm_model::{Condition, RmmRttEntry, has_live};

// ---- answers

// The answer RMI_ERROR_RTT with the level of a table, and with the address `top` in X2.
pub fn rtt_top(level: u8, top: u64) -> SmcResult
    ensures { result ≡ error_rtt_top top level }
{
    SmcResult {
        x2: top,
        ..SmcResult::only(Word::ErrorRtt(level))
    }
}

// The answer RMI_ERROR_RTT with the level of a table, and with the address `top` in X1.
pub fn rtt_next(level: u8, top: u64) -> SmcResult
    ensures { result ≡ error_rtt_next top level }
{
    SmcResult {
        x1: top,
        ..SmcResult::only(Word::ErrorRtt(level))
    }
}

// ---- tests

// Whether a walk reached a level.
fn is_at(reached: u8, level: u64) -> bool
    ensures { result ≡ (reached == level) }
{
    reached as u64 == level
}

// The level if it is at most 3, and 0 otherwise.
pub fn level_or_zero(level: u64) -> u8
    ensures value { nat_le level 3 ≡ true → result ≡ level }
    ensures low { result ≤ 3 }
{
    if level <= 3 { level as u8 } else { 0 }
}

// Whether the table that an entry leads to has a live entry.
pub fn is_live_below<S: PageStore>(granules: &Granules<S>, entry: RmmRttEntry) -> bool
    ensures { is_some (walks.table_below granules.now entry) ≡ true
        → result ≡ tables.has_live (page_below granules.now entry) }
{
    match table_below(granules, entry) {
        Some(table) => has_live(granules.page(table)),
        None => false,
    }
}

// ---- checks

// Adds the checks that a walk reaches a level, and that the entry there is as required.
pub fn add_entry(
    checks: &mut EvaluatedChecks,
    after: &[Condition],
    reached: &Reached,
    level: u64,
    fits: bool,
    answer: SmcResult,
)
    requires room { length checks.old + 2 ≤ 18 }
    ensures rows { (at is : Bool) (refused : Registers)
        → (is_made checks.old after.now ≡ true
        → ((reached.now.level == level) ≡ at) × ((fits ≡ is) × (answer ≡ refused)))
        → is_passed checks.old WalkEnds ≡ false
        → Adds checks.old
        (check WalkEnds after.now (not at) refused ∷ check RtteState (WalkEnds ∷ []) (not is) refused ∷ []) checks.new }
    ensures passed { is_passed checks.old WalkEnds ≡ false → is_passed checks.old RtteState ≡ false
        → is_made checks.new (RtteState ∷ []) ≡ true → (is_made checks.old after.now ≡ true) × (fits ≡ true) }
    ensures length { length checks.new ≡ length checks.old + 2 }
{
    checks.add(
        Condition::RttWalk,
        after,
        !is_at(reached.level, level),
        answer,
    );
    checks.add(Condition::RtteState, &[Condition::RttWalk], !fits, answer);
}
