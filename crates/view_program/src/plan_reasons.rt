//! The text of a plan's run, with the reason for each refusal.
ghost use Rattle.std.specs.Prelude.{◌≡◌, ◌++◌, None, OnOk, IfOk, string_bytes};
ghost use Rattle.realm_plan.specs.PlanView.{plan_view};
ghost use Rattle.realm_program.specs.Replay.{IsWithoutText};
ghost use Rattle.view_program.specs.Why.{AppendsTurn, AppendsTurns, IsWhyText, unfinished_lines};

use crate::plan_text::ViewText;
use buddy::BuddyArena;
use explain::{ExplainedTurn, explain_turns, reason_lines, unfinished_aborts, unfinished_lines};
use plan_replay::push_map;
use realm_host::Host;
use realm_plan::Plan;
use realm_program::{Fault, boot};
use std::alloc::{AllocError, Global};

// Appends the line of a turn, and below it the reason for its refusal if it was refused.
fn push_turn(
    alloc: Global,
    text: &mut String,
    turn: &ExplainedTurn,
    all: bool,
) -> Result<(), AllocError>
    ensures { OnOk result (AppendsTurn all turn.now (string_bytes text.old) (string_bytes text.new)) }
{
    text.push_str(turn.line.as_str())?;
    match &turn.reason {
        Some(reason) => {
            let lines = reason_lines(alloc, reason, all)?;
            text.push_str(lines.as_str())
        }
        None => Ok(()),
    }
}

// Appends the lines of turns, with the reasons for their refusals.
fn push_turns(
    alloc: Global,
    text: &mut String,
    turns: &[ExplainedTurn],
    all: bool,
) -> Result<(), AllocError>
    ensures { OnOk result (AppendsTurns all turns.now (string_bytes text.old) (string_bytes text.new)) }
{
    for turn in turns {
        push_turn(alloc, text, turn, all)?;
    }
    Ok(())
}

// Appends the lines of the aborts that are under way.
fn push_unfinished(
    alloc: Global,
    text: &mut String,
    host: &Host<BuddyArena>,
) -> Result<(), AllocError>
    ensures { OnOk result (string_bytes text.new ≡ string_bytes text.old ++ unfinished_lines host.now) }
{
    let aborts = unfinished_aborts(alloc, host)?;
    let lines = unfinished_lines(alloc, aborts.as_slice())?;
    text.push_str(lines.as_str())
}

// The text of the plan's run on a fresh host, with the reasons for refusals.
fn why_text(alloc: Global, plan: &Plan, all: bool) -> Result<String, AllocError>
    ensures { IfOk result (λ text. IsWhyText all (plan_view plan.now) (string_bytes text)) }
{
    let mut host = boot::<BuddyArena>(alloc, plan)?;
    let turns = explain_turns(alloc, &mut host, plan)?;
    let mut text = String::new(alloc);
    push_turns(alloc, &mut text, turns.as_slice(), all)?;
    push_map(&mut text, &host)?;
    push_unfinished(alloc, &mut text, &host)?;
    Ok(text)
}

/// A kind of text for a plan: the lines of the plan's run, with the reason for each refusal. The text has the line of
/// each turn, and the failed check below the line of a refused turn. Then it has the final map, and what each
/// unfinished abort lacks. The text is missing only if allocation failed.
#[derive(Drop)]
pub struct Reasons {
    /// Whether the checks that passed before the failed check are listed too.
    pub all: bool,
}

impl ViewText for Reasons {
    ghost is_text = { λ asked _. IsWhyText asked.all };

    ghost is_without = { λ asked. IsWithoutText None };

    fn text_of(&self, alloc: Global, plan: Plan, _source: &[u8]) -> Result<Vec<u8>, Fault> {
        let text = why_text(alloc, &plan, self.all)?;
        Ok(text.into_bytes())
    }
}
