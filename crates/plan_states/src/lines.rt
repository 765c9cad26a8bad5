//! The lines of text for the outcomes of schedules.
ghost use Rattle.std.specs.Prelude.{◌≡◌, ◌++◌, OnOk, string_bytes};
ghost use Rattle.std.specs.List.{flat_map};
ghost use Rattle.realm_plan.specs.PlanView.{plan_view};
ghost use Rattle.plan_states.specs.Lines.{share_text, schedules_line, refusal_words, refusals_line, end_shown, ends_of_giving_up, ends_of_step, give_up_shown, never_refused_line, never_refused_lines, map_shown};

use crate::schedule_text::ScheduleText;
use crate::step_end::EndOfStep;
use crate::tally::{PathTally, StepOutcomes};
use host_commands::Refusal;
use plan_replay::{GIVING_UP, step_after};
use realm_plan::{Plan, PlanStep, RefusalText, StepText};
use schedule_graph::Count;
use std::alloc::AllocError;
use std::fmt;

/// The outcome of a step as text, which is `ok`, or `no` and the refusal.
#[derive(Clone, Copy)]
struct EndWords(Option<Refusal>);

impl fmt::Display for EndWords {
    ghost use Rattle.std.specs.Prelude.{Some};
    ghost use Rattle.plan_states.specs.Lines.{words_of_end};

    ghost output = { λ end. Some (words_of_end end.0) };

    fn fmt<W: fmt::Write>(&self, f: &mut fmt::Formatter<W>) -> fmt::Result {
        match self.0 {
            Some(refusal) => write!(f, "no {}", RefusalText(refusal)),
            None => f.write_str("ok"),
        }
    }
}

/// Appends the line with the number of schedules.
pub(crate) fn push_count(text: &mut String, schedule_count: &Count) -> Result<(), AllocError>
    ensures { OnOk result (string_bytes text.new ≡ string_bytes text.old ++ schedules_line schedule_count.now) }
{
    text.push_str("schedules ")?;
    schedule_count.push_to(text)?;
    text.push_str("\n")
}

// Appends the number of schedules with an outcome and the first such schedule, or `in all` if every schedule has it.
fn push_shown(
    text: &mut String,
    schedule_count: &Count,
    count: &Count,
    first: &[usize],
) -> Result<(), AllocError>
    ensures { OnOk result (string_bytes text.new ≡ string_bytes text.old ++ share_text schedule_count.now count.now first.now) }
{
    if count.is_same(schedule_count) {
        return text.push_str(" in all\n");
    }
    text.push_str(" in ")?;
    count.push_to(text)?;
    writeln!(text, ", {}", ScheduleText(first))
}

// The words for whether some step of a schedule was refused.
fn refusal_words(is_refused: bool) -> &'static str
    ensures { result.now ≡ refusal_words is_refused }
{
    if is_refused {
        "some step refused"
    } else {
        "no step refused"
    }
}

/// Appends the counts of schedules with and without a refused step. Each count is a line.
pub(crate) fn push_by_refusal(
    text: &mut String,
    schedule_count: &Count,
    by_refusal: &[PathTally<bool>],
) -> Result<(), AllocError>
    ensures { OnOk result (string_bytes text.new ≡ string_bytes text.old ++ flat_map (refusals_line schedule_count.now) by_refusal.now) }
{
    for tally in by_refusal {
        text.push_str(refusal_words(tally.outcome))?;
        push_shown(text, schedule_count, &tally.count, &tally.first)?;
    }
    Ok(())
}

// Appends the line for one outcome of a build's step.
fn push_end(
    text: &mut String,
    schedule_count: &Count,
    step: &PlanStep,
    tally: &PathTally<EndOfStep>,
) -> Result<(), AllocError>
    ensures { OnOk result (string_bytes text.new ≡ string_bytes text.old ++ end_shown schedule_count.now step.now tally.now) }
{
    let end = tally.outcome;
    let words = EndWords(end.refusal);
    write!(
        text,
        "step {} {} {} = {words}",
        end.build,
        end.step,
        StepText(step)
    )?;
    push_shown(text, schedule_count, &tally.count, &tally.first)
}

/// Appends the lines for the outcomes of a build's step. Appends nothing if the plan has no such step.
pub(crate) fn push_step(
    text: &mut String,
    plan: &Plan,
    outcomes: &StepOutcomes,
    build: usize,
    place: usize,
) -> Result<(), AllocError>
    ensures { OnOk result (string_bytes text.new ≡ string_bytes text.old ++ ends_of_step (plan_view plan.now) outcomes.now build place) }
{
    let Some(step) = step_after(plan, build, place) else {
        return Ok(());
    };
    for tally in &outcomes.ends {
        if tally.outcome.build == build && tally.outcome.step == place {
            push_end(text, &outcomes.schedule_count, step, tally)?;
        }
    }
    Ok(())
}

// Appends the line for one outcome of the abort of a build that gives up.
fn push_give_up(
    text: &mut String,
    schedule_count: &Count,
    tally: &PathTally<EndOfStep>,
) -> Result<(), AllocError>
    ensures { OnOk result (string_bytes text.new ≡ string_bytes text.old ++ give_up_shown schedule_count.now tally.now) }
{
    let words = EndWords(tally.outcome.refusal);
    write!(text, "give up {} = {words}", tally.outcome.build)?;
    push_shown(text, schedule_count, &tally.count, &tally.first)
}

/// Appends the outcomes of the abort of a build that gives up after a refusal. There is a line for each outcome, and
/// none if the plan's builds do not give up.
pub(crate) fn push_give_ups(
    text: &mut String,
    plan: &Plan,
    outcomes: &StepOutcomes,
    build: usize,
) -> Result<(), AllocError>
    ensures { OnOk result (string_bytes text.new ≡ string_bytes text.old ++ ends_of_giving_up (plan_view plan.now) outcomes.now build) }
{
    if !plan.gives_up {
        return Ok(());
    }
    for tally in &outcomes.ends {
        if tally.outcome.build == build && tally.outcome.step == GIVING_UP {
            push_give_up(text, &outcomes.schedule_count, tally)?;
        }
    }
    Ok(())
}

// Appends the line of a tally that counts the schedules in which a build was never refused.
fn push_never_refused(
    text: &mut String,
    schedule_count: &Count,
    tally: &PathTally<usize>,
) -> Result<(), AllocError>
    ensures { OnOk result (string_bytes text.new ≡ string_bytes text.old ++ never_refused_line schedule_count.now tally.now) }
{
    write!(text, "never refused {}", tally.outcome)?;
    push_shown(text, schedule_count, &tally.count, &tally.first)
}

/// Appends a line with the number of schedules in which a build is never refused. The line begins with `never refused`.
/// The count may be 0.
pub(crate) fn push_never_refused_tallies(
    text: &mut String,
    schedule_count: &Count,
    never_refused: &[PathTally<usize>],
    build: usize,
) -> Result<(), AllocError>
    ensures { OnOk result (string_bytes text.new ≡ string_bytes text.old ++ never_refused_lines schedule_count.now never_refused.now build) }
{
    for tally in never_refused {
        if tally.outcome == build {
            return push_never_refused(text, schedule_count, tally);
        }
    }
    writeln!(text, "never refused {build} in 0")?;
    Ok(())
}

/// Appends a page map, below a line that counts the schedules that end with the map. The line has the first of these
/// schedules, or `in all`.
pub fn push_map<K>(
    text: &mut String,
    schedule_count: &Count,
    map: &str,
    tally: &PathTally<K>,
) -> Result<(), AllocError>
    ensures { OnOk result (string_bytes text.new ≡ string_bytes text.old ++ map_shown schedule_count.now map.now tally.now.first.items tally.now.count) }
{
    text.push_str("map")?;
    push_shown(text, schedule_count, &tally.count, &tally.first)?;
    text.push_str(map)
}
