//! The text of the outcomes of randomly drawn schedules.
ghost use Rattle.std.specs.Prelude.{◌≡◌, ◌++◌, OnOk, string_bytes};
ghost use Rattle.std.specs.List.{flat_map};
ghost use Rattle.realm_plan.specs.PlanView.{plan_view};
ghost use Rattle.view_program.specs.Lines.{drawn_line, map_lines, drawn_text};

use crate::schedules::totals::Totals;
use plan_states::{PathTally, push_map, push_step_outcomes};
use realm_plan::Plan;
use schedule_graph::Count;
use std::alloc::AllocError;

// Appends the line with the number of schedules.
fn push_drawn_count(text: &mut String, schedule_count: &Count) -> Result<(), AllocError>
    ensures { OnOk result (string_bytes text.new ≡ string_bytes text.old ++ drawn_line schedule_count.now) }
{
    text.push_str("schedules drawn ")?;
    schedule_count.push_to(text)?;
    text.push_str("\n")
}

// Appends the lines of the final maps.
fn push_maps(
    text: &mut String,
    schedule_count: &Count,
    maps: &[PathTally<String>],
) -> Result<(), AllocError>
    ensures { OnOk result (string_bytes text.new ≡ string_bytes text.old ++ flat_map (map_lines schedule_count.now) maps.now) }
{
    for map in maps {
        push_map(text, schedule_count, &map.outcome, map)?;
    }
    Ok(())
}

/// Appends the text of the outcomes of randomly drawn schedules. The text has the number of schedules, the outcomes of
/// steps, and the final maps. The one error is that allocation failed; the text may then have a part of it.
pub fn push_drawn(text: &mut String, plan: &Plan, totals: &Totals) -> Result<(), AllocError>
    ensures { OnOk result (string_bytes text.new ≡ string_bytes text.old ++ drawn_text (plan_view plan.now) totals.now) }
{
    push_drawn_count(text, &totals.steps.schedule_count)?;
    push_step_outcomes(text, plan, &totals.steps)?;
    push_maps(text, &totals.steps.schedule_count, &totals.maps)
}
