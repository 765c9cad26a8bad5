//! Checks whether a worker's report matches a history of events.
ghost use Rattle.std.specs.Prelude.{◌≡◌, ◌↔◌, ◌≤◌, length, drop, slice_get, true, IfOk, IfSome, OnOk};
ghost use Rattle.std.specs.List.{All};
ghost use Rattle.realm_model.specs.Stack.{pushed};
ghost use Rattle.realm_model.specs.History.{events_of};
ghost use Rattle.realm_program.specs.Fitting.{DoesFit, ReportFits};

use crate::line::{is_done, line_fits};
use builders::Report;
use granule_addr::BuildId;
use host_commands::Step;
use realm_model::{Act, Event};
use std::alloc::{AllocError, Global};

// The index of a build's first event at or after index `from`, or the length of the history if there is none.
fn next_of(history: &[Event], build: BuildId, from: usize) -> usize
    requires { from ≤ length history.now }
    ensures within { result ≤ length history.now }
    ensures same { events_of build (drop result history.now) ≡ events_of build (drop from history.now) }
    ensures own { IfSome (slice_get history.now result) (λ event. event.build ≡ build) }
{
    for place in from..history.len() {
        if history[place].build == build {
            return place;
        }
    }
    history.len()
}

// Updates the list of open operations after an operation.
fn follow(opened: &mut Vec<Act>, act: &Act) -> Result<(), AllocError>
    ensures { OnOk result (opened.new.items ≡ pushed opened.old.items act.now) }
{
    if act.is_paired() {
        opened.push(act.clone())?;
    } else if act.is_reverse() {
        opened.pop();
    }
    Ok(())
}

/// Returns whether the lines of a report match the events of its build in a history. The accepted lines have to match
/// the events one by one.
///
/// The steps are the build's plan. The history is any list of events, and need not be legal. There are as many accepted
/// lines as events of the build, and the question of each is that of its event. For a command, the event has the
/// command's operation, with page numbers turned into granules by the pages that the build had then. For an undo, it
/// has the reverse of what the build had opened last. The answer is the one that a host gives for that. A line of a
/// mark has the number of operations that were open. A line of a step that the plan does not have matches nothing.
///
/// The one error is that the list of open operations cannot grow.
pub fn fits(
    alloc: Global,
    history: &[Event],
    report: &Report,
    steps: &[Step],
) -> Result<bool, AllocError>
    ensures { IfOk result (λ told. (told ≡ true) ↔ DoesFit report.now.build steps.now report.now.lines.items history.now) }
{
    let mut opened = Vec::new(alloc);
    let mut next = next_of(history, report.build, 0);
    for line in report.lines.as_slice() {
        if !line_fits(opened.as_slice(), history, next, steps, line) {
            return Ok(false);
        }
        if is_done(&line.answer) {
            follow(&mut opened, &history[next].act)?;
            next = next_of(history, report.build, next + 1);
        }
    }
    Ok(next == history.len())
}

/// Returns whether all given reports match the events of a history. Each report is checked with the steps that are
/// paired with it.
pub fn fit_all(
    alloc: Global,
    history: &[Event],
    reports: &[(Report, Vec<Step>)],
) -> Result<bool, AllocError>
    ensures { IfOk result (λ told. (told ≡ true) ↔ All (ReportFits history.now) reports.now) }
{
    for (report, steps) in reports {
        if !fits(alloc, history, report, steps.as_slice())? {
            return Ok(false);
        }
    }
    Ok(true)
}
