//! The log of the turns that were run along a state graph's paths. Each turn is between two snapshots.
ghost use Rattle.std.specs.Prelude.{◌≡◌, true, [], ℕ, OnOk, IfOk, IfErr, List, Some, slice_get};
ghost use Rattle.std.specs.Bool.{OnTrue};
ghost use Rattle.std.specs.declared.alloc.Global.{Global};
ghost use Rattle.std.specs.declared.string.String.{String};
ghost use Rattle.realm_plan.specs.PlanView.{plan_view};
ghost use Rattle.realm_program.specs.Replay.{opening_host};
ghost use Rattle.plan_replay.specs.Run.{start};
ghost use Rattle.plan_states.specs.Exploration.{HasNoGraph};
ghost use Rattle.plan_states.specs.Questions.{pages_of_builds};
ghost use Rattle.plan_states.specs.Runs.{end_named, IsLabelled, IsMapNamed};
ghost use Rattle.plan_states.specs.RunLog.{position_of, IsAtSnapshot, IsLog, IsSnapshotNumber, IsSnapshotOfRun, IsShownBy};
ghost use Rattle.plan_states.specs.Turned.{end_taken, AreWith};
ghost use Rattle.plan_states.specs.declared.step_end.EndOfStep.{EndOfStep};

use crate::edges::Label;
use crate::graph::{Graph, push};
use crate::question::{PagesHeld, pages_of_builds};
use crate::running::{Running, TurnTaken, has_more, run_to, take};
use crate::snapshot::{Snapshot, is_same, snapshot_of};
use crate::step_end::{EndOfStep, is_same_end};
use plan_replay::map_text;
use realm_plan::Plan;
use realm_program::Fault;
use std::alloc::{AllocError, Global};

/// The log entry of a turn: the label of the turn's edge, and the indices of the snapshots before and after the turn.
#[derive(Clone, Copy)]
pub(crate) struct LoggedTurn {
    pub(crate) label: Label,
    pub(crate) from: usize,
    pub(crate) to: usize,
}

/// The log of the turns that were run to check a state graph's paths, with the snapshots before and after the turns.
/// The first snapshot is that at boot.
pub(crate) struct RunLog {
    pub(crate) snapshots: Vec<Snapshot>,
    pub(crate) turns: Vec<LoggedTurn>,
}

impl Drop for RunLog {
    fn drop(self) {
        let RunLog {
            snapshots: _,
            turns: _,
        } = self;
    }
}

// Whether a turn ended its step with the outcome that its label names, or ended no step if the label names none.
fn has_end(ends: &[EndOfStep], build: usize, taken: &TurnTaken, end: Option<usize>) -> bool
    ensures { OnTrue result (end_taken build taken.now ≡ end_named ends.now end) }
{
    let Some(number) = end else {
        return taken.before == taken.after;
    };
    let Some(named) = ends.get(number) else {
        return false;
    };
    if taken.before == taken.after {
        return false;
    }
    let end = EndOfStep {
        build,
        step: taken.before,
        refusal: taken.refusal,
    };
    is_same_end(&end, named)
}

// Whether each build holds the same number of pages in `one` and in `other`.
fn is_same_held(one: &PagesHeld, other: &PagesHeld) -> bool
    ensures { OnTrue result (one.now ≡ other.now) }
{
    one == other
}

// Whether the entry of `all` at index `held` is the page counts of a run's builds.
fn has_held(all: &[PagesHeld], running: &Running, held: usize) -> bool
    ensures { OnTrue result (slice_get all.now held ≡ Some (pages_of_builds running.now.host)) }
{
    match all.get(held) {
        Some(named) => is_same_held(named, &pages_of_builds(&running.host)),
        None => false,
    }
}

// Whether a label names no map, or names the map of a run in which no build has a step left.
fn has_map(
    alloc: Global,
    plan: &Plan,
    maps: &[String],
    running: &Running,
    map: Option<usize>,
) -> Result<bool, AllocError>
    ensures { IfOk result (λ is. OnTrue is (IsMapNamed (plan_view plan.now) maps.now map (position_of running.now))) }
{
    let Some(number) = map else {
        return Ok(true);
    };
    if has_more(plan, &running.places) {
        return Ok(false);
    }
    let text = map_text(alloc, &running.host)?;
    match maps.get(number) {
        Some(named) => Ok(named.as_str() == text.as_str()),
        None => Ok(false),
    }
}

// Takes the turn of a label, and returns whether it is as the label says.
fn take_labelled(
    alloc: Global,
    plan: &Plan,
    graph: &Graph,
    running: &mut Running,
    label: Label,
) -> Result<bool, AllocError>
    ensures { IfOk result (λ is. OnTrue is
        (IsLabelled (plan_view plan.now) graph.now.ends.items graph.now.held.items graph.now.maps.items (position_of running.old) label (position_of running.new))) }
{
    let Some(taken) = take(&mut running.host, plan, &mut running.places, label.build) else {
        return Ok(false);
    };
    if !has_end(&graph.ends, label.build, &taken, label.end) {
        return Ok(false);
    }
    if !has_held(&graph.held, running, label.held) {
        return Ok(false);
    }
    has_map(alloc, plan, &graph.maps, running, label.map)
}

// The snapshot at boot.
fn boot_snapshot(alloc: Global, plan: &Plan) -> Result<Snapshot, Fault>
    ensures ok { IfOk result (λ it. IsSnapshotOfRun (plan_view plan.now) it (start (opening_host (plan_view plan.now)))) }
    ensures err { IfErr result HasNoGraph }
{
    let running = run_to(alloc, plan, &[])?;
    Ok(snapshot_of(alloc, &running.host, &running.places)?)
}

impl RunLog {
    /// Creates a log that has the snapshot at boot and no turns.
    pub(crate) fn boot(alloc: Global, plan: &Plan) -> Result<RunLog, Fault>
        ensures ok { IfOk result (λ log. (ends : List EndOfStep) (held : List (List ℕ)) (maps : List (String Global)) → IsLog (plan_view plan.now) ends held maps log) }
        ensures err { IfErr result HasNoGraph }
    {
        let first = boot_snapshot(alloc, plan)?;
        let mut snapshots = Vec::new(alloc);
        push(&mut snapshots, first)?;
        Ok(RunLog {
            snapshots,
            turns: Vec::new(alloc),
        })
    }

    // Whether the snapshot at the index `number` is the same as `snapshot`.
    fn has_snapshot(&self, number: usize, snapshot: &Snapshot) -> bool
        ensures { OnTrue result (IsSnapshotNumber self.now.snapshots.items number snapshot.now) }
    {
        match self.snapshots.get(number) {
            Some(it) => is_same(it, snapshot),
            None => false,
        }
    }

    // Returns the known index of a snapshot, or adds the snapshot if no index is known. `Mismatch`: the known index is
    // of another snapshot.
    fn number_of(&mut self, snapshot: Snapshot, known: Option<usize>) -> Result<usize, Fault>
        ensures turns { self.new.turns ≡ self.old.turns }
        ensures more { OnOk result (AreWith self.old.snapshots.items (Some snapshot) self.new.snapshots.items) }
        ensures number { IfOk result (λ number. IsSnapshotNumber self.new.snapshots.items number snapshot) }
        ensures err { IfErr result HasNoGraph }
    {
        let Some(number) = known else {
            let number = self.snapshots.len();
            push(&mut self.snapshots, snapshot)?;
            return Ok(number);
        };
        if !self.has_snapshot(number, &snapshot) {
            return Err(Fault::Mismatch);
        }
        Ok(number)
    }

    // Checks that a run is in the state of snapshot `at`. `Mismatch`: the run has another snapshot.
    fn check_at(&self, alloc: Global, running: &Running, at: usize) -> Result<(), Fault>
        ensures ok { OnOk result (IsAtSnapshot self.now.snapshots.items at (position_of running.now)) }
        ensures err { IfErr result HasNoGraph }
    {
        let snapshot = snapshot_of(alloc, &running.host, &running.places)?;
        if !self.has_snapshot(at, &snapshot) {
            return Err(Fault::Mismatch);
        }
        Ok(())
    }

    /// Runs a schedule, and checks that the run ends in the state of snapshot `at`.
    ///
    /// Errors. `Memory`: allocation failed. `Mismatch`: the run leads to another snapshot, or some turn is of a build
    /// that has no step left then.
    pub(crate) fn run_to(
        &self,
        alloc: Global,
        plan: &Plan,
        schedule: &[usize],
        at: usize,
    ) -> Result<Running, Fault>
        ensures ok { IfOk result (λ running. IsShownBy (plan_view plan.now) self.now.snapshots.items at (position_of running)) }
        ensures err { IfErr result HasNoGraph }
    {
        let running = run_to(alloc, plan, schedule)?;
        self.check_at(alloc, &running, at)?;
        Ok(running)
    }

    /// Runs the turn that an edge's label describes, and logs the turn. Returns the index of the snapshot after the
    /// turn. `from` is the index of the snapshot before the turn.
    ///
    /// Errors. `Memory`: allocation failed. `Mismatch`: the turn is not as the label says, or leads to another snapshot
    /// than the known one.
    pub(crate) fn turn(
        &mut self,
        alloc: Global,
        plan: &Plan,
        graph: &Graph,
        running: &mut Running,
        from: usize,
        label: Label,
        known: Option<usize>,
    ) -> Result<usize, Fault>
        requires log { IsLog (plan_view plan.now) graph.now.ends.items graph.now.held.items graph.now.maps.items self.old }
        requires at { IsShownBy (plan_view plan.now) self.old.snapshots.items from (position_of running.old) }
        ensures log { OnOk result (IsLog (plan_view plan.now) graph.now.ends.items graph.now.held.items graph.now.maps.items self.new) }
        ensures at { IfOk result (λ to. IsShownBy (plan_view plan.now) self.new.snapshots.items to (position_of running.new)) }
        ensures err { IfErr result HasNoGraph }
    {
        if !take_labelled(alloc, plan, graph, running, label)? {
            return Err(Fault::Mismatch);
        }
        let snapshot = snapshot_of(alloc, &running.host, &running.places)?;
        let to = self.number_of(snapshot, known)?;
        push(&mut self.turns, LoggedTurn { label, from, to })?;
        Ok(to)
    }
}
