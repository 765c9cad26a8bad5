//! The check that a state graph's paths are runs of its plan. Each run has the outcomes and the final map that its path
//! names.
ghost use Rattle.std.specs.Prelude.{◌≡◌, ◌+◌, ◌<◌, ◌^◌, ℕ, [], IfOk, IfErr, OnOk, length, map, slice_index_or, vec_items};
ghost use Rattle.std.specs.Bool.{OnTrue};
ghost use Rattle.realm_plan.specs.PlanView.{plan_view};
ghost use Rattle.plan_states.specs.Exploration.{HasNoGraph};
ghost use Rattle.plan_states.specs.Runs.{ArePathsRuns};
ghost use Rattle.plan_states.specs.RunLog.{position_of, snapshot_at, AreEdgesLogged, IsComplete, IsEdgeLogged, IsLog, IsShownBy};

use crate::edges::Label;
use crate::graph::{Graph, list_at, push};
use crate::run_log::{LoggedTurn, RunLog};
use crate::running::Running;
use crate::whole::{edges_at, layer_at};
use realm_plan::Plan;
use realm_program::Fault;
use schedule_graph::Edge;
use std::alloc::{AllocError, Global};

// A state of the graph: the index of its snapshot, the turn that first reached it, and the logged turns of its edges.
// Edges are logged from the first on.
#[derive(Drop)]
struct Visit {
    snapshot: Option<usize>,
    from: usize,
    build: usize,
    turns: Vec<usize>,
}

// The runs along a graph so far.
struct Walk {
    log: RunLog,
    visits: Vec<Vec<Visit>>,
}

impl Drop for Walk {
    fn drop(self) {
        let Walk { log: _, visits: _ } = self;
    }
}

// Whether two optional numbers are the same.
fn is_same_number(one: Option<usize>, other: Option<usize>) -> bool
    ensures { OnTrue result (one ≡ other) }
{
    one == other
}

// Whether two labels are the same.
fn is_same_label(one: &Label, other: &Label) -> bool
    ensures { OnTrue result (one.now ≡ other.now) }
{
    one.build == other.build
        && is_same_number(one.end, other.end)
        && one.held == other.held
        && is_same_number(one.map, other.map)
}

// Whether the log has a turn at index `number`, with the label `label`, and between the snapshots `from` and `to`.
fn is_logged(
    turns: &[LoggedTurn],
    number: Option<usize>,
    from: Option<usize>,
    to: Option<usize>,
    label: &Label,
) -> bool
    ensures { OnTrue result (IsEdgeLogged turns.now from to label.now) }
{
    let Some(number) = number else {
        return false;
    };
    let Some(turn) = turns.get(number) else {
        return false;
    };
    is_same_label(&turn.label, label)
        && is_same_number(from, Some(turn.from))
        && is_same_number(to, Some(turn.to))
}

// A list of `count` states that no run has visited.
fn unvisited(alloc: Global, count: usize) -> Result<Vec<Visit>, AllocError> {
    let mut visits = Vec::new(alloc);
    for _ in 0..count {
        let visit = Visit {
            snapshot: None,
            from: 0,
            build: 0,
            turns: Vec::new(alloc),
        };
        push(&mut visits, visit)?;
    }
    Ok(visits)
}

impl Walk {
    // A walk with no run, in which the first state has the snapshot at boot.
    fn new(alloc: Global, plan: &Plan, graph: &Graph) -> Result<Walk, Fault>
        ensures ok { IfOk result (λ walk. IsLog (plan_view plan.now) graph.now.ends.items graph.now.held.items graph.now.maps.items walk.log) }
        ensures err { IfErr result HasNoGraph }
    {
        let log = RunLog::boot(alloc, plan)?;
        let mut visits = Vec::new(alloc);
        for layer in &graph.layers {
            push(&mut visits, unvisited(alloc, layer.len())?)?;
        }
        let mut walk = Walk { log, visits };
        walk.note_arrival(0, 0, 0, 0, 0);
        Ok(walk)
    }

    // The states of a layer; none if there is no such layer.
    fn visits_at(&self, depth: usize) -> &[Visit]
        ensures { result.now ≡ slice_index_or (map vec_items self.now.visits.items) depth [] }
    {
        list_at(&self.visits, depth)
    }

    // The number of the snapshot of a state, if it has one.
    fn snapshot_at(&self, depth: usize, state: usize) -> Option<usize>
        ensures { result ≡ snapshot_at self.now.visits.items depth state }
    {
        match self.visits_at(depth).get(state) {
            Some(visit) => visit.snapshot,
            None => None,
        }
    }

    // The number of a state's edges that were run.
    fn run_count(&self, depth: usize, state: usize) -> usize {
        match self.visits_at(depth).get(state) {
            Some(visit) => visit.turns.len(),
            None => 0,
        }
    }

    // Notes the snapshot of a state and the turn that led to the state, unless the state has a snapshot.
    fn note_arrival(
        &mut self,
        depth: usize,
        state: usize,
        snapshot: usize,
        from: usize,
        build: usize,
    )
        ensures { self.new.log ≡ self.old.log }
    {
        if let Some(layer) = self.visits.get_mut(depth) {
            if let Some(visit) = layer.get_mut(state) {
                if visit.snapshot.is_none() {
                    visit.snapshot = Some(snapshot);
                    visit.from = from;
                    visit.build = build;
                }
            }
        }
    }

    // Notes that turn `turn` of the log ran the next edge of a state.
    fn note_turn(&mut self, depth: usize, state: usize, turn: usize) -> Result<(), AllocError>
        ensures { self.new.log ≡ self.old.log }
    {
        if let Some(layer) = self.visits.get_mut(depth) {
            if let Some(visit) = layer.get_mut(state) {
                visit.turns.push(turn)?;
            }
        }
        Ok(())
    }

    // The first schedule that has led to a state.
    fn schedule_to(
        &self,
        alloc: Global,
        depth: usize,
        state: usize,
    ) -> Result<Vec<usize>, AllocError> {
        let mut schedule = Vec::new(alloc);
        let mut at = state;
        for turn in 0..depth {
            if let Some(visit) = self.visits_at(depth - turn).get(at) {
                push(&mut schedule, visit.build)?;
                at = visit.from;
            }
        }
        schedule.reverse();
        Ok(schedule)
    }

    // Continues a run from a state along edges that no run has taken.
    fn go_on(
        &mut self,
        alloc: Global,
        plan: &Plan,
        graph: &Graph,
        running: &mut Running,
        first: usize,
        start: usize,
        snapshot: usize,
    ) -> Result<(), Fault>
        requires log { IsLog (plan_view plan.now) graph.now.ends.items graph.now.held.items graph.now.maps.items self.old.log }
        requires at { IsShownBy (plan_view plan.now) self.old.log.snapshots.items snapshot (position_of running.old) }
        ensures ok { OnOk result (IsLog (plan_view plan.now) graph.now.ends.items graph.now.held.items graph.now.maps.items self.new.log) }
        ensures err { IfErr result HasNoGraph }
    {
        let mut at = snapshot;
        let mut state = start;
        for depth in first..graph.layers.len() {
            let edges = edges_at(layer_at(graph, depth), state);
            let Some(edge) = edges.get(self.run_count(depth, state)) else {
                return Ok(());
            };
            let known = self.snapshot_at(depth + 1, edge.to);
            let turn = self.log.turns.len();
            at = self
                .log
                .turn(alloc, plan, graph, running, at, edge.label, known)?;
            self.note_turn(depth, state, turn)?;
            self.note_arrival(depth + 1, edge.to, at, state, edge.label.build);
            state = edge.to;
        }
        Ok(())
    }

    // Runs to a state by the first schedule that has led there, and continues along new edges.
    fn run_from(
        &mut self,
        alloc: Global,
        plan: &Plan,
        graph: &Graph,
        depth: usize,
        state: usize,
    ) -> Result<(), Fault>
        requires { IsLog (plan_view plan.now) graph.now.ends.items graph.now.held.items graph.now.maps.items self.old.log }
        ensures ok { OnOk result (IsLog (plan_view plan.now) graph.now.ends.items graph.now.held.items graph.now.maps.items self.new.log) }
        ensures err { IfErr result HasNoGraph }
    {
        let Some(at) = self.snapshot_at(depth, state) else {
            return Err(Fault::Mismatch);
        };
        let schedule = self.schedule_to(alloc, depth, state)?;
        let mut running = self.log.run_to(alloc, plan, &schedule, at)?;
        self.go_on(alloc, plan, graph, &mut running, depth, state, at)
    }

    // Runs along all edges, layer by layer.
    fn run_all(&mut self, alloc: Global, plan: &Plan, graph: &Graph) -> Result<(), Fault>
        requires { IsLog (plan_view plan.now) graph.now.ends.items graph.now.held.items graph.now.maps.items self.old.log }
        ensures ok { OnOk result (IsLog (plan_view plan.now) graph.now.ends.items graph.now.held.items graph.now.maps.items self.new.log) }
        ensures err { IfErr result HasNoGraph }
    {
        for depth in 0..graph.layers.len() {
            let layer = layer_at(graph, depth);
            for state in 0..layer.len() {
                for edge in 0..edges_at(layer, state).len() {
                    if self.run_count(depth, state) <= edge {
                        self.run_from(alloc, plan, graph, depth, state)?;
                    }
                }
            }
        }
        Ok(())
    }

    // The index in the log of the turn that ran a state's edge at index `place`.
    fn turn_at(&self, depth: usize, state: usize, place: usize) -> Option<usize> {
        match self.visits_at(depth).get(state) {
            Some(visit) => visit.turns.get(place).copied(),
            None => None,
        }
    }

    // Whether each edge of a state was run.
    fn are_logged(&self, depth: usize, state: usize, edges: &[Edge<Label>]) -> bool
        requires { depth + 1 < 2 ^ 64 }
        ensures { OnTrue result (AreEdgesLogged self.now.log.turns.items self.now.visits.items depth state edges.now) }
    {
        let from = self.snapshot_at(depth, state);
        for place in 0..edges.len() {
            let to = self.snapshot_at(depth + 1, edges[place].to);
            let turn = self.turn_at(depth, state, place);
            if !is_logged(&self.log.turns, turn, from, to, &edges[place].label) {
                return false;
            }
        }
        true
    }

    // Whether each edge of a layer was run.
    fn is_layer_logged(&self, depth: usize, layer: &[Vec<Edge<Label>>]) -> bool
        requires { depth + 1 < 2 ^ 64 }
        ensures { OnTrue result ((state : ℕ) → state < length layer.now
            → AreEdgesLogged self.now.log.turns.items self.now.visits.items depth state (slice_index_or (map vec_items layer.now) state [])) }
    {
        for state in 0..layer.len() {
            if !self.are_logged(depth, state, edges_at(layer, state)) {
                return false;
            }
        }
        true
    }

    // Whether each edge of the graph was run, and the first state has the snapshot at boot.
    fn is_complete(&self, graph: &Graph) -> bool
        ensures { OnTrue result (IsComplete graph.now self.now.log.turns.items self.now.visits.items) }
    {
        if !is_same_number(self.snapshot_at(0, 0), Some(0)) {
            return false;
        }
        for depth in 0..graph.layers.len() {
            if !self.is_layer_logged(depth, layer_at(graph, depth)) {
                return false;
            }
        }
        true
    }
}

/// Returns whether each path of a state graph is a run of the plan.
///
/// Errors. `Memory`: allocation failed. `Mismatch`: a run along the graph contradicts the graph, or an earlier run.
pub(crate) fn are_paths_runs(alloc: Global, plan: &Plan, graph: &Graph) -> Result<bool, Fault>
    ensures ok { IfOk result (λ are. OnTrue are (ArePathsRuns (plan_view plan.now) graph.now)) }
    ensures err { IfErr result HasNoGraph }
{
    let mut walk = Walk::new(alloc, plan, graph)?;
    walk.run_all(alloc, plan, graph)?;
    Ok(walk.is_complete(graph))
}
