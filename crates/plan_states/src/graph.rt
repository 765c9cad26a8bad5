//! The state graph of a plan's runs.
ghost use Rattle.std.specs.Prelude.{◌≡◌, ◌≤◌, ◌<◌, ◌++◌, ◌∷◌, [], Some, OnOk, IfOk, IfErr, IfSome, length, map, slice_index_or, string_bytes, sum_by, vec_items, vec_len};
ghost use Rattle.realm_plan.specs.PlanView.{plan_view};
ghost use Rattle.plan_states.specs.Exploration.{AreOfRuns, IsExploration, IsFound, HasNoGraph};
ghost use Rattle.plan_replay.specs.Run.{map_text};
ghost use Rattle.plan_states.specs.Reached.{AreOver, IsMapOfRun};
ghost use Rattle.plan_states.specs.Distinct.{IsGraphDistinct};
ghost use Rattle.plan_states.specs.Runs.{ArePathsRuns};
ghost use Rattle.plan_states.specs.Turned.{AreWith};
ghost use Rattle.plan_states.specs.Whole.{IsWholeGraph};

use crate::distinct::is_distinct;
use crate::edges::Label;
use crate::holdings::Holdings;
use crate::leftovers::leave_nothing;
use crate::question::PagesHeld;
use crate::running::{Running, has_more, run_to};
use crate::runs::are_paths_runs;
use crate::state::State;
use crate::step_end::EndOfStep;
use crate::turns::{TurnInputs, TurnOutcome, Turns, before_turn};
use crate::whole::{StepsDone, is_whole};
use plan_replay::map_text;
use realm_plan::Plan;
use realm_program::Fault;
use schedule_graph::Edge;
use std::alloc::{AllocError, Global};
use std::collections::HashMap;

/// The edges from all states that a plan's runs reach after a given number of turns. Each state has its own list of
/// edges.
pub type Layer = Vec<Vec<Edge<Label>>>;

/// A plan's state graph, whose paths are the plan's schedules. The graph is a list of layers, and its first layer has
/// one state.
pub struct Graph {
    pub layers: Vec<Layer>,
    /// The number of steps that each build has done, by layer and state.
    pub progress: Vec<Vec<StepsDone>>,
    /// The outcomes of steps, indexed by `Label::end`.
    pub ends: Vec<EndOfStep>,
    /// The builds' page counts after turns, indexed by `Label::held`.
    pub held: Vec<PagesHeld>,
    /// The maps of pages at the ends of runs, indexed by `Label::map`.
    pub maps: Vec<String>,
}

impl Drop for Graph {
    fn drop(self) {
        let Graph {
            layers: _,
            progress: _,
            ends: _,
            held: _,
            maps: _,
        } = self;
    }
}

/// The result of exploring all schedules of a plan.
#[derive(Drop)]
pub enum Exploration {
    All(Graph),
    /// The result if the state graph has more states than the caller allowed.
    TooMany,
}

// The turn by which a state was first reached: the previous state's index in its layer, and the turn's build.
#[derive(Clone, Copy)]
struct FirstArrival {
    from: usize,
    build: usize,
}

// A state of a layer: its index `to`, and the indices of the builds' page counts and of the final map. `map` is `None`
// if schedules go on from the state.
#[derive(Clone, Copy)]
struct Target {
    to: usize,
    held: usize,
    map: Option<usize>,
}

// The states of a layer, with the turn by which each was first reached.
struct Front {
    states: Vec<State>,
    arrivals: Vec<FirstArrival>,
    targets: HashMap<State, Target>,
}

impl Drop for Front {
    fn drop(self) {
        let Front {
            states: _,
            arrivals: _,
            targets: _,
        } = self;
    }
}

// The exploration of a graph so far. `arrivals` has, for each state of each layer, the turn by which the state was
// first reached.
struct Explorer {
    turns: Turns,
    arrivals: Vec<Vec<FirstArrival>>,
    held: Holdings,
    maps: Vec<String>,
}

impl Drop for Explorer {
    fn drop(self) {
        let Explorer {
            turns: _,
            arrivals: _,
            held: _,
            maps: _,
        } = self;
    }
}

/// Returns the list at index `place`, or an empty list if there is none.
pub(crate) fn list_at<T>(lists: &[Vec<T>], place: usize) -> &[T]
    ensures { result.now ≡ slice_index_or (map vec_items lists.now) place [] }
{
    match lists.get(place) {
        Some(list) => list,
        None => &[],
    }
}

// Adds an item at the end.
pub(crate) fn push<T: Drop>(items: &mut Vec<T>, item: T) -> Result<(), AllocError>
    ensures { OnOk result (items.new.items ≡ items.old.items ++ item ∷ []) }
{
    items.push(item)?;
    Ok(())
}

impl Front {
    // Returns the states, and for each the turn by which it was first reached.
    fn into_states(self) -> (Vec<State>, Vec<FirstArrival>)
        ensures states { result.0 ≡ self.states }
        ensures arrivals { result.1 ≡ self.arrivals }
    {
        let Front {
            states,
            arrivals,
            targets: _,
        } = self;
        (states, arrivals)
    }

    fn new(alloc: Global) -> Front
        ensures { result.states.items ≡ [] }
    {
        Front {
            states: Vec::new(alloc),
            arrivals: Vec::new(alloc),
            targets: HashMap::new(alloc),
        }
    }

    // Adds a state to the layer, and returns the state's target.
    fn add(
        &mut self,
        state: State,
        arrival: FirstArrival,
        held: usize,
        map: Option<usize>,
    ) -> Result<Target, AllocError>
        ensures { OnOk result (self.new.states.items ≡ self.old.states.items ++ state ∷ []) }
    {
        let to = self.states.len();
        let target = Target { to, held, map };
        self.targets.insert(state, target)?;
        push(&mut self.arrivals, arrival)?;
        push(&mut self.states, state)?;
        Ok(target)
    }
}

// The numbers of steps that builds have done, for each state of a layer.
fn progress_of(alloc: Global, states: &[State]) -> Result<Vec<StepsDone>, AllocError> {
    let mut progress = Vec::new(alloc);
    for state in states {
        push(&mut progress, state.progress())?;
    }
    Ok(progress)
}

// The first schedule that leads to a state of the last layer. `Mismatch`: there is no such state.
fn schedule_to(
    alloc: Global,
    arrivals: &[Vec<FirstArrival>],
    place: usize,
) -> Result<Vec<usize>, Fault>
    ensures { IfErr result HasNoGraph }
{
    let mut schedule = Vec::new(alloc);
    let mut at = place;
    for done in 1..arrivals.len() {
        let Some(way) = arrivals[arrivals.len() - done].get(at) else {
            return Err(Fault::Mismatch);
        };
        push(&mut schedule, way.build)?;
        at = way.from;
    }
    schedule.reverse();
    Ok(schedule)
}

// The map of a run after which no build has a step left. `Mismatch`: a build has a step left.
fn final_map(alloc: Global, plan: &Plan, running: &Running) -> Result<String, Fault>
    ensures over { IfOk result (λ _. AreOver (plan_view plan.now) running.now.places) }
    ensures map { IfOk result (λ map. string_bytes map ≡ map_text running.now.host) }
    ensures err { IfErr result HasNoGraph }
{
    if has_more(plan, &running.places) {
        return Err(Fault::Mismatch);
    }
    Ok(map_text(alloc, &running.host)?)
}

// The final map of a schedule after which no build has a step left. `Mismatch`: some turn is of a build without a step
// left, or a build has a step left after the last turn.
fn map_after(alloc: Global, plan: &Plan, schedule: &[usize]) -> Result<String, Fault>
    ensures ok { IfOk result (λ map. IsMapOfRun (plan_view plan.now) (string_bytes map)) }
    ensures err { IfErr result HasNoGraph }
{
    let running = run_to(alloc, plan, schedule)?;
    let map = final_map(alloc, plan, &running)?;
    let ledger = running.host.into_ledger();
    if !leave_nothing(alloc, plan, &ledger, &map)? {
        unreachable!()
    }
    Ok(map)
}

// Finds or adds a map, and returns its index.
fn number_of_map(maps: &mut Vec<String>, map: String) -> Result<usize, AllocError>
    ensures { OnOk result (AreWith maps.old.items (Some map) maps.new.items) }
{
    for number in 0..maps.len() {
        if maps[number].as_str() == map.as_str() {
            return Ok(number);
        }
    }
    let number = maps.len();
    push(maps, map)?;
    Ok(number)
}

impl Explorer {
    // Returns an explorer that has found nothing yet.
    fn new(alloc: Global) -> Explorer
        ensures ends { result.turns.ends.items ≡ [] }
        ensures maps { result.maps.items ≡ [] }
    {
        Explorer {
            turns: Turns::new(alloc),
            arrivals: Vec::new(alloc),
            held: Holdings::new(alloc),
            maps: Vec::new(alloc),
        }
    }

    // Runs a schedule after which no build has a step left, and returns the index of its final map.
    fn map_of(&mut self, alloc: Global, plan: &Plan, schedule: &[usize]) -> Result<usize, Fault>
        requires { AreOfRuns (plan_view plan.now) self.old.turns.ends.items self.old.maps.items }
        ensures ok { OnOk result (AreOfRuns (plan_view plan.now) self.new.turns.ends.items self.new.maps.items) }
        ensures err { IfErr result HasNoGraph }
    {
        let map = map_after(alloc, plan, schedule)?;
        Ok(number_of_map(&mut self.maps, map)?)
    }

    // Finds or runs the turn of a build in a state of the last layer, and returns the turn's outcome.
    fn turn(
        &mut self,
        alloc: Global,
        plan: &Plan,
        place: usize,
        build: usize,
        before: TurnInputs,
    ) -> Result<TurnOutcome, Fault>
        requires { AreOfRuns (plan_view plan.now) self.old.turns.ends.items self.old.maps.items }
        ensures ok { OnOk result (AreOfRuns (plan_view plan.now) self.new.turns.ends.items self.new.maps.items) }
        ensures err { IfErr result HasNoGraph }
    {
        if let Some(after) = self.turns.known(&before) {
            return Ok(after);
        }
        let schedule = schedule_to(alloc, &self.arrivals, place)?;
        self.turns.run(alloc, plan, before, &schedule, build)
    }

    // Returns the index of the final map of a state that a turn reaches, or None if a build has a step left there.
    fn map_at(
        &mut self,
        alloc: Global,
        plan: &Plan,
        state: &State,
        arrival: FirstArrival,
    ) -> Result<Option<usize>, Fault>
        requires { AreOfRuns (plan_view plan.now) self.old.turns.ends.items self.old.maps.items }
        ensures ok { OnOk result (AreOfRuns (plan_view plan.now) self.new.turns.ends.items self.new.maps.items) }
        ensures err { IfErr result HasNoGraph }
    {
        if state.has_more(plan) {
            return Ok(None);
        }
        let mut schedule = schedule_to(alloc, &self.arrivals, arrival.from)?;
        push(&mut schedule, arrival.build)?;
        Ok(Some(self.map_of(alloc, plan, &schedule)?))
    }

    // Finds or adds a state of the next layer, and returns the state's target.
    fn target(
        &mut self,
        alloc: Global,
        plan: &Plan,
        next: &mut Front,
        state: State,
        arrival: FirstArrival,
    ) -> Result<Target, Fault>
        requires { AreOfRuns (plan_view plan.now) self.old.turns.ends.items self.old.maps.items }
        ensures ok { OnOk result (AreOfRuns (plan_view plan.now) self.new.turns.ends.items self.new.maps.items) }
        ensures err { IfErr result HasNoGraph }
    {
        if let Some(target) = next.targets.get(&state).copied() {
            return Ok(target);
        }
        let held = self.held.number_of(state.held())?;
        let map = self.map_at(alloc, plan, &state, arrival)?;
        Ok(next.add(state, arrival, held, map)?)
    }

    // Returns the edges of a state of the last layer, and adds the states that they lead to.
    fn edges_of(
        &mut self,
        alloc: Global,
        plan: &Plan,
        state: &State,
        place: usize,
        next: &mut Front,
    ) -> Result<Vec<Edge<Label>>, Fault>
        requires { AreOfRuns (plan_view plan.now) self.old.turns.ends.items self.old.maps.items }
        ensures ok { OnOk result (AreOfRuns (plan_view plan.now) self.new.turns.ends.items self.new.maps.items) }
        ensures err { IfErr result HasNoGraph }
    {
        let mut edges = Vec::new(alloc);
        for build in 0..8 {
            let Some(before) = before_turn(plan, state, build) else {
                continue;
            };
            let after = self.turn(alloc, plan, place, build, before)?;
            let then = self.turns.state_after(state, build, after)?;
            let arrival = FirstArrival { from: place, build };
            let Target { to, held, map } = self.target(alloc, plan, next, then, arrival)?;
            let label = Label {
                build,
                end: after.end,
                held,
                map,
            };
            push(&mut edges, Edge { label, to })?;
        }
        Ok(edges)
    }

    // Returns the edges of the last layer and the states of the next layer, or None if the next layer has more than
    // `room` states.
    fn layer(
        &mut self,
        alloc: Global,
        plan: &Plan,
        states: &[State],
        room: usize,
    ) -> Result<Option<(Layer, Front)>, Fault>
        requires { AreOfRuns (plan_view plan.now) self.old.turns.ends.items self.old.maps.items }
        ensures ok { OnOk result (AreOfRuns (plan_view plan.now) self.new.turns.ends.items self.new.maps.items) }
        ensures err { IfErr result HasNoGraph }
        ensures layer { IfOk result (λ it. IfSome it (λ both. (vec_len both.0 ≡ length states.now) × (vec_len both.1.states ≤ room))) }
    {
        let mut next = Front::new(alloc);
        let mut layer = Vec::new(alloc);
        for place in 0..states.len() {
            let edges = self.edges_of(alloc, plan, &states[place], place, &mut next)?;
            push(&mut layer, edges)?;
            if next.states.len() > room {
                return Ok(None);
            }
        }
        Ok(Some((layer, next)))
    }

    // Returns the first layer's states: the state at boot alone. If no build has a step, its map is added.
    fn first_front(&mut self, alloc: Global, plan: &Plan) -> Result<Front, Fault>
        requires { AreOfRuns (plan_view plan.now) self.old.turns.ends.items self.old.maps.items }
        ensures ok { OnOk result (AreOfRuns (plan_view plan.now) self.new.turns.ends.items self.new.maps.items) }
        ensures err { IfErr result HasNoGraph }
    {
        let first = State::first();
        if !first.has_more(plan) {
            self.map_of(alloc, plan, &[])?;
        }
        let held = self.held.number_of(first.held())?;
        let mut front = Front::new(alloc);
        front.add(first, FirstArrival { from: 0, build: 0 }, held, None)?;
        Ok(front)
    }

    // Notes the states of the next layer, and returns the layer's edges and the states that they lead to. The result is
    // `None` if the edges lead to more than `room` states.
    fn next_layer(
        &mut self,
        alloc: Global,
        plan: &Plan,
        front: Front,
        room: usize,
        progress: &mut Vec<Vec<StepsDone>>,
    ) -> Result<Option<(Layer, Front)>, Fault>
        requires { AreOfRuns (plan_view plan.now) self.old.turns.ends.items self.old.maps.items }
        ensures ok { OnOk result (AreOfRuns (plan_view plan.now) self.new.turns.ends.items self.new.maps.items) }
        ensures err { IfErr result HasNoGraph }
        ensures layer { IfOk result (λ it. IfSome it (λ both. (vec_len both.0 ≡ vec_len front.states) × (vec_len both.1.states ≤ room))) }
    {
        let (states, arrivals) = front.into_states();
        push(&mut self.arrivals, arrivals)?;
        push(progress, progress_of(alloc, &states)?)?;
        self.layer(alloc, plan, &states, room)
    }

    // Returns all layers from the first on, and the numbers of steps done in their states. The result is `None` if the
    // layers have more than `most` states.
    fn layers(
        &mut self,
        alloc: Global,
        plan: &Plan,
        first: Front,
        most: usize,
    ) -> Result<Option<(Vec<Layer>, Vec<Vec<StepsDone>>)>, Fault>
        requires { AreOfRuns (plan_view plan.now) self.old.turns.ends.items self.old.maps.items }
        ensures ok { OnOk result (AreOfRuns (plan_view plan.now) self.new.turns.ends.items self.new.maps.items) }
        ensures err { IfErr result HasNoGraph }
        ensures states { IfOk result (λ it. IfSome it (λ both. sum_by vec_len both.0.items ≤ most)) }
    {
        let mut front = first;
        let mut layers = Vec::new(alloc);
        let mut progress = Vec::new(alloc);
        let mut room = most;
        'layers: while !front.states.is_empty() {
            let count = front.states.len();
            if count > room {
                return Ok(None);
            }
            room -= count;
            let Some((layer, next)) = self.next_layer(alloc, plan, front, room, &mut progress)?
            else {
                return Ok(None);
            };
            push(&mut layers, layer)?;
            front = next;
        }
        Ok(Some((layers, progress)))
    }

    // Returns the graph of these layers, with all ends, numbers of pages and maps that were found.
    fn into_graph(self, layers: Vec<Layer>, progress: Vec<Vec<StepsDone>>) -> Graph
        ensures layers { result.layers ≡ layers }
        ensures progress { result.progress ≡ progress }
        ensures ends { result.ends ≡ self.turns.ends }
        ensures held { result.held ≡ self.held.all }
        ensures maps { result.maps ≡ self.maps }
    {
        let Explorer {
            turns,
            arrivals: _,
            held,
            maps,
        } = self;
        Graph {
            layers,
            progress,
            ends: turns.into_ends(),
            held: held.into_all(),
            maps,
        }
    }
}

// The graph of all schedules of a plan; None if it has more than `most` states.
fn search(alloc: Global, plan: &Plan, most: usize) -> Result<Option<Graph>, Fault>
    ensures ok { IfOk result (λ it. IfSome it (IsFound (plan_view plan.now) most)) }
    ensures err { IfErr result HasNoGraph }
{
    let mut explorer = Explorer::new(alloc);
    let first = explorer.first_front(alloc, plan)?;
    let Some((layers, progress)) = explorer.layers(alloc, plan, first, most)? else {
        return Ok(None);
    };
    Ok(Some(explorer.into_graph(layers, progress)))
}

// Checks that a graph is whole, lists nothing twice, and has only runs of the plan as paths. `Mismatch`: it does not.
fn check_graph(alloc: Global, plan: &Plan, graph: &Graph) -> Result<(), Fault>
    ensures whole { OnOk result (IsWholeGraph (plan_view plan.now) graph.now) }
    ensures distinct { OnOk result (IsGraphDistinct graph.now) }
    ensures runs { OnOk result (ArePathsRuns (plan_view plan.now) graph.now) }
    ensures err { IfErr result HasNoGraph }
{
    if !is_whole(plan, graph) || !is_distinct(graph) {
        return Err(Fault::Mismatch);
    }
    if !are_paths_runs(alloc, plan, graph)? {
        return Err(Fault::Mismatch);
    }
    Ok(())
}

/// Creates and checks the state graph of a plan's schedules. Returns the whole graph, or `TooMany` if it has more than
/// `most` states. Each path of the graph is a run of the plan.
///
/// Errors. `Memory`: allocation failed. `Mismatch`: a run contradicts an earlier run, a turn is missing in the graph,
/// or the graph lists a step outcome or a map twice. No mismatch happens on a host that gives the same answers to the
/// same calls.
pub fn explore(alloc: Global, plan: &Plan, most: usize) -> Result<Exploration, Fault>
    ensures ok { IfOk result (IsExploration (plan_view plan.now) most) }
    ensures err { IfErr result HasNoGraph }
{
    let Some(graph) = search(alloc, plan, most)? else {
        return Ok(Exploration::TooMany);
    };
    check_graph(alloc, plan, &graph)?;
    Ok(Exploration::All(graph))
}
