//! A cache of the outcomes of turns in a plan's runs. Turns with the same inputs are run only once.
ghost use Rattle.std.specs.Prelude.{◌≡◌, ◌++◌, ◌<◌, [], All, OnOk, IfErr, Some};
ghost use Rattle.realm_plan.specs.PlanView.{plan_view};
ghost use Rattle.plan_states.specs.Exploration.{HasNoGraph};
ghost use Rattle.plan_states.specs.Reached.{IsEndOfRun};
ghost use Rattle.plan_states.specs.Turned.{AreWith, end_taken};

use crate::running::{TurnTaken, turn_after};
use crate::state::{BuildState, State};
use crate::step_end::{EndOfStep, is_same_end};
use host_commands::{Cmd, Step};
use plan_replay::step_after;
use realm_plan::{Plan, PlanStep};
use realm_program::Fault;
use std::alloc::{AllocError, Global};
use std::collections::HashMap;

/// A block that was leased, or given back.
#[derive(Clone, Copy, PartialEq, Eq, Hash)]
pub(crate) struct Moved {
    pub(crate) is_back: bool,
    pub(crate) order: u8,
    pub(crate) first: u16,
}

/// A key for the turns that a build has taken so far: the index of the earlier turns, and the result of the last turn.
/// The result is the index of the step outcome, the first granule of the moved block, and the VMID after the turn.
#[derive(Clone, Copy, PartialEq, Eq, Hash)]
struct PastTurns {
    before: usize,
    end: Option<usize>,
    first: Option<u16>,
    vmid: Option<u8>,
}

/// A key for a sequence of leased and returned blocks: the index of the sequence before the last block, and that block.
#[derive(Clone, Copy, PartialEq, Eq, Hash)]
struct Moves {
    before: usize,
    moved: Moved,
}

/// The inputs that determine the outcome of a turn, which are the build's past turns and the state of the shared
/// resources. Only the resources that the step needs count.
#[derive(Clone, Copy, PartialEq, Eq, Hash)]
pub(crate) struct TurnInputs {
    build: usize,
    shared: usize,
}

/// The outcome of a turn, with the build's new state, the block that was leased or given back, and the index of the
/// step outcome. `moved` is `None` if no block moved, and `end` is `None` if no step ended.
#[derive(Clone, Copy)]
pub(crate) struct TurnOutcome {
    build: BuildState,
    moved: Option<Moved>,
    pub(crate) end: Option<usize>,
}

/// A cache that maps the inputs of a turn to the turn's outcome. The cache also has tables of builds' past turns, of
/// sequences of blocks, and of the outcomes of turns and steps.
pub(crate) struct Turns {
    builds: HashMap<PastTurns, usize>,
    blocks: HashMap<Moves, usize>,
    known: HashMap<TurnInputs, TurnOutcome>,
    pub(crate) ends: Vec<EndOfStep>,
}

impl Drop for Turns {
    fn drop(self) {
        let Turns {
            builds: _,
            blocks: _,
            known: _,
            ends: _,
        } = self;
    }
}

// Whether a build has a realm with this VMID.
fn is_used(state: &State, vmid: u8) -> bool {
    for build in &state.builds {
        if build.vmid == Some(vmid) {
            return true;
        }
    }
    false
}

// The lowest VMID that no realm has; 0 if there is none.
fn lowest_vmid(plan: &Plan, state: &State) -> usize {
    for vmid in 1..=plan.vmids {
        if !is_used(state, vmid) {
            return usize::from(vmid);
        }
    }
    0
}

// The state of the shared resources that a step needs: the blocks' index, or the lowest VMID that no realm has. 0 if
// the step needs neither.
fn shared_by(plan: &Plan, state: &State, step: &PlanStep) -> usize {
    match step {
        PlanStep::Whole(Step::Ask(Cmd::Take { .. })) => state.blocks,
        PlanStep::Whole(Step::Ask(Cmd::Realm { .. })) => lowest_vmid(plan, state),
        PlanStep::WidthLeftOut { .. } => lowest_vmid(plan, state),
        _ => 0,
    }
}

/// Returns the inputs of a build's next turn, or `None` if the build has no step left.
pub(crate) fn before_turn(plan: &Plan, state: &State, build: usize) -> Option<TurnInputs>
    requires { build < 8 }
{
    let it = state.builds[build];
    match step_after(plan, build, it.done) {
        Some(step) => Some(TurnInputs {
            build: it.did,
            shared: shared_by(plan, state, step),
        }),
        None => None,
    }
}

// The first granule of a block that was leased or given back.
fn first_of(moved: Option<Moved>) -> Option<u16> {
    match moved {
        Some(block) => Some(block.first),
        None => None,
    }
}

// The index of an outcome of a step, if the outcome is known.
fn known_end(ends: &[EndOfStep], end: &EndOfStep) -> Option<usize> {
    for place in 0..ends.len() {
        if is_same_end(&ends[place], end) {
            return Some(place);
        }
    }
    None
}

// Finds or adds an outcome of a step, and returns its index.
fn place_of_end(ends: &mut Vec<EndOfStep>, end: EndOfStep) -> Result<usize, AllocError>
    ensures { OnOk result (AreWith ends.old.items (Some end) ends.new.items) }
{
    if let Some(place) = known_end(ends, &end) {
        return Ok(place);
    }
    let place = ends.len();
    ends.push(end)?;
    Ok(place)
}

impl Turns {
    /// Creates an empty cache of turns' outcomes.
    pub(crate) fn new(alloc: Global) -> Turns
        ensures { result.ends.items ≡ [] }
    {
        Turns {
            builds: HashMap::new(alloc),
            blocks: HashMap::new(alloc),
            known: HashMap::new(alloc),
            ends: Vec::new(alloc),
        }
    }

    // Finds or adds the turns of a build, and returns their index. Indices below 8 are those of builds that did
    // nothing.
    fn number_of(&mut self, did: PastTurns) -> Result<usize, AllocError>
        ensures { self.new.ends ≡ self.old.ends }
    {
        if let Some(number) = self.builds.get(&did).copied() {
            return Ok(number);
        }
        let number = self.builds.len().saturating_add(8);
        self.builds.insert(did, number)?;
        Ok(number)
    }

    // Finds or adds a sequence of leased and returned blocks, and returns its index. Index 0 is the empty sequence.
    fn find_or_add_moves(&mut self, moves: Moves) -> Result<usize, AllocError>
        ensures { self.new.ends ≡ self.old.ends }
    {
        if let Some(number) = self.blocks.get(&moves).copied() {
            return Ok(number);
        }
        let number = self.blocks.len().saturating_add(1);
        self.blocks.insert(moves, number)?;
        Ok(number)
    }

    // Notes the outcome of a turn with these inputs.
    fn note(&mut self, before: TurnInputs, after: TurnOutcome) -> Result<(), AllocError>
        ensures { self.new.ends ≡ self.old.ends }
    {
        self.known.insert(before, after)?;
        Ok(())
    }

    // Finds or adds the outcome of the step that a turn ended, if any, and returns the outcome's index.
    fn place_for(&mut self, build: usize, taken: &TurnTaken) -> Result<Option<usize>, AllocError>
        ensures { OnOk result (AreWith self.old.ends.items (end_taken build taken.now) self.new.ends.items) }
    {
        if taken.before == taken.after {
            return Ok(None);
        }
        let end = EndOfStep {
            build,
            step: taken.before,
            refusal: taken.refusal,
        };
        Ok(Some(place_of_end(&mut self.ends, end)?))
    }

    /// Returns the cached outcome of a turn with the given inputs, if there is one.
    pub(crate) fn known(&self, before: &TurnInputs) -> Option<TurnOutcome> {
        self.known.get(before).copied()
    }

    /// Runs a schedule and then one turn of a build, and caches the turn's outcome. The schedule is run on a fresh
    /// host.
    ///
    /// Errors. `Memory`: allocation failed. `Mismatch`: some turn, of the schedule or the last one, is of a build that
    /// has no step left then.
    pub(crate) fn run(
        &mut self,
        alloc: Global,
        plan: &Plan,
        before: TurnInputs,
        schedule: &[usize],
        build: usize,
    ) -> Result<TurnOutcome, Fault>
        requires { All (IsEndOfRun (plan_view plan.now)) self.old.ends.items }
        ensures ok { OnOk result (All (IsEndOfRun (plan_view plan.now)) self.new.ends.items) }
        ensures err { IfErr result HasNoGraph }
    {
        let taken = match turn_after(alloc, plan, schedule, build) {
            Ok(taken) => taken,
            Err(fault) => return Err(fault),
        };
        let end = self.place_for(build, &taken)?;
        let first = first_of(taken.moved);
        let vmid = taken.vmid;
        let did = self.number_of(PastTurns {
            before: before.build,
            end,
            first,
            vmid,
        })?;
        let after = TurnOutcome {
            build: BuildState {
                did,
                done: taken.after,
                vmid,
                pages: taken.pages,
            },
            moved: taken.moved,
            end,
        };
        self.note(before, after)?;
        Ok(after)
    }

    /// Returns the state of a run after a turn with a given outcome. Notes the block that the turn leased or gave back,
    /// if any.
    pub(crate) fn state_after(
        &mut self,
        state: &State,
        build: usize,
        after: TurnOutcome,
    ) -> Result<State, AllocError>
        requires { build < 8 }
        ensures { self.new.ends ≡ self.old.ends }
    {
        let blocks = match after.moved {
            Some(moved) => self.find_or_add_moves(Moves {
                before: state.blocks,
                moved,
            })?,
            None => state.blocks,
        };
        Ok(state.with(build, after.build, blocks))
    }

    /// Consumes the cache, and returns its table of step outcomes.
    pub(crate) fn into_ends(self) -> Vec<EndOfStep>
        ensures { result ≡ self.ends }
    {
        let Turns {
            builds: _,
            blocks: _,
            known: _,
            ends,
        } = self;
        ends
    }
}
