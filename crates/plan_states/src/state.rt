//! The states of a plan's runs, which are the nodes of the state graph.
ghost use Rattle.std.specs.Prelude.{◌≡◌, ◌<◌, slice_set};
ghost use Rattle.std.specs.Bool.{OnFalse};
ghost use Rattle.realm_plan.specs.PlanView.{plan_view};
ghost use Rattle.plan_states.specs.States.{at_rest, first_state, AreAllDone};

use crate::question::PagesHeld;
use crate::whole::StepsDone;
use plan_replay::step_after;
use realm_plan::Plan;

/// A build's part of a run's state: past turns, progress, VMID and page count. The past turns are given by their index
/// in `Turns`, and the VMID is that of the realm.
#[derive(Clone, Copy, PartialEq, Eq, Hash)]
pub(crate) struct BuildState {
    pub(crate) did: usize,
    pub(crate) done: usize,
    pub(crate) vmid: Option<u8>,
    pub(crate) pages: u16,
}

/// The state of a run: each build's state, and the blocks leased and given back. The sequence of the blocks is given by
/// its index.
#[derive(Clone, Copy, PartialEq, Eq, Hash)]
pub(crate) struct State {
    pub(crate) builds: [BuildState; 8],
    pub(crate) blocks: usize,
}

impl BuildState {
    // The state of a build that did nothing. The index for its past turns is the build's number.
    fn at_rest(build: usize) -> BuildState
        ensures { result ≡ at_rest build }
    {
        BuildState {
            did: build,
            done: 0,
            vmid: None,
            pages: 0,
        }
    }
}

impl State {
    /// Creates the state of a run before the first turn. No build has done anything, and no block has been leased.
    pub(crate) fn first() -> State
        ensures { result ≡ first_state }
    {
        let builds = [
            BuildState::at_rest(0),
            BuildState::at_rest(1),
            BuildState::at_rest(2),
            BuildState::at_rest(3),
            BuildState::at_rest(4),
            BuildState::at_rest(5),
            BuildState::at_rest(6),
            BuildState::at_rest(7),
        ];
        State { builds, blocks: 0 }
    }

    /// Returns the run's state after a turn of a build.
    pub(crate) fn with(self, build: usize, after: BuildState, blocks: usize) -> State
        requires { build < 8 }
        ensures { result ≡ record { builds = slice_set self.builds build after; blocks = blocks } }
    {
        let mut builds = self.builds;
        builds[build] = after;
        State { builds, blocks }
    }

    // The number of steps that a build has done; a plan has far fewer than 2^16.
    fn done_by(&self, build: usize) -> u16
        requires { build < 8 }
    {
        u16::try_from(self.builds[build].done).unwrap_or(u16::MAX)
    }

    /// Returns the number of steps that each build has done.
    pub(crate) fn progress(&self) -> StepsDone {
        [
            self.done_by(0),
            self.done_by(1),
            self.done_by(2),
            self.done_by(3),
            self.done_by(4),
            self.done_by(5),
            self.done_by(6),
            self.done_by(7),
        ]
    }

    /// Returns the number of pages that each build holds.
    pub(crate) fn held(&self) -> PagesHeld {
        let [one, two, three, four, five, six, seven, eight] = self.builds;
        [
            one.pages,
            two.pages,
            three.pages,
            four.pages,
            five.pages,
            six.pages,
            seven.pages,
            eight.pages,
        ]
    }

    /// Returns whether any build of a plan has a step left to run.
    pub(crate) fn has_more(&self, plan: &Plan) -> bool
        ensures { OnFalse result (AreAllDone (plan_view plan.now) self.now) }
    {
        for build in 0..8 {
            if step_after(plan, build, self.builds[build].done).is_some() {
                return true;
            }
        }
        false
    }
}
