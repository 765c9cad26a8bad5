//! Tallies that give, for each outcome, the number of schedules that have it.
use crate::step_end::EndOfStep;
use schedule_graph::Count;

/// An outcome, the number of schedules that have it, and the first of these schedules.
#[derive(Drop)]
pub struct PathTally<K> {
    pub outcome: K,
    pub count: Count,
    pub first: Vec<usize>,
}

/// Tallies of step outcomes over all schedules of a plan, or over schedules drawn at random.
pub struct StepOutcomes {
    /// The number of schedules that were counted.
    pub schedule_count: Count,
    /// The numbers of schedules with and without a refused step.
    pub by_refusal: Vec<PathTally<bool>>,
    /// For each outcome of a step, the number of schedules in which it occurs.
    pub ends: Vec<PathTally<EndOfStep>>,
    /// For each build, the number of schedules without a refused step of that build. A build has no tally if there are
    /// no such schedules.
    pub never_refused: Vec<PathTally<usize>>,
}

impl Drop for StepOutcomes {
    fn drop(self) {
        let StepOutcomes {
            schedule_count: _,
            by_refusal: _,
            ends: _,
            never_refused: _,
        } = self;
    }
}

/// The outcomes of all schedules of a plan.
pub struct Outcomes {
    pub steps: StepOutcomes,
    /// For each page map, the number of schedules that end with it. Each map is given by its index.
    pub maps: Vec<PathTally<usize>>,
}

impl Drop for Outcomes {
    fn drop(self) {
        let Outcomes { steps: _, maps: _ } = self;
    }
}
