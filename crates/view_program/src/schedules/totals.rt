//! Counts of step outcomes and of final host maps over many runs of a plan.
use plan_states::{PathTally, StepOutcomes};

/// Counts of step outcomes and of final host maps, over runs of a plan with randomly drawn schedules. Outcomes are in
/// the sequence in which they first occurred.
pub struct Totals {
    pub steps: StepOutcomes,
    /// For each final map of the host, the number of runs that ended with it, and the schedule of the first of these
    /// runs.
    pub maps: Vec<PathTally<String>>,
}

impl Drop for Totals {
    fn drop(self) {
        let Totals { steps: _, maps: _ } = self;
    }
}
