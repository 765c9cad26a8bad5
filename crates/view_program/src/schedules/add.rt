//! Functions that add the outcomes of a run to the totals of earlier runs.
ghost use Rattle.std.specs.Prelude.{◌≡◌, ◌++◌, ℕ, nat_eq, [], ◌∷◌, List, map, filter, OnOk};
ghost use Rattle.std.specs.List.{list_any, range_with_len};
ghost use Rattle.view_program.specs.Same.{same_end};
ghost use Rattle.view_program.specs.Tally.{Sighting, counted};
ghost use Rattle.plan_states.specs.Tallies.{count_of_tally};
ghost use Rattle.view_program.specs.Totals.{Visit, sighting_in, refuses, has_refusal, is_smooth, AreTotals};

use crate::schedules::choice::Choice;
use crate::schedules::count::count;
use crate::schedules::totals::Totals;
use plan_states::{EndOfStep, PathTally, StepOutcomes};
use schedule_graph::Count;
use std::alloc::{AllocError, Global};

// Counts the outcomes of the steps of a schedule.
fn count_ends(
    alloc: Global,
    tallies: &mut Vec<PathTally<EndOfStep>>,
    choices: &[Choice],
    ends: &[EndOfStep],
) -> Result<(), AllocError>
    ensures { OnOk result ((seen : List (Sighting _)) → map count_of_tally tallies.old.items ≡ counted same_end seen
        → map count_of_tally tallies.new.items ≡ counted same_end (seen ++ map (sighting_in choices.now) ends.now)) }
{
    for end in ends {
        count(alloc, tallies, *end, choices)?;
    }
    Ok(())
}

// Whether an outcome is the refusal of a step of the build.
fn refuses(build: usize, end: &EndOfStep) -> bool
    ensures { result ≡ refuses build end.now }
{
    end.build == build && end.refusal.is_some()
}

// Whether any step of a build was refused.
fn is_refused(ends: &[EndOfStep], build: usize) -> bool
    ensures { result ≡ list_any (refuses build) ends.now }
{
    ends.iter().any(|end| refuses(build, end))
}

// Whether any step was refused.
fn has_refusal(ends: &[EndOfStep]) -> bool
    ensures { result ≡ has_refusal ends.now }
{
    ends.iter().any(|end| end.refusal.is_some())
}

// Counts each build that had no refusal in a run.
fn count_never_refused(
    alloc: Global,
    tallies: &mut Vec<PathTally<usize>>,
    builds: usize,
    choices: &[Choice],
    ends: &[EndOfStep],
) -> Result<(), AllocError>
    ensures { OnOk result ((seen : List (Sighting _)) → map count_of_tally tallies.old.items ≡ counted nat_eq seen
        → map count_of_tally tallies.new.items ≡ counted nat_eq (seen ++ map (sighting_in choices.now) (filter (is_smooth ends.now) (range_with_len 0 builds)))) }
{
    for build in 0..builds {
        if !is_refused(ends, build) {
            count(alloc, tallies, build, choices)?;
        }
    }
    Ok(())
}

impl Totals {
    /// Creates totals that count no runs yet.
    pub fn new(alloc: Global) -> Totals
        ensures { (builds : ℕ) → AreTotals builds [] result }
    {
        Totals {
            steps: StepOutcomes {
                schedule_count: Count::zero(alloc),
                by_refusal: Vec::new(alloc),
                ends: Vec::new(alloc),
                never_refused: Vec::new(alloc),
            },
            maps: Vec::new(alloc),
        }
    }

    /// Adds the outcomes of one more run to the totals. The plan has `builds` builds. The one error is that allocation
    /// failed; the totals are then unspecified, because a part of the run may be counted.
    pub fn add(
        &mut self,
        alloc: Global,
        builds: usize,
        choices: &[Choice],
        ends: &[EndOfStep],
        map: String,
    ) -> Result<(), AllocError>
        ensures { OnOk result ((visits : List Visit) → AreTotals builds visits self.old
            → AreTotals builds (visits ++ record { choices = choices.now; ends = ends.now; map = map } ∷ []) self.new) }
    {
        count(alloc, &mut self.maps, map, choices)?;
        self.steps.schedule_count.add_one()?;
        let steps = &mut self.steps;
        count(alloc, &mut steps.by_refusal, has_refusal(ends), choices)?;
        count_ends(alloc, &mut steps.ends, choices, ends)?;
        count_never_refused(alloc, &mut steps.never_refused, builds, choices, ends)
    }
}
