//! Functions that count the schedules with each outcome.
ghost use Rattle.std.specs.Prelude.{◌≡◌, ◌++◌, [], ◌∷◌, List, map, OnOk, IfOk};
ghost use Rattle.view_program.specs.Tally.{Sighting, counted, bump, is_known};
ghost use Rattle.plan_states.specs.Tallies.{count_of_tally};

use crate::schedules::choice::Choice;
use plan_states::PathTally;
use schedule_graph::Count;
use std::alloc::{AllocError, Global};

/// Returns the build that was chosen for each turn of a schedule, in sequence. The one error is that allocation failed.
pub(crate) fn builds_of(alloc: Global, schedule: &[Choice]) -> Result<Vec<usize>, AllocError>
    ensures { IfOk result (λ builds. builds.items ≡ map (λ choice. choice.build) schedule.now) }
{
    schedule.iter().map(|choice| choice.build).collect(alloc)
}

// Adds 1 to the tally of an outcome if it has one, and returns whether it has one.
fn bump<K: Eq>(tallies: &mut [PathTally<K>], outcome: &K) -> Result<bool, AllocError>
    ensures bumped { OnOk result (map count_of_tally tallies.new ≡ map (bump K.eq outcome.now) (map count_of_tally tallies.old)) }
    ensures known { IfOk result (λ known. known ≡ is_known K.eq outcome.now tallies.old) }
{
    let mut is_known = false;
    for tally in tallies.iter_mut() {
        if tally.outcome == *outcome {
            tally.count.add_one()?;
            is_known = true;
        }
    }
    Ok(is_known)
}

/// Counts one more schedule with the given outcome. The one error is that allocation failed; the number is then
/// unspecified.
pub(crate) fn count<K: Eq + Drop>(
    alloc: Global,
    tallies: &mut Vec<PathTally<K>>,
    outcome: K,
    schedule: &[Choice],
) -> Result<(), AllocError>
    ensures { OnOk result ((seen : List (Sighting _)) → map count_of_tally tallies.old.items ≡ counted K.eq seen
        → map count_of_tally tallies.new.items ≡ counted K.eq (seen ++ record { outcome = outcome; schedule = map (λ choice. choice.build) schedule.now } ∷ [])) }
{
    let is_known = bump(tallies, &outcome)?;
    if is_known {
        return Ok(());
    }
    let first = builds_of(alloc, schedule)?;
    let count = Count::one(alloc)?;
    tallies.push(PathTally {
        outcome,
        count,
        first,
    })?;
    Ok(())
}
