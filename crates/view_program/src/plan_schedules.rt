//! The text that the subcommand `explore` prints about a plan's possible schedules.
ghost use Rattle.std.specs.Prelude.{◌≡◌, IfOk, IfErr, string_bytes};
ghost use Rattle.realm_plan.specs.PlanView.{plan_view};
ghost use Rattle.view_program.specs.Lines.{drawn_text};
ghost use Rattle.view_program.specs.Schedules.{plan_after, IsDrawnText, IsExploredText, IsSchedulesText, IsWithoutExplored, IsWithoutSchedules};

use crate::plan_answer::answer_text;
use crate::plan_text::ViewText;
use crate::schedules::{Progress, Totals, push_drawn, sample};
use command_line::realmview::{AfterRefusal, Schedules};
use plan_states::states_text;
use rand_core::SeedableRng;
use rand_xoshiro::Xoshiro256PlusPlus;
use realm_plan::Plan;
use realm_program::Fault;
use std::alloc::{AllocError, Global};

// The text of the outcomes of schedules that were drawn at random.
fn text_of_drawn(alloc: Global, plan: &Plan, totals: &Totals) -> Result<String, AllocError>
    ensures { IfOk result (λ text. string_bytes text ≡ drawn_text (plan_view plan.now) totals.now) }
{
    let mut text = String::new(alloc);
    push_drawn(&mut text, plan, totals)?;
    Ok(text)
}

// Runs `count` schedules that are drawn at random from a seed, and returns the text of their outcomes.
fn run_drawn_of<P: Progress>(
    alloc: Global,
    plan: &Plan,
    count: u32,
    seed: u32,
    progress: &P,
) -> Result<String, AllocError>
    ensures { IfOk result (λ text. IsDrawnText count seed (plan_view plan.now) (string_bytes text)) }
{
    let mut numbers = Xoshiro256PlusPlus::seed_from_u64(seed as u64);
    let totals = sample(alloc, plan, count, &mut numbers, progress)?;
    text_of_drawn(alloc, plan, &totals)
}

// The text for the requested schedules: their outcomes, or the answer to a question about them.
fn schedules_text_of<P: Progress>(
    alloc: Global,
    plan: &Plan,
    source: &[u8],
    schedules: Schedules,
    progress: &P,
) -> Result<Vec<u8>, Fault>
    ensures ok { IfOk result (λ text. IsSchedulesText schedules source.now (plan_view plan.now) text.items) }
    ensures err { IfErr result (IsWithoutSchedules schedules (plan_view plan.now)) }
{
    match schedules {
        Schedules::All(most) => Ok(states_text(alloc, plan, most as usize)?.into_bytes()),
        Schedules::Drawn(count, seed) => {
            Ok(run_drawn_of(alloc, plan, count, seed, progress)?.into_bytes())
        }
        Schedules::Shortest(most, question) => answer_text(alloc, plan, source, most, question),
    }
}

// The plan, with builds that go on or give up after a refusal as `after` says.
fn plan_after(after: AfterRefusal, plan: Plan) -> Plan
    ensures { plan_view result ≡ plan_after after (plan_view plan) }
{
    match after {
        AfterRefusal::GoOn => plan,
        AfterRefusal::GiveUp => plan.giving_up(),
    }
}

/// A kind of text for a plan: counts of its schedules' outcomes, or the plan with a shortest schedule. The plan's own
/// schedule has no effect on the outcomes.
///
/// The schedules are all of the plan's, or some that are drawn at random. The text has the number of schedules, and
/// counts of the steps' outcomes, of builds without a refusal, and of final maps. Each outcome that some but not all
/// schedules have is given with the first schedule that shows it.
///
/// If a shortest schedule is asked for, the text is the plan with that schedule. If there is no such schedule, or if
/// there are too many states, the text is a line that says so.
///
/// There is no such text if allocation failed, or for `Mismatch`. That is a run that contradicts an earlier run, or a
/// plan with too many turns or bytes once it has the shortest schedule.
#[derive(Drop)]
pub struct Exploring<'a, P> {
    /// The schedules to explore: all of them, randomly drawn ones, or a shortest one.
    pub schedules: Schedules,
    /// The behaviour of the builds after a refusal: to go on, or to give up.
    pub after: AfterRefusal,
    /// The receiver of progress reports. Before each run of a drawn schedule, it gets the number of schedules run so
    /// far.
    pub progress: &'a P,
}

impl<P: Progress> ViewText for Exploring<'_, P> {
    ghost is_text = { λ asked. IsExploredText asked.schedules asked.after };

    ghost is_without = { λ asked. IsWithoutExplored asked.schedules asked.after };

    fn text_of(&self, alloc: Global, plan: Plan, source: &[u8]) -> Result<Vec<u8>, Fault> {
        let plan = plan_after(self.after, plan);
        schedules_text_of(alloc, &plan, source, self.schedules, self.progress)
    }
}
