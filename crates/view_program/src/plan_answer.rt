//! A plan with the shortest schedule that shows a given effect, such as a refusal.
ghost use Rattle.std.specs.Prelude.{◌≡◌, true, IfOk, IfErr, string_bytes};
ghost use Rattle.realm_plan.specs.PlanView.{plan_view};
ghost use Rattle.plan_states.specs.Exploration.{HasNoGraph};
ghost use Rattle.plan_states.specs.Shortest.{EndsWithAnswer};
ghost use Rattle.view_program.specs.OrderText.{with_schedule};
ghost use Rattle.view_program.specs.ToAnswer.{never_line, question_of_options, IsAnswerText, IsPlanTo};

use crate::plan_order::{own_schedule, with_order};
use crate::same_plan::is_same_but_schedule;
use command_line::realmview::{ScheduleQuestion, StepPlace};
use plan_states::{TurnQuestion, Witness, answers, shortest_answer, too_many_text};
use realm_plan::{Plan, PlanError};
use realm_program::Fault;
use std::alloc::{AllocError, Global};

// The condition from the command line, in the form that the search takes.
fn question_of_options(asked: ScheduleQuestion) -> TurnQuestion
    ensures { result ≡ question_of_options asked }
{
    match asked {
        ScheduleQuestion::Refused(place) => TurnQuestion::Refused {
            build: place.build as usize,
            step: place.step as usize,
        },
        ScheduleQuestion::Waiting(build) => TurnQuestion::Waiting {
            build: build as usize,
        },
        ScheduleQuestion::Leased(granules) => TurnQuestion::Leased {
            granules: granules as usize,
        },
    }
}

// Whether the plan `read` is `plan` with this schedule, at whose end the condition holds.
fn ends_with_answer(
    alloc: Global,
    read: &Plan,
    plan: &Plan,
    schedule: &[usize],
    question: TurnQuestion,
) -> Result<bool, Fault>
    ensures plan { IfOk result (λ ends. ends ≡ true → plan_view read.now ≡ with_schedule schedule.now (plan_view plan.now)) }
    ensures answers { IfOk result (λ ends. ends ≡ true → EndsWithAnswer (plan_view read.now) question schedule.now) }
    ensures err { IfErr result HasNoGraph }
{
    let own = own_schedule(alloc, read)?;
    if own.as_slice() != schedule || !is_same_but_schedule(read, plan) {
        return Ok(false);
    }
    answers(alloc, read, schedule, question)
}

// The text `source` of a plan, with `schedule` in place of its own. Read back, the text has to be the plan with this
// schedule, at whose end the condition holds.
fn plan_to(
    alloc: Global,
    plan: &Plan,
    source: &[u8],
    schedule: &[usize],
    question: TurnQuestion,
) -> Result<Vec<u8>, Fault>
    ensures ok { IfOk result (λ text. IsPlanTo question source.now (plan_view plan.now) schedule.now text.items) }
    ensures err { IfErr result HasNoGraph }
{
    let text = with_order(alloc, source, schedule)?;
    match Plan::from_bytes(alloc, &text) {
        Ok(read) if ends_with_answer(alloc, &read, plan, schedule, question)? => Ok(text),
        Err(PlanError::Memory) => Err(Fault::Memory),
        _ => Err(Fault::Mismatch),
    }
}

// The line that says that the condition holds at the end of no schedule. No schedule refuses the step, lets the build
// wait while another build leases no page, or leases as many granules at a time.
fn never_text(alloc: Global, asked: ScheduleQuestion) -> Result<String, AllocError>
    ensures { IfOk result (λ text. string_bytes text ≡ never_line asked) }
{
    match asked {
        ScheduleQuestion::Refused(StepPlace { build, step }) => {
            format!(in alloc; "step {build} {step} refused in 0\n")
        }
        ScheduleQuestion::Waiting(build) => format!(in alloc; "build {build} waiting in 0\n"),
        ScheduleQuestion::Leased(granules) => format!(in alloc; "leased {granules} in 0\n"),
    }
}

/// Returns a plan's text with the shortest schedule at whose end the condition `asked` holds. If there is no such
/// schedule, or if there are more than `most` states, returns a line that says so.
///
/// Errors. `Memory`: allocation failed. `Mismatch`: with its new schedule the plan has too many turns or bytes. Or a
/// run contradicts an earlier run, a turn is missing in the graph, or the graph lists a step outcome or a map twice.
/// No clause excludes these last ones for a host that gives the same answers to the same calls.
pub(crate) fn answer_text(
    alloc: Global,
    plan: &Plan,
    source: &[u8],
    most: u32,
    asked: ScheduleQuestion,
) -> Result<Vec<u8>, Fault>
    ensures ok { IfOk result (λ text. IsAnswerText most asked source.now (plan_view plan.now) text.items) }
    ensures err { IfErr result HasNoGraph }
{
    let question = question_of_options(asked);
    match shortest_answer(alloc, plan, most as usize, question)? {
        Witness::Found(schedule) => plan_to(alloc, plan, source, &schedule, question),
        Witness::Never => Ok(never_text(alloc, asked)?.into_bytes()),
        Witness::TooMany => Ok(too_many_text(alloc, most as usize)?.into_bytes()),
    }
}
