//! The text of a worker's report, which has a line for each answer.
ghost use Rattle.std.specs.Prelude.{◌≡◌, ◌++◌, OnOk, Some, string_bytes};
ghost use Rattle.plan_replay.specs.Turn.{undoes_many};
ghost use Rattle.realm_program.specs.Report.{step_of_line, ends_step, answer_of_line, line_text, report_text};

use builders::{Answer, Asked, Report, ReportLine};
use granule_addr::BuildId;
use host_commands::{Cmd, Step};
use plan_replay::{TurnAnswer, push_turn};
use realm_plan::PlanStep;
use std::alloc::AllocError;

// Whether a step may undo any number of operations, with a line for each of them.
fn undoes_many(step: &PlanStep) -> bool
    ensures { result ≡ undoes_many step.now }
{
    matches!(step, PlanStep::Whole(Step::Abort | Step::Back))
}

// Whether a line is the last of its step.
fn ends_step(asked: Asked, next: Option<ReportLine>) -> bool
    ensures { result ≡ ends_step asked next }
{
    let Some(next) = next else {
        return true;
    };
    match (asked, next.asked) {
        (Asked::Step(place), Asked::Step(other)) => place != other,
        _ => true,
    }
}

// The answer of a turn for the answer in a report's line; `ends` says whether an undo is the last of its step.
fn answer_of_line(answer: Answer, ends: bool) -> TurnAnswer
    ensures { result ≡ answer_of_line answer ends }
{
    match answer {
        Answer::Replied(reply) => TurnAnswer::Replied(reply),
        Answer::Undone(undone) if ends => TurnAnswer::Ended(undone.kind),
        Answer::Undone(undone) => TurnAnswer::Undone(undone.kind),
        Answer::Marked(length) => TurnAnswer::Marked(length),
        Answer::Nothing => TurnAnswer::Nothing,
        Answer::Refused(refusal) => TurnAnswer::Refused(refusal),
    }
}

// Appends the line of a step. `next` shows only whether the line is the last of its step.
fn push_step_line(
    text: &mut String,
    build: BuildId,
    step: &PlanStep,
    line: ReportLine,
    next: Option<ReportLine>,
) -> Result<(), AllocError>
    ensures { OnOk result (string_bytes text.new ≡ string_bytes text.old ++ line_text build (Some step.now) line next) }
{
    let ends = undoes_many(step) && ends_step(line.asked, next);
    push_turn(text, build, step, answer_of_line(line.answer, ends))
}

// Appends the text of a report line. The line of a step that the plan does not have is left out. `next` shows only
// whether the line is the last of its step.
fn push_line(
    text: &mut String,
    build: BuildId,
    steps: &[PlanStep],
    line: &ReportLine,
    next: Option<ReportLine>,
) -> Result<(), AllocError>
    ensures { OnOk result (string_bytes text.new ≡ string_bytes text.old ++ line_text build (step_of_line steps.now line.now.asked) line.now next) }
{
    match line.asked {
        Asked::Step(place) => match steps.get(place) {
            Some(step) => push_step_line(text, build, step, *line, next),
            None => Ok(()),
        },
        Asked::Exit(number) => {
            let step = PlanStep::Whole(Step::Ask(Cmd::Exit { number }));
            push_step_line(text, build, &step, *line, next)
        }
        Asked::Undo => push_step_line(text, build, &PlanStep::Whole(Step::Undo), *line, next),
    }
}

/// Appends the lines of a worker's report to a text. Each line has the form of a turn's line: the build, the step and
/// the answer. An undo is `done` in the last line of an abort or a step back, also if the worker was stopped there. A
/// line whose index the plan does not have is left out: no report of the plan has one. If allocation fails, the text
/// may have a part of the lines.
pub(crate) fn push_report(
    text: &mut String,
    steps: &[PlanStep],
    report: &Report,
) -> Result<(), AllocError>
    ensures { OnOk result (string_bytes text.new ≡ string_bytes text.old ++ report_text report.now.build steps.now report.now.lines.items) }
{
    let mut rest = report.lines.as_slice();
    while let Some((line, more)) = rest.split_first() {
        push_line(text, report.build, steps, line, more.first().copied())?;
        rest = more;
    }
    Ok(())
}
