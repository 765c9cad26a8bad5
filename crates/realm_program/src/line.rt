//! Checks whether a line of a worker's report agrees with a history of events.
ghost use Rattle.std.specs.Prelude.{◌≡◌, ◌↔◌, Option, slice_get, IsTrue, IsSomeAnd};
ghost use Rattle.std.specs.List.{flat_map};
ghost use Rattle.realm_model.specs.History.{pages_held};
ghost use Rattle.realm_model.specs.declared.act.Event.{Event};
ghost use Rattle.build_seats.specs.Events.{is_done, question_of_step, question_at};
ghost use Rattle.build_seats.specs.declared.ask.Question.TheVariants as question;
ghost use Rattle.realm_program.specs.Fitting.{AnswerFits};

use crate::command::command_and_reply_match;
use crate::undo::undo_and_reply_match;
use builders::{Answer, Asked, ReportLine};
use host_commands::{Cmd, Step};
use realm_model::{Act, Event};

/// Returns whether an answer says that the host accepted a command or an undo. Only such an answer goes with an event.
pub(crate) fn is_done(answer: &Answer) -> bool
    ensures { result ≡ is_done answer.now }
{
    matches!(answer, Answer::Replied(_) | Answer::Undone(_))
}

// Whether the answer to a command matches the open operations `opened` and the event at index `next` of the history.
fn command_fits(opened: &[Act], history: &[Event], next: usize, cmd: &Cmd, answer: &Answer) -> bool
    ensures { IsTrue result ↔ AnswerFits (flat_map pages_held opened.now) opened.now (slice_get history.now next) (question.Do cmd.now) answer.now }
{
    match answer {
        Answer::Replied(reply) => match history.get(next) {
            Some(event) => command_and_reply_match(opened, cmd, reply, &event.act),
            None => false,
        },
        Answer::Nothing | Answer::Refused(_) => true,
        _ => false,
    }
}

// Whether the answer to an undo matches the open operations `opened` and the event at index `next` of the history.
fn undo_fits(opened: &[Act], history: &[Event], next: usize, answer: &Answer) -> bool
    ensures { IsTrue result ↔ AnswerFits (flat_map pages_held opened.now) opened.now (slice_get history.now next) question.Undo answer.now }
{
    match answer {
        Answer::Undone(undone) => match history.get(next) {
            Some(event) => undo_and_reply_match(opened, undone, &event.act),
            None => false,
        },
        Answer::Nothing | Answer::Refused(_) => true,
        _ => false,
    }
}

// Whether the answer to a mark matches the open operations `opened`, whatever event is the next.
fn mark_fits(opened: &[Act], answer: &Answer) -> bool
    ensures { (next : Option Event) → IsTrue result ↔ AnswerFits (flat_map pages_held opened.now) opened.now next question.Mark answer.now }
{
    match answer {
        Answer::Marked(count) => *count as usize == opened.len(),
        Answer::Nothing | Answer::Refused(_) => true,
        _ => false,
    }
}

// Whether the answer to a step matches the open operations `opened` and the event at index `next` of the history.
fn step_fits(opened: &[Act], history: &[Event], next: usize, step: &Step, answer: &Answer) -> bool
    ensures { IsTrue result ↔ AnswerFits (flat_map pages_held opened.now) opened.now (slice_get history.now next) (question_of_step step.now) answer.now }
{
    match step {
        Step::Ask(cmd) => command_fits(opened, history, next, cmd, answer),
        Step::Mark => mark_fits(opened, answer),
        Step::Undo | Step::Abort | Step::Back => undo_fits(opened, history, next, answer),
    }
}

/// Returns whether a line of a report agrees with a history of events. The line's answer must agree with the build's
/// open operations `opened`, and with the build's next event. The event is at index `next` of the history. A line of a
/// step that the plan does not have agrees with nothing.
pub(crate) fn line_fits(
    opened: &[Act],
    history: &[Event],
    next: usize,
    steps: &[Step],
    line: &ReportLine,
) -> bool
    ensures { IsTrue result ↔ IsSomeAnd (question_at steps.now line.now.asked)
        (λ asked. AnswerFits (flat_map pages_held opened.now) opened.now (slice_get history.now next) asked line.now.answer) }
{
    match line.asked {
        Asked::Step(place) => match steps.get(place) {
            Some(step) => step_fits(opened, history, next, step, &line.answer),
            None => false,
        },
        Asked::Exit(number) => {
            command_fits(opened, history, next, &Cmd::Exit { number }, &line.answer)
        }
        Asked::Undo => undo_fits(opened, history, next, &line.answer),
    }
}
