//! Questions of a build's worker to its host: commands, undos and marks. For each question the worker waits for its
//! turn, calls its `Teller`, and adds a line to its report.
ghost use Rattle.std.specs.Prelude.{◌≡◌, ◌+◌, ◌^◌, ◌<◌, [], ◌∷◌, ◌++◌, vec_len, vec_capacity};
ghost use Rattle.build_seats.specs.Asked.{answer_of, line, ArePut};
ghost use Rattle.build_seats.specs.Report.{ending_of};
ghost use Rattle.build_seats.specs.Standing.{left_to_clear};
ghost use Rattle.build_seats.specs.Stretch.{IsExchange, IsStretch};
ghost use Rattle.build_seats.specs.declared.ask.Question.TheVariants as question;

use crate::report::{Answer, Asked, Report, ReportLine};
use crate::standing::Standing;
use crate::teller::{Gate, Teller};
use host_commands::{Cmd, Refusal};

/// A command, an undo or a mark that a build's worker asks the host for. The answer becomes a line of the worker's
/// report.
#[derive(Drop)]
pub enum Question {
    Do(Cmd),
    Undo,
    Mark,
}

/// The outcome of a worker's list of requests to the host: all are accepted, one is refused, or the gate withholds a
/// turn.
#[derive(Clone, Copy)]
pub enum Ending {
    /// The outcome when each request is accepted.
    Done,
    /// The outcome when a request is refused. The rest of the list is not asked.
    Refused,
    /// The outcome if the gate withholds a turn. The next question is not asked.
    Cut,
}

// Takes a turn, and asks the teller to perform a command. An accepted command is counted, and its reply is at `Ok`.
fn put_command<T: Teller>(
    cmd: &Cmd,
    standing: &mut Standing,
    teller: &mut T,
) -> Result<Answer, Refusal>
    requires turns { standing.old.turn + 1 < 2 ^ 64 }
    requires few { left_to_clear standing.old < 1024 }
    ensures exchange { IsExchange (T.tells teller.old) (T.tells teller.new) (question.Do cmd.now) standing.old standing.new (answer_of result) }
    ensures loan { T.loan teller.new ≡ T.loan teller.old }
{
    standing.take_turn();
    let reply = teller.ask(cmd)?;
    standing.count_command(cmd);
    Ok(Answer::Replied(reply))
}

// Takes a turn and asks the teller a question. An accepted question is counted, and its answer is at `Ok`.
fn put<T: Teller>(
    question: Question,
    standing: &mut Standing,
    teller: &mut T,
) -> Result<Answer, Refusal>
    requires turns { standing.old.turn + 1 < 2 ^ 64 }
    requires few { left_to_clear standing.old < 1024 }
    ensures exchange { IsExchange (T.tells teller.old) (T.tells teller.new) question standing.old standing.new (answer_of result) }
    ensures loan { T.loan teller.new ≡ T.loan teller.old }
{
    match question {
        Question::Do(cmd) => put_command(&cmd, standing, teller),
        Question::Undo => {
            standing.take_turn();
            let undone = teller.undo()?;
            standing.count_undo();
            Ok(Answer::Undone(undone))
        }
        Question::Mark => {
            standing.take_turn();
            let mark = teller.mark()?;
            standing.count_mark(mark);
            Ok(Answer::Marked(mark.length()))
        }
    }
}

fn ending_of(answer: &Answer) -> Ending
    ensures { result ≡ ending_of answer.now }
{
    match answer {
        Answer::Refused(_) => Ending::Refused,
        _ => Ending::Done,
    }
}

/// Adds a line to a worker's report, with a question and its answer. Returns the outcome: `Refused` for a refusal, and
/// otherwise `Done`.
pub fn tell(report: &mut Report, asked: Asked, answer: Answer) -> Ending
    requires room { vec_len report.old.lines < vec_capacity report.old.lines }
    ensures ending { result ≡ ending_of answer }
    ensures added { report.new.lines.items ≡ report.old.lines.items ++ line asked answer ∷ [] }
    ensures one { vec_len report.new.lines ≡ vec_len report.old.lines + 1 }
    ensures same { (report.new.build ≡ report.old.build) × (vec_capacity report.new.lines ≡ vec_capacity report.old.lines) }
{
    let end = ending_of(&answer);
    report.lines.push_reserved(ReportLine { asked, answer });
    end
}

/// Waits for a worker's next turn, and then asks the host to perform a command. The answer is added to the report. The
/// command is borrowed, so the caller keeps it.
pub fn ask_command<T: Teller, G: Gate>(
    report: &mut Report,
    standing: &mut Standing,
    teller: &mut T,
    gate: &G,
    asked: Asked,
    cmd: &Cmd,
) -> Ending
    requires room { vec_len report.old.lines < vec_capacity report.old.lines }
    requires turns { standing.old.turn + 1 < 2 ^ 64 }
    requires few { left_to_clear standing.old < 1024 }
    ensures asked { IsStretch (T.tells teller.old) (T.tells teller.new)
        (G.passes gate.now report.old.build) (G.stops gate.now report.old.build)
        standing.old standing.new report.old.lines.items report.new.lines.items result
        (λ exchanges lines. ArePut ((asked, question.Do cmd.now) ∷ []) exchanges lines result) }
    ensures loan { T.loan teller.new ≡ T.loan teller.old }
    ensures same { (report.new.build ≡ report.old.build) × (vec_capacity report.new.lines ≡ vec_capacity report.old.lines) }
{
    let turn = standing.turn();
    match gate.pass(report.build, turn) {
        Ok(()) => {
            let answer = put_command(cmd, standing, teller).unwrap_or_else(Answer::Refused);
            tell(report, asked, answer)
        }
        Err(_) => Ending::Cut,
    }
}

/// Waits for a worker's next turn, then asks the host for a command, undo or mark. The answer is added to the report.
pub fn ask<T: Teller, G: Gate>(
    report: &mut Report,
    standing: &mut Standing,
    teller: &mut T,
    gate: &G,
    asked: Asked,
    question: Question,
) -> Ending
    requires room { vec_len report.old.lines < vec_capacity report.old.lines }
    requires turns { standing.old.turn + 1 < 2 ^ 64 }
    requires few { left_to_clear standing.old < 1024 }
    ensures asked { IsStretch (T.tells teller.old) (T.tells teller.new)
        (G.passes gate.now report.old.build) (G.stops gate.now report.old.build)
        standing.old standing.new report.old.lines.items report.new.lines.items result
        (λ exchanges lines. ArePut ((asked, question) ∷ []) exchanges lines result) }
    ensures loan { T.loan teller.new ≡ T.loan teller.old }
    ensures same { (report.new.build ≡ report.old.build) × (vec_capacity report.new.lines ≡ vec_capacity report.old.lines) }
{
    match gate.pass(report.build, standing.turn()) {
        Ok(()) => {
            let answer = put(question, standing, teller).unwrap_or_else(Answer::Refused);
            tell(report, asked, answer)
        }
        Err(_) => Ending::Cut,
    }
}
