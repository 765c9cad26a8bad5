//! Functions that a build's worker uses to perform the steps of a plan.
ghost use Rattle.std.specs.Prelude.{◌≡◌, ◌+◌, ◌^◌, ◌<◌, ◌≤◌, List, [], ◌∷◌, ◌++◌, replicate, vec_len, vec_capacity};
ghost use Rattle.build_seats.specs.Asked.{ArePut};
ghost use Rattle.build_seats.specs.Exchange.{Exchange, CheckedBack};
ghost use Rattle.build_seats.specs.Report.{AreUndone, IsAbort, IsStepBack, IsStepReported};
ghost use Rattle.build_seats.specs.Standing.{left_to_clear, after_exchange};
ghost use Rattle.build_seats.specs.Stretch.{IsStretch};

use crate::ask::{Ending, Question, ask, ask_command, tell};
use crate::report::{Answer, Asked, Report};
use crate::standing::Standing;
use crate::teller::{Gate, Teller};
use host_commands::{Refusal, Step};
use host_ledger::Mark;

/// Asks the host, up to `count` times, to undo the build's newest open operation. Each answer is added to the report. A
/// refusal ends the sequence, and so does a turn that the gate does not give.
pub(crate) fn undo_each<T: Teller, G: Gate>(
    report: &mut Report,
    standing: &mut Standing,
    teller: &mut T,
    gate: &G,
    asked: &Asked,
    count: usize,
) -> Ending
    requires room { vec_len report.old.lines + count ≤ vec_capacity report.old.lines }
    requires turns { standing.old.turn + count < 2 ^ 64 }
    requires few { left_to_clear standing.old < 1024 }
    ensures undone { IsStretch (T.tells teller.old) (T.tells teller.new)
        (G.passes gate.now report.old.build) (G.stops gate.now report.old.build)
        standing.old standing.new report.old.lines.items report.new.lines.items result
        (λ exchanges lines. ArePut (replicate count (asked.now, Question.Undo)) exchanges lines result) }
    ensures loan { T.loan teller.new ≡ T.loan teller.old }
    ensures same { (report.new.build ≡ report.old.build) × (vec_capacity report.new.lines ≡ vec_capacity report.old.lines) }
{
    'undos: for _done in 0..count {
        match ask(report, standing, teller, gate, *asked, Question::Undo) {
            Ending::Done => {}
            end => return end,
        }
    }
    Ending::Done
}

// Performs the `count` undos of the step at index `place`. A step without undos gets one line, with the answer
// `Nothing`.
fn undo_step<T: Teller, G: Gate>(
    report: &mut Report,
    standing: &mut Standing,
    teller: &mut T,
    gate: &G,
    place: usize,
    count: usize,
) -> Ending
    requires room { vec_len report.old.lines + count < vec_capacity report.old.lines }
    requires turns { standing.old.turn + count < 2 ^ 64 }
    requires few { left_to_clear standing.old < 1024 }
    ensures undone { IsStretch (T.tells teller.old) (T.tells teller.new)
        (G.passes gate.now report.old.build) (G.stops gate.now report.old.build)
        standing.old standing.new report.old.lines.items report.new.lines.items result
        (λ exchanges lines. AreUndone place count exchanges lines result) }
    ensures loan { T.loan teller.new ≡ T.loan teller.old }
    ensures same { (report.new.build ≡ report.old.build) × (vec_capacity report.new.lines ≡ vec_capacity report.old.lines) }
{
    if count == 0 {
        tell(report, Asked::Step(place), Answer::Nothing)
    } else {
        undo_each(report, standing, teller, gate, &Asked::Step(place), count)
    }
}

fn abort<T: Teller, G: Gate>(
    report: &mut Report,
    standing: &mut Standing,
    teller: &mut T,
    gate: &G,
    place: usize,
) -> Ending
    requires room { vec_len report.old.lines + standing.old.journal < vec_capacity report.old.lines }
    requires turns { standing.old.turn + standing.old.journal + 1 < 2 ^ 64 }
    requires few { left_to_clear standing.old < 1024 }
    ensures aborted { IsStretch (T.tells teller.old) (T.tells teller.new)
        (G.passes gate.now report.old.build) (G.stops gate.now report.old.build)
        standing.old standing.new report.old.lines.items report.new.lines.items result
        (λ exchanges lines. IsAbort place standing.old.running standing.old.journal exchanges lines result) }
    ensures loan { T.loan teller.new ≡ T.loan teller.old }
    ensures same { (report.new.build ≡ report.old.build) × (vec_capacity report.new.lines ≡ vec_capacity report.old.lines) }
{
    let running = standing.running();
    if running.len() > 0 {
        return tell(
            report,
            Asked::Step(place),
            Answer::Refused(Refusal::RecRunning),
        );
    }
    let open = standing.journal();
    undo_step(report, standing, teller, gate, place, open)
}

// Takes a turn, and asks the teller for the number of open operations above a mark.
fn checked_back<T: Teller>(
    standing: &mut Standing,
    teller: &mut T,
    mark: Mark,
) -> Result<u16, Refusal>
    requires { standing.old.turn + 1 < 2 ^ 64 }
    ensures told { (earlier : List Exchange) → T.tells teller.old earlier → T.tells teller.new (earlier ++ CheckedBack mark result ∷ []) }
    ensures counted { standing.new ≡ after_exchange (CheckedBack mark result) standing.old }
    ensures loan { T.loan teller.new ≡ T.loan teller.old }
{
    standing.take_turn();
    teller.check_back(mark)
}

// Goes back to a mark, if there is one.
fn go_back<T: Teller, G: Gate>(
    report: &mut Report,
    standing: &mut Standing,
    teller: &mut T,
    gate: &G,
    place: usize,
    mark: Option<Mark>,
) -> Ending
    requires room { vec_len report.old.lines + standing.old.journal < vec_capacity report.old.lines }
    requires turns { standing.old.turn + standing.old.journal + 1 < 2 ^ 64 }
    requires few { left_to_clear standing.old < 1024 }
    ensures gone { IsStretch (T.tells teller.old) (T.tells teller.new)
        (G.passes gate.now report.old.build) (G.stops gate.now report.old.build)
        standing.old standing.new report.old.lines.items report.new.lines.items result
        (λ exchanges lines. IsStepBack place mark standing.old.journal exchanges lines result) }
    ensures loan { T.loan teller.new ≡ T.loan teller.old }
    ensures same { (report.new.build ≡ report.old.build) × (vec_capacity report.new.lines ≡ vec_capacity report.old.lines) }
{
    let Some(mark) = mark else {
        return tell(
            report,
            Asked::Step(place),
            Answer::Refused(Refusal::NothingToUndo),
        );
    };
    match gate.pass(report.build, standing.turn()) {
        Ok(()) => match checked_back(standing, teller, mark) {
            Ok(count) => {
                let count = standing.journal().min(count as usize);
                undo_step(report, standing, teller, gate, place, count)
            }
            Err(refusal) => tell(report, Asked::Step(place), Answer::Refused(refusal)),
        },
        Err(_) => Ending::Cut,
    }
}

/// Performs one step of a build for the build's worker. The answers are added to the report. The step's index in the
/// build's list is `place`.
pub(crate) fn take_step<T: Teller, G: Gate>(
    report: &mut Report,
    standing: &mut Standing,
    teller: &mut T,
    gate: &G,
    place: usize,
    step: &Step,
) -> Ending
    requires room { vec_len report.old.lines + standing.old.journal < vec_capacity report.old.lines }
    requires turns { standing.old.turn + standing.old.journal + 1 < 2 ^ 64 }
    requires few { left_to_clear standing.old < 1024 }
    ensures taken { IsStretch (T.tells teller.old) (T.tells teller.new)
        (G.passes gate.now report.old.build) (G.stops gate.now report.old.build)
        standing.old standing.new report.old.lines.items report.new.lines.items result
        (λ exchanges lines. IsStepReported place standing.old step.now exchanges lines result) }
    ensures loan { T.loan teller.new ≡ T.loan teller.old }
    ensures same { (report.new.build ≡ report.old.build) × (vec_capacity report.new.lines ≡ vec_capacity report.old.lines) }
{
    match step {
        Step::Ask(cmd) => ask_command(report, standing, teller, gate, Asked::Step(place), cmd),
        Step::Undo => ask(
            report,
            standing,
            teller,
            gate,
            Asked::Step(place),
            Question::Undo,
        ),
        Step::Abort => abort(report, standing, teller, gate, place),
        Step::Mark => ask(
            report,
            standing,
            teller,
            gate,
            Asked::Step(place),
            Question::Mark,
        ),
        Step::Back => {
            let mark = standing.mark();
            go_back(report, standing, teller, gate, place, mark)
        }
    }
}
