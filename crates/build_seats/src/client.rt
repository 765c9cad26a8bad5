//! Performs the steps of a build as the build's worker. After the first refusal, the worker asks for the exits of the
//! running RECs, and then for undos of the open operations.
ghost use Rattle.std.specs.Prelude.{◌≡◌, ◌+◌, ◌*◌, ◌^◌, ◌<◌, ◌≤◌, [], length, map, is_ok, vec_len, vec_capacity};
ghost use Rattle.build_seats.specs.Asked.{ArePut};
ghost use Rattle.build_seats.specs.Report.{clearing, exit_of, is_over, IsWorkerReport, IsWork};
ghost use Rattle.build_seats.specs.Standing.{left_to_clear, first_standing};
ghost use Rattle.build_seats.specs.Stretch.{IsStretch};

use crate::ask::{Ending, Question, ask};
use crate::report::{Asked, Report, Stuck};
use crate::standing::{MOST, Standing};
use crate::step::{take_step, undo_each};
use crate::teller::{Gate, Teller};
use arrayvec::ArrayVec;
use granule_addr::RecNo;
use host_commands::{Cmd, Step};

// A copy of a list of REC numbers.
fn clone_numbers(numbers: &[u16]) -> ArrayVec<u16, MOST>
    requires { length numbers.now ≤ 1024 }
    ensures { result.items ≡ numbers.now }
{
    let mut clone = ArrayVec::new();
    for number in numbers {
        clone.push(*number);
    }
    clone
}

// Asks for the exit of each REC whose number is given, one after the other.
fn exit_each<T: Teller, G: Gate>(
    report: &mut Report,
    standing: &mut Standing,
    teller: &mut T,
    gate: &G,
    numbers: &[u16],
) -> Ending
    requires room { vec_len report.old.lines + length numbers.now ≤ vec_capacity report.old.lines }
    requires turns { standing.old.turn + length numbers.now < 2 ^ 64 }
    requires few { left_to_clear standing.old < 1024 }
    ensures exited { IsStretch (T.tells teller.old) (T.tells teller.new)
        (G.passes gate.now report.old.build) (G.stops gate.now report.old.build)
        standing.old standing.new report.old.lines.items report.new.lines.items result
        (λ exchanges lines. ArePut (map exit_of numbers.now) exchanges lines result) }
    ensures no_more { left_to_clear standing.new ≤ left_to_clear standing.old }
    ensures loan { T.loan teller.new ≡ T.loan teller.old }
    ensures same { (report.new.build ≡ report.old.build) × (vec_capacity report.new.lines ≡ vec_capacity report.old.lines) }
{
    'exits: for number in numbers {
        let number = RecNo::new(*number);
        match ask(
            report,
            standing,
            teller,
            gate,
            Asked::Exit(number),
            Question::Do(Cmd::Exit { number }),
        ) {
            Ending::Done => {}
            end => return end,
        }
    }
    Ending::Done
}

// Clears a build after a refusal: its running RECs exit, and its open operations are undone.
fn clear<T: Teller, G: Gate>(
    report: &mut Report,
    standing: &mut Standing,
    teller: &mut T,
    gate: &G,
) -> Ending
    requires room { vec_len report.old.lines + left_to_clear standing.old ≤ vec_capacity report.old.lines }
    requires turns { standing.old.turn + left_to_clear standing.old < 2 ^ 64 }
    requires few { left_to_clear standing.old < 1024 }
    ensures cleared { IsStretch (T.tells teller.old) (T.tells teller.new)
        (G.passes gate.now report.old.build) (G.stops gate.now report.old.build)
        standing.old standing.new report.old.lines.items report.new.lines.items result
        (λ exchanges lines. ArePut (clearing standing.old) exchanges lines result) }
    ensures loan { T.loan teller.new ≡ T.loan teller.old }
    ensures same { (report.new.build ≡ report.old.build) × (vec_capacity report.new.lines ≡ vec_capacity report.old.lines) }
{
    let numbers = clone_numbers(standing.running());
    let open = standing.journal();
    match exit_each(report, standing, teller, gate, numbers.as_slice()) {
        Ending::Done => undo_each(report, standing, teller, gate, &Asked::Undo, open),
        end => end,
    }
}

// Takes the steps, and clears the build after the first refusal.
fn take_steps<T: Teller, G: Gate>(
    report: &mut Report,
    standing: &mut Standing,
    steps: &[Step],
    teller: &mut T,
    gate: &G,
) -> Ending
    requires few { length steps.now ≤ 1024 }
    requires empty { report.old.lines.items ≡ [] }
    requires first { standing.old ≡ first_standing }
    requires room { 2 * length steps.now + 1 ≤ vec_capacity report.old.lines }
    ensures taken { IsStretch (T.tells teller.old) (T.tells teller.new)
        (G.passes gate.now report.old.build) (G.stops gate.now report.old.build)
        standing.old standing.new report.old.lines.items report.new.lines.items result
        (λ exchanges lines. IsWorkerReport 0 standing.old steps.now exchanges lines (is_over result)) }
    ensures few_lines { vec_len report.new.lines ≤ 2 * length steps.now + 1 }
    ensures loan { T.loan teller.new ≡ T.loan teller.old }
    ensures same { (report.new.build ≡ report.old.build) × (vec_capacity report.new.lines ≡ vec_capacity report.old.lines) }
{
    'steps: for place in 0..steps.len() {
        match take_step(report, standing, teller, gate, place, &steps[place]) {
            Ending::Done => {}
            Ending::Refused => return clear(report, standing, teller, gate),
            Ending::Cut => return Ending::Cut,
        }
    }
    Ending::Done
}

/// Performs the steps of a build in sequence. Each answer is added to the report.
///
/// After the first refusal, the running RECs exit, in ascending order of their numbers, and then all open operations
/// are undone. The replies to this worker determine which RECs run and how many operations are open. A refusal of an
/// exit or an undo ends the work. Before each question the worker waits for its next turn from the gate. If the gate
/// withholds a turn, the result is `Err`, and the worker asks no more.
pub fn work<T: Teller, G: Gate>(
    report: &mut Report,
    steps: &[Step],
    teller: &mut T,
    gate: &G,
) -> Result<(), Stuck>
    requires empty { report.old.lines.items ≡ [] }
    requires few { length steps.now ≤ 1024 }
    requires room { 2 * length steps.now + 1 ≤ vec_capacity report.old.lines }
    ensures work { IsWork (T.tells teller.old) (T.tells teller.new)
        (G.passes gate.now report.old.build) (G.stops gate.now report.old.build)
        steps.now report.new.lines.items (is_ok result) }
    ensures few_lines { vec_len report.new.lines ≤ 2 * length steps.now + 1 }
    ensures build { report.new.build ≡ report.old.build }
    ensures capacity { vec_capacity report.new.lines ≡ vec_capacity report.old.lines }
    ensures loan { T.loan teller.new ≡ T.loan teller.old }
{
    let mut standing = Standing::first();
    match take_steps(report, &mut standing, steps, teller, gate) {
        Ending::Cut => Err(Stuck),
        _ => Ok(()),
    }
}
