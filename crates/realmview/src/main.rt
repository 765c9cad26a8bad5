//! The program `realmview`, which shows plans and histories. The program prints the faults of a plan, the reasons for
//! its refusals, and the outcomes of its other schedules. It also prints the history of a plan's run, the run as data
//! and as a browser page, and the map of a history. The plan or the history is a file, or standard input.
#![tactic(auto)]

ghost use Rattle.std.specs.Prelude.{◌≡◌, IfErr};
ghost use Rattle.std.specs.Process.{exit_status};
ghost use Rattle.realm_program.specs.Stop.{IsStatus};
ghost use Rattle.view_program.specs.Stop.{view_exit_status};

mod meter;

use checked_io::Told;
use command_line::{Ended, Input, Output, Stop, TextKind, arguments};
use meter::Meter;
use std::process::ExitCode;
use view_program::{ViewError, ViewOutcome, ViewSubcommand, run};

/// Returns the kind of input that a subcommand reads: a plan or a history.
fn awaited(asked: ViewSubcommand) -> &'static str {
    match asked {
        ViewSubcommand::Apply(_) => "a history",
        _ => "a plan",
    }
}

/// Returns the kind of a subcommand's output, which decides its colours on a terminal. The result is `None` if the
/// output has no colour.
fn painting(asked: ViewSubcommand) -> Option<TextKind> {
    match asked {
        ViewSubcommand::Check | ViewSubcommand::Why { .. } => Some(TextKind::Messages),
        _ => None,
    }
}

/// Parses the command line, and carries out its request.
fn show(rt: &HostRuntime) -> Result<Ended<ViewOutcome>, Stop<ViewError>> {
    let alloc = rt.alloc();
    let words = arguments::<_, ViewError>(rt)?;
    let line = match ViewSubcommand::of(alloc, &words) {
        Ok(line) => line,
        Err(error) => return Ended::shown(alloc, error, &mut Told::new(rt.stdout())),
    };
    let mut input = Told::new(Input::open(rt, "realmview", line.file, awaited(line.asked))?);
    let mut output = Told::new(Output::open(rt, painting(line.asked)));
    let meter = Meter::new(rt);
    let source = line.file.unwrap_or("plan");
    let outcome = run(alloc, line.asked, source, &mut input, &mut output, &meter);
    meter.end();
    Ended::of_run(outcome, output.is_closed())
}

/// Returns the program's exit status for the outcome of its run. If the program stops, standard error has the reason.
/// The faults of a plan are on standard output.
fn end(rt: &HostRuntime, outcome: Result<Ended<ViewOutcome>, Stop<ViewError>>) -> ExitCode
    ensures value { exit_status result ≡ view_exit_status outcome }
    ensures stops { IfErr outcome (λ _. IsStatus (exit_status result)) }
{
    match outcome {
        Ok(Ended::Done(ViewOutcome::Done) | Ended::Shown) => ExitCode::SUCCESS,
        Ok(Ended::Done(ViewOutcome::HasErrors)) => ExitCode::FAILURE,
        Ok(Ended::Closed) => ExitCode::from(141),
        Err(stop) => stop.end_in_colour(rt),
    }
}

fn main(rt: HostRuntime) -> ExitCode {
    end(&rt, show(&rt))
}
