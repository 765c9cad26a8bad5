//! The `rmitrace` program, which answers the RMI calls of a trace, checks its answers, explains its refused calls, or
//! prints its calls by name. The lines of a trace come from a file or from standard input. They go to standard output
//! with their answers, by names, or with the reasons of refusals; or they are compared.
#![tactic(auto)]

ghost use Rattle.std.specs.Prelude.{◌≡◌, IfErr};
ghost use Rattle.std.specs.Process.{exit_status};
ghost use Rattle.trace_program.specs.Stop.{trace_exit_status, IsTraceStatus};

use checked_io::Told;
use command_line::{Ended, Input, Output, Stop, TextKind, arguments};
use std::process::ExitCode;
use trace_program::{TraceError, TraceSubcommand, TraceVerdict, run};

/// Returns the kind of text that a subcommand prints, which decides the colours on a terminal. The result is `None` for
/// output without colour.
fn painting(asked: &TraceSubcommand) -> Option<TextKind> {
    match asked {
        TraceSubcommand::Answer | TraceSubcommand::Names => None,
        TraceSubcommand::Why => Some(TextKind::Messages),
        TraceSubcommand::Check(_) => Some(TextKind::Difference),
    }
}

/// Parses the command line, and carries out its request.
fn serve(rt: &HostRuntime) -> Result<Ended<TraceVerdict>, Stop<TraceError>> {
    let alloc = rt.alloc();
    let words = arguments::<_, TraceError>(rt)?;
    let line = match TraceSubcommand::of(alloc, &words) {
        Ok(line) => line,
        Err(error) => return Ended::shown(alloc, error, &mut Told::new(rt.stdout())),
    };
    let mut input = Told::new(Input::open(rt, "rmitrace", line.file, "a trace")?);
    let mut output = Told::new(Output::open(rt, painting(&line.asked)));
    let source = line.file.unwrap_or("trace");
    let outcome = run(alloc, &line.asked, source, &mut input, &mut output);
    Ended::of_run(outcome, output.is_closed())
}

/// Returns the program's exit status for the outcome of its run. If an error stopped the program, the reason is printed
/// to standard error; a wrong line is on standard output.
fn end(rt: &HostRuntime, outcome: Result<Ended<TraceVerdict>, Stop<TraceError>>) -> ExitCode
    ensures value { exit_status result ≡ trace_exit_status outcome }
    ensures stops { IfErr outcome (λ _. IsTraceStatus (exit_status result)) }
{
    match outcome {
        Ok(Ended::Done(TraceVerdict::Agrees) | Ended::Shown) => ExitCode::SUCCESS,
        Ok(Ended::Done(TraceVerdict::NothingSame | TraceVerdict::Differs)) => ExitCode::FAILURE,
        Ok(Ended::Closed) => ExitCode::from(141),
        Err(stop) => stop.end_in_colour(rt),
    }
}

fn main(rt: HostRuntime) -> ExitCode {
    end(&rt, serve(&rt))
}
