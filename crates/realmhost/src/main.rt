//! The command-line program that runs a plan of realm builds, by its schedule or in threads. The plan is read from
//! standard input, and the text of the run is written to standard output.
#![tactic(auto)]

ghost use Rattle.std.specs.Prelude.{◌≡◌, false, IfErr};
ghost use Rattle.std.specs.Process.{exit_status};
ghost use Rattle.realm_program.specs.Stop.{status_of_outcome, IsStatus};

use builders::OpenGate;
use checked_io::Told;
use command_line::{Stop, arguments};
use realm_program::{Fault, Line, replay, run};
use std::io::{Read, Write};
use std::marker::Sync;
use std::process::ExitCode;
use std::rt::Env;
use std::sync::Wait;
use std::thread::Threads;

/// Runs a plan of realm builds, by its schedule or in threads as the arguments say. Reads the plan from `input`, and
/// writes the resulting text to `output`.
fn perform<H: Env + AllocGlobal + Threads + Wait + Sync, R: Read, W: Write>(
    rt: &H,
    input: &mut Told<R>,
    output: &mut Told<W>,
) -> Result<(), Stop<Fault>>
    requires readable { input.old.failed ≡ false }
    requires writable { output.old.failed ≡ false }
{
    let alloc = rt.alloc();
    let words = arguments::<_, Fault>(rt)?;
    match Line::of(alloc, &words)? {
        Line::Replay(erase) => replay(alloc, input, output, erase)?,
        Line::Run => run(rt, alloc, input, output, &OpenGate)?,
    }
    Ok(())
}

/// Returns the exit status for the outcome of the program. If the outcome is a `Stop`, its reason is printed first.
fn end(rt: &HostRuntime, outcome: Result<(), Stop<Fault>>) -> ExitCode
    ensures value { exit_status result ≡ status_of_outcome outcome }
    ensures stops { IfErr outcome (λ _. IsStatus (exit_status result)) }
{
    match outcome {
        Ok(()) => ExitCode::SUCCESS,
        Err(stop) => stop.end(rt),
    }
}

fn main(rt: HostRuntime) -> ExitCode {
    let mut input = Told::new(rt.stdin());
    let mut output = Told::new(rt.stdout());
    end(&rt, perform(&rt, &mut input, &mut output))
}
