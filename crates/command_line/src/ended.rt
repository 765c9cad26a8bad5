//! The outcome of a program that stops without an error.
ghost use Rattle.std.specs.Prelude.{◌≡◌, false, true, Err, IfErr, IfOk};
ghost use Rattle.clap.specs.Values.{kind_of};
ghost use Rattle.command_line.specs.Ended.{end_of_run, is_request, IsFaultWith, IsShown, IsUnshown};
ghost use Rattle.command_line.specs.Stop.{stop_of_error};

use crate::stop::{Reason, Stop};
use checked_io::{DeviceFailed, Told};
use clap::Error;
use std::alloc::Global;
use std::io::Write;

/// The outcome of a program that stops without an error.
#[derive(Clone, Copy)]
pub enum Ended<V> {
    /// The outcome in which the request was carried out. The value is the verdict.
    Done(V),
    /// The outcome in which a help or version text was printed.
    Shown,
    /// The outcome in which the program stopped because its output was closed.
    Closed,
}

impl<V> Ended<V> {
    /// Turns the outcome of a program's run into how the program ended, or into the run's fault as the reason to stop.
    /// If the output is closed, a failed run is not an error.
    pub fn of_run<F>(outcome: Result<V, F>, is_closed: bool) -> Result<Ended<V>, Stop<F>>
    where
        V: Drop,
        F: Drop,
        ensures { result ≡ end_of_run outcome is_closed }
    {
        match outcome {
            Ok(verdict) => Ok(Ended::Done(verdict)),
            Err(_) if is_closed => Ok(Ended::Closed),
            Err(fault) => Err(Stop::Run(fault)),
        }
    }

    /// Prints the help or version text that a command line asks for. Returns any other error as the reason why the
    /// program stops.
    pub fn shown<F: Reason + From<DeviceFailed>, W: Write>(
        alloc: Global,
        error: Error,
        output: &mut Told<W>,
    ) -> Result<Ended<V>, Stop<F>>
        requires { output.old.failed ≡ false }
        ensures refused { is_request (kind_of error) ≡ false → result ≡ Err (stop_of_error F.memory error) }
        ensures unwritten { is_request (kind_of error) ≡ false → output.new ≡ output.old }
        ensures ended { IfOk result (IsShown output.new.failed output.new.is_closed) }
        ensures stopped { is_request (kind_of error) ≡ true → IfErr result (IsUnshown F.memory output.new.failed output.new.is_closed) }
        ensures device { output.new.failed ≡ true → IfErr result (IsFaultWith (F.from_gives (record {}))) }
    {
        if error.use_stderr() {
            return Err(error.into());
        }
        let Ok(text) = format!(in alloc; "{error}") else {
            return Err(Stop::Run(F::of_memory()));
        };
        match output.write_whole(text.as_bytes()) {
            Ok(()) => Ok(Ended::Shown),
            Err(_) if output.is_closed() => Ok(Ended::Closed),
            Err(failed) => Err(Stop::Run(failed.into())),
        }
    }
}
