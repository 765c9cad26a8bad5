//! The reasons why a program stops before its work is done.
ghost use Rattle.std.specs.Prelude.{◌≡◌, ℕ};
ghost use Rattle.command_line.specs.Stop.{status_of_stop, stop_of_error};
ghost use Rattle.command_line.specs.declared.stop.Stop.TheVariants.{Run};

use clap::Error;
use clap::error::ErrorKind;
use std::fmt;
use std::fmt::Display;

/// The trait for the reasons why a program has not done what its command line asks for. The text of a reason is a line
/// for standard error.
pub trait Reason: Display + Drop {
    /// The exit status of each reason, for use in contracts.
    ghost status_of: { Self → ℕ };

    /// The reason to stop after a failed allocation.
    ghost memory: { Self };

    /// Returns the exit status of a program that stops for this reason.
    fn status(&self) -> u8
        ensures { result ≡ status_of self.now };

    /// Returns the reason to stop after a failed allocation.
    fn of_memory() -> Self
        ensures { result ≡ memory };
}

/// The reason why a program stops, which determines the exit status and the text on standard error.
#[derive(Drop)]
pub enum Stop<F> {
    /// An error that `clap` returns for the command line. The command line is refused, or asks for help or for the
    /// version: the error says which.
    Usage(Error),
    /// A command line argument that is not UTF-8.
    NotUtf8,
    /// A file named on the command line that cannot be opened. The value is the error message.
    Unopened(String),
    /// A failure to do what the command line asks for. The value is its reason.
    Run(F),
}

impl<F: Reason> Stop<F> {
    /// Returns the exit status of the stopped program.
    pub fn status(&self) -> u8
        ensures { result ≡ status_of_stop F.status_of self.now }
    {
        match self {
            Stop::Usage(_) | Stop::NotUtf8 => 2,
            Stop::Unopened(_) => 5,
            Stop::Run(fault) => fault.status(),
        }
    }
}

/// Formats the text that a stopped program writes to standard error.
impl<F: Reason> Display for Stop<F> {
    ghost use Rattle.command_line.specs.Stop.{text_of_stop};

    ghost output = { text_of_stop F.output };

    fn fmt<W: fmt::Write>(&self, f: &mut fmt::Formatter<W>) -> fmt::Result {
        match self {
            Stop::Usage(error) => write!(f, "{error}"),
            Stop::NotUtf8 => f.write_str("an argument is not UTF-8\n"),
            Stop::Unopened(line) => write!(f, "{line}\n"),
            Stop::Run(fault) => write!(f, "{fault}\n"),
        }
    }
}

impl<F: Reason> From<Error> for Stop<F> {
    ghost from_gives = { λ error stop. stop ≡ stop_of_error F.memory error };

    fn from(error: Error) -> Stop<F> {
        if error.kind() == ErrorKind::OutOfMemory {
            Stop::Run(F::of_memory())
        } else {
            Stop::Usage(error)
        }
    }
}

impl<F: Reason> From<F> for Stop<F> {
    ghost from_gives = { λ fault stop. stop ≡ Run fault };

    fn from(fault: F) -> Stop<F> {
        Stop::Run(fault)
    }
}
