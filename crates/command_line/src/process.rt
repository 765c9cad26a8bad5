//! Functions that return a program's command line arguments, and print why a program stops.
ghost use Rattle.std.specs.Prelude.{◌≡◌, ◌⊎◌, IfErr, IfOk};
ghost use Rattle.std.specs.Process.{exit_status};
ghost use Rattle.std.specs.Vec.Iter.{into_iter_items};
ghost use Rattle.command_line.specs.Stop.{status_of_stop};
ghost use Rattle.command_line.specs.declared.stop.Stop.TheVariants.{NotUtf8, Run};

use crate::stop::{Reason, Stop};
use std::alloc::{AllocError, Global};
use std::env::Args;
use std::process::ExitCode;
use std::rt::Env;
use std::{env, io};

// Collects all words of an iterator, in sequence.
fn words_of(alloc: Global, arguments: Args) -> Result<Vec<String>, AllocError>
    ensures { IfOk result (λ words. words.items ≡ into_iter_items arguments) }
{
    arguments.collect(alloc)
}

/// Returns the command line arguments, beginning with the program's name.
///
/// Errors: `NotUtf8`, if one of them is not UTF-8; `Run`, with the program's fault for it, if allocation failed.
pub fn arguments<R: Env + AllocGlobal, F: Reason>(rt: &R) -> Result<Vec<String>, Stop<F>>
    ensures { IfErr result (λ stop. (stop ≡ NotUtf8) ⊎ (stop ≡ Run F.memory)) }
{
    match env::args(rt) {
        Ok(arguments) => match words_of(rt.alloc(), arguments) {
            Ok(words) => Ok(words),
            Err(_) => Err(Stop::Run(F::of_memory())),
        },
        Err(error) if error.kind() == io::ErrorKind::OutOfMemory => Err(Stop::Run(F::of_memory())),
        Err(_) => Err(Stop::NotUtf8),
    }
}

impl<F: Reason> Stop<F> {
    /// Prints to standard error why the program stops, and returns the exit status.
    pub fn end<R: Eprint>(&self, rt: &R) -> ExitCode
        ensures { exit_status result ≡ status_of_stop F.status_of self.now }
    {
        // The exit status is all that remains if this write fails too.
        let _told = eprint!(rt; "{self}");
        ExitCode::from(self.status())
    }
}
