//! The function that performs the requested subcommand of `realmview`.
ghost use Rattle.std.specs.Prelude.{◌≡◌, ◌+◌, ◌≤◌, ◌↔◌, ◌⊎◌, false, true, Err};
ghost use Rattle.realm_program.specs.Whole.{ReadsOnce};
ghost use Rattle.view_program.specs.Printed.{outcome_after, AreFewReads, EndsAs, IsPlanEnd, IsRunEnd, ReadsOnceFor};
ghost use Rattle.view_program.specs.declared.fault.ViewError.TheVariants.{Device};

use crate::printing::print;
use crate::schedules::Progress;
use crate::{
    Calls, Documents, Exploring, Histories, Pages, Reasons, ViewError, ViewOutcome, ViewSubcommand,
    ViewText, apply, check, reorder,
};
use checked_io::Told;
use std::alloc::Global;
use std::io::{Read, Write};

// The outcome of a subcommand other than `check`, by the end of its work.
fn outcome_after(ended: Result<(), ViewError>) -> Result<ViewOutcome, ViewError>
    ensures { result ≡ outcome_after ended }
{
    match ended {
        Ok(()) => Ok(ViewOutcome::Done),
        Err(error) => Err(error),
    }
}

// Prints a text of the kind `asked` that is made from a plan. The outcome of a success is `Done`.
fn print_text<T: ViewText, R: Read, W: Write>(
    asked: &T,
    alloc: Global,
    source: &str,
    input: &mut Told<R>,
    output: &mut Told<W>,
) -> Result<ViewOutcome, ViewError>
    requires readable { input.old.failed ≡ false }
    requires writable { output.old.failed ≡ false }
    ensures end { EndsAs (IsPlanEnd (T.is_text asked.now) (T.is_without asked.now) source.now input.new.failed
        (R.remaining input.old.device) (W.contents output.old.device) (W.contents output.new.device)) result }
    ensures device { ((input.new.failed ≡ true) ⊎ (output.new.failed ≡ true)) ↔ (result ≡ Err Device) }
    ensures asked { input.new.reads ≤ input.old.reads + 1048578 }
    ensures once { ReadsOnce (R.remaining input.old.device) input.old.reads input.new.reads }
{
    outcome_after(print(asked, alloc, source, input, output))
}

/// Performs the requested subcommand of `realmview`. The input is any reader, and the output is any writer. Findings on
/// a plan name the input by `source`. `progress` receives the progress of an exploration of schedules.
pub fn run<R: Read, W: Write, P: Progress>(
    alloc: Global,
    asked: ViewSubcommand,
    source: &str,
    input: &mut Told<R>,
    output: &mut Told<W>,
    progress: &P,
) -> Result<ViewOutcome, ViewError>
    requires readable { input.old.failed ≡ false }
    requires writable { output.old.failed ≡ false }
    ensures device { ((input.new.failed ≡ true) ⊎ (output.new.failed ≡ true)) ↔ (result ≡ Err Device) }
    ensures end { IsRunEnd asked source.now input.new.failed (R.remaining input.old.device) (W.contents output.old.device) (W.contents output.new.device) result }
    ensures reads { AreFewReads asked input.old.reads input.new.reads }
    ensures once { ReadsOnceFor asked (R.remaining input.old.device) input.old.reads input.new.reads }
{
    match asked {
        ViewSubcommand::History(erase) => {
            print_text(&Histories { erase }, alloc, source, input, output)
        }
        ViewSubcommand::Apply(erase) => outcome_after(apply(alloc, input, output, erase)),
        ViewSubcommand::Json => print_text(&Documents, alloc, source, input, output),
        ViewSubcommand::Page => print_text(&Pages, alloc, source, input, output),
        ViewSubcommand::Check => check(alloc, source, input, output),
        ViewSubcommand::Explore(schedules, after) => {
            let exploring = Exploring {
                schedules,
                after,
                progress,
            };
            print_text(&exploring, alloc, source, input, output)
        }
        ViewSubcommand::Order(turns) => outcome_after(reorder(alloc, source, input, output, turns)),
        ViewSubcommand::Calls(base, form) => {
            print_text(&Calls { base, form }, alloc, source, input, output)
        }
        ViewSubcommand::Why { all } => {
            print_text(&Reasons { all }, alloc, source, input, output)
        }
    }
}
