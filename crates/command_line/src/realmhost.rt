//! The command line of `realmhost`.
ghost use Rattle.std.specs.Prelude.{◌≡◌, List, [], IfOk, false, map, string_bytes};
ghost use Rattle.clap.specs.Words.{FailsBy, Text, app_of, fault_of, subcommand_of, subcommand_rows_of, with_subcommand};
ghost use Rattle.clap.specs.declared.builder.command.Command.TheViews.{out-Command as fields_of};
ghost use Rattle.command_line.specs.Realmhost.{replay_subcommand, realmhost, realmhost_alone, IsHostSubcommand};

use crate::options::{erase, erased, matched, program, subcommand};
use clap::{ArgMatches, Command, Error};
use granule_addr::BuildId;
use std::alloc::{AllocError, Global};

/// The request that a command line of `realmhost` makes.
#[derive(Clone, Copy)]
pub enum Line {
    /// A request to replay the plan, optionally without the events of one build.
    Replay(Option<BuildId>),
    /// A request to run each build of the plan in its own thread.
    Run,
}

const ABOUT: &str = "The host side of Arm's Realm Management Monitor, with a simulated monitor.
A plan of builds, which is a TOML document, is read from standard input; the text of its run goes to standard output.";

const REPLAY: &str =
    "Takes the turns of the plan in their order, and prints each answer and the map at the end";

const RUN: &str =
    "Runs each build in a thread of its own, and prints what each was answered and the map at the end";

const ERASE: &str = "Prints the map alone, of the same history without the commands of build B";

fn replay<'a>(alloc: Global) -> Result<Command<'a>, AllocError>
    ensures { IfOk result (λ c. (app_of c ≡ replay_subcommand) × ((fields_of c).has_globals ≡ false)) }
{
    subcommand(alloc, "replay", REPLAY).arg(erase(alloc, ERASE))
}

// Returns the program's `clap` definition with the one subcommand `replay`.
fn with_replay<'a>(alloc: Global) -> Result<Command<'a>, AllocError>
    ensures { IfOk result (λ c. app_of c ≡ with_subcommand realmhost_alone replay_subcommand.top) }
{
    let replay = replay(alloc)?;
    program(alloc, "realmhost", ABOUT)
        .disable_help_subcommand(true)
        .subcommand(replay)
}

// Returns the program's `clap` definition.
fn command<'a>(alloc: Global) -> Result<Command<'a>, AllocError>
    ensures { IfOk result (λ c. app_of c ≡ realmhost) }
{
    with_replay(alloc)?.subcommand(subcommand(alloc, "run", RUN))
}

// Returns the request of words that were matched.
fn line_of(matches: &ArgMatches) -> Line
    requires { (words : List Text) × (fault_of realmhost words ≡ []) × (subcommand_rows_of matches.now ≡ subcommand_of realmhost words) }
    ensures { IsHostSubcommand (subcommand_rows_of matches.now) result }
{
    match matches.subcommand_matches("replay") {
        Some(replay) => Line::Replay(erased(replay)),
        None => Line::Run,
    }
}

impl Line {
    /// Parses a command line of `realmhost`. Returns the request, or the error. The first word is the program's name.
    pub fn of(alloc: Global, words: &[String]) -> Result<Line, Error>
        // The request is the one for the subcommand that the specification of `clap` finds in the words.
        ensures ok { IfOk result (IsHostSubcommand (subcommand_of realmhost (map string_bytes words.now))) }
        // An error is of the kind that the specification gives, or reports a failed allocation.
        ensures kinds { FailsBy (fault_of realmhost (map string_bytes words.now)) result }
    {
        Ok(line_of(&matched(command(alloc), words)?))
    }
}
