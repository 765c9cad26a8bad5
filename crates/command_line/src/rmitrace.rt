//! The command line of `rmitrace`.
ghost use Rattle.std.specs.Prelude.{◌≡◌, ◌<◌, IfOk};
ghost use Rattle.command_line.specs.Rmitrace.{is_name_in};

use crate::Invocation;
use crate::table::{Argument, Program, Subcommand, given_file};
use clap::{ArgMatches, Error};
use rmm_trace::place::{FIRST_CHECK, WRITE};
use rmm_trace::{find_name, name_text};
use std::alloc::{AllocError, Global};
use strsim::osa_distance;

/// A set of names by which lines of a trace are selected. For each index of a name in `rmm_trace`, a flag says whether
/// the set has the name.
#[derive(Clone, Copy)]
pub struct NameSet {
    pub places: [bool; 256],
}

/// The options of `rmitrace check`: the lines that are compared, the verdicts that are printed, and whether a wrong
/// line stops the check.
#[derive(Clone, Copy)]
pub struct Comparison {
    /// Whether the verdict on each compared line is printed, even if the answers are the same.
    pub is_each: bool,
    /// Whether the check stops at the first wrong line.
    pub stops: bool,
    /// The names to which the comparison is restricted, if any are given. Each is that of a command, of another
    /// question of a trace, or of a check.
    pub only: Option<NameSet>,
    /// The names whose lines of a trace are left out of the comparison, if any are given. Each is that of a command, of
    /// another question of a trace, or of a check.
    pub skip: Option<NameSet>,
}

/// The request that a command line of `rmitrace` makes.
#[derive(Clone, Copy)]
pub enum TraceSubcommand {
    /// Writes each line of a trace with the answer of the model.
    Answer,
    /// Compares the answers in a trace with those of the model.
    Check(Comparison),
    /// Writes a trace in which raw calls and their answers are rewritten with the names of commands and outputs.
    Names,
    /// Writes a trace with the model's answers, and explains each refusal.
    Why,
}

const ABOUT: &str =
    "Answers and checks traces of RMI calls, as a Realm Management Monitor (RMM 1.0).";

const EXAMPLES: &str = "Examples:
  rmitrace check traces/rmm/kvm-boot.trace
  printf 'platform 0x80000000 64\\nrmi_features 0\\n' | rmitrace answer
  rmitrace names firmware.log | rmitrace check --skip rtte_ripas";

const ANSWER: &str = "Print each line of a trace with its answer, as soon as it is read";

const ANSWER_EXAMPLES: &str = "Examples:
  rmitrace answer traces/rmm/kvm-boot.trace
  printf 'platform 0x80000000 64\\nrmi_features 0\\n' | rmitrace answer";

const CHECK: &str = "Compare the answers of a trace, and print each that is not the same";

const CHECK_EXAMPLES: &str = "Examples:
  rmitrace check traces/rmm/kvm-boot.trace
  rmitrace check --stop --skip rmi_rec_enter firmware.trace
  rmitrace check --each firmware.trace | grep -c same
  rmitrace answer traces/rmm/kvm-boot.trace | rmitrace check";

const EACH_HELP: &str = "Print the verdict on each line that is compared";

const STOP_HELP: &str = "Stop at the first line that is wrong";

const ONLY_HELP: &str = "Compare lines of the command or check NAME alone; may be repeated";

const SKIP_HELP: &str = "Compare no line of the command or check NAME; may be repeated";

const NAMES: &str = "Print a trace with its raw calls by names";

const NAMES_EXAMPLES: &str = "Examples:
  echo 'smc 0xc4000151 0x80000000 = 0x0' | rmitrace names
  rmitrace names firmware.log | rmitrace check";

const WHY: &str = "Print a trace with its answers, and explain each refusal";

const WHY_EXAMPLES: &str = "Examples:
  rmitrace why traces/rmm/refusals.trace | less";

const FILE: &str = "The trace; without FILE, or with -, read standard input";

const RMITRACE: Program = Program {
    name: "rmitrace",
    about: ABOUT,
    examples: EXAMPLES,
    subcommands: &[
        Subcommand {
            name: "answer",
            about: ANSWER,
            examples: ANSWER_EXAMPLES,
            arguments: &[Argument::File(FILE)],
        },
        Subcommand {
            name: "check",
            about: CHECK,
            examples: CHECK_EXAMPLES,
            arguments: &[
                Argument::File(FILE),
                Argument::Flag("each", EACH_HELP),
                Argument::Flag("stop", STOP_HELP),
                Argument::Names("only", ONLY_HELP),
                Argument::Names("skip", SKIP_HELP),
            ],
        },
        Subcommand {
            name: "names",
            about: NAMES,
            examples: NAMES_EXAMPLES,
            arguments: &[Argument::File(FILE)],
        },
        Subcommand {
            name: "why",
            about: WHY,
            examples: WHY_EXAMPLES,
            arguments: &[Argument::File(FILE)],
        },
    ],
};

// The description of `rmitrace`. Only this function names the table, since a check reads the whole table in each
// function that does.
fn rmitrace() -> Program {
    RMITRACE
}

// ---- names

impl NameSet {
    /// Returns whether the set has the name at index `place` in the table of names of `rmm_trace`.
    pub fn has(&self, place: usize) -> bool
        ensures { result ≡ is_name_in self.now place }
    {
        match self.places.get(place) {
            Some(is_name_in) => *is_name_in,
            None => false,
        }
    }
}

// Whether the name at a place is that of a question or of a check, either of which a line can have.
fn is_of_line(place: usize) -> bool {
    place < WRITE || FIRST_CHECK <= place
}

// Returns the place of a name that a line can have, or `None` for any other name. In a trace the name of a check is in
// brackets.
fn place_of(alloc: Global, name: &str) -> Result<Option<usize>, AllocError> {
    let check = format!(in alloc; "({name})")?;
    match find_name(name.as_bytes()).or(find_name(check.as_bytes())) {
        Some(place) if is_of_line(place) => Ok(Some(place)),
        _ => Ok(None),
    }
}

// The name at a place, without the brackets of a check.
fn bare_name(place: usize) -> &'static str {
    name_text(place).trim_matches(['(', ')'])
}

// Returns the name nearest to a text among those that a line can have, if its edit distance is at most a third of the
// text's length.
fn nearest(alloc: Global, text: &str) -> Result<Option<&'static str>, AllocError> {
    let mut found = None;
    let mut least = text.len() / 3 + 1;
    for place in 0..256 {
        let edits = osa_distance(alloc, text, bare_name(place))?;
        if edits < least && is_of_line(place) {
            found = Some(bare_name(place));
            least = edits;
        }
    }
    Ok(found)
}

// Returns the message for a name that no line can have.
fn unknown_text(alloc: Global, name: &str) -> Result<String, AllocError> {
    match nearest(alloc, name)? {
        Some(near) => {
            format!(in alloc; "no command or check is named '{name}'; did you mean '{near}'?")
        }
        None => format!(in alloc; "no command or check is named '{name}'"),
    }
}

// Returns the error for a name that no line can have.
fn unknown(alloc: Global, name: &str) -> Result<Error, AllocError> {
    rmitrace().error(alloc, &unknown_text(alloc, name)?)
}

// Returns the place of a name that a line can have, or an error for any other name.
fn known_place(alloc: Global, name: &str) -> Result<usize, Error>
    ensures { IfOk result (λ place. place < 256) }
{
    match place_of(alloc, name)? {
        Some(place) if place < 256 => Ok(place),
        _ => Err(unknown(alloc, name)?),
    }
}

// Returns the set of the given names, or an error if any of them is a name that no line can have.
fn set_of(alloc: Global, names: &[&str]) -> Result<NameSet, Error> {
    let mut set = NameSet {
        places: [false; 256],
    };
    for name in names {
        set.places[known_place(alloc, name)?] = true;
    }
    Ok(set)
}

// ---- words

// Returns the set of the names of an option, if the option is given, or an error.
fn names_by(alloc: Global, check: &ArgMatches, option: &str) -> Result<Option<NameSet>, Error> {
    match check.get_strs(option) {
        Some(names) => Ok(Some(set_of(alloc, names)?)),
        None => Ok(None),
    }
}

// Returns the comparison that the matched words ask for, or an error.
fn compared_by(alloc: Global, check: &ArgMatches) -> Result<TraceSubcommand, Error> {
    Ok(TraceSubcommand::Check(Comparison {
        is_each: check.get_flag("each"),
        stops: check.get_flag("stop"),
        only: names_by(alloc, check, "only")?,
        skip: names_by(alloc, check, "skip")?,
    }))
}

// The request that the subcommand `name` makes, which has no options.
fn plainly_asked_by(name: &str) -> TraceSubcommand {
    match name {
        "names" => TraceSubcommand::Names,
        "why" => TraceSubcommand::Why,
        _ => TraceSubcommand::Answer,
    }
}

// Returns the request that the matched words make, or an error.
fn asked_by(alloc: Global, matches: &ArgMatches) -> Result<TraceSubcommand, Error> {
    match matches.subcommand() {
        Some(("check", check)) => compared_by(alloc, check),
        Some((name, _)) => Ok(plainly_asked_by(name)),
        None => Ok(TraceSubcommand::Answer),
    }
}

// Returns the request of the matched words with the name of the file, or the error.
fn invocation_of<'a>(
    alloc: Global,
    matches: &ArgMatches<'a>,
) -> Result<Invocation<'a, TraceSubcommand>, Error> {
    Ok(Invocation {
        asked: asked_by(alloc, matches)?,
        file: given_file(matches),
    })
}

impl TraceSubcommand {
    /// Parses a command line of `rmitrace`. Returns the request and the name of the file, or the error. The first word
    /// is the program's name.
    pub fn of<'a>(
        alloc: Global,
        words: &'a [String],
    ) -> Result<Invocation<'a, TraceSubcommand>, Error> {
        invocation_of(alloc, &rmitrace().matched(alloc, words)?)
    }
}
