//! Functions that define parts of a command line for `clap`, parse a command line, and read its values. The parts are a
//! program, a subcommand, and the option `--erase`. The functions have proved contracts.
ghost use Rattle.std.specs.Prelude.{◌≡◌, IfOk, None, Some, codes, false, if◌then◌else◌, map, nat_lt, option_and_then, option_map, string_bytes, true};
ghost use Rattle.clap.specs.Words.{App, FailsBy, app_of, fault_of, found_of, is_simple_and_free, new_app, one_of, rows_of, rule_of, subcommand_of, subcommand_rows_of};
ghost use Rattle.clap.specs.declared.builder.command.Command.TheViews.{out-Command as fields_of};
ghost use Rattle.command_line.specs.Options.{ArePassed, IsErase, built_erase, erase_option, named_file, program_named};

use clap::{Arg, ArgAction, ArgMatches, Command, Error, value_parser};
use granule_addr::BuildId;
use std::alloc::{AllocError, Global};

/// Returns the `clap` definition of a program, to which subcommands are yet to be added. The program has a version, and
/// requires a subcommand.
pub(crate) fn program<'a>(alloc: Global, name: &'a str, about: &'a str) -> Command<'a>
    ensures { app_of result ≡ program_named name.now }
{
    let named = Command::new(alloc, name).version("0.2.0").about(about);
    named.subcommand_required(true)
}

/// Returns the `clap` definition of a subcommand without options.
pub(crate) fn subcommand<'a>(alloc: Global, name: &'a str, about: &'a str) -> Command<'a>
    ensures app { app_of result ≡ new_app name.now }
    ensures local { (fields_of result).has_globals ≡ false }
{
    Command::new(alloc, name).about(about)
}

/// Returns the `clap` definition of the option `--erase`, which leaves out a build.
pub(crate) fn erase<'a>(alloc: Global, help: &'a str) -> Arg<'a>
    ensures rule { rule_of result ≡ erase_option }
    ensures local { result.global ≡ false }
{
    Arg::new(alloc, "erase")
        .long("erase")
        .value_name("B")
        .help(help)
        .action(ArgAction::Set)
        .value_parser(value_parser!(u8).range(0..=7))
}

/// Parses a command line by a program's `clap` definition, if there was memory to make the definition. Returns the
/// matches, or the error.
pub(crate) fn matched<'a>(
    program: Result<Command<'a>, AllocError>,
    words: &'a [String],
) -> Result<ArgMatches<'a>, Error>
    ensures ok { (app : App) → IfOk program.entry (λ c. app_of c ≡ app) → is_simple_and_free app ≡ true
        → IfOk result (λ m. subcommand_rows_of m ≡ subcommand_of app (map string_bytes words.now)) }
    ensures kinds { (app : App) → IfOk program.entry (λ c. app_of c ≡ app) → is_simple_and_free app ≡ true
        → FailsBy (fault_of app (map string_bytes words.now)) result }
{
    program?.try_get_matches_from(words)
}

/// Returns the build with the given number, or `None` if there is no number or it is not below 8.
pub(crate) fn build_of(number: Option<u8>) -> Option<BuildId>
    ensures { result ≡ option_and_then (λ n. if nat_lt n 8 then Some n else None) number }
{
    BuildId::new(number?)
}

/// Returns the build that the option `--erase` leaves out, or `None` if the matched words do not have the option.
pub(crate) fn erased(matches: &ArgMatches) -> Option<BuildId>
    requires { ArePassed built_erase matches.now }
    ensures { IsErase (one_of (codes "erase") (rows_of (found_of matches.now))) result }
{
    build_of(matches.get_one("erase"))
}

/// Returns the file name in an argument, or `None` for standard input. The text `-` means standard input.
pub(crate) fn named_file(text: &str) -> Option<&str>
    ensures { option_map (λ s. s.now) result ≡ named_file text.now }
{
    if text == "-" { None } else { Some(text) }
}
