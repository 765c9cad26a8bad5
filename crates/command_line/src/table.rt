//! The command line of a program, described by a table of subcommands and their arguments. A program has subcommands,
//! and each subcommand reads a FILE and has options.
use crate::options::{erase, matched, named_file, program, subcommand};
use clap::error::ErrorKind;
use clap::{Arg, ArgAction, ArgMatches, Command, Error, value_parser};
use std::alloc::{AllocError, Global};

/// An argument of a subcommand, either FILE or an option, with its help text.
#[derive(Clone, Copy)]
pub(crate) enum Argument {
    /// The argument FILE.
    File(&'static str),
    /// The option `--erase B`, which leaves out build B.
    Erase(&'static str),
    /// An option whose value is a 32-bit number. The texts are the option's name, the value's name, and the help.
    Number(&'static str, &'static str, &'static str),
    /// An option without a value. The texts are its name and its help.
    Flag(&'static str, &'static str),
    /// An option that may be given several times, each time with a name as its value.
    Names(&'static str, &'static str),
    /// An option with a text as its value. The fields are the option's name, the value's name, and the help.
    Text(&'static str, &'static str, &'static str),
}

/// A program's subcommand, with its name, help texts and arguments. The help texts are a description and examples.
#[derive(Clone, Copy)]
pub(crate) struct Subcommand {
    pub name: &'static str,
    pub about: &'static str,
    pub examples: &'static str,
    pub arguments: &'static [Argument],
}

/// A program's name, help texts and subcommands, from which its command line is defined. The help texts are a
/// description and examples. A command line has to name a subcommand.
#[derive(Clone, Copy)]
pub(crate) struct Program {
    pub name: &'static str,
    pub about: &'static str,
    pub examples: &'static str,
    pub subcommands: &'static [Subcommand],
}

// An option, by its name and its help.
fn option<'a>(alloc: Global, name: &'a str, help: &'a str) -> Arg<'a> {
    Arg::new(alloc, name).long(name).help(help)
}

// An option that has a value. The action says what becomes of the values if the option is repeated.
fn valued<'a>(
    alloc: Global,
    name: &'a str,
    value: &'a str,
    help: &'a str,
    action: ArgAction,
) -> Arg<'a> {
    option(alloc, name, help).value_name(value).action(action)
}

// An option whose value is a 32-bit number.
fn number<'a>(alloc: Global, name: &'a str, value: &'a str, help: &'a str) -> Arg<'a> {
    valued(alloc, name, value, help, ArgAction::Set).value_parser(value_parser!(u32))
}

// A flag.
fn flag<'a>(alloc: Global, name: &'a str, help: &'a str) -> Arg<'a> {
    option(alloc, name, help).action(ArgAction::SetTrue)
}

// The argument FILE of a subcommand.
fn file<'a>(alloc: Global, help: &'a str) -> Arg<'a> {
    Arg::new(alloc, "file").value_name("FILE").help(help)
}

impl Argument {
    // The argument's `clap` definition.
    fn definition<'a>(self, alloc: Global) -> Arg<'a> {
        match self {
            Argument::File(help) => file(alloc, help),
            Argument::Erase(help) => erase(alloc, help),
            Argument::Number(name, value, help) => number(alloc, name, value, help),
            Argument::Flag(name, help) => flag(alloc, name, help),
            Argument::Names(name, help) => valued(alloc, name, "NAME", help, ArgAction::Append),
            Argument::Text(name, value, help) => valued(alloc, name, value, help, ArgAction::Set),
        }
    }
}

// Appends an item, if there was memory to make it.
fn append<T: Drop>(items: &mut Vec<T>, item: Result<T, AllocError>) -> Result<(), AllocError> {
    items.push(item?)?;
    Ok(())
}

impl Subcommand {
    // Returns the subcommand's `clap` definition.
    fn command<'a>(&self, alloc: Global) -> Result<Command<'a>, AllocError> {
        let mut arguments = Vec::new(alloc);
        for argument in self.arguments {
            append(&mut arguments, Ok(argument.definition(alloc)))?;
        }
        subcommand(alloc, self.name, self.about)
            .after_help(self.examples)
            .args(arguments)
    }
}

impl Program {
    // Returns the program's `clap` definition.
    fn command<'a>(&self, alloc: Global) -> Result<Command<'a>, AllocError> {
        let mut commands = Vec::new(alloc);
        for row in self.subcommands {
            append(&mut commands, row.command(alloc))?;
        }
        program(alloc, self.name, self.about)
            .after_help(self.examples)
            .subcommands(commands)
    }

    /// Returns the error for an option value that `clap` accepts but the program refuses.
    pub(crate) fn error(&self, alloc: Global, message: &str) -> Result<Error, AllocError> {
        self.command(alloc)?
            .error(ErrorKind::ValueValidation, message)
    }

    /// Parses a command line by the program's `clap` definition. The first word is the program's name. Returns the
    /// matches or the error.
    pub(crate) fn matched<'a>(
        &self,
        alloc: Global,
        words: &'a [String],
    ) -> Result<ArgMatches<'a>, Error> {
        matched(self.command(alloc), words)
    }
}

/// Returns the name of the file given to the subcommand, if any. `-` names no file, and means standard input.
pub(crate) fn given_file<'a>(matches: &ArgMatches<'a>) -> Option<&'a str> {
    let (_, subcommand) = matches.subcommand()?;
    named_file(subcommand.get_str("file")?)
}
