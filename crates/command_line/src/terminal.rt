//! The input of a program, and its output and error messages, which can be coloured on a terminal.
ghost use Rattle.std.specs.Prelude.{◌≡◌, ◌⊎◌, IfErr, IfOk, is_some, option_map, true, None};
ghost use Rattle.std.specs.Process.{exit_status};
ghost use Rattle.command_line.specs.Stop.{status_of_stop};
ghost use Rattle.command_line.specs.Terminal.{is_file, StopsAtFile, StopsAtInput};
ghost use Rattle.command_line.specs.declared.stop.Stop.TheVariants.{Run};

use crate::paint::{TextKind, painted};
use crate::stop::{Reason, Stop};
use crate::waiting::WaitingStream;
use std::alloc::Global;
use std::env::VarError;
use std::fs::File;
use std::io::{IsTerminal, Read, Stdin, Stdout, Write};
use std::process::ExitCode;
use std::{env, io};

/// The input of a program, which is standard input or the file that the command line names.
#[derive(Drop)]
pub enum Input<'a> {
    /// Standard input.
    Standard(WaitingStream<'a, Stdin>),
    /// The file that the command line names.
    File(File),
}

// The error number for reading a directory as a file.
const EISDIR: i32 = 21;

// The reason why a program stops at a file that cannot be opened.
fn unopened<F: Reason>(alloc: Global, program: &str, name: &str, error: &io::Error) -> Stop<F>
    ensures status { (status_of_stop F.status_of result ≡ 5) ⊎ (result ≡ Run F.memory) }
    ensures line { StopsAtFile F.memory program.now name.now result }
{
    let Ok(why) = format!(in alloc; "{error}") else {
        return Stop::Run(F::of_memory());
    };
    let why = why.split(" (os error").next().unwrap_or("");
    match format!(in alloc; "{program}: {name}: {why}") {
        Ok(line) => Stop::Unopened(line),
        Err(_) => Stop::Run(F::of_memory()),
    }
}

// Opens a file to read; a directory is an error.
fn opened(rt: &HostRuntime, name: &str) -> io::Result<File> {
    let file = File::open(rt, name)?;
    if file.metadata()?.is_dir() {
        return Err(io::Error::from_raw_os_error(EISDIR));
    }
    Ok(file)
}

impl<'a> Input<'a> {
    /// Opens the input of a program. The input is the file with the name `file`, or standard input for `None`.
    ///
    /// If standard input is a terminal, a line on standard error says what the program awaits.
    pub fn open<F: Reason>(
        rt: &'a HostRuntime,
        program: &str,
        file: Option<&str>,
        awaited: &str,
    ) -> Result<Input<'a>, Stop<F>>
        ensures ok { IfOk result (λ input. is_file input ≡ is_some file.entry) }
        ensures err { IfErr result (λ stop. (status_of_stop F.status_of stop ≡ 5) ⊎ (stop ≡ Run F.memory)) }
        ensures named { IfErr result (λ _. is_some file.entry ≡ true) }
        ensures line { IfErr result (StopsAtInput F.memory program.now (option_map (λ s. s.now) file.entry)) }
    {
        let Some(name) = file else {
            let stdin = rt.stdin();
            if stdin.is_terminal() {
                let _lost = eprintln!(rt;
                    "{program}: reading {awaited} from the terminal; end it with Ctrl-D"
                );
            }
            return Ok(Input::Standard(WaitingStream::new(rt, stdin)));
        };
        match opened(rt, name) {
            Ok(file) => Ok(Input::File(file)),
            Err(error) => Err(unopened(rt.alloc(), program, name, &error)),
        }
    }
}

impl Read for Input<'_> {
    fn read(&mut self, buf: &mut [u8]) -> io::Result<usize> {
        match self {
            Input::Standard(stdin) => stdin.read(buf),
            Input::File(file) => file.read(buf),
        }
    }
}

// Whether the environment allows colours: `NO_COLOR` is unset or empty.
fn allows_colours(rt: &HostRuntime) -> bool {
    match env::var(rt, "NO_COLOR") {
        Ok(value) => value.is_empty(),
        Err(VarError::NotPresent) => true,
        Err(_) => false,
    }
}

/// Standard output, which is coloured on a terminal if the program asks for colours and the environment allows them.
#[derive(Drop)]
pub struct Output<'a> {
    stdout: WaitingStream<'a, Stdout>,
    alloc: Global,
    painting: Option<TextKind>,
}

impl<'a> Output<'a> {
    /// Opens standard output. The output is coloured by `painting` if standard output is a terminal and the environment
    /// allows colours.
    pub fn open(rt: &'a HostRuntime, painting: Option<TextKind>) -> Output<'a>
        ensures { (result.painting ≡ painting) ⊎ (result.painting ≡ None) }
    {
        let is_painted = rt.stdout().is_terminal() && allows_colours(rt);
        Output {
            stdout: WaitingStream::new(rt, rt.stdout()),
            alloc: rt.alloc(),
            painting: if is_painted { painting } else { None },
        }
    }
}

impl Write for Output<'_> {
    fn write(&mut self, buf: &[u8]) -> io::Result<usize> {
        let Some(painting) = self.painting else {
            return self.stdout.write(buf);
        };
        let Ok(text) = painted(self.alloc, buf, painting) else {
            return self.stdout.write(buf);
        };
        self.stdout.write_all(text.as_slice())?;
        Ok(buf.len())
    }

    fn flush(&mut self) -> io::Result<()> {
        self.stdout.flush()
    }
}

impl<F: Reason> Stop<F> {
    /// Prints why the program stops, in colour if possible, and returns the exit status. The message goes to standard
    /// error. It is in colour if standard error is a terminal and the environment allows colours.
    pub fn end_in_colour(&self, rt: &HostRuntime) -> ExitCode
        ensures { exit_status result ≡ status_of_stop F.status_of self.now }
    {
        if rt.stderr().is_terminal()
            && allows_colours(rt)
            && let Ok(text) = format!(in rt.alloc(); "{self}")
            && let Ok(text) = painted(rt.alloc(), text.as_bytes(), TextKind::Messages)
        {
            let _lost = rt.stderr().write_all(text.as_slice());
            return ExitCode::from(self.status());
        }
        self.end(rt)
    }
}
