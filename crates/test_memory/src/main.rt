//! A program that tests the allocations of a host, and the handling of failed allocations. Two properties are tested: a
//! call hands its arguments back if an allocation fails, and no call on a host or a seat allocates memory. A plan on
//! standard input is replayed over the plain store instead, and a script of calls made in registers is performed and
//! measured.
//!
//! `tests/test_allocations.py` refuses each allocation of this program in turn. A host is then booted or shared, or a
//! worker built, at the second try, from what the first try handed back. The test counts the allocations between a line
//! `quiet` and the line after it, and compares the times of the last three such parts.
#![tactic(auto)]

ghost use Rattle.std.specs.Prelude.{◌≡◌, false};

mod blocks;
mod boot;
mod calls;
mod operation;
mod plain;
mod recorded;
mod script;
mod seats;

use checked_io::Told;
use realm_program::{Fault as PlanFault, read_whole};
use std::alloc::{AllocError, AllocFailed, Global};
use std::io::{Read, Write};
use std::marker::Sync;
use std::process::ExitCode;
use std::sync::Wait;
use std::thread::Threads;
use std::time::CpuClock;

/// The error that ends the test program.
#[derive(Clone, Copy)]
pub(crate) enum Fault {
    /// A failed allocation that is not tried again.
    Memory,
    /// Any other fault, which should not happen.
    Other,
}

impl From<AllocError> for Fault {
    fn from(_: AllocError) -> Fault {
        Fault::Memory
    }
}

impl<T: Drop> From<AllocFailed<T>> for Fault {
    fn from(_: AllocFailed<T>) -> Fault {
        Fault::Memory
    }
}

/// Prints a line of the test's output, and ignores a failure to print.
pub(crate) fn tell(rt: &impl Print, line: &str) {
    let _told = println!(rt; "{line}");
}

/// Prints that an action of the test succeeded, at the first or second try. Only a second try is mentioned in the line.
pub(crate) fn tell_try(rt: &impl Print, what: &str, is_second: bool) {
    let _told = if is_second {
        println!(rt; "{what} at the second try")
    } else {
        println!(rt; "{what}")
    };
}

fn use_hosts(rt: &impl Print, alloc: Global) -> Result<(), Fault> {
    let first = calls::all_calls(rt, alloc)?;
    recorded::applies_again(rt, alloc, &first)
}

fn use_stores(rt: &impl Print, alloc: Global) -> Result<(), Fault> {
    blocks::take_and_give_repeatedly(rt, alloc, 4096, false)?;
    blocks::take_and_give_repeatedly(rt, alloc, 512, true)?;
    blocks::take_and_give_repeatedly(rt, alloc, 4096, true)
}

fn make_calls<R: Print + AllocGlobal + Threads + Wait + Sync>(rt: &R) -> Result<(), Fault> {
    use_hosts(rt, rt.alloc())?;
    seats::work(rt, rt.alloc())?;
    use_stores(rt, rt.alloc())
}

/// Reads all bytes of an input into memory.
fn bytes_in<I: Read>(alloc: Global, input: &mut Told<I>) -> Result<Vec<u8>, PlanFault>
    requires { input.old.failed ≡ false }
{
    Ok(read_whole(alloc, input)?)
}

// Runs a plan or a script of RMM operations. If there are no bytes, the calls to be tested are made.
fn use_bytes<H: Print + Eprint + AllocGlobal + CpuClock + Threads + Wait + Sync, O: Write>(
    rt: &H,
    bytes: &[u8],
    output: &mut Told<O>,
) -> Result<(), Fault>
    requires { output.old.failed ≡ false }
{
    if bytes.is_empty() {
        make_calls(rt)
    } else if script::is_script(bytes) {
        script::perform_all(rt, rt.alloc(), bytes)
    } else {
        Ok(plain::replay(rt.alloc(), bytes, output)?)
    }
}

/// Runs the input, which is a plan or a script of RMM operations. If the input is empty, the calls to be tested are
/// made.
fn run<H: Print + Eprint + AllocGlobal + CpuClock + Threads + Wait + Sync, I: Read, O: Write>(
    rt: &H,
    input: &mut Told<I>,
    output: &mut Told<O>,
) -> Result<(), Fault>
    requires readable { input.old.failed ≡ false }
    requires writable { output.old.failed ≡ false }
{
    let bytes = bytes_in(rt.alloc(), input)?;
    use_bytes(rt, &bytes, output)
}

fn main(rt: HostRuntime) -> ExitCode {
    let mut input = Told::new(rt.stdin());
    let mut output = Told::new(rt.stdout());
    match run(&rt, &mut input, &mut output) {
        Ok(()) => ExitCode::SUCCESS,
        Err(Fault::Memory) => {
            let _told = eprintln!(rt; "memory");
            ExitCode::from(3)
        }
        Err(Fault::Other) => ExitCode::FAILURE,
    }
}
