//! Scripts of operations on an RMM. A script has operations that are performed once at the beginning (the scene), and
//! parts that are timed in each round.
//!
//! Standard output is a sum of the results of all operations. Standard error has a line for each part: the least
//! processor time of a round, in nanoseconds. `bench/rmm` has the scripts, and plain Rust beside it.
use crate::Fault;
use crate::operation::{Operation, perform};
use page_arena::PlainStore;
use rmi_abi::{Platform, RmmSettings};
use rmm::Rmm;
use rmm_granules::Granules;
use std::alloc::{AllocError, Global};
use std::io;
use std::time::{CpuClock, Duration};

// Operations, and the least processor time that they took, in nanoseconds.
#[derive(Drop)]
struct Part {
    operations: Vec<Operation>,
    least: u64,
}

// A script: the pages of its machine, the number of rounds, the operations of the scene, and the parts.
#[derive(Drop)]
struct Script {
    pages: u16,
    rounds: u64,
    scene: Vec<Operation>,
    parts: Vec<Part>,
}

// The numbers of a line, separated by one space. Missing numbers are 0.
fn numbers(words: &str) -> Option<[u64; 7]> {
    let mut numbers = [0; 7];
    for (place, word) in words.split(' ').enumerate() {
        if place >= 7 {
            break;
        }
        numbers[place] = word.parse::<u64>().ok()?;
    }
    Some(numbers)
}

fn nanos(time: Duration) -> u64 {
    time.as_secs()
        .wrapping_mul(1_000_000_000)
        .wrapping_add(u64::from(time.subsec_nanos()))
}

impl Part {
    // Performs the operations, and measures the processor time that they take. Returns the sum with their results.
    fn perform(
        &mut self,
        rt: &impl CpuClock,
        rmm: &mut Rmm<PlainStore>,
        before: u64,
    ) -> io::Result<u64> {
        let start = rt.thread_cpu_time()?;
        let sum = perform(rmm, &self.operations, before);
        let end = rt.thread_cpu_time()?;
        self.least = self.least.min(nanos(end.saturating_sub(start)));
        Ok(sum)
    }
}

impl Script {
    fn new(alloc: Global) -> Script {
        Script {
            pages: 0,
            rounds: 0,
            scene: Vec::new(alloc),
            parts: Vec::new(alloc),
        }
    }

    // Adds an operation to the last part, or to the scene if there is no part yet.
    fn push(&mut self, operation: Operation) -> Result<(), AllocError> {
        match self.parts.last_mut() {
            Some(part) => part.operations.push(operation)?,
            None => self.scene.push(operation)?,
        }
        Ok(())
    }

    // Reads the numbers of a line that is no part's. A line of an unknown kind is ignored.
    fn read_numbers(&mut self, kind: &str, n: &[u64; 7]) -> Result<(), AllocError> {
        if kind == "machine" {
            self.pages = (n[0] % 0x1_0000) as u16;
            self.rounds = n[1];
        } else if let Some(operation) = Operation::new(kind, n) {
            self.push(operation)?;
        }
        Ok(())
    }

    // Reads a line of a script. A line of an unknown kind is ignored.
    fn read(&mut self, alloc: Global, line: &str) -> Result<(), AllocError> {
        let (kind, words) = line.split_once(' ').unwrap_or((line, ""));
        if kind == "part" {
            self.parts.push(Part {
                operations: Vec::new(alloc),
                least: u64::MAX,
            })?;
        } else if let Some(n) = numbers(words) {
            self.read_numbers(kind, &n)?;
        }
        Ok(())
    }

    // A new RMM over the pages of the script, or `None` if there are no pages, or no memory for them.
    fn open(&self, alloc: Global) -> Option<Rmm<PlainStore>> {
        let platform = Platform::new(RmmSettings::DEFAULT)?;
        let store = PlainStore::build(alloc, self.pages).ok()?;
        let granules = Granules::open(alloc, platform, store).ok()?;
        Some(Rmm::over(granules))
    }

    // Performs the scene, and then each part in each round. Returns the sum of all results.
    fn run(&mut self, rt: &impl CpuClock, rmm: &mut Rmm<PlainStore>) -> io::Result<u64> {
        let mut sum = perform(rmm, &self.scene, 0);
        for _round in 0..self.rounds {
            for part in self.parts.iter_mut() {
                sum = part.perform(rt, rmm, sum)?;
            }
        }
        Ok(sum)
    }

    // Prints the least time of each part.
    fn print_times(&self, rt: &impl Eprint) -> io::Result<()> {
        for part in &self.parts {
            eprintln!(rt; "{}", part.least)?;
        }
        Ok(())
    }
}

fn read_all(alloc: Global, text: &str) -> Result<Script, AllocError> {
    let mut script = Script::new(alloc);
    for line in text.lines() {
        script.read(alloc, line)?;
    }
    Ok(script)
}

// Runs a script on an RMM, and prints the sum of all results and the least time of each part.
fn measure(
    rt: &(impl CpuClock + Print + Eprint),
    script: &mut Script,
    rmm: &mut Rmm<PlainStore>,
) -> io::Result<()> {
    let sum = script.run(rt, rmm)?;
    println!(rt; "{sum}")?;
    script.print_times(rt)
}

// Runs a script on a new RMM, if there is memory for one.
fn open_and_measure(
    rt: &(impl CpuClock + Print + Eprint),
    script: &mut Script,
    alloc: Global,
) -> io::Result<()> {
    match script.open(alloc) {
        Some(mut rmm) => measure(rt, script, &mut rmm),
        None => Ok(()),
    }
}

/// Returns whether an input begins with `machine`, as every script does and no plan does.
pub(crate) fn is_script(bytes: &[u8]) -> bool {
    bytes.starts_with(b"machine ")
}

/// Performs a script of operations on an RMM. Prints one sum of all results, and the least time of each part.
pub(crate) fn perform_all(
    rt: &(impl CpuClock + Print + Eprint),
    alloc: Global,
    bytes: &[u8],
) -> Result<(), Fault> {
    let Ok(text) = str::from_utf8(bytes) else {
        return Err(Fault::Other);
    };
    let mut script = read_all(alloc, text)?;
    match open_and_measure(rt, &mut script, alloc) {
        Ok(()) => Ok(()),
        Err(_) => Err(Fault::Other),
    }
}
