//! Shows on a terminal how many schedules of a sample have been run.
use std::cell::Cell;
use std::io::IsTerminal;
use std::time::Instant;
use view_program::schedules::Progress;

/// The length, in milliseconds, of a period in which at most one progress line is printed.
const PAUSE: u128 = 200;

/// A progress line with the number of schedules run so far, on standard error if that is a terminal. Each line is
/// written over the one before it, at most once in each period of 200 ms.
#[derive(Drop)]
pub struct Meter<'a> {
    rt: &'a HostRuntime,
    begun: Option<Instant>,
    pauses: Cell<u128>,
}

impl Meter<'_> {
    /// Creates a progress line, which prints only if standard error is a terminal.
    pub fn new(rt: &HostRuntime) -> Meter<'_> {
        let begun = if rt.stderr().is_terminal() {
            Instant::now(rt).ok()
        } else {
            None
        };
        Meter {
            rt,
            begun,
            pauses: Cell::new(0),
        }
    }

    // The number of pauses that have passed since the meter's start, if it prints anything.
    fn passed(&self) -> Option<u128> {
        let since = self.begun?.elapsed(self.rt).ok()?;
        Some(since.as_millis() / PAUSE)
    }

    /// Clears the last progress line.
    pub fn end(&self) {
        if self.pauses.get() > 0 {
            let _lost = eprint!(self.rt; "\r\x1b[K");
        }
    }
}

impl Progress for Meter<'_> {
    fn told(&self, schedules: u32, most: u32) {
        let Some(passed) = self.passed() else {
            return;
        };
        if passed > self.pauses.get() {
            self.pauses.set(passed);
            let _lost = eprint!(self.rt; "\r\x1b[K{schedules} of {most} schedules run");
        }
    }
}
