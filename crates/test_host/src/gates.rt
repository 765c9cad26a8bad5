//! Gates (turn schedulers) at which builds wait for one another, or are stopped.
use builders::{Gate, Stuck};
use granule_addr::BuildId;
use std::sync::atomic::{AtomicU64, Ordering};
use std::thread;
use std::time::{Clock, Duration};

/// A turn scheduler under which two builds wait for each other before turn 2. Each build gets this turn only after the
/// other build has asked for its own.
#[derive(Drop)]
pub(crate) struct MeetingGate<'a, C: Clock> {
    clock: &'a C,
    first: AtomicU64,
    second: AtomicU64,
}

impl<'a, C: Clock> From<&'a C> for MeetingGate<'a, C> {
    /// Creates a turn scheduler that sleeps by the given clock while a build waits.
    fn from(clock: &'a C) -> MeetingGate<'a, C> {
        MeetingGate {
            clock,
            first: AtomicU64::new(0),
            second: AtomicU64::new(0),
        }
    }
}

impl<'a, C: Clock> Gate for MeetingGate<'a, C> {
    ghost passes = { λ gate build turn. Unit {0} };

    ghost stops = { λ gate build turn. Unit {0} };

    fn pass(&self, build: BuildId, turn: usize) -> Result<(), Stuck> {
        if turn < 2 {
            return Ok(());
        }
        let (mine, other) = if build.number() == 0 {
            (&self.first, &self.second)
        } else {
            (&self.second, &self.first)
        };
        mine.store(1, Ordering::SeqCst);
        for _ in 0..10_000 {
            if other.load(Ordering::SeqCst) == 1 {
                return Ok(());
            }
            thread::sleep(self.clock, Duration::from_millis(1));
        }
        Err(Stuck)
    }
}

/// A turn scheduler that stops every build except build 0 at turn 1.
#[derive(Drop)]
pub(crate) struct ForBuild0;

impl Gate for ForBuild0 {
    ghost passes = { λ gate build turn. Unit {0} };

    ghost stops = { λ gate build turn. Unit {0} };

    fn pass(&self, build: BuildId, turn: usize) -> Result<(), Stuck> {
        if build.number() == 0 || turn == 0 {
            Ok(())
        } else {
            Err(Stuck)
        }
    }
}
