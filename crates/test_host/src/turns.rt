//! A turn scheduler for tests, under which some builds wait for another build.
use crate::steps::STEPS;
use builders::{Gate, Stuck};
use granule_addr::BuildId;
use std::sync::atomic::{AtomicU64, Ordering};
use std::thread;
use std::time::{Clock, Duration};

/// The rule by which some builds wait for another build at each turn.
#[derive(Clone, Copy)]
pub enum Waiting {
    /// Build 1 waits for build 2 at each turn. Build 2 must have passed the gate at the turn with the same number, or
    /// at its last turn.
    ForBuild2,
    /// Builds 0 and 2 wait for build 1 at each turn. Build 1 must have passed the gate at the turn with the same
    /// number, or at its refused turn.
    ForBuild1,
}

/// A turn scheduler for three builds, which makes some builds wait for another build. The scheduler counts the turns
/// that each build has passed.
#[derive(Drop)]
pub struct Turns<'a, C: Clock> {
    clock: &'a C,
    waiting: Waiting,
    // The last turn that is waited for.
    last: usize,
    first: AtomicU64,
    second: AtomicU64,
    third: AtomicU64,
}

impl<'a, C: Clock> Turns<'a, C> {
    pub(crate) fn new(clock: &'a C, waiting: Waiting, refused: usize) -> Turns<'a, C> {
        let last = match waiting {
            Waiting::ForBuild2 => STEPS - 1,
            Waiting::ForBuild1 => refused,
        };
        Turns {
            clock,
            waiting,
            last,
            first: AtomicU64::new(0),
            second: AtomicU64::new(0),
            third: AtomicU64::new(0),
        }
    }

    // The number of turns that a build has passed.
    fn passed(&self, number: u8) -> &AtomicU64 {
        match number {
            0 => &self.first,
            1 => &self.second,
            _ => &self.third,
        }
    }

    // Waits until a build has passed a given turn.
    fn wait(&self, number: u8, turn: u64) -> Result<(), Stuck> {
        for _ in 0..10_000 {
            if self.passed(number).load(Ordering::SeqCst) > turn {
                return Ok(());
            }
            thread::sleep(self.clock, Duration::from_millis(1));
        }
        Err(Stuck)
    }
}

impl<'a, C: Clock> Gate for Turns<'a, C> {
    ghost passes = { λ gate build turn. Unit {0} };

    ghost stops = { λ gate build turn. Unit {0} };

    fn pass(&self, build: BuildId, turn: usize) -> Result<(), Stuck> {
        let number = build.number();
        let awaited = turn.min(self.last) as u64;
        match self.waiting {
            Waiting::ForBuild2 if number == 1 => self.wait(2, awaited)?,
            Waiting::ForBuild1 if number != 1 => self.wait(1, awaited)?,
            _ => {}
        }
        self.passed(number)
            .store((turn as u64).saturating_add(1), Ordering::SeqCst);
        Ok(())
    }
}
