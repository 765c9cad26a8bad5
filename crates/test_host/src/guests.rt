//! The builds that share a host in a test, called guests. Each guest has a seat, and the guests' steps differ only in a
//! fill value.
ghost use Rattle.std.specs.Prelude.{◌≡◌, ◌≤◌, [], length, vec_capacity};

use crate::expected::push;
use crate::steps::{STEPS, guest_steps};
use crate::tellers::Refusing;
use builders::{Gate, Ledgers, Report, Seat, SeatTeller, Shared, work};
use granule_addr::BuildId;
use host_commands::Step;
use page_arena::PageStore;
use std::alloc::Global;
use std::process::Abort;
use std::sync::Wait;

// The number of lines that a guest's report has capacity for.
const ROOM: usize = 2 * STEPS + 1;

/// A build that shares a host in a test, with the results of its run. `refused` is the index of its refused step, if it
/// has one.
#[derive(Drop)]
pub struct Guest<L: Ledgers> {
    pub seat: Seat<L>,
    pub steps: Vec<Step>,
    pub refused: Option<usize>,
    pub report: Report,
    pub has_ended: bool,
}

// Checks that a guest has its steps, and a report that is still empty.
fn is_new(rt: &impl Abort, steps: &Vec<Step>, report: &Report)
    ensures steps { length steps.now.items ≡ STEPS }
    ensures empty { report.now.lines.items ≡ [] }
    ensures room { ROOM ≤ vec_capacity report.now.lines }
{
    assert!(rt; steps.len() == STEPS);
    assert!(rt; report.lines.is_empty());
    assert!(rt; report.lines.capacity() >= ROOM);
}

impl<L: Ledgers> Guest<L> {
    /// Performs the steps of this guest, and keeps the results.
    pub(crate) fn run<R: Wait + Abort, S: PageStore, G: Gate>(
        &mut self,
        rt: &R,
        shared: &Shared<S, L>,
        gate: &G,
    ) {
        is_new(rt, &self.steps, &self.report);
        let seat = &mut self.seat;
        let mut teller = Refusing {
            teller: SeatTeller { rt, shared, seat },
            asked: 0,
            refused: self.refused,
        };
        let told = work(&mut self.report, self.steps.as_slice(), &mut teller, gate);
        self.has_ended = told.is_ok();
    }
}

// A report without lines, with capacity for those of a guest.
fn new_report(rt: &impl Abort, alloc: Global, build: BuildId) -> Report {
    let lines = Vec::with_capacity(alloc, ROOM).expect(rt, "memory");
    Report { build, lines }
}

// A guest that has done nothing. Build 1 is refused the step with the index `refused`.
fn guest_of<L: Ledgers>(rt: &impl Abort, alloc: Global, seat: Seat<L>, refused: usize) -> Guest<L> {
    let build = seat.build();
    let refused = if build.number() == 1 {
        Some(refused)
    } else {
        None
    };
    Guest {
        seat,
        steps: guest_steps(rt, alloc, build.number().saturating_add(7)),
        refused,
        report: new_report(rt, alloc, build),
        has_ended: false,
    }
}

/// Creates a test build (guest) for each session handle (`Seat`) of a host. Build 1 is refused the step with the index
/// `refused`.
pub(crate) fn guests_of<L: Ledgers>(
    rt: &impl Abort,
    alloc: Global,
    seats: Vec<Seat<L>>,
    refused: usize,
) -> Vec<Guest<L>> {
    let mut guests = Vec::new(alloc);
    for seat in seats {
        push(rt, &mut guests, guest_of(rt, alloc, seat, refused));
    }
    guests
}
