//! Tests in which commands of one of three builds are refused. Each command of the build is refused once, while the two
//! other builds go on.
ghost use Rattle.std.specs.Prelude.{◌≡◌, []};
ghost use Rattle.build_seats.specs.Names.{AreNamed};

use crate::expected::{holds, push};
use crate::guests::{Guest, guests_of};
use crate::hosts::{booted, closed, started};
use crate::left::{has_two_guests, is_without_build_1};
use crate::reports::{is_accepted, is_refused};
use crate::steps::STEPS;
use crate::turns::{Turns, Waiting};
use builders::{Blanks, Gate, Ledgers, Report, Seat, Shared};
use page_arena::{PageStore, PlainStore};
use realm_host::Host;
use std::alloc::Global;
use std::marker::{Brand, Send, Sync};
use std::process::Abort;
use std::sync::Wait;
use std::thread;
use std::thread::Threads;
use std::time::Clock;

// Checks the report of a guest that was refused a given step, or no step.
fn is_reported(rt: &impl Abort, report: &Report, refused: Option<usize>) {
    match refused {
        Some(step) => is_refused(rt, report, step),
        None => is_accepted(rt, report),
    }
}

// Checks that a guest has finished with the expected report, and returns its seat.
fn ended<L: Ledgers>(rt: &impl Abort, guest: Guest<L>) -> Seat<L> {
    let Guest {
        seat,
        steps: _,
        refused,
        report,
        has_ended,
    } = guest;
    holds(rt, "it got its turns", has_ended);
    is_reported(rt, &report, refused);
    seat
}

// Checks that guests have finished, and returns their seats.
fn all_ended<L: Ledgers>(rt: &impl Abort, alloc: Global, guests: Vec<Guest<L>>) -> Vec<Seat<L>> {
    let mut seats = Vec::new(alloc);
    for guest in guests {
        push(rt, &mut seats, ended(rt, guest));
    }
    seats
}

// Runs guests side by side, with one step of build 1 refused, and checks their reports.
fn run_guests<
    R: Threads + Wait + Abort + Sync,
    S: PageStore + Drop + Send,
    G: Gate + Sync,
    L: Ledgers + Send + Sync,
>(
    rt: &R,
    alloc: Global,
    shared: &Shared<S, L>,
    seats: Vec<Seat<L>>,
    gate: &G,
    refused: usize,
) -> Vec<Seat<L>> {
    let mut guests = guests_of(rt, alloc, seats, refused);
    thread::for_each_mut(
        rt,
        guests.as_mut_slice(),
        3,
        &|_, guest: &mut Guest<L>| { guest.run(rt, shared, gate) },
    );
    all_ended(rt, alloc, guests)
}

// Shares a host, runs guests as `run_guests` does, and closes the host.
fn work_together<
    R: Threads + Wait + Abort + Sync,
    S: PageStore + Drop + Send,
    G: Gate + Sync,
    L: Ledgers + Send + Sync,
>(rt: &R, alloc: Global, blanks: Blanks, host: Host<S>, gate: &G, refused: usize) -> Host<S>
    requires empty { host.history ≡ [] }
    requires opened { host ≡ L.opened }
    requires named { AreNamed L.names blanks }
{
    let (shared, seats) = started::<S, L>(rt, alloc, blanks, host);
    let seats = run_guests(rt, alloc, &shared, seats, gate, refused);
    closed(rt, shared, seats)
}

// The host after guests have run at a gate of the given `Waiting`, with one step of build 1 refused.
fn host_after<R: Threads + Wait + Abort + Clock + Sync>(
    rt: &R,
    alloc: Global,
    waiting: Waiting,
    refused: usize,
) -> Host<PlainStore> {
    let host = booted(rt, alloc, 24, 1, 3);
    let gate = Turns::new(rt, waiting, refused);
    work_together::<R, PlainStore, Turns<R>, Brand>(rt, alloc, Blanks::new(), host, &gate, refused)
}

// Checks that nothing is left of build 1, and that the other builds have kept everything.
fn is_left_by_two(rt: &impl Abort, alloc: Global, host: &Host<PlainStore>) {
    has_two_guests(rt, alloc, host);
    let mut fresh = booted(rt, alloc, 24, 1, 3);
    is_without_build_1(rt, alloc, host, &mut fresh);
}

// Refuses each step of build 1 in turn, and checks each time that nothing is left of build 1. The other builds keep
// everything.
fn refused_at_each<R: Threads + Wait + Abort + Clock + Sync>(
    rt: &R,
    alloc: Global,
    waiting: Waiting,
) {
    for refused in 0..STEPS {
        let host = host_after(rt, alloc, waiting, refused);
        is_left_by_two(rt, alloc, &host);
    }
}

#[test]
fn build_1_is_refused_behind_build_2(rt: HostRuntime) {
    refused_at_each(&rt, rt.alloc(), Waiting::ForBuild2);
}

#[test]
fn build_1_is_refused_before_the_others(rt: HostRuntime) {
    refused_at_each(&rt, rt.alloc(), Waiting::ForBuild1);
}
