//! Tests that call a shared host through one build's seat, and then run a worker for another build.
ghost use Rattle.std.specs.Prelude.{◌≡◌, ◌≤◌, [], All, IfOk, vec_len};
ghost use Rattle.build_seats.specs.Names.{AreNamed};

use crate::boot::booted;
use crate::calls::{TURNS, Tally, command};
use crate::{Fault, tell, tell_try};
use buddy::BuddyArena;
use builders::{Blanks, Ledgers, OpenGate, Seat, Shared, Worker, run_builds};
use host_commands::Step;
use realm_host::{Cmd, Host};
use std::alloc::Global;
use std::marker::{Brand, Send, Sync};
use std::sync::Wait;
use std::thread::Threads;

// Makes the calls of one build through the shared host's lock. The answers are counted.
fn ask_all<R: Wait, L: Ledgers>(
    rt: &R,
    shared: &Shared<BuddyArena, L>,
    seat: &mut Seat<L>,
    tally: &mut Tally,
) {
    for turn in 0..TURNS {
        tally.count(&shared.call(rt, seat, command(turn)));
    }
    tally.count(&shared.undo(rt, seat));
    let mark = shared.mark(rt, seat);
    tally.count(&mark);
    let Ok(mark) = mark else {
        return;
    };
    tally.count(&shared.call(rt, seat, command(19)));
    tally.count(&shared.check_back(rt, seat, mark));
    tally.count(&shared.undo(rt, seat));
}

// The number of the worker's steps.
const STEPS: u8 = 5;

// A step of the worker, by its number. The steps take a page, delegate it after a mark, go back to the mark, and fill
// the page.
fn step(number: u8) -> Step {
    match number {
        0 => Step::Ask(Cmd::Take { order: 0 }),
        1 => Step::Mark,
        2 => Step::Ask(Cmd::Delegate { page: 0 }),
        3 => Step::Back,
        _ => Step::Ask(Cmd::Fill { page: 0, value: 1 }),
    }
}

// The steps of the worker.
fn few_steps(alloc: Global) -> Result<Vec<Step>, Fault> {
    let mut steps = Vec::with_capacity(alloc, STEPS as usize)?;
    for number in 0..STEPS {
        steps.push(step(number))?;
    }
    Ok(steps)
}

// A worker from a second try, built with the arguments that the first try handed back.
fn built_again<L: Ledgers>(
    rt: &impl Print,
    alloc: Global,
    seat: Seat<L>,
    steps: Vec<Step>,
) -> Result<Worker<L>, Fault>
    requires trail { seat.trail ≡ [] }
    requires few { vec_len steps ≤ 1024 }
    ensures { IfOk result (λ worker. worker.lines ≡ []) }
{
    match Worker::build(alloc, seat, steps) {
        Ok(worker) => {
            tell_try(rt, "built", true);
            Ok(worker)
        }
        Err(_) => Err(Fault::Memory),
    }
}

// A worker for a seat, with a second try if an allocation fails.
fn built<L: Ledgers>(
    rt: &impl Print,
    alloc: Global,
    seat: Seat<L>,
    steps: Vec<Step>,
) -> Result<Worker<L>, Fault>
    requires trail { seat.trail ≡ [] }
    requires few { vec_len steps ≤ 1024 }
    ensures { IfOk result (λ worker. worker.lines ≡ []) }
{
    match Worker::build(alloc, seat, steps) {
        Ok(worker) => {
            tell_try(rt, "built", false);
            Ok(worker)
        }
        Err((_, seat, steps)) => built_again(rt, alloc, seat, steps),
    }
}

// A worker for the last of the seats.
fn last_worker<L: Ledgers>(
    rt: &impl Print,
    alloc: Global,
    seats: &mut Vec<Seat<L>>,
) -> Result<Worker<L>, Fault>
    ensures { IfOk result (λ worker. worker.lines ≡ []) }
{
    let steps = few_steps(alloc)?;
    match seats.pop() {
        Some(seat) if seat.count() == 0 && steps.len() <= 1024 => built(rt, alloc, seat, steps),
        _ => Err(Fault::Other),
    }
}

// Makes every call through one build's seat, and runs the workers of the other builds. The answers are printed.
fn make_calls_and_run_workers<R: Print + Threads + Wait + Sync, L: Ledgers + Send + Sync>(
    rt: &R,
    shared: &Shared<BuddyArena, L>,
    seat: &mut Seat<L>,
    workers: &mut [Worker<L>],
) -> bool
    requires { All (λ worker. worker.lines ≡ []) workers.old }
{
    let mut tally = Tally::new();
    tell(rt, "quiet");
    ask_all(rt, shared, seat, &mut tally);
    let has_ended = run_builds(rt, shared, workers, &OpenGate).is_ok();
    tally.tell(rt);
    has_ended
}

// Ends a worker, prints the length of its report, and returns its seat.
fn ended<L: Ledgers>(rt: &impl Print, worker: Worker<L>, has_ended: bool) -> Seat<L> {
    let (seat, _steps, report) = worker.end();
    let _told = println!(rt;
        "a report of {} lines, whole: {has_ended}",
        report.lines.len()
    );
    seat
}

// Makes every call through the last of the seats, and runs a worker for another build. Returns the worker's seat.
fn work_beside<R: Print + Threads + Wait + Sync, L: Ledgers + Send + Sync>(
    rt: &R,
    shared: &Shared<BuddyArena, L>,
    seats: &mut [Seat<L>],
    worker: Worker<L>,
) -> Seat<L>
    requires { worker.lines ≡ [] }
{
    let mut workers = [worker];
    let has_ended = match seats.last_mut() {
        Some(seat) => make_calls_and_run_workers(rt, shared, seat, &mut workers),
        None => false,
    };
    let [worker] = workers;
    ended(rt, worker, has_ended)
}

// Makes every call through the seat of one build, and runs a worker for the other build.
fn ask_and_work<R: Print + Threads + Wait + Sync, L: Ledgers + Send + Sync>(
    rt: &R,
    alloc: Global,
    shared: &Shared<BuddyArena, L>,
    seats: &mut Vec<Seat<L>>,
) -> Result<(), Fault> {
    let worker = last_worker(rt, alloc, seats)?;
    let seat = work_beside(rt, shared, seats.as_mut_slice(), worker);
    seats.push(seat)?;
    Ok(())
}

// A shared host from a second try, started with the arguments that the first try handed back.
fn shared_again<L: Ledgers>(
    rt: &impl Print,
    alloc: Global,
    blanks: Blanks,
    host: Host<BuddyArena>,
) -> Result<(Shared<BuddyArena, L>, Vec<Seat<L>>), Fault>
    requires empty { host.history ≡ [] }
    requires opened { host ≡ L.opened }
    requires named { AreNamed L.names blanks }
{
    match Shared::start(alloc, blanks, host) {
        Ok(started) => {
            tell_try(rt, "shared", true);
            Ok(started)
        }
        Err(_) => Err(Fault::Memory),
    }
}

// A shared host and its seats, with a second try if an allocation fails.
fn started<L: Ledgers>(
    rt: &impl Print,
    alloc: Global,
    blanks: Blanks,
    host: Host<BuddyArena>,
) -> Result<(Shared<BuddyArena, L>, Vec<Seat<L>>), Fault>
    requires empty { host.history ≡ [] }
    requires opened { host ≡ L.opened }
    requires named { AreNamed L.names blanks }
{
    match Shared::start(alloc, blanks, host) {
        Ok(started) => {
            tell_try(rt, "shared", false);
            Ok(started)
        }
        Err((_, blanks, host)) => shared_again(rt, alloc, blanks, host),
    }
}

fn tell_events(rt: &impl Print, host: &Host<BuddyArena>) {
    let _told = println!(rt; "closed with {} events", host.history().len());
}

// Closes a host with all of its seats.
fn close<L: Ledgers>(
    rt: &impl Print,
    shared: Shared<BuddyArena, L>,
    seats: Vec<Seat<L>>,
) -> Result<(), Fault> {
    match shared.close(seats) {
        Ok(host) => {
            tell_events(rt, &host);
            Ok(())
        }
        Err(_) => Err(Fault::Other),
    }
}

// Shares a host, with a second try if an allocation fails, works on it, and closes it.
fn share<R: Print + Threads + Wait + Sync, L: Ledgers + Send + Sync>(
    rt: &R,
    alloc: Global,
    blanks: Blanks,
    host: Host<BuddyArena>,
) -> Result<(), Fault>
    requires empty { host.history ≡ [] }
    requires opened { host ≡ L.opened }
    requires named { AreNamed L.names blanks }
{
    let (shared, mut seats) = started::<L>(rt, alloc, blanks, host)?;
    ask_and_work(rt, alloc, &shared, &mut seats)?;
    close(rt, shared, seats)
}

/// Tests a shared host with calls for one build and a worker for another. The host is booted and shared first, and
/// taken back at the end.
pub(crate) fn work<R: Print + Threads + Wait + Sync>(rt: &R, alloc: Global) -> Result<(), Fault> {
    let host = booted(rt, alloc)?;
    share::<R, Brand>(rt, alloc, Blanks::new(), host)
}
