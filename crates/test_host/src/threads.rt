//! Tests of workers that share a host, each in its own thread. The tests check the workers' reports, and the build that
//! is named if a worker is stuck.
ghost use Rattle.std.specs.Prelude.{◌≡◌, ◌≤◌, [], All, vec_len};
ghost use Rattle.build_seats.specs.Names.{AreNamed};

use crate::expected::{equal, holds, push, same_text};
use crate::gates::{ForBuild0, MeetingGate};
use crate::hosts::{booted, closed, started};
use crate::lines::{Line, No, Want, has_lines};
use crate::steps::{FILLS, IS_REFUSED, READS, Words, steps_of};
use builders::{Blanks, Gate, Ledgers, OpenGate, Seat, Shared, Worker, run_builds};
use granule_addr::BuildId;
use host_commands::Step;
use page_arena::PlainStore;
use plan_replay::map_text;
use realm_host::{Host, Kind};
use std::alloc::Global;
use std::marker::{Brand, Send, Sync};
use std::process::Abort;
use std::sync::Wait;
use std::thread::Threads;

// The steps of each build, indexed by the number of the build.
type Plans = &'static [Words];

// Builds that run side by side on a new host: the pages of the host, the steps of each build, and the expected lines of
// the reports and map.
struct Case {
    pages: u16,
    builds: u8,
    plans: Plans,
    reports: &'static [&'static [Line]],
    map: &'static str,
}

// Plans in which build 0 fills a page, build 1 is refused its third step, and build 2 reads a page that it has filled.
const THREE: Plans = &[FILLS, IS_REFUSED, READS];

// Plans in which each of two builds fills a page and reads from it.
const TWO: Plans = &[
    &["take 0", "fill 0 9", "peek 0 0"],
    &["take 0", "fill 0 3", "peek 0 0"],
];

// The steps of a build.
fn steps_for(rt: &impl Abort, alloc: Global, plans: Plans, build: BuildId) -> Vec<Step>
    ensures { vec_len result ≤ 1024 }
{
    let plan = plans.get(build.number() as usize).expect(rt, "a plan");
    let steps = steps_of(rt, alloc, plan);
    assert!(rt; steps.len() <= 1024);
    steps
}

// Makes a worker for a seat that has no events.
fn worker_of<L: Ledgers>(rt: &impl Abort, alloc: Global, seat: Seat<L>, plans: Plans) -> Worker<L>
    ensures { result.lines ≡ [] }
{
    let steps = steps_for(rt, alloc, plans, seat.build());
    assert!(rt; seat.count() == 0);
    match Worker::build(alloc, seat, steps) {
        Ok(worker) => worker,
        Err(_) => panic!(rt; "there is no memory for a report"),
    }
}

// Workers for all seats, the last seat's worker first.
fn workers_of<L: Ledgers>(
    rt: &impl Abort,
    alloc: Global,
    mut seats: Vec<Seat<L>>,
    plans: Plans,
) -> Vec<Worker<L>>
    ensures { All (λ worker. worker.lines ≡ []) result.items }
{
    let mut workers = Vec::new(alloc);
    for _ in 0..seats.len() {
        let seat = seats.pop().expect(rt, "a seat");
        push(rt, &mut workers, worker_of(rt, alloc, seat, plans));
    }
    workers
}

// Checks the report of a worker, and returns its seat.
fn ended<L: Ledgers>(rt: &impl Abort, worker: Worker<L>, build: usize, want: &[Line]) -> Seat<L> {
    let (seat, _steps, report) = worker.end();
    equal(rt, "the build", report.build.number() as u64, build as u64);
    has_lines(rt, "a report", report.lines.as_slice(), want);
    seat
}

// Checks the reports of workers, and returns their seats, from the last worker's to the first's.
fn all_ended<L: Ledgers>(
    rt: &impl Abort,
    alloc: Global,
    mut workers: Vec<Worker<L>>,
    reports: &[&[Line]],
) -> Vec<Seat<L>> {
    let mut seats = Vec::new(alloc);
    for build in 0..reports.len() {
        let worker = workers.pop().expect(rt, "a worker");
        push(rt, &mut seats, ended(rt, worker, build, reports[build]));
    }
    seats
}

// Runs the builds of a shared host side by side, and checks their reports. `ends` is the lowest build that is expected
// not to finish, if any. Returns all seats.
fn run_plans<R: Threads + Wait + Abort + Sync, G: Gate + Sync, L: Ledgers + Send + Sync>(
    rt: &R,
    alloc: Global,
    shared: &Shared<PlainStore, L>,
    seats: Vec<Seat<L>>,
    gate: &G,
    case: &Case,
    ends: Result<(), BuildId>,
) -> Vec<Seat<L>> {
    let mut workers = workers_of(rt, alloc, seats, case.plans);
    let ended = run_builds(rt, shared, workers.as_mut_slice(), gate);
    holds(rt, "the ends", ended == ends);
    all_ended(rt, alloc, workers, case.reports)
}

// Shares a host, runs its builds side by side, closes the host, and checks the map.
fn work_together<R: Threads + Wait + Abort + Sync, G: Gate + Sync, L: Ledgers + Send + Sync>(
    rt: &R,
    alloc: Global,
    blanks: Blanks,
    host: Host<PlainStore>,
    gate: &G,
    case: &Case,
    ends: Result<(), BuildId>,
)
    requires empty { host.history ≡ [] }
    requires opened { host ≡ L.opened }
    requires named { AreNamed L.names blanks }
{
    let (shared, seats) = started::<PlainStore, L>(rt, alloc, blanks, host);
    let seats = run_plans(rt, alloc, &shared, seats, gate, case, ends);
    let map = map_text(alloc, &closed(rt, shared, seats)).expect(rt, "memory");
    same_text(rt, map.as_str(), case.map);
}

// Runs the builds of a new host as `work_together` does.
fn boot_and_work<R: Threads + Wait + Abort + Sync, G: Gate + Sync>(
    rt: &R,
    alloc: Global,
    gate: &G,
    case: &Case,
    ends: Result<(), BuildId>,
) {
    let host = booted(rt, alloc, case.pages, 0, case.builds);
    work_together::<R, G, Brand>(rt, alloc, Blanks::new(), host, gate, case, ends);
}

const FILLED: &[Line] = &[Line::Step(0, Want::Page(0)), Line::Step(1, Want::Done)];

const ONE_IS_REFUSED: &Case = &Case {
    pages: 16,
    builds: 3,
    plans: THREE,
    reports: &[
        FILLED,
        &[
            Line::Step(0, Want::Page(0)),
            Line::Step(1, Want::Done),
            Line::Step(2, Want::No(No::Input)),
            Line::Undo(Want::Undone(Kind::Delegate, 1)),
            Line::Undo(Want::Undone(Kind::Take, 0)),
        ],
        &[
            Line::Step(0, Want::Page(0)),
            Line::Step(1, Want::Done),
            Line::Step(2, Want::Byte(2)),
        ],
    ],
    map: "0 page 0 UNDELEGATED 4096
0 page 1 UNDELEGATED 0
2 page 0 UNDELEGATED 8192
free 13
",
};

#[test]
fn one_of_three_is_refused(rt: HostRuntime) {
    boot_and_work(&rt, rt.alloc(), &OpenGate, ONE_IS_REFUSED, Ok(()));
}

const TWO_ARE_STOPPED: &Case = &Case {
    pages: 16,
    builds: 3,
    plans: THREE,
    reports: &[
        FILLED,
        &[Line::Step(0, Want::Page(0))],
        &[Line::Step(0, Want::Page(0))],
    ],
    map: "0 page 0 UNDELEGATED 4096
0 page 1 UNDELEGATED 0
1 page 0 UNDELEGATED 0
1 page 1 UNDELEGATED 0
2 page 0 UNDELEGATED 0
free 11
",
};

#[test]
fn two_of_three_are_stopped(rt: HostRuntime) {
    let second = BuildId::new(1).unwrap();
    boot_and_work(&rt, rt.alloc(), &ForBuild0, TWO_ARE_STOPPED, Err(second));
}

const BOTH_READ: &Case = &Case {
    pages: 2,
    builds: 2,
    plans: TWO,
    reports: &[
        &[
            Line::Step(0, Want::Page(0)),
            Line::Step(1, Want::Done),
            Line::Step(2, Want::Byte(9)),
        ],
        &[
            Line::Step(0, Want::Page(0)),
            Line::Step(1, Want::Done),
            Line::Step(2, Want::Byte(3)),
        ],
    ],
    map: "0 page 0 UNDELEGATED 36864
1 page 0 UNDELEGATED 12288
free 0
",
};

#[test]
fn each_reads_after_both_have_filled(rt: HostRuntime) {
    let gate = MeetingGate::from(&rt);
    boot_and_work(&rt, rt.alloc(), &gate, BOTH_READ, Ok(()));
}
