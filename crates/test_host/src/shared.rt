//! Tests of a host that several builds share. The tests check the answers that the host's seats get, and the closing of
//! the host.
ghost use Rattle.std.specs.Prelude.{◌≡◌, []};
ghost use Rattle.build_seats.specs.Names.{AreNamed};

use crate::expected::{equal, holds, holds_at, same_text};
use crate::hosts::{booted, started};
use crate::lines::{No, Want};
use crate::steps::step_of;
use builders::{Answer, Blanks, CloseFault, Ledgers, Seat, Shared};
use host_commands::Step;
use page_arena::PlainStore;
use plan_replay::map_text;
use realm_host::{Cmd, Host, Kind, Undone};
use std::alloc::Global;
use std::marker::Brand;
use std::process::Abort;
use std::sync::Wait;

// Commands for a seat, spelled as in a plan, each with the expected answer.
type Script = &'static [(&'static str, Want)];

// What two builds of a host do through their seats, one after the other, and what is left when the host is closed.
struct Case {
    pages: u16,
    // The scripts of each build, before and after it goes back to a mark.
    works: &'static [(Script, Script)],
    // The number of seats with which the host is closed.
    kept: usize,
    // The number of each build's events.
    events: u64,
    // The build whose seat is missing when the host is closed.
    missing: Option<u8>,
    map: &'static str,
}

// Performs a command through a seat, and checks the answer.
fn asks<R: Wait + Abort, L: Ledgers>(
    rt: &R,
    shared: &Shared<PlainStore, L>,
    seat: &mut Seat<L>,
    word: &str,
    cmd: Cmd,
    want: &Want,
) {
    let answer = match shared.call(rt, seat, cmd) {
        Ok(reply) => Answer::Replied(reply),
        Err(refusal) => Answer::Refused(refusal),
    };
    holds(rt, word, answer == want.answer());
}

// Performs commands through a seat, one after the other, and checks the answers.
fn runs<R: Wait + Abort, L: Ledgers>(
    rt: &R,
    shared: &Shared<PlainStore, L>,
    seat: &mut Seat<L>,
    script: Script,
) {
    for (word, want) in script {
        match step_of(rt, word) {
            Step::Ask(cmd) => asks(rt, shared, seat, word, cmd, want),
            _ => panic!(rt; "no command"),
        }
    }
}

// Sets a mark through a seat, delegates page 0, and goes back to the mark.
fn goes_back<R: Wait + Abort, L: Ledgers>(
    rt: &R,
    shared: &Shared<PlainStore, L>,
    seat: &mut Seat<L>,
) {
    let mark = shared.mark(rt, seat).expect(rt, "a mark");
    runs(rt, shared, seat, &[("delegate 0", Want::Done)]);
    let above = shared.check_back(rt, seat, mark);
    holds(rt, "one act is above the mark", above == Ok(1));
    let undone = Undone {
        kind: Kind::Delegate,
        left: 1,
    };
    let answer = shared.undo(rt, seat);
    holds(rt, "it is undone", answer == Ok(undone));
}

// Runs the scripts of all builds through their seats, one build after the other.
fn all_work<R: Wait + Abort, L: Ledgers>(
    rt: &R,
    shared: &Shared<PlainStore, L>,
    seats: &mut [Seat<L>],
    case: &Case,
) {
    assert!(rt; seats.len() == case.works.len());
    for place in 0..case.works.len() {
        let (first, last) = case.works[place];
        let seat = &mut seats[place];
        runs(rt, shared, seat, first);
        goes_back(rt, shared, seat);
        runs(rt, shared, seat, last);
        equal(rt, "events", seat.count() as u64, case.events);
    }
}

// A host that was closed, or could not be closed.
type Closed = Result<Host<PlainStore>, (CloseFault, Host<PlainStore>)>;

fn host_of(closed: &Closed) -> &Host<PlainStore> {
    match closed {
        Ok(host) => host,
        Err((_, host)) => host,
    }
}

// Whether a host was closed, or could not be closed because the seat of the given build is missing.
fn is_missing(closed: &Closed, missing: Option<u8>) -> bool {
    match closed {
        Ok(_) => missing.is_none(),
        Err((CloseFault::SeatMissing(build), _)) => missing == Some(build.number()),
        Err(_) => false,
    }
}

// Checks how a host was closed. In each case the host has to have all events and the expected map.
fn is_closed(rt: &impl Abort, alloc: Global, closed: &Closed, case: &Case) {
    holds_at(
        rt,
        "closed, seats",
        case.kept,
        is_missing(closed, case.missing),
    );
    let host = host_of(closed);
    let events = host.history().len() as u64;
    equal(rt, "events", events, case.events.saturating_mul(2));
    let map = map_text(alloc, host).expect(rt, "memory");
    same_text(rt, map.as_str(), case.map);
}

// Shares a host between two builds, runs their scripts, closes the host, and checks what is left.
fn closes<R: Wait + Abort, L: Ledgers>(
    rt: &R,
    alloc: Global,
    blanks: Blanks,
    host: Host<PlainStore>,
    case: &Case,
)
    requires empty { host.history ≡ [] }
    requires opened { host ≡ L.opened }
    requires named { AreNamed L.names blanks }
{
    let (shared, mut seats) = started::<PlainStore, L>(rt, alloc, blanks, host);
    all_work(rt, &shared, seats.as_mut_slice(), case);
    seats.truncate(case.kept);
    is_closed(rt, alloc, &shared.close(seats), case);
}

// Runs `closes` on a new host of two builds.
fn boots_and_closes<R: Wait + Abort>(rt: &R, alloc: Global, case: &Case) {
    let host = booted(rt, alloc, case.pages, 0, 2);
    closes::<R, Brand>(rt, alloc, Blanks::new(), host, case);
}

// Two scripts for each build: the first takes, fills and reads a page. The second is refused a page that the build does
// not have.
const WORKS: &[(Script, Script)] = &[
    (
        &[
            ("take 0", Want::Page(0)),
            ("fill 0 10", Want::Done),
            ("peek 0 7", Want::Byte(10)),
        ],
        &[("fill 1 10", Want::No(No::Page(1)))],
    ),
    (
        &[
            ("take 0", Want::Page(0)),
            ("fill 0 11", Want::Done),
            ("peek 0 7", Want::Byte(11)),
        ],
        &[("fill 1 11", Want::No(No::Page(1)))],
    ),
];

// Each build goes back over the delegation of its page, which clears the page.
const CLEARED: &str = "0 page 0 UNDELEGATED 0
1 page 0 UNDELEGATED 0
free 2
";

// A host that is closed with the seats of both builds.
const WITH_BOTH: &Case = &Case {
    pages: 4,
    works: WORKS,
    kept: 2,
    events: 5,
    missing: None,
    map: CLEARED,
};

// A host that is closed with the seat of build 0 alone.
const WITH_ONE: &Case = &Case {
    pages: 4,
    works: WORKS,
    kept: 1,
    events: 5,
    missing: Some(1),
    map: CLEARED,
};

#[test]
fn closes_with_each_seat_and_misses_one(rt: HostRuntime) {
    boots_and_closes(&rt, rt.alloc(), WITH_BOTH);
    boots_and_closes(&rt, rt.alloc(), WITH_ONE);
}

// Each build takes four pages, fills each with a value of its own, and reads each.
const FILL_FOUR: &[(Script, Script)] = &[
    (
        &[("take 2", Want::Page(0))],
        &[
            ("fill 0 10", Want::Done),
            ("fill 1 11", Want::Done),
            ("fill 2 12", Want::Done),
            ("fill 3 13", Want::Done),
            ("peek 0 4095", Want::Byte(10)),
            ("peek 1 4095", Want::Byte(11)),
            ("peek 2 4095", Want::Byte(12)),
            ("peek 3 4095", Want::Byte(13)),
        ],
    ),
    (
        &[("take 2", Want::Page(0))],
        &[
            ("fill 0 20", Want::Done),
            ("fill 1 21", Want::Done),
            ("fill 2 22", Want::Done),
            ("fill 3 23", Want::Done),
            ("peek 0 4095", Want::Byte(20)),
            ("peek 1 4095", Want::Byte(21)),
            ("peek 2 4095", Want::Byte(22)),
            ("peek 3 4095", Want::Byte(23)),
        ],
    ),
];

const OF_EIGHT_PAGES: &Case = &Case {
    pages: 8,
    works: FILL_FOUR,
    kept: 2,
    events: 11,
    missing: None,
    map: "0 page 0 UNDELEGATED 40960
0 page 1 UNDELEGATED 45056
0 page 2 UNDELEGATED 49152
0 page 3 UNDELEGATED 53248
1 page 0 UNDELEGATED 81920
1 page 1 UNDELEGATED 86016
1 page 2 UNDELEGATED 90112
1 page 3 UNDELEGATED 94208
free 0
",
};

#[test]
fn fills_the_page_that_is_named(rt: HostRuntime) {
    boots_and_closes(&rt, rt.alloc(), OF_EIGHT_PAGES);
}
