//! Tests that apply recorded events to a host.
use crate::expected::{equal, holds_at};
use crate::hosts::{booted, over_arena};
use granule_addr::{BuildId, Gran, Order};
use page_arena::PageStore;
use realm_host::{Act, Event, Host};
use std::process::Abort;

// An operation on a block of two pages, or on the first page of the block.
enum Recorded {
    Take,
    UnTake,
    Delegate,
    Undelegate,
}

// Rows, each with a build, an operation, its first granule, and whether the host accepts the event.
const EVENTS: &[(u8, Recorded, u16, bool)] = &[
    (0, Recorded::Take, 1, false),
    (0, Recorded::Take, 2, true),
    (0, Recorded::Take, 2, false),
    (1, Recorded::Delegate, 2, false),
    (0, Recorded::Undelegate, 2, false),
    (0, Recorded::Delegate, 2, true),
    (0, Recorded::UnTake, 2, false),
    (0, Recorded::Undelegate, 2, true),
    (0, Recorded::UnTake, 2, true),
];

// The history of the events that are applied: two pages are leased, the first of them is delegated, and both operations
// are reversed.
const HISTORY: &[Recorded] = &[
    Recorded::Take,
    Recorded::Delegate,
    Recorded::Undelegate,
    Recorded::UnTake,
];

fn event(build: BuildId, recorded: &Recorded, granule: u16) -> Event {
    let order = Order::new(1).unwrap();
    let granule = Gran::new(granule % 4, 4).unwrap();
    let first = granule;
    let act = match recorded {
        Recorded::Take => Act::Take { order, first },
        Recorded::UnTake => Act::UnTake { order, first },
        Recorded::Delegate => Act::Delegate { granule },
        Recorded::Undelegate => Act::Undelegate { granule },
    };
    Event { build, act }
}

// Checks that an event is applied if its row says so, and is not applied otherwise.
fn is_applied<S: PageStore>(
    rt: &impl Abort,
    host: &mut Host<S>,
    place: usize,
    row: &(u8, Recorded, u16, bool),
) {
    let (number, recorded, granule, want) = row;
    let build = BuildId::new(*number).expect(rt, "a build");
    let is_applied = host.apply_recorded(&event(build, recorded, *granule));
    holds_at(rt, "an event", place, is_applied == *want);
}

// Checks that the history has exactly the events of `HISTORY`.
fn has_history(rt: &impl Abort, history: &[Event]) {
    let build = BuildId::new(0).unwrap();
    equal(rt, "events", history.len() as u64, 4);
    for place in 0..HISTORY.len() {
        let want = event(build, &HISTORY[place], 2);
        holds_at(rt, "the history", place, history.get(place) == Some(&want));
    }
}

fn only_legal_events_are_applied<S: PageStore + Drop>(rt: &impl Abort, mut host: Host<S>) {
    for place in 0..EVENTS.len() {
        is_applied(rt, &mut host, place, &EVENTS[place]);
    }
    equal(rt, "free pages", host.free_count() as u64, 4);
    has_history(rt, host.history());
}

#[test]
fn over_both_stores(rt: HostRuntime) {
    only_legal_events_are_applied(&rt, booted(&rt, rt.alloc(), 4, 0, 2));
    only_legal_events_are_applied(&rt, over_arena(&rt, rt.alloc(), 4, 2));
}
