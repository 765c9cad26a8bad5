//! Tests of the texts that describe refusals.
use crate::expected::same_text;
use granule_addr::Order;
use realm_host::Refusal;
use realm_model::{Rmi, Status};
use std::alloc::Global;
use std::process::Abort;

// The texts of the refusals, in the sequence of their numbers.
const TEXTS: &[&str] = &[
    "there is no such build",
    "the build is being aborted",
    "a block has at most 512 pages",
    "the build has no page 12",
    "the build has a realm",
    "the build has no realm",
    "there is nothing to undo",
    "a REC is running",
    "the journal is full",
    "the history is full",
    "no block of order 9 is free",
    "no VMID is free",
    "the monitor refused: Rtt, index 2",
];

// A refusal with the number after `place`.
fn refusal(place: usize) -> Refusal {
    match place {
        0 => Refusal::NoBuild,
        1 => Refusal::Aborting,
        2 => Refusal::BadOrder,
        3 => Refusal::NotLeased(12),
        4 => Refusal::RealmThere,
        5 => Refusal::NoRealm,
        6 => Refusal::NothingToUndo,
        7 => Refusal::RecRunning,
        8 => Refusal::JournalFull,
        9 => Refusal::HistoryFull,
        10 => Refusal::NoBlock(Order::new(9).unwrap()),
        11 => Refusal::NoVmid,
        _ => Refusal::Rmi(Rmi {
            status: Status::Rtt,
            index: 2,
        }),
    }
}

// Checks that a refusal is formatted as the given text.
fn has_text(rt: &impl Abort, alloc: Global, refusal: &Refusal, text: &str) {
    let seen = refusal.to_string(alloc).expect(rt, "memory");
    same_text(rt, seen.as_str(), text);
}

#[test]
fn refusals_are_reported(rt: HostRuntime) {
    for place in 0..TEXTS.len() {
        has_text(&rt, rt.alloc(), &refusal(place), TEXTS[place]);
    }
}
