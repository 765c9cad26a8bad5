//! Tests that translation tables have the expected 64-bit words in memory, with both `PlainStore` and `BuddyArena`.
//!
//! The words are written and cleared as a realm's tables and its page are made and removed.
ghost use Rattle.std.specs.Prelude.{◌≡◌, true, length, replicate};
ghost use Rattle.granule_addr.specs.Page.{zero_page};
ghost use Rattle.rmi_monitor.specs.View.{IsTaken};

use crate::expected::holds_at;
use crate::names::granule;
use buddy::BuddyArena;
use granule_addr::{Gran, Order, Vmid};
use page_arena::{PageStore, PlainStore};
use rmi_monitor::Monitor;
use std::alloc::Global;
use std::process::Abort;

// A command that has to succeed, or the words that a page has to have. The realm is that of granule 0, and each IPA is
// 0.
enum Call {
    Fill(u16, u8),
    Delegate(u16),
    // The creation of a realm with the given starting table.
    Realm(u16),
    // The creation of a table, with its granule and its level.
    Table(u16, u8),
    // The creation of a page of the realm, with its granule and the granule whose bytes it gets.
    Data(u16, u16),
    DataDestroy,
    TableDestroy(u8),
    RealmDestroy,
    // A page, and the expected value of its word 0.
    Begins(u16, u64),
    // A page whose words all have to be 0.
    IsZero(u16),
}

// The commands that make tables and then remove them, with checks of the tables' words in between.
//
// Granule 0 becomes the RD of a realm with tables in granules 1 to 3, and granule 4 its page, with the bytes of
// granule 5.
const CALLS: &[Call] = &[
    Call::Fill(5, 7),
    Call::Delegate(0),
    Call::Delegate(1),
    Call::Delegate(2),
    Call::Delegate(3),
    Call::Delegate(4),
    Call::Realm(1),
    Call::Table(2, 2),
    Call::Table(3, 3),
    Call::Data(4, 5),
    Call::Begins(1, 8194),
    Call::Begins(2, 12_290),
    Call::Begins(3, 16_389),
    Call::DataDestroy,
    Call::Begins(3, 8),
    Call::TableDestroy(3),
    Call::IsZero(3),
    Call::Begins(2, 8),
    Call::TableDestroy(2),
    Call::IsZero(2),
    Call::Begins(1, 8),
    Call::RealmDestroy,
    Call::IsZero(1),
];

// The granule with that number, modulo 4096. The machine has it, and it is taken, since none is free.
#[tactic(auto, using(crate::proofs::Taken::none_is_free))]
fn taken<S: PageStore>(rt: &impl Abort, monitor: &Monitor<S>, number: u16) -> Gran
    ensures { IsTaken monitor.now result }
{
    let granule = granule(number);
    assert!(rt; granule.number() < monitor.pages());
    assert!(rt; monitor.free_count() == 0);
    granule
}

// Whether all words of a granule's page are 0.
fn is_zero<S: PageStore>(rt: &impl Abort, monitor: &Monitor<S>, number: u16) -> bool {
    let granule = taken(rt, monitor, number);
    for index in 0..512 {
        if monitor.store().word(granule, index) != 0 {
            return false;
        }
    }
    true
}

fn is_made<S: PageStore>(rt: &impl Abort, monitor: &mut Monitor<S>, call: &Call) -> bool {
    let rd = taken(rt, monitor, 0);
    match *call {
        Call::Realm(root) => {
            let root = taken(rt, monitor, root);
            let vmid = Vmid::new(1).unwrap();
            monitor.realm_create(rd, root, vmid, 39) == Ok(())
        }
        Call::Table(table, level) => {
            let table = taken(rt, monitor, table);
            monitor.rtt_create(rd, table, 0, level) == Ok(())
        }
        Call::Data(page, source) => {
            let (page, source) = (taken(rt, monitor, page), taken(rt, monitor, source));
            monitor.data_create(rd, page, 0, source) == Ok(())
        }
        Call::DataDestroy => monitor.data_destroy(rd, 0) == Ok(()),
        Call::TableDestroy(level) => monitor.rtt_destroy(rd, 0, level) == Ok(()),
        Call::RealmDestroy => monitor.realm_destroy(rd) == Ok(()),
        _ => false,
    }
}

fn is_answered<S: PageStore>(rt: &impl Abort, monitor: &mut Monitor<S>, call: &Call) -> bool {
    match *call {
        Call::Fill(number, value) => {
            let granule = taken(rt, monitor, number);
            monitor.host_fill(granule, value) == Ok(())
        }
        Call::Delegate(number) => {
            let granule = taken(rt, monitor, number);
            monitor.granule_delegate(granule) == Ok(())
        }
        Call::Begins(number, word) => {
            let granule = taken(rt, monitor, number);
            monitor.store().word(granule, 0) == word
        }
        Call::IsZero(number) => is_zero(rt, monitor, number),
        _ => is_made(rt, monitor, call),
    }
}

// Performs the calls over a store of eight pages.
fn over<S: PageStore + Drop>(rt: &impl Abort, alloc: Global, store: S)
    requires zero { S.page_bytes store ≡ replicate (length (S.page_bytes store)) zero_page }
    requires free { S.free_flags store ≡ replicate (length (S.page_bytes store)) true }
{
    let Ok(mut monitor) = Monitor::build(alloc, 8, 0, store) else {
        panic!(rt; "there is no memory for a monitor");
    };
    let first = monitor.take(Order::new(3).unwrap());
    holds_at(rt, "all pages", 0, first == Some(granule(0)));
    for place in 0..CALLS.len() {
        let is_so = is_answered(rt, &mut monitor, &CALLS[place]);
        holds_at(rt, "a call", place, is_so);
    }
}

#[test]
fn words_over_a_plain_store(rt: HostRuntime) {
    match PlainStore::build(rt.alloc(), 8) {
        Ok(store) => over(&rt, rt.alloc(), store),
        Err(_) => panic!(&rt; "there is no store"),
    }
}

#[test]
fn words_over_an_arena(rt: HostRuntime) {
    match BuddyArena::build(rt.alloc(), 8) {
        Ok(store) => over(&rt, rt.alloc(), store),
        Err(_) => panic!(&rt; "there is no arena"),
    }
}
