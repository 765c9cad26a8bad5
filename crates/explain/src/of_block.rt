//! The check that an aligned block is free; a failure gives refusal 11 (`NoBlock`).
ghost use Rattle.std.specs.Prelude.{◌≡◌, ◌+◌, ◌<◌, ◌≤◌};
ghost use Rattle.explain.specs.OfBlock.{is_unleased, are_unleased, is_free_at, has_block, block_check};

use crate::check::{Check, Fact};
use crate::host_facts::RoomFact;
use granule_addr::{Gran, Order};
use page_arena::PageStore;
use realm_host::{Host, Refusal};

// Whether the machine has granule `number`, and no build leases it.
fn is_unleased<S: PageStore>(host: &Host<S>, number: u16) -> bool
    ensures { result ≡ is_unleased host.now number }
{
    // (called only for its contract, which says that the machine has at most 4,096 pages)
    let _history = host.history();
    match Gran::new(number, host.pages()) {
        Some(granule) => host.ledger().holder(granule).is_none(),
        None => false,
    }
}

// Whether the machine has the `count` granules from `first` on, and no build leases any of them.
fn are_unleased<S: PageStore>(host: &Host<S>, first: u16, count: u16) -> bool
    requires { first + count ≤ 65536 }
    ensures { result ≡ are_unleased host.now first count }
{
    for number in 0..count {
        if !is_unleased(host, first + number) {
            return false;
        }
    }
    true
}

// Whether the block of the order at granule `first` is aligned and free.
fn is_free_at<S: PageStore>(host: &Host<S>, order: Order, first: u16) -> bool
    requires { first < 4096 }
    ensures { result ≡ is_free_at host.now order first }
{
    let count = order.size();
    first % count == 0 && are_unleased(host, first, count)
}

/// Returns whether an aligned block of the given order is free.
pub(crate) fn has_block<S: PageStore>(host: &Host<S>, order: Order) -> bool
    ensures { result ≡ has_block host.now order }
{
    // (called only for its contract, as above)
    let _history = host.history();
    for first in 0..host.pages() {
        if is_free_at(host, order, first) {
            return true;
        }
    }
    false
}

/// Creates the check that an aligned block of the given order is free. A failure gives refusal 11 (`NoBlock`).
pub(crate) fn block_check<S: PageStore>(host: &Host<S>, order: Order) -> Check
    ensures { result ≡ block_check host.now order }
{
    let free = host.free_count();
    Check {
        fact: Fact::Room(RoomFact::Block {
            order: order.number(),
            free,
        }),
        fails: !has_block(host, order),
        refusal: Refusal::NoBlock(order),
    }
}
