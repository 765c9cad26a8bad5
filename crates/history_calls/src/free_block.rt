//! Functions that find out whether a block is free, which means that no build leases a granule of it.
ghost use Rattle.std.specs.Prelude.{◌≡◌, ◌∷◌, [], ◌+◌, ◌<◌, ◌≤◌, None, length};
ghost use Rattle.std.specs.List.{list_all, list_any, range_with_len};
ghost use Rattle.realm_model.specs.World.{is_leased_to};
ghost use Rattle.host_commands.specs.declared.cmd.Cmd.TheVariants.{Take};
ghost use Rattle.host_commands.specs.Checks.{checks_of, first_that_holds};
ghost use Rattle.host_ledger.specs.Summary.{summary_of};
ghost use Rattle.host_ledger.specs.View.{world_of};
ghost use Rattle.realm_host.specs.Refusals.{is_free_block, no_block};

use granule_addr::{BuildId, Gran, Order};
use page_arena::PageStore;
use realm_host::{Host, Refusal};

// Whether the machine has granule `number`, and nobody leases it.
fn is_free<S: PageStore>(host: &Host<S>, number: u16) -> bool
    ensures { result ≡ is_leased_to None (world_of host.now).leases number }
{
    // (the contract of `history` says that the machine has at most 4,096 pages)
    let _history = host.history();
    match Gran::new(number, host.pages()) {
        Some(granule) => host.ledger().holder(granule).is_none(),
        None => false,
    }
}

// Whether each of the `count` granules from `first` on is free.
fn are_free<S: PageStore>(host: &Host<S>, first: u16, count: u16) -> bool
    requires { first + count ≤ 65536 }
    ensures { result ≡ list_all (is_leased_to None (world_of host.now).leases) (range_with_len first count) }
{
    for number in 0..count {
        if !is_free(host, first + number) {
            return false;
        }
    }
    true
}

// Whether a free block of an order begins at granule `first`.
fn is_free_at<S: PageStore>(host: &Host<S>, order: Order, first: u16) -> bool
    requires { first < 4096 }
    ensures { result ≡ is_free_block (world_of host.now) order first }
{
    let count = order.size();
    first % count == 0 && are_free(host, first, count)
}

// Whether an aligned block of an order is free.
fn has_block<S: PageStore>(host: &Host<S>, order: Order) -> bool
    ensures { result ≡ list_any (is_free_block (world_of host.now) order) (range_with_len 0 (length (world_of host.now).leases)) }
{
    let _history = host.history();
    for first in 0..host.pages() {
        if is_free_at(host, order, first) {
            return true;
        }
    }
    false
}

/// Returns the refusal `NoBlock` if no aligned block of the order is free, otherwise `None`. The refusal is that of a
/// Take that has passed the earlier checks.
pub(crate) fn block_refusal<S: PageStore>(
    host: &Host<S>,
    build: BuildId,
    order: u8,
) -> Option<Refusal>
    requires passed { first_that_holds (checks_of (summary_of host.now) build (Take order)) ≡ None }
    ensures { result ≡ first_that_holds (no_block host.now order ∷ []) }
{
    let order = Order::new(order).unwrap();
    if has_block(host, order) {
        None
    } else {
        Some(Refusal::NoBlock(order))
    }
}
