//! A function that takes every free page of a page store, so that none is free afterwards.
ghost use Rattle.std.specs.Prelude.{◌≡◌, ℕ, ◌<◌, false, length};
ghost use Rattle.page_arena.specs.Page.{is_free};

use granule_addr::{Gran, Order};
use page_arena::PageStore;

// Takes every free page of a store.
pub(crate) fn take_all<S: PageStore>(store: &mut S)
    ensures taken { (page : ℕ) → page < length (S.page_bytes store.new) → is_free (S.free_flags store.new) page ≡ false }
    ensures bytes { S.page_bytes store.new ≡ S.page_bytes store.old }
{
    let order = Order::new(0).unwrap();
    for page in 0..store.pages() {
        let first = Gran::from_number(page);
        store.take_at(order, first);
    }
}
