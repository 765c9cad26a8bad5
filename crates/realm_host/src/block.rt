//! The leasing of blocks of granules to builds, and the return of leased blocks.
ghost use Rattle.std.specs.Prelude.{◌≡◌, ℕ, ◌<◌, ◌≤◌, Some, None};
ghost use Rattle.std.specs.List.{last_or};
ghost use Rattle.realm_model.specs.declared.act.Act.TheVariants as acts;
ghost use Rattle.host_ledger.specs.View.{open_of};
ghost use Rattle.realm_host.specs.Acting.{HasRoomFor, IsBlockTaken, IsRecorded};

use crate::Host;
use granule_addr::{BuildId, Gran, Order};
use page_arena::PageStore;
use realm_model::Act;

impl<S: PageStore> Host<S> {
    // Leases a free block of an order and returns its first granule, or None if no block of the order is free.
    pub(crate) fn take_block(&mut self, build: BuildId, order: Order) -> Option<Gran>
        requires there { build < self.old.limits.builds }
        requires low { order ≤ 9 }
        requires room { (first : ℕ) → HasRoomFor self.old build (acts.Take order first) }
        ensures { IsBlockTaken self.old build order result self.new }
    {
        match self.monitor.take(order) {
            Some(first) => {
                self.ledger.record(build, Act::Take { order, first });
                Some(first)
            }
            None => None,
        }
    }

    // Gives back a block whose take is the build's newest open operation.
    pub(crate) fn give_back(&mut self, build: BuildId, order: Order, first: Gran)
        requires there { build < self.old.limits.builds }
        requires newest { last_or None (open_of self.old build) ≡ Some (acts.Take order first) }
        ensures { IsRecorded self.old build (acts.UnTake order first) self.new }
    {
        self.monitor.give(first, order);
        self.ledger.record(build, Act::UnTake { order, first });
    }
}
