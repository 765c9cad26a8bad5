//! The application of recorded events to a host. Each is applied with the block, the VMID or the REC number that it
//! records.
ghost use Rattle.std.specs.Prelude.{◌≡◌, ◌↔◌, ◌<◌, Some, true, false};
ghost use Rattle.std.specs.Bool.{OnTrue, OnFalse};
ghost use Rattle.std.specs.List.{list_all};
ghost use Rattle.granule_addr.specs.Root.{starting_tables};
ghost use Rattle.realm_model.specs.declared.act.Act.TheVariants as acts;
ghost use Rattle.realm_model.specs.Act.{is_command, is_reverse, named};
ghost use Rattle.realm_model.specs.History.{IsLegal};
ghost use Rattle.realm_model.specs.Room.{room_taken};
ghost use Rattle.realm_model.specs.Outcome.{is_in_range, fits};
ghost use Rattle.realm_model.specs.Step.{named_cells};
ghost use Rattle.realm_model.specs.World.{is_leased_to, realm_of};
ghost use Rattle.host_ledger.specs.View.{world_of, with_event};
ghost use Rattle.realm_host.specs.Acting.{HasRoomFor, IsApplied, IsNoStep};
ghost use Rattle.realm_host.specs.Recorded.{CanApply};

use crate::Host;
use build_journal::takes_back;
use granule_addr::{BuildId, Gran, Order, Root};
use page_arena::PageStore;
use realm_model::{Act, Event, JOURNAL_ROOM};

// The number of entries that an operation takes up of its build's room in the history.
#[tactic(auto, unfolding(realm_model::specs::Room::room_taken, realm_model::specs::Act::reverse_of, realm_model::specs::Act::is_reverse))]
fn room_taken(act: &Act) -> u16
    ensures { result ≡ room_taken act.now }
{
    match act {
        Act::Enter { .. } => 2,
        Act::Exit { .. } => 0,
        _ if act.is_paired() => 2,
        _ if act.is_reverse() => 0,
        _ => 1,
    }
}

// Shows that those numbers of a command that the RMM does not check are in range. Reading a number shows the range of
// its type.
fn check_ranges(act: &Act)
    requires { is_command act.now ≡ true }
    ensures { is_in_range act.now ≡ true }
{
    match act {
        Act::Fill { value, .. } => {
            let _is_byte = *value;
        }
        Act::Peek { offset, .. } => {
            let _in_page = offset.number();
        }
        Act::Poke { offset, value, .. } => {
            let _in_page = offset.number();
            let _is_byte = *value;
        }
        _ => {}
    }
}

impl<S: PageStore> Host<S> {
    /// Applies a recorded event to the host, and appends it to the history. The block, the VMID or the REC number is
    /// the recorded one. Returns whether it was applied.
    ///
    /// Returns `false`, and changes nothing, if and only if one of three things holds. The history with the event would
    /// not be legal; its build has too little room left for it; or it has a reverse and its build has 512 operations
    /// open. Whether the build is in abort does not matter.
    pub fn apply_recorded(&mut self, event: &Event) -> bool
        ensures answer { (result ≡ true) ↔ CanApply self.old event.now }
        ensures applied { OnTrue result (self.new ≡ with_event self.old event.now.build event.now.act) }
        ensures unchanged { OnFalse result (self.new ≡ self.old) }
    {
        let build = event.build;
        let act = &event.act;
        if !self.ledger.has_build(build) {
            return false;
        }
        if !self.has_room_for(build, act) {
            return false;
        }
        match act {
            Act::Take { order, first } => self.apply_take(build, *order, *first),
            _ if act.is_reverse() => self.apply_reverse(build, act),
            _ => self.apply_forward(build, act),
        }
    }

    // Whether a build has the room that an operation takes, and can open one more operation if the operation has a
    // reverse.
    pub(crate) fn has_room_for(&self, build: BuildId, act: &Act) -> bool
        requires { build < self.now.limits.builds }
        ensures { (result ≡ true) ↔ HasRoomFor self.now build act.now }
    {
        let left = self.ledger.capacity() - self.ledger.used(build);
        room_taken(act) <= left
            && (!act.is_paired() || self.ledger.open_count(build) < JOURNAL_ROOM)
    }

    // Takes the block that an event records, if it is free.
    fn apply_take(&mut self, build: BuildId, order: Order, first: Gran) -> bool
        requires there { build < self.old.limits.builds }
        requires room { HasRoomFor self.old build (acts.Take order first) }
        ensures { IsApplied self.old build (acts.Take order first) result self.new }
    {
        prove!(order.number() <= 9);
        if !self.monitor.take_at(order, first) {
            return false;
        }
        self.ledger.record(build, Act::Take { order, first });
        true
    }

    // Reverses the newest operation that a build has open, if `act` is its reverse and the newest operation created no
    // REC that runs.
    fn apply_reverse(&mut self, build: BuildId, act: &Act) -> bool
        requires there { build < self.old.limits.builds }
        requires kind { is_reverse act.now ≡ true }
        ensures { IsApplied self.old build act.now result self.new }
    {
        let Some(newest) = self.ledger.newest(build) else {
            return false;
        };
        if !takes_back(act, newest) {
            return false;
        }
        if self.is_running(build, newest) {
            return false;
        }
        self.reverse(build, act.clone());
        true
    }

    // Performs a command, if the build leases the granules that the command names, and the recorded answers agree with
    // the machine.
    fn apply_forward(&mut self, build: BuildId, act: &Act) -> bool
        requires there { build < self.old.limits.builds }
        requires legal { IsLegal self.old.limits self.old.history }
        requires forward { is_reverse act.now ≡ false }
        requires command { is_command act.now ≡ true }
        requires room { HasRoomFor self.old build act.now }
        ensures { IsApplied self.old build act.now result self.new }
    {
        if !self.leases_named(build, act) {
            return false;
        }
        if !self.is_there(build, act) {
            return false;
        }
        check_ranges(act);
        self.act(build, act.clone()).is_ok()
    }

    // Whether a build leases all of the granules.
    fn leases_all(&self, build: BuildId, granules: &[Gran]) -> bool
        ensures { result ≡ list_all (is_leased_to (Some build) (world_of self.now).leases) granules.now }
    {
        for granule in granules {
            if !self.ledger.is_leased_by(*granule, build) {
                return false;
            }
        }
        true
    }

    // Whether granule `number` exists and the build leases it.
    fn leases_number(&self, build: BuildId, number: u16) -> bool
        ensures { result ≡ is_leased_to (Some build) (world_of self.now).leases number }
    {
        match Gran::new(number, self.monitor.pages()) {
            Some(granule) => self.ledger.is_leased_by(granule, build),
            None => false,
        }
    }

    // Whether a build leases all the starting tables of a realm.
    fn leases_tables(&self, build: BuildId, root: Root) -> bool
        ensures { result ≡ list_all (is_leased_to (Some build) (world_of self.now).leases) (starting_tables root) }
    {
        for number in 0..root.width.start_count() {
            if !self.leases_number(build, root.first.number() + number) {
                return false;
            }
        }
        true
    }

    // Whether a build leases the granules that a forward operation names.
    #[tactic(auto, unfolding(realm_model::specs::Act::named))]
    fn leases_named(&self, build: BuildId, act: &Act) -> bool
        requires forward { is_reverse act.now ≡ false }
        requires command { is_command act.now ≡ true }
        ensures { result ≡ list_all (is_leased_to (Some build) (world_of self.now).leases) (named act.now) }
    {
        match act {
            Act::Fill { granule, .. }
            | Act::Peek { granule, .. }
            | Act::Delegate { granule }
            | Act::Rtt { granule, .. }
            | Act::Unknown { granule, .. } => self.ledger.is_leased_by(*granule, build),
            Act::Data {
                granule,
                source,
                ..
            } => {
                self.ledger.is_leased_by(*granule, build)
                    && self.ledger.is_leased_by(*source, build)
            }
            Act::Realm { rd, root, .. } => {
                self.ledger.is_leased_by(*rd, build) && self.leases_tables(build, *root)
            }
            Act::Rec {
                granule,
                auxiliaries,
                ..
            } => {
                self.ledger.is_leased_by(*granule, build)
                    && self.leases_all(build, auxiliaries.as_slice())
            }
            _ => true,
        }
    }

    // Whether the realm, the next REC and the byte in a forward operation are those of the machine.
    #[tactic(auto, unfolding(realm_model::specs::Outcome::fits, realm_model::specs::Act::named))]
    fn is_there(&self, build: BuildId, act: &Act) -> bool
        requires there { build < self.now.limits.builds }
        requires forward { is_reverse act.now ≡ false }
        requires command { is_command act.now ≡ true }
        requires leased { list_all (is_leased_to (Some build) (world_of self.now).leases) (named act.now) ≡ true }
        ensures fits { OnTrue result (fits act.now (realm_of build (world_of self.now)) (named_cells (world_of self.now) act.now) ≡ true) }
        ensures no_step { OnFalse result (IsNoStep self.now build act.now) }
    {
        match act {
            Act::Peek {
                granule,
                offset,
                byte,
            } => match self.monitor.host_peek(*granule, *offset) {
                Ok(found) => found == *byte,
                Err(_) => false,
            },
            Act::Realm { .. } => self.ledger.realm(build).is_none(),
            Act::Rec { number, .. } => match self.realm(build) {
                Some(realm) => *number == realm.next_number(),
                None => false,
            },
            _ => true,
        }
    }
}
