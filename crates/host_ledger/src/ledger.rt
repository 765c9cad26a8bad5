//! The ledger of a host, which has the history and records derived from the history.
ghost use Rattle.std.specs.Prelude.{◌≡◌, ℕ, ◌<◌, ◌≤◌, [], length, drop, replicate, true, false, nat_lt, Some, None, IfOk, IfSome, option_map, slice_index_or};
ghost use Rattle.std.specs.Bool.{OnFalse};
ghost use Rattle.std.specs.List.{last_or};
ghost use Rattle.realm_model.specs.History.{acts_of, IsLegal, Noninterference};
ghost use Rattle.realm_model.specs.Act.{is_paired};
ghost use Rattle.realm_model.specs.StepLaw.{leases_after};
ghost use Rattle.realm_model.specs.World.{realm_of, is_leased_to};
ghost use Rattle.realm_model.specs.Running.{running_count};
ghost use Rattle.realm_model.specs.Places.{rd_of, rec_granule, IsPlaceOf};
ghost use Rattle.build_journal.specs.Stacks.{stack_of, with_stack};
ghost use Rattle.host_ledger.specs.Marks.{mark_while};
ghost use Rattle.host_ledger.specs.View.{world_of, open_of, used, pages_of_build, granule_of_page, is_aborting, mark_of, mark_now, with_mark, begun, with_event};
ghost use Rattle.host_ledger.specs.Kept.{new_build, pages_after, CanFollowPages, CanFollowHolders, CanRecord, HasRoom, IsMarkOf, AreOfEach, PointsHold};
ghost use Rattle.host_ledger.specs.Vmids.{lowest_vmid, CanFollowVmids, IsVmidsAfter};
ghost use Rattle.host_ledger.specs.Booted.{booted};

use crate::build::Build;
use crate::mark::Mark;
use build_journal::{Holders, Leases, VmidPool, append_event};
use granule_addr::{BuildId, Gran, RecNo, Vmid};
use realm_model::{Act, Event, RealmAndRec};
use std::alloc::{AllocError, Global};
use std::marker::Model;

/// The ledger in which a host keeps its history and a record of each build. The history has the events of the builds in
/// sequence.
pub struct HostLedger {
    history: Vec<Event>,
    pub(crate) builds: Vec<Build>,
    pub(crate) leases: Leases,
    holders: Holders,
    vmids: VmidPool,
    aux: u8,
    capacity: u16,
}

impl Drop for HostLedger {
    fn drop(self) {
        let HostLedger {
            history: _,
            builds: _,
            leases: _,
            holders: _,
            vmids: _,
            aux: _,
            capacity: _,
        } = self;
    }
}

impl Model for HostLedger {
    ghost use Rattle.host_ledger.specs.View.{HostView};
    ghost use Rattle.host_ledger.specs.Codes.{host_code};
    ghost use Rattle.host_ledger.specs.Kept.{ledger_of, IsKept};

    ghost Value = { HostView };

    ghost coded = { host_code };

    ghost view = { λ b. ledger_of b.builds.items b.leases b.vmids b.aux b.capacity b.history.items };

    ghost invariant = { λ b. IsKept (ledger_of b.builds.items b.leases b.vmids b.aux b.capacity b.history.items) b.builds.items b.leases b.holders b.vmids b.history };
}

// Returns the records of `count` builds that have no events.
fn new_builds(alloc: Global, count: u8) -> Result<Vec<Build>, AllocError>
    ensures { IfOk result (λ builds. builds.items ≡ replicate count new_build) }
{
    let mut builds = Vec::with_capacity(alloc, count as usize)?;
    for _i in 0..count {
        builds.push(Build::build(alloc)?)?;
    }
    Ok(builds)
}

// Updates the list of a build's pages after an operation. The pages of a taken block follow the build's other pages,
// and the pages of a block that is given back are removed.
fn follow_pages(leases: &mut Leases, build: BuildId, act: &Act)
    requires there { build < length leases.old.stacks }
    requires can_follow { CanFollowPages leases.old build act.now }
    ensures { leases.new ≡ with_stack leases.old build (pages_after (stack_of leases.old build) act.now) }
{
    match act {
        Act::Take { order, first } => leases.push_block(build, *first, *order),
        Act::UnTake { order, .. } => leases.pop_block(build, *order),
        _ => {}
    }
}

// Updates the holders of the granules after an operation. A build leases the granules of a block that it takes, and
// nobody leases those of a block that it gives back.
fn follow_holders(holders: &mut Holders, build: BuildId, act: &Act)
    requires { CanFollowHolders holders.old act.now }
    ensures { holders.new ≡ leases_after build act.now holders.old }
{
    match act {
        Act::Take { order, first } => holders.lease(build, *first, *order),
        Act::UnTake { order, first } => holders.give_back(*first, *order),
        _ => {}
    }
}

// Updates the VMIDs in use after an operation. The VMID of a created realm comes into use, and the VMID of a destroyed
// realm becomes free.
fn follow_vmids(vmids: &mut VmidPool, act: &Act)
    requires { CanFollowVmids vmids.old act.now }
    ensures { IsVmidsAfter act.now vmids.old vmids.new }
{
    match act {
        Act::Realm { vmid, .. } => {
            vmids.claim(*vmid);
        }
        Act::UnRealm { vmid, .. } => vmids.give_back(*vmid),
        _ => {}
    }
}

impl HostLedger {
    /// Creates an empty ledger for `builds` builds. Each build has a room of `capacity` entries in the history. The
    /// machine has `pages` pages and `vmids` VMIDs, and each REC has `aux` auxiliary granules.
    pub fn build(
        alloc: Global,
        pages: u16,
        vmids: u8,
        aux: u8,
        builds: u8,
        capacity: u16,
    ) -> Result<HostLedger, AllocError>
        requires few_builds { builds ≤ 8 }
        requires few_pages { pages ≤ 4096 }
        requires few_events { capacity ≤ 16384 }
        ensures { IfOk result (λ ledger. ledger ≡ booted pages vmids aux builds capacity) }
    {
        let leases = Leases::build(alloc, builds, pages)?;
        let holders = Holders::build(alloc, pages)?;
        let kept = new_builds(alloc, builds)?;
        let history = Vec::with_capacity(alloc, builds as usize * capacity as usize)?;
        Ok(HostLedger {
            history,
            builds: kept,
            leases,
            holders,
            vmids: VmidPool::new(vmids),
            aux,
            capacity,
        })
    }

    /// Returns the events recorded so far, which form a legal history. No build has used more than its room in it, or
    /// had more than 512 operations open at any time. A build in abort has something open, and each mark is one that
    /// its build can go back to. Without a build's events, the history is legal too, and leads to the world without
    /// that build.
    pub fn history(&self) -> &[Event]
        ensures events { result.now ≡ self.now.history }
        ensures legal { IsLegal self.now.limits self.now.history }
        ensures room { (build : ℕ) → HasRoom self.now build }
        ensures each { AreOfEach self.now }
        ensures points { (build : ℕ) → PointsHold self.now build }
        ensures no_trace { (build : ℕ) → Noninterference self.now.limits self.now.history build }
    {
        self.history.as_slice()
    }

    /// Returns the number of history entries reserved for each build.
    pub fn capacity(&self) -> u16
        ensures value { result ≡ self.now.capacity }
        ensures few { result ≤ 16384 }
    {
        self.capacity
    }

    /// Returns the number of builds.
    pub fn build_count(&self) -> u8
        ensures value { result ≡ self.now.limits.builds }
        ensures few { result ≤ 8 }
    {
        self.builds.len() as u8
    }

    /// Returns whether the host has the build.
    pub fn has_build(&self, build: BuildId) -> bool
        ensures there { result ≡ nat_lt build self.now.limits.builds }
        ensures none { OnFalse result (acts_of build self.now.history ≡ []) }
        ensures no_realm { OnFalse result (realm_of build (world_of self.now) ≡ None) }
        ensures no_abort { OnFalse result (is_aborting self.now build ≡ false) }
        ensures no_mark { OnFalse result (mark_of self.now build ≡ None) }
    {
        (build.number() as usize) < self.builds.len()
    }

    /// Returns the room that a build has used, in entries of the history. It is one entry for each of the build's
    /// events, one for each of its open operations, and one for each of its running RECs.
    pub fn used(&self, build: BuildId) -> u16
        requires { build < self.now.limits.builds }
        ensures value { result ≡ used self.now build }
        ensures fits { result ≤ self.now.capacity }
    {
        let kept = &self.builds[build.number() as usize];
        kept.events + kept.journal.len() + kept.running
    }

    /// Returns the number of operations that a build can still undo. A build with a mark has at least as many of these
    /// open operations as at the mark, and a build with no open operation is not in abort.
    pub fn open_count(&self, build: BuildId) -> u16
        requires { build < self.now.limits.builds }
        ensures value { result ≡ length (open_of self.now build) }
        ensures fits { result ≤ 512 }
        ensures idle { result ≡ 0 → is_aborting self.now build ≡ false }
        ensures low { mark_while result (mark_of self.now build) ≡ mark_of self.now build }
    {
        self.builds[build.number() as usize].journal.len()
    }

    /// Returns the newest operation that a build can still undo, if there is one.
    pub fn newest(&self, build: BuildId) -> Option<&Act>
        requires { build < self.now.limits.builds }
        ensures value { option_map (λ act. act.now) result ≡ last_or None (open_of self.now build) }
        ensures paired { IfSome result (λ act. is_paired act.now ≡ true) }
    {
        let kept = &self.builds[build.number() as usize];
        kept.journal.newest()
    }

    /// Returns the operations that a build can still undo, except the oldest `count`. The newest is last.
    pub fn open_above(&self, build: BuildId, count: u16) -> &[Act]
        requires there { build < self.now.limits.builds }
        requires enough { count ≤ length (open_of self.now build) }
        ensures { result.now ≡ drop count (open_of self.now build) }
    {
        self.builds[build.number() as usize].journal.above(count)
    }

    /// Returns the mark to which a build can be rolled back, if it has one.
    pub fn mark(&self, build: BuildId) -> Option<Mark>
        requires { build < self.now.limits.builds }
        ensures value { result ≡ mark_of self.now build }
        ensures stands { IfSome result (IsMarkOf self.now build) }
    {
        self.builds[build.number() as usize].mark
    }

    /// Returns the RD of a build's realm, if the build has a realm.
    pub fn realm(&self, build: BuildId) -> Option<Gran>
        requires { build < self.now.limits.builds }
        ensures value { result ≡ rd_of build (world_of self.now) }
        ensures inside { IfSome result (λ rd. rd < self.now.limits.pages) }
    {
        self.builds[build.number() as usize].realm
    }

    /// Returns the granule of REC `number` in a build's realm, or `None` if there is no such REC.
    pub fn rec(&self, build: BuildId, number: RecNo) -> Option<Gran>
        requires { build < self.now.limits.builds }
        ensures { result ≡ rec_granule (realm_of build (world_of self.now)) number }
    {
        let kept = &self.builds[build.number() as usize];
        kept.recs.granule(number)
    }

    /// Returns the RD of the build's realm, and the granule of the REC that `act` uses or destroys. Either is `None` if
    /// there is no such realm or REC.
    pub fn place(&self, build: BuildId, act: &Act) -> RealmAndRec
        requires { build < self.now.limits.builds }
        ensures { IsPlaceOf (world_of self.now) build act.now result }
    {
        let rec = match act {
            Act::UnRec { number, .. }
            | Act::Enter { number }
            | Act::Exit { number }
            | Act::Poke { number, .. } => self.rec(build, *number),
            _ => None,
        };
        RealmAndRec {
            realm: self.realm(build),
            rec,
        }
    }

    /// Returns the number of running RECs in a build's realm.
    pub fn running(&self, build: BuildId) -> u16
        requires { build < self.now.limits.builds }
        ensures { result ≡ running_count (realm_of build (world_of self.now)) }
    {
        self.builds[build.number() as usize].running
    }

    /// Returns the lowest free VMID, or `None` if all VMIDs are in use.
    pub fn lowest_vmid(&self) -> Option<Vmid>
        ensures { result ≡ lowest_vmid self.now }
    {
        self.vmids.lowest_free()
    }

    /// Returns the granule that is page number `page` of a build, if the build has that page.
    pub fn page(&self, build: BuildId, page: u16) -> Option<Gran>
        requires { build < self.now.limits.builds }
        ensures value { result ≡ granule_of_page self.now build page }
        ensures inside { IfSome result (λ granule. granule < self.now.limits.pages) }
    {
        self.leases.page(build, page)
    }

    /// Returns the number of pages of a build.
    pub fn page_count(&self, build: BuildId) -> u16
        requires { build < self.now.limits.builds }
        ensures { result ≡ length (pages_of_build self.now build) }
    {
        self.leases.count(build)
    }

    /// Returns whether the machine has the granule and the build leases it.
    pub fn is_leased_by(&self, granule: Gran, build: BuildId) -> bool
        ensures { result ≡ is_leased_to (Some build) (world_of self.now).leases granule }
    {
        self.holders.is_held_by(granule, build)
    }

    /// Returns the build that leases the granule, if there is one. The result is `None` also if the machine does not
    /// have the granule.
    pub fn holder(&self, granule: Gran) -> Option<BuildId>
        ensures { result ≡ slice_index_or (world_of self.now).leases granule None }
    {
        self.holders.holder(granule)
    }

    /// Begins the abort of a build, if any of its operations can still be undone.
    pub fn begin_abort(&mut self, build: BuildId)
        requires { build < self.old.limits.builds }
        ensures begun { self.new ≡ begun self.old build }
        ensures flag { is_aborting self.new build ≡ nat_lt 0 (length (open_of self.old build)) }
    {
        self.builds[build.number() as usize].begin_abort();
    }

    /// Returns a mark of the build at the current end of the history. The build can be rolled back to the mark if it is
    /// kept, and as long as no fewer operations are open than at the mark.
    pub fn mark_now(&self, build: BuildId) -> Mark
        requires { build < self.now.limits.builds }
        ensures { result ≡ mark_now self.now build }
    {
        Mark {
            build,
            length: self.open_count(build),
            place: self.history.len() as u32,
        }
    }

    /// Stores the mark to which a build can be rolled back. `mark` is at the current end of the history. Any older mark
    /// of the build is dropped.
    pub fn keep_mark(&mut self, build: BuildId, mark: &Mark)
        requires there { build < self.old.limits.builds }
        requires now { mark.now ≡ mark_now self.old build }
        ensures kept { self.new ≡ with_mark self.old build mark.now }
        ensures told { mark_of self.new build ≡ Some mark.now }
    {
        self.builds[build.number() as usize].mark = Some(*mark);
    }

    /// Appends an operation of a build to the history, and updates the ledger's records. No memory is taken.
    pub fn record(&mut self, build: BuildId, act: Act)
        requires there { build < self.old.limits.builds }
        requires can { CanRecord self.old build act }
        ensures { self.new ≡ with_event self.old build act }
    {
        follow_pages(&mut self.leases, build, &act);
        follow_holders(&mut self.holders, build, &act);
        follow_vmids(&mut self.vmids, &act);
        self.builds[build.number() as usize].follow(&act);
        append_event(&mut self.history, Event { build, act });
    }
}
