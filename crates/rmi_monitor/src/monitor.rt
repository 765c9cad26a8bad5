//! The simulated RMM, which also takes blocks of granules from its store and gives them back.
ghost use Rattle.std.specs.Prelude.{◌≡◌, ◌<◌, ◌≤◌, ◌↔◌, ℕ, Bool, true, List, length, filter, replicate, sum, Some, None, IsTrue, IfOk, IfErr, IfSome, IfNone};
ghost use Rattle.std.specs.Bool.{OnTrue, OnFalse};
ghost use Rattle.page_arena.specs.Page.{page_at};
ghost use Rattle.page_arena.specs.Block.{IsFreeBlock};
ghost use Rattle.granule_addr.specs.Page.{zero_page};
ghost use Rattle.rtt.specs.Granules.{undelegated};
ghost use Rattle.realm_model.specs.Machine.{RealmRow, cell_at};
ghost use Rattle.rtt.specs.RowWords.{AreWordsOf};
ghost use Rattle.rmi_monitor.specs.View.{IsGivable, IsPageOf, fresh, with_block, without_block};

use crate::{RealmDesc, Rec};
use granule_addr::{Gran, Order, VmidSet};
use page_arena::PageStore;
use realm_model::GranuleState;
use rtt::GranuleTable;
use std::alloc::{AllocError, Global};
use std::marker::Model;

/// A Realm Management Monitor over a store of pages. All its memory is allocated when it is built.
pub struct Monitor<S: PageStore> {
    pub(crate) store: S,
    pub(crate) granules: GranuleTable,
    // For each granule: the realm whose RD it is, if any, the number of that realm's RECs, and the REC in the granule,
    // if any.
    pub(crate) realms: Vec<Option<RealmDesc>>,
    pub(crate) rec_counts: Vec<u16>,
    pub(crate) recs: Vec<Option<Rec>>,
    // The VMIDs in use by realms, and the greatest VMID that a realm can have.
    pub(crate) used: VmidSet,
    pub(crate) vmids: u8,
    pub(crate) aux: u8,
}

impl<S: PageStore + Drop> Drop for Monitor<S> {
    fn drop(self) {
        let Monitor {
            store: _,
            granules: _,
            realms: _,
            rec_counts: _,
            recs: _,
            used: _,
            vmids: _,
            aux: _,
        } = self;
    }
}

impl<S: PageStore> Model for Monitor<S> {
    ghost use Rattle.rmi_monitor.specs.View.{MonitorView};
    ghost use Rattle.rmi_monitor.specs.Codes.{monitor_code};
    ghost use Rattle.rmi_monitor.specs.Inside.{fields_of, seen_as, IsWhole};

    ghost Value = { MonitorView };

    ghost coded = { monitor_code };

    ghost view = { λ m. seen_as (fields_of m.vmids m.aux m.used m.granules (S.page_bytes m.store) (S.free_flags m.store) m.realms.items m.rec_counts.items m.recs.items) };

    ghost invariant = { λ m. IsWhole (fields_of m.vmids m.aux m.used m.granules (S.page_bytes m.store) (S.free_flags m.store) m.realms.items m.rec_counts.items m.recs.items) };
}

impl<S: PageStore> Monitor<S> {
    /// Creates an RMM over a store of pages. The pages are all free and zero. The RMM has `vmids` VMIDs, 1 to 255, and
    /// `aux` auxiliary granules for each REC, 0 to 16. If there is no memory for it, returns the error and the store.
    pub fn build(alloc: Global, vmids: u8, aux: u8, store: S) -> Result<Monitor<S>, (AllocError, S)>
        requires some_vmid { 1 ≤ vmids }
        requires few_auxiliaries { aux ≤ 16 }
        requires zero { S.page_bytes store ≡ replicate (length (S.page_bytes store)) zero_page }
        requires free { S.free_flags store ≡ replicate (length (S.page_bytes store)) true }
        ensures ok { IfOk result (λ m. m ≡ fresh vmids aux (length (S.page_bytes store))) }
        ensures err { IfErr result (λ e. e.1 ≡ store) }
    {
        match empty_places(alloc, store.pages()) {
            Ok(
                Places {
                    granules,
                    realms,
                    rec_counts,
                    recs,
                },
            ) => Ok(Monitor {
                store,
                granules,
                realms,
                rec_counts,
                recs,
                used: VmidSet::new(),
                vmids,
                aux,
            }),
            Err(error) => Err((error, store)),
        }
    }

    /// Takes a free block of 2^order granules from the store. Returns its first granule, or `None` if there is no such
    /// block. The contract leaves open which block that is.
    pub fn take(&mut self, order: Order) -> Option<Gran>
        ensures block { IfSome result (IsFreeBlock self.old.free order) }
        ensures taken { IfSome result (λ first. self.new ≡ with_block self.old order first) }
        ensures none { IfNone result ((first : ℕ) → ¬ (IsFreeBlock self.old.free order first)) }
        ensures unchanged { IfNone result (self.new ≡ self.old) }
    {
        self.store.take(order)
    }

    /// Takes from the store the block of 2^order granules that begins at a given granule. Returns whether the block was
    /// taken. Returns `false`, and changes nothing, if and only if the block is not aligned, not inside the machine, or
    /// not free.
    pub fn take_at(&mut self, order: Order, first: Gran) -> bool
        ensures answer { IsTrue result ↔ IsFreeBlock self.old.free order first }
        ensures taken { OnTrue result (self.new ≡ with_block self.old order first) }
        ensures unchanged { OnFalse result (self.new ≡ self.old) }
    {
        self.store.take_at(order, first)
    }

    /// Gives a block of UNDELEGATED granules back to the store. The granules become zero and free.
    pub fn give(&mut self, first: Gran, order: Order)
        requires { IsGivable self.old order first }
        ensures { self.new ≡ without_block self.old order first }
    {
        self.store.give(first, order)
    }

    /// Returns the number of free granules.
    pub fn free_count(&self) -> u16
        ensures { result ≡ length (filter (λ flag. flag) self.now.free) }
    {
        self.store.free_count()
    }

    /// Returns the number of granules, 1 to 4,096.
    pub fn pages(&self) -> u16
        ensures value { result ≡ length self.now.machine }
        ensures some { 1 ≤ result }
        ensures few { result ≤ 4096 }
    {
        self.store.pages()
    }

    /// Returns the state of a granule.
    pub fn state(&self, granule: Gran) -> GranuleState
        requires { granule < length self.now.machine }
        ensures { result ≡ (cell_at self.now.machine granule).state }
    {
        self.granules.state(granule)
    }

    /// Returns the 4,096 bytes of a granule that is not a table. The contract says nothing of a table's bytes: its
    /// contents are rows.
    pub fn bytes(&self, granule: Gran) -> &[u8]
        requires { granule < length self.now.machine }
        ensures count { length result.now ≡ 4096 }
        ensures value { IsPageOf (cell_at self.now.machine granule) result.now }
    {
        self.store.bytes(granule)
    }

    /// Returns a shared reference to the store of pages. The page of a table has the words of its realm's rows.
    pub fn store(&self) -> &S
        ensures size { length (S.page_bytes result.now) ≡ length self.now.machine }
        ensures free { S.free_flags result.now ≡ self.now.free }
        ensures pages { (granule : ℕ) → granule < length self.now.machine
            → IsPageOf (cell_at self.now.machine granule) (page_at (S.page_bytes result.now) granule) }
        ensures words { (rd : ℕ) (realm : RealmRow) → rd < length self.now.machine
            → (cell_at self.now.machine rd).descriptor ≡ Some realm → AreWordsOf (S.page_bytes result.now) realm.rows realm.root }
    {
        &self.store
    }

    /// Returns the sum of a granule's bytes, or 0 for a table.
    pub fn byte_sum(&self, granule: Gran) -> u32
        requires { granule < length self.now.machine }
        ensures { result ≡ sum (cell_at self.now.machine granule).bytes }
    {
        match self.granules.state(granule) {
            GranuleState::Rtt => 0,
            _ => sum_of(self.store.bytes(granule)),
        }
    }
}

// Returns a list of `count` options, all of them `None`.
fn nothing<T: Drop>(alloc: Global, count: u16) -> Result<Vec<Option<T>>, AllocError>
    ensures { IfOk result (λ places. places.items ≡ replicate count None) }
{
    let mut places = Vec::with_capacity(alloc, count as usize)?;
    for _i in 0..count {
        places.push(None)?;
    }
    Ok(places)
}

// Arrays with an entry for each granule of a machine: granule states, realms, REC counts, and RECs.
struct Places {
    granules: GranuleTable,
    realms: Vec<Option<RealmDesc>>,
    rec_counts: Vec<u16>,
    recs: Vec<Option<Rec>>,
}

// Returns the granules of a machine of `pages` pages, with no realm and no REC.
fn empty_places(alloc: Global, pages: u16) -> Result<Places, AllocError>
    requires some { 1 ≤ pages }
    requires few { pages ≤ 4096 }
    ensures granules { IfOk result (λ places. places.granules ≡ replicate pages undelegated) }
    ensures realms { IfOk result (λ places. places.realms.items ≡ replicate pages None) }
    ensures rec_counts { IfOk result (λ places. places.rec_counts.items ≡ replicate pages 0) }
    ensures recs { IfOk result (λ places. places.recs.items ≡ replicate pages None) }
{
    let granules = GranuleTable::build(alloc, pages)?;
    let realms = nothing(alloc, pages)?;
    let rec_counts = vec![in alloc; 0_u16; pages as usize]?;
    let recs = nothing(alloc, pages)?;
    Ok(Places {
        granules,
        realms,
        rec_counts,
        recs,
    })
}

// A number of bytes whose sum always fits in 16 bits.
const SHORT: usize = 256;

// The sum of at most `SHORT` bytes. Lanes of 16 bits add twice as many at once as lanes of 32.
fn short_sum(bytes: &[u8]) -> u16
    requires { length bytes.now ≤ 256 }
    ensures { result ≡ sum bytes.now }
{
    bytes.iter().map(|byte| u16::from(*byte)).sum()
}

// The sum of the bytes of a page.
fn sum_of(page: &[u8]) -> u32
    requires { length page.now ≤ 4096 }
    ensures { result ≡ sum page.now }
{
    let mut total = 0;
    let mut rest = page;
    while rest.len() > SHORT {
        let (first, more) = rest.split_at(SHORT);
        total += u32::from(short_sum(first));
        rest = more;
    }
    total + u32::from(short_sum(rest))
}
