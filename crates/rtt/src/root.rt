//! Functions that create and clear the starting tables of a realm.
ghost use Rattle.std.specs.Prelude.{◌≡◌, ◌≢◌, ◌↔◌, ℕ, ◌+◌, ◌<◌, ◌≤◌, not, false, length, IsTrue, Some, None};
ghost use Rattle.std.specs.Bool.{OnTrue, OnFalse};
ghost use Rattle.std.specs.List.{All};
ghost use Rattle.granule_addr.specs.Page.{zero_page};
ghost use Rattle.granule_addr.specs.Root.{start_count, starting_tables};
ghost use Rattle.rtt.specs.Granules.{granule_at, IsIn};
ghost use Rattle.realm_model.specs.Rows as rows_of;
ghost use Rattle.realm_model.specs.StepLaw.{set_each};
ghost use Rattle.rtt.specs.Tables.{entries_of, rows};
ghost use Rattle.rtt.specs.Realm.{IsBacked, HasTables};
ghost use Rattle.rtt.specs.Calls.{with_states, Keeps, KeepsRest};

use crate::pages::leads_to_no_table;
use crate::{Granule, GranuleTable, Tables};
use granule_addr::{Gran, MOST_PAGES, Root};
use page_arena::PageStore;
use realm_model::GranuleState;

impl Tables {
    /// Turns DELEGATED granules into the starting tables of a new realm. All entries are UNASSIGNED and EMPTY.
    ///
    /// RMM 1.0, RMI_REALM_CREATE.
    pub fn open_root<S: PageStore>(&self, store: &mut S, granules: &mut GranuleTable)
        requires backed { IsBacked (S.page_bytes store.old) (S.free_flags store.old) granules.old }
        requires delegated { All (λ table. IsIn granules.old table GranuleState.Delegated None) (starting_tables self.now.root) }
        ensures rows { rows (S.page_bytes store.new) self.now.root ≡ rows_of.root_rows self.now.root.width }
        ensures cleared { S.page_bytes store.new
            ≡ set_each zero_page (starting_tables self.now.root) (S.page_bytes store.old) }
        ensures moved { granules.new
            ≡ with_states granules.old (starting_tables self.now.root) GranuleState.Rtt (Some self.now.rd) }
        ensures keeps { Keeps self.now.rd self.now.root
            (S.page_bytes store.old) (S.free_flags store.old) granules.old
            (S.page_bytes store.new) (S.free_flags store.new) granules.new }
    {
        let table = Granule {
            state: GranuleState::Rtt,
            realm: Some(self.rd),
        };
        self.clear_starting_tables(store, granules, GranuleState::Delegated, &table);
    }

    /// Clears the starting tables of a realm that is being destroyed. Makes them DELEGATED, and returns `true`. Returns
    /// `false`, and changes nothing, if and only if an entry of a starting table is TABLE.
    ///
    /// RMM 1.0, RMI_REALM_DESTROY, whose error is RMI_ERROR_REALM if this returns `false`.
    pub fn close_root<S: PageStore>(&self, store: &mut S, granules: &mut GranuleTable) -> bool
        requires backed { IsBacked (S.page_bytes store.old) (S.free_flags store.old) granules.old }
        requires tables { HasTables (S.page_bytes store.old) granules.old self.now.rd self.now.root }
        ensures answer { result ≡ not (rows_of.has_root_table self.now.root.width (rows (S.page_bytes store.old) self.now.root)) }
        ensures cleared { OnTrue result (S.page_bytes store.new
            ≡ set_each zero_page (starting_tables self.now.root) (S.page_bytes store.old)) }
        ensures moved { OnTrue result (granules.new
            ≡ with_states granules.old (starting_tables self.now.root) GranuleState.Delegated None) }
        ensures unchanged { OnFalse result
            ((S.page_bytes store.new ≡ S.page_bytes store.old) × (granules.new ≡ granules.old)) }
        ensures keeps { KeepsRest self.now.rd
            (S.page_bytes store.old) (S.free_flags store.old) granules.old
            (S.page_bytes store.new) (S.free_flags store.new) granules.new }
    {
        if !self.has_no_table_below(store) {
            return false;
        }
        let delegated = Granule {
            state: GranuleState::Delegated,
            realm: None,
        };
        self.clear_starting_tables(store, granules, GranuleState::Rtt, &delegated);
        true
    }

    // Whether no entry of a starting table leads to a table.
    fn has_no_table_below<S: PageStore>(&self, store: &S) -> bool
        requires { self.now.root.first + start_count self.now.root.width ≤ length (S.page_bytes store.now) }
        ensures { IsTrue result ↔ ((number index : ℕ) → number < start_count self.now.root.width → index < 512
            → rows_of.is_table (entries_of (S.page_bytes store.now) (self.now.root.first + number) index) ≡ false) }
    {
        for number in 0..self.root.width.start_count() {
            if !leads_to_no_table(store, starting_table(self.root, number)) {
                return false;
            }
        }
        true
    }

    // Clears each starting table, and moves it from the state `from` to the state and the realm of `to`.
    fn clear_starting_tables<S: PageStore>(
        &self,
        store: &mut S,
        granules: &mut GranuleTable,
        from: GranuleState,
        to: &Granule,
    )
        requires backed { IsBacked (S.page_bytes store.old) (S.free_flags store.old) granules.old }
        requires inside { self.now.root.first + start_count self.now.root.width ≤ length granules.old }
        requires used { from ≢ GranuleState.Undelegated }
        requires state { (number : ℕ) → number < start_count self.now.root.width
            → (granule_at granules.old (self.now.root.first + number)).state ≡ from }
        ensures cleared { S.page_bytes store.new ≡ set_each zero_page (starting_tables self.now.root) (S.page_bytes store.old) }
        ensures moved { granules.new ≡ set_each to.now (starting_tables self.now.root) granules.old }
        ensures flags { S.free_flags store.new ≡ S.free_flags store.old }
    {
        let count = self.root.width.start_count();
        for number in 0..count {
            let table = starting_table(self.root, number);
            store.fill(table, 0);
            granules.shift(table, from, to.state, to.realm);
        }
    }
}

// The granule of the starting table with the index `number`.
pub(crate) fn starting_table(root: Root, number: u16) -> Gran
    requires { root.first + number < MOST_PAGES }
    ensures { result ≡ root.first + number }
{
    Gran::from_number(root.first.number() + number)
}
