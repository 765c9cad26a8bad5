//! The translation tables of a realm, and walks in them.
ghost use Rattle.std.specs.Prelude.{◌≡◌, ℕ, ◌<◌, ◌≤◌, length, Some};
ghost use Rattle.granule_addr.specs.Ipa.{entry_index};
ghost use Rattle.granule_addr.specs.Root.{served_space};
ghost use Rattle.rtt.specs.Granules.{IsIn};
ghost use Rattle.realm_model.specs.declared.states.GranuleState.{GranuleState};
ghost use Rattle.realm_model.specs.Rows.{walk, table_of, data_of};
ghost use Rattle.rtt.specs.Tables.{entries_of, table_at, rows};
ghost use Rattle.rtt.specs.Realm.{IsInside, HasTables};

use crate::pages::read;
use crate::root::starting_table;
use crate::{Entry, GranuleTable};
use granule_addr::{Gran, IpaGran, Level, Root, index_at, start_table};
use page_arena::PageStore;
use std::marker::Model;

/// The translation tables of a realm, given by its RD and its starting tables. Nothing is kept in addition to the
/// tables' pages.
#[derive(Clone, Copy)]
pub struct Tables {
    /// The granule of the realm's RD.
    pub rd: Gran,
    /// The realm's starting tables, whose RTT level is 1.
    pub root: Root,
}

// The end of a walk: an entry, with its table and the table's level.
#[derive(Clone, Copy)]
pub struct EntryAddress {
    pub table: Gran,
    pub level: Level,
    pub entry: Entry,
}

impl Tables {
    /// Performs an RTT walk for an IPA granule, at most down to level `to`. Returns the first entry on the way that is
    /// not TABLE, or the one at that level.
    pub fn walk<S: PageStore>(
        &self,
        store: &S,
        granules: &GranuleTable,
        ipa: IpaGran,
        to: Level,
    ) -> Walk
        requires as_many { length granules.now ≡ length (S.page_bytes store.now) }
        requires tables { HasTables (S.page_bytes store.now) granules.now self.now.rd self.now.root }
        requires inside { ipa < served_space self.now.root.width }
        ensures walk { walk (rows (S.page_bytes store.now) self.now.root) ipa to ≡ Some result }
        ensures page { (page : ℕ) → data_of result.row ≡ Some page
            → IsIn granules.now page GranuleState.Data (Some self.now.rd) }
    {
        let place = find(*self, store, granules, ipa, to);
        Walk {
            level: place.level,
            entry: place.entry,
        }
    }
}

// The address of the entry at which the RTT walk for an IPA granule towards a level ends.
pub fn find<S: PageStore>(
    tables: Tables,
    store: &S,
    granules: &GranuleTable,
    ipa: IpaGran,
    to: Level,
) -> EntryAddress
    requires as_many { length granules.now ≡ length (S.page_bytes store.now) }
    requires tables { HasTables (S.page_bytes store.now) granules.now tables.rd tables.root }
    requires inside { ipa < served_space tables.root.width }
    ensures walk { walk (rows (S.page_bytes store.now) tables.root) ipa to
        ≡ Some (record { level = result.level; row = result.entry }) }
    ensures table { table_at (entries_of (S.page_bytes store.now)) tables.root result.level ipa
        ≡ Some result.table }
    ensures entry { result.entry
        ≡ entries_of (S.page_bytes store.now) result.table (entry_index result.level ipa) }
    ensures within { result.table < length (S.page_bytes store.now) }
    ensures child { (child : ℕ) → result.level < 3 → table_of result.entry ≡ Some child
        → IsIn granules.now child GranuleState.Rtt (Some tables.rd) }
    ensures page { (page : ℕ) → data_of result.entry ≡ Some page
        → IsIn granules.now page GranuleState.Data (Some tables.rd) }
    ensures inside { IsInside tables.root.width result.level ipa }
    ensures level { result.level ≤ to }
    ensures to { to ≤ 3 }
{
    let last = to.number();
    let mut table = starting_table(tables.root, start_table(ipa));
    let mut level = Level::start();
    let mut entry = read(store, table, index_at(ipa, level));
    'levels: while level.number() < last {
        match entry.child() {
            Some(child) => {
                table = child;
                level = level.below();
                entry = read(store, table, index_at(ipa, level));
            },
            None => break,
        }
    }
    EntryAddress {
        table,
        level,
        entry,
    }
}

/// The result of an RTT walk: the last entry, and its table's level. RMM 1.0, RTT walk.
#[derive(Clone, Copy)]
pub struct Walk {
    pub level: Level,
    pub entry: Entry,
}

impl Model for Walk {
    ghost use Rattle.realm_model.specs.Rows as rows;

    ghost Value = { rows.Walk };

    ghost view = { λ w. record { level = w.level; row = w.entry } };

    ghost inverse = { λ w. record { level = w.level; entry = w.row } };
}
