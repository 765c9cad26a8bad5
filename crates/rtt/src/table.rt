//! Functions that create and destroy a realm's translation tables below the starting tables.
ghost use Rattle.std.specs.Prelude.{◌≡◌, ℕ, ◌-◌, ◌<◌, true, Some, None, OnOk, OnErr};
ghost use Rattle.rtt.specs.Granules.{IsIn};
ghost use Rattle.granule_addr.specs.Page.{zero_page};
ghost use Rattle.granule_addr.specs.Root.{served_space};
ghost use Rattle.page_arena.specs.Page.{page_at};
ghost use Rattle.realm_model.specs.Rows.{is_table_place, without_table};
ghost use Rattle.rtt.specs.Tables.{rows};
ghost use Rattle.rtt.specs.Realm.{IsBacked, HasTables};
ghost use Rattle.realm_model.specs.Command.Found.{with_room_for_table, with_unused_table};
ghost use Rattle.rtt.specs.Answer.{Answers};
ghost use Rattle.rtt.specs.Calls.{with_state, LeadsTo, ChangesTablesOnly, ChangesTablesAnd, GainsTable, Keeps};

use crate::pages::{all_unassigned, fill_entries, write};
use crate::tables::{EntryAddress, find};
use crate::{Entry, GranuleTable, Rtt, Tables};
use granule_addr::{Gran, IpaGran, Level, index_at};
use page_arena::PageStore;
use realm_model::{GranuleState, Ripas};

impl Tables {
    /// Creates the translation table of the given level for an IPA granule. A DELEGATED granule becomes the table. The
    /// table's entries are UNASSIGNED, and have the RIPAS of the entry above. The level is 2 or 3, and `ipa` the first
    /// IPA granule that the table serves.
    ///
    /// RMM 1.0, RMI_RTT_CREATE. The error is RMI_ERROR_RTT, with the level at which the walk ended, unless that is the
    /// level above and the entry there is not TABLE. A refusal changes nothing.
    pub fn create_table<S: PageStore>(
        &self,
        store: &mut S,
        granules: &mut GranuleTable,
        table: Gran,
        ipa: IpaGran,
        level: Level,
    ) -> Result<(), Rtt>
        requires backed { IsBacked (S.page_bytes store.old) (S.free_flags store.old) granules.old }
        requires tables { HasTables (S.page_bytes store.old) granules.old self.now.rd self.now.root }
        requires inside { ipa < served_space self.now.root.width }
        requires delegated { IsIn granules.old table GranuleState.Delegated None }
        requires place { is_table_place ipa level ≡ true }
        ensures answer { Answers result (with_room_for_table (rows (S.page_bytes store.old) self.now.root) ipa level) }
        ensures rows { OnOk result (GainsTable (rows (S.page_bytes store.old) self.now.root) level ipa table
            (rows (S.page_bytes store.new) self.now.root)) }
        ensures moved { OnOk result
            (granules.new ≡ with_state granules.old table GranuleState.Rtt (Some self.now.rd)) }
        ensures unchanged { OnErr result
            ((S.page_bytes store.new ≡ S.page_bytes store.old) × (granules.new ≡ granules.old)) }
        ensures others { ChangesTablesAnd (λ granule. granule ≡ table) self.now.root (S.page_bytes store.old) (S.page_bytes store.new) }
        ensures keeps { Keeps self.now.rd self.now.root
            (S.page_bytes store.old) (S.free_flags store.old) granules.old
            (S.page_bytes store.new) (S.free_flags store.new) granules.new }
    {
        let realm = Some(self.rd);
        let wanted = level.above();
        let EntryAddress {
            table: upper,
            level: ended,
            entry,
        } = find(*self, store, granules, ipa, wanted);
        if ended.number() != wanted.number() || entry.is_table() {
            return Err(Rtt { level: ended });
        }
        fill_entries(store, table, 0, 512, Entry::unassigned(entry.ripas));
        write(store, upper, index_at(ipa, ended), Entry::table(table));
        granules.shift(table, GranuleState::Delegated, GranuleState::Rtt, realm);
        Ok(())
    }

    /// Destroys the translation table of the given level for an IPA granule. The table's page becomes zero and
    /// DELEGATED, and the entry above becomes UNASSIGNED and DESTROYED.
    ///
    /// RMM 1.0, RMI_RTT_DESTROY. The error is RMI_ERROR_RTT, with the level at which the walk ended, unless that is the
    /// level above and the entry there is TABLE. In that case, the error is RMI_ERROR_RTT, with the table's level,
    /// unless the table's entries are all UNASSIGNED. A refusal changes nothing.
    pub fn destroy_table<S: PageStore>(
        &self,
        store: &mut S,
        granules: &mut GranuleTable,
        ipa: IpaGran,
        level: Level,
    ) -> Result<(), Rtt>
        requires backed { IsBacked (S.page_bytes store.old) (S.free_flags store.old) granules.old }
        requires tables { HasTables (S.page_bytes store.old) granules.old self.now.rd self.now.root }
        requires inside { ipa < served_space self.now.root.width }
        requires place { is_table_place ipa level ≡ true }
        ensures answer { Answers result (with_unused_table (rows (S.page_bytes store.old) self.now.root) ipa level) }
        ensures rows { OnOk result (rows (S.page_bytes store.new) self.now.root
            ≡ without_table (rows (S.page_bytes store.old) self.now.root) level ipa) }
        ensures moved { OnOk result
            ((table : ℕ) → LeadsTo (rows (S.page_bytes store.old) self.now.root) (level - 1) ipa table
            → granules.new ≡ with_state granules.old table GranuleState.Delegated None) }
        ensures cleared { OnOk result
            ((table : ℕ) → LeadsTo (rows (S.page_bytes store.old) self.now.root) (level - 1) ipa table
            → page_at (S.page_bytes store.new) table ≡ zero_page) }
        ensures unchanged { OnErr result
            ((S.page_bytes store.new ≡ S.page_bytes store.old) × (granules.new ≡ granules.old)) }
        ensures others { ChangesTablesOnly self.now.root (S.page_bytes store.old) (S.page_bytes store.new) }
        ensures keeps { Keeps self.now.rd self.now.root
            (S.page_bytes store.old) (S.free_flags store.old) granules.old
            (S.page_bytes store.new) (S.free_flags store.new) granules.new }
    {
        let wanted = level.above();
        let EntryAddress {
            table: upper,
            level: ended,
            entry,
        } = find(*self, store, granules, ipa, wanted);
        if ended.number() != wanted.number() {
            return Err(Rtt { level: ended });
        }
        let Some(table) = entry.child() else {
            return Err(Rtt { level: ended });
        };
        if !all_unassigned(store, table, 0, 512) {
            return Err(Rtt { level });
        }
        store.fill(table, 0);
        write(
            store,
            upper,
            index_at(ipa, ended),
            Entry::unassigned(Ripas::Destroyed),
        );
        granules.shift(table, GranuleState::Rtt, GranuleState::Delegated, None);
        Ok(())
    }
}
