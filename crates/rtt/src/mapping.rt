//! Functions that map and unmap a realm's pages of data, and set the RIPAS of IPA granules to RAM.
ghost use Rattle.std.specs.Prelude.{◌≡◌, ℕ, ◌<◌, true, Some, None, OnOk, OnErr};
ghost use Rattle.rtt.specs.Granules.{IsIn};
ghost use Rattle.granule_addr.specs.Page.{zero_page};
ghost use Rattle.granule_addr.specs.Root.{served_space};
ghost use Rattle.page_arena.specs.Page.{page_at};
ghost use Rattle.realm_model.specs.Rows.{is_page_run, with_ram, unmapped_ripas};
ghost use Rattle.rtt.specs.Tables.{rows};
ghost use Rattle.rtt.specs.Realm.{IsBacked, HasTables};
ghost use Rattle.realm_model.specs.Command.Found.{with_free_page, with_mapped_page, with_free_pages};
ghost use Rattle.rtt.specs.Answer.{Answers};
ghost use Rattle.rtt.specs.Calls.{with_state, LeadsTo, ChangesTablesOnly, ChangesTablesAnd, GainsPage, LosesPage, Keeps};

use crate::pages::{all_unassigned, fill_entries, write};
use crate::tables::{EntryAddress, find};
use crate::{Entry, GranuleTable, Rtt, Tables};
use granule_addr::{Gran, IpaGran, Level, index_at};
use page_arena::PageStore;
use realm_model::{GranuleState, Ripas};

impl Tables {
    /// Maps a DELEGATED granule as a page of data at an IPA granule. The bytes of the page stay. The entry gets the
    /// given RIPAS, or keeps its own if none is given.
    ///
    /// RMM 1.0, RMI_DATA_CREATE, with RIPAS RAM, and RMI_DATA_CREATE_UNKNOWN, with none. The error is RMI_ERROR_RTT,
    /// with the level at which the walk ended, unless that is 3 and the entry there is UNASSIGNED. A refusal changes
    /// nothing.
    pub fn map<S: PageStore>(
        &self,
        store: &mut S,
        granules: &mut GranuleTable,
        page: Gran,
        ipa: IpaGran,
        ripas: Option<Ripas>,
    ) -> Result<(), Rtt>
        requires backed { IsBacked (S.page_bytes store.old) (S.free_flags store.old) granules.old }
        requires tables { HasTables (S.page_bytes store.old) granules.old self.now.rd self.now.root }
        requires inside { ipa < served_space self.now.root.width }
        requires delegated { IsIn granules.old page GranuleState.Delegated None }
        ensures answer { Answers result (with_free_page (rows (S.page_bytes store.old) self.now.root) ipa) }
        ensures rows { OnOk result (GainsPage (rows (S.page_bytes store.old) self.now.root) ipa page ripas
            (rows (S.page_bytes store.new) self.now.root)) }
        ensures moved { OnOk result
            (granules.new ≡ with_state granules.old page GranuleState.Data (Some self.now.rd)) }
        ensures unchanged { OnErr result
            ((S.page_bytes store.new ≡ S.page_bytes store.old) × (granules.new ≡ granules.old)) }
        ensures others { ChangesTablesOnly self.now.root (S.page_bytes store.old) (S.page_bytes store.new) }
        ensures keeps { Keeps self.now.rd self.now.root
            (S.page_bytes store.old) (S.free_flags store.old) granules.old
            (S.page_bytes store.new) (S.free_flags store.new) granules.new }
    {
        let realm = Some(self.rd);
        let EntryAddress {
            table,
            level,
            entry,
        } = find(*self, store, granules, ipa, Level::last());
        if level.number() != 3 || !entry.is_unassigned() {
            return Err(Rtt { level });
        }
        let ripas = ripas.unwrap_or(entry.ripas);
        write(
            store,
            table,
            index_at(ipa, level),
            Entry::assigned(ripas, page),
        );
        granules.shift(page, GranuleState::Delegated, GranuleState::Data, realm);
        Ok(())
    }

    /// Unmaps the page of data at an IPA granule. The page becomes zero and DELEGATED.
    ///
    /// RMM 1.0, RMI_DATA_DESTROY. The error is RMI_ERROR_RTT, with the level at which the walk ended, unless that is 3
    /// and the entry there is ASSIGNED. A refusal changes nothing.
    pub fn unmap<S: PageStore>(
        &self,
        store: &mut S,
        granules: &mut GranuleTable,
        ipa: IpaGran,
    ) -> Result<(), Rtt>
        requires backed { IsBacked (S.page_bytes store.old) (S.free_flags store.old) granules.old }
        requires tables { HasTables (S.page_bytes store.old) granules.old self.now.rd self.now.root }
        requires inside { ipa < served_space self.now.root.width }
        ensures answer { Answers result (with_mapped_page (rows (S.page_bytes store.old) self.now.root) ipa) }
        ensures rows { OnOk result
            (LosesPage (rows (S.page_bytes store.old) self.now.root) ipa (rows (S.page_bytes store.new) self.now.root)) }
        ensures moved { OnOk result
            ((page : ℕ) → LeadsTo (rows (S.page_bytes store.old) self.now.root) 3 ipa page
            → granules.new ≡ with_state granules.old page GranuleState.Delegated None) }
        ensures cleared { OnOk result
            ((page : ℕ) → LeadsTo (rows (S.page_bytes store.old) self.now.root) 3 ipa page
            → page_at (S.page_bytes store.new) page ≡ zero_page) }
        ensures unchanged { OnErr result
            ((S.page_bytes store.new ≡ S.page_bytes store.old) × (granules.new ≡ granules.old)) }
        ensures others { ChangesTablesAnd (LeadsTo (rows (S.page_bytes store.old) self.now.root) 3 ipa)
            self.now.root (S.page_bytes store.old) (S.page_bytes store.new) }
        ensures keeps { Keeps self.now.rd self.now.root
            (S.page_bytes store.old) (S.free_flags store.old) granules.old
            (S.page_bytes store.new) (S.free_flags store.new) granules.new }
    {
        let EntryAddress {
            table,
            level,
            entry,
        } = find(*self, store, granules, ipa, Level::last());
        if level.number() != 3 {
            return Err(Rtt { level });
        }
        let Some(page) = entry.page() else {
            return Err(Rtt { level });
        };
        store.fill(page, 0);
        let ripas = ripas_after_unmap(entry.ripas);
        write(store, table, index_at(ipa, level), Entry::unassigned(ripas));
        granules.shift(page, GranuleState::Data, GranuleState::Delegated, None);
        Ok(())
    }

    /// Sets the RIPAS of `count` IPA granules to RAM. One table of level 3 serves all of them. A refusal changes
    /// nothing.
    ///
    /// RMM 1.0, RMI_RTT_INIT_RIPAS. The error is RMI_ERROR_RTT, with the level at which the walk ended, unless that is
    /// 3 and all `count` entries are UNASSIGNED.
    pub fn init_ripas<S: PageStore>(
        &self,
        store: &mut S,
        granules: &GranuleTable,
        ipa: IpaGran,
        count: u16,
    ) -> Result<(), Rtt>
        requires backed { IsBacked (S.page_bytes store.old) (S.free_flags store.old) granules.now }
        requires tables { HasTables (S.page_bytes store.old) granules.now self.now.rd self.now.root }
        requires inside { ipa < served_space self.now.root.width }
        requires run { is_page_run ipa count ≡ true }
        ensures answer { Answers result (with_free_pages (rows (S.page_bytes store.old) self.now.root) ipa count) }
        ensures rows { OnOk result (rows (S.page_bytes store.new) self.now.root
            ≡ with_ram (rows (S.page_bytes store.old) self.now.root) ipa count) }
        ensures unchanged { OnErr result (S.page_bytes store.new ≡ S.page_bytes store.old) }
        ensures others { ChangesTablesOnly self.now.root (S.page_bytes store.old) (S.page_bytes store.new) }
        ensures keeps { Keeps self.now.rd self.now.root
            (S.page_bytes store.old) (S.free_flags store.old) granules.now
            (S.page_bytes store.new) (S.free_flags store.new) granules.now }
    {
        let place = find(*self, store, granules, ipa, Level::last());
        if place.level.number() != 3 {
            return Err(Rtt { level: place.level });
        }
        let first = index_at(ipa, place.level);
        if !all_unassigned(store, place.table, first, count) {
            return Err(Rtt { level: place.level });
        }
        fill_entries(
            store,
            place.table,
            first,
            count,
            Entry::unassigned(Ripas::Ram),
        );
        Ok(())
    }
}

// The RIPAS of an entry after its page is unmapped.
fn ripas_after_unmap(ripas: Ripas) -> Ripas
    ensures { result ≡ unmapped_ripas ripas }
{
    match ripas {
        Ripas::Empty => Ripas::Empty,
        Ripas::Ram | Ripas::Destroyed => Ripas::Destroyed,
    }
}
