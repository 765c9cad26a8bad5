//! Commands that create, activate and destroy realms.
ghost use Rattle.std.specs.Prelude.{◌≡◌, ◌<◌, option_map, length};
ghost use Rattle.std.specs.List.{list_all};
ghost use Rattle.std.specs.Option.{option_copied};
ghost use Rattle.granule_addr.specs.Root.{starting_tables};
ghost use Rattle.realm_model.specs.Machine.{cell_at};
ghost use Rattle.realm_model.specs.Command.Realm as command;
ghost use Rattle.rmi_monitor.specs.View.{IsTaken, Answers, seen_in, after_command, attributes_of, make_realm};
ghost use Rattle.rmi_monitor.specs.Places.{are_fit_for_realm, is_fit_to_start};

use crate::places::{is_delegated, release, tables_of};
use crate::{Monitor, RealmDesc};
use granule_addr::{Gran, IpaWidth, Root, Vmid};
use page_arena::PageStore;
use realm_model::{GranuleState, Rmi};
use rtt::{GranuleTable, Tables};

// Whether granule `number` exists and can be a starting table of a realm with RD `rd`.
fn can_start(granules: &GranuleTable, rd: Gran, number: u16) -> bool
    ensures { result ≡ is_fit_to_start granules.now rd number }
{
    match Gran::new(number, granules.pages()) {
        Some(table) => is_delegated(granules, table) && table != rd,
        None => false,
    }
}

// Whether each granule of the starting tables in `tables` can be a starting table of a realm with the RD in `tables`.
fn can_all_start(granules: &GranuleTable, tables: &Tables) -> bool
    ensures { result ≡ list_all (is_fit_to_start granules.now tables.now.rd) (starting_tables tables.now.root) }
{
    for number in 0..tables.root.width.start_count() {
        if !can_start(granules, tables.rd, tables.root.first.number() + number) {
            return false;
        }
    }
    true
}

// Whether an RD, starting tables and a VMID can be those of a new realm, if other realms are disregarded.
fn can_be_realm(granules: &GranuleTable, tables: &Tables, vmid: Vmid, vmids: u8) -> bool
    requires { tables.now.rd < length granules.now }
    ensures { result ≡ are_fit_for_realm granules.now tables.now.rd tables.now.root vmid vmids }
{
    tables.root.first.number() % tables.root.width.start_count() == 0
        && is_delegated(granules, tables.rd)
        && can_all_start(granules, tables)
        && vmid.number() <= vmids
}

impl<S: PageStore> Monitor<S> {
    /// Makes a NEW realm ACTIVE.
    ///
    /// RMM 1.0, RMI_REALM_ACTIVATE. The error is RMI_ERROR_INPUT if the granule is not an RD, and RMI_ERROR_REALM if
    /// the realm is not NEW.
    pub fn realm_activate(&mut self, rd: Gran) -> Result<(), Rmi>
        requires { IsTaken self.old rd }
        ensures answer { Answers result (command.realm_activate (seen_in self.old rd)) }
        ensures machine { self.new ≡ after_command (command.realm_activate (seen_in self.old rd)) self.old }
    {
        let Some(realm) = &mut self.realms[rd.number() as usize] else {
            return Err(Rmi::INPUT);
        };
        if !realm.is_new() {
            return Err(Rmi::REALM);
        }
        realm.activate();
        Ok(())
    }

    /// Creates a realm from DELEGATED granules. The granules become the realm's RD and starting tables, and the realm's
    /// IPAs have `width` bits.
    ///
    /// `root` is the first starting table; there are 2^(width - 39), one after another. RMM 1.0, RMI_REALM_CREATE.
    ///
    /// The error is RMI_ERROR_INPUT if the width is not 39 to 43, `root` is not a multiple of their count, or one of
    /// the granules is not DELEGATED. The error is the same if the RD is a starting table, or the VMID is above the
    /// machine's greatest or used by a realm.
    pub fn realm_create(&mut self, rd: Gran, root: Gran, vmid: Vmid, width: u8) -> Result<(), Rmi>
        requires { IsTaken self.old rd }
        ensures answer { Answers result (make_realm self.old rd (record { first = root; width = width }) vmid) }
        ensures machine { self.new ≡ after_command (make_realm self.old rd (record { first = root; width = width }) vmid) self.old }
    {
        let Some(width) = IpaWidth::new(width) else {
            return Err(Rmi::INPUT);
        };
        if self.used.contains(vmid) {
            return Err(Rmi::INPUT);
        }
        let tables = Tables {
            rd,
            root: Root { first: root, width },
        };
        if !can_be_realm(&self.granules, &tables, vmid, self.vmids) {
            return Err(Rmi::INPUT);
        }
        self.granules
            .shift(rd, GranuleState::Delegated, GranuleState::Rd, Some(rd));
        tables.open_root(&mut self.store, &mut self.granules);
        let realm = RealmDesc::new(vmid, Root { first: root, width });
        self.realms[rd.number() as usize] = Some(realm);
        self.used.insert(vmid);
        Ok(())
    }

    /// Destroys a realm that has no RECs, and no tables below its starting tables. The starting tables and the RD are
    /// then zero and DELEGATED.
    ///
    /// RMM 1.0, RMI_REALM_DESTROY. The error is RMI_ERROR_INPUT if the granule is not an RD. The error is
    /// RMI_ERROR_REALM if the realm has a REC, or an entry of a starting table is TABLE.
    pub fn realm_destroy(&mut self, rd: Gran) -> Result<(), Rmi>
        requires { IsTaken self.old rd }
        ensures answer { Answers result (command.realm_destroy (seen_in self.old rd)) }
        ensures machine { self.new ≡ after_command (command.realm_destroy (seen_in self.old rd)) self.old }
    {
        let Some(realm) = &self.realms[rd.number() as usize] else {
            return Err(Rmi::INPUT);
        };
        let recs = self.rec_counts[rd.number() as usize];
        if recs > 0 {
            return Err(Rmi::REALM);
        }
        if !tables_of(rd, realm).close_root(&mut self.store, &mut self.granules) {
            return Err(Rmi::REALM);
        }
        release(&mut self.store, &mut self.granules, rd, GranuleState::Rd);
        self.used.remove(realm.vmid());
        self.realms[rd.number() as usize] = None;
        Ok(())
    }

    /// Returns the descriptor of the realm with RD `rd`; `None` if no realm has this RD.
    pub fn realm(&self, rd: Gran) -> Option<&RealmDesc>
        requires { rd < length self.now.machine }
        ensures { option_copied result ≡ option_map attributes_of (cell_at self.now.machine rd).descriptor }
    {
        self.realms[rd.number() as usize].as_ref()
    }
}
