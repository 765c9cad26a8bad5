//! The `Host` type for realm builds, and functions that boot a host or read it.
ghost use Rattle.std.specs.Prelude.{◌≡◌, ◌<◌, ◌≤◌, ℕ, length, replicate, true, IfOk, IfErr, IfSome, option_map, sum};
ghost use Rattle.granule_addr.specs.Page.{zero_page};
ghost use Rattle.realm_model.specs.Machine.{cell_at};
ghost use Rattle.realm_model.specs.World.{free_set};
ghost use Rattle.realm_model.specs.History.{IsLegal, Noninterference};
ghost use Rattle.host_ledger.specs.View.{world_of, pages_of_build, granule_of_page};
ghost use Rattle.host_ledger.specs.Kept.{HasRoom, AreOfEach, PointsHold};
ghost use Rattle.std.specs.Option.{option_copied};
ghost use Rattle.rmi_monitor.specs.View.{attributes_of};
ghost use Rattle.realm_host.specs.Host.{booted_by, IsInRange};
ghost use Rattle.realm_host.specs.Readings.{row_of, realm_at, measurement_at};

use crate::Settings;
use granule_addr::{BuildId, Gran, Vmid};
use host_ledger::HostLedger;
use page_arena::PageStore;
use realm_model::{Event, GranuleState, RealmState};
use rmi_monitor::{Monitor, RealmDesc};
use std::alloc::{AllocError, Global};
use std::marker::Model;

/// A host for realm builds, with its RMM and its ledger. The host keeps all pages in a store of type `S`. All its
/// memory is taken when it is booted.
pub struct Host<S: PageStore> {
    pub(crate) monitor: Monitor<S>,
    pub(crate) ledger: HostLedger,
}

impl<S: PageStore + Drop> Drop for Host<S> {
    fn drop(self) {
        let Host {
            monitor: _,
            ledger: _,
        } = self;
    }
}

impl<S: PageStore> Model for Host<S> {
    ghost use Rattle.host_ledger.specs.View.{HostView};
    ghost use Rattle.host_ledger.specs.Codes.{host_code};
    ghost use Rattle.realm_host.specs.Host.{IsWhole};

    ghost Value = { HostView };

    ghost coded = { host_code };

    ghost view = { λ h. h.ledger };

    ghost invariant = { λ h. IsWhole h.ledger h.monitor };
}

impl<S: PageStore> Host<S> {
    /// Boots a new host that keeps its pages in `store`. All pages of the store must be free and zeroed. If there is no
    /// memory for the host, returns the error and the store.
    pub fn boot(alloc: Global, settings: Settings, store: S) -> Result<Host<S>, (AllocError, S)>
        requires zero { S.page_bytes store ≡ replicate (length (S.page_bytes store)) zero_page }
        requires free { S.free_flags store ≡ replicate (length (S.page_bytes store)) true }
        ensures ok { IfOk result (λ h. h ≡ booted_by settings (length (S.page_bytes store))) }
        ensures err { IfErr result (λ e. e.1 ≡ store) }
    {
        let ledger = match HostLedger::build(
            alloc,
            store.pages(),
            settings.vmids,
            settings.aux,
            settings.builds,
            settings.history,
        ) {
            Ok(ledger) => ledger,
            Err(error) => return Err((error, store)),
        };
        let monitor = Monitor::build(alloc, settings.vmids, settings.aux, store)?;
        Ok(Host { monitor, ledger })
    }

    /// Returns the accepted operations of all builds, in sequence.
    ///
    /// They are a legal history, in which no build has used more than its room, or had more than 512 operations open at
    /// any time. If a build is in abort, it has something open. If a build has a mark, it has never had fewer
    /// operations open since than at the mark.
    ///
    /// Each build can be left out: the rest is a legal history too, and leads to the world without that build. The
    /// numbers of a host are in their ranges.
    pub fn history(&self) -> &[Event]
        ensures events { result.now ≡ self.now.history }
        ensures in_range { IsInRange self.now.limits self.now.capacity }
        ensures legal { IsLegal self.now.limits self.now.history }
        ensures room { (build : ℕ) → HasRoom self.now build }
        ensures each { AreOfEach self.now }
        ensures points { (build : ℕ) → PointsHold self.now build }
        ensures no_trace { (build : ℕ) → Noninterference self.now.limits self.now.history build }
    {
        self.ledger.history()
    }

    /// Returns the host's ledger, which records the history and what each build has. The ledger is all that contracts
    /// see of the host. The checks of a command read the ledger. The ledger has none of the machine's memory.
    pub fn ledger(&self) -> &HostLedger
        ensures { result.now ≡ self.now }
    {
        &self.ledger
    }

    /// Returns the number of history entries reserved for each build.
    pub fn capacity(&self) -> u16
        ensures { result ≡ self.now.capacity }
    {
        self.ledger.capacity()
    }

    /// Returns the number of builds.
    pub fn build_count(&self) -> u8
        ensures value { result ≡ self.now.limits.builds }
        ensures few { result ≤ 8 }
    {
        self.ledger.build_count()
    }

    /// Returns the number of pages of a build. Returns 0 if there is no such build.
    pub fn page_count(&self, build: BuildId) -> u16
        ensures { result ≡ length (pages_of_build self.now build) }
    {
        if self.ledger.has_build(build) {
            self.ledger.page_count(build)
        } else {
            0
        }
    }

    /// Returns the state of a build's page. Returns `None` if there is no such page.
    pub fn page_state(&self, build: BuildId, page: u16) -> Option<GranuleState>
        ensures { result ≡ option_map (λ g. (cell_at (world_of self.now).machine g).state) (granule_of_page self.now build page) }
    {
        let granule = self.page_granule(build, page)?;
        Some(self.monitor.state(granule))
    }

    /// Returns the sum of the bytes of a build's page. Returns `None` if there is no such page. The sum of a table is
    /// 0.
    pub fn page_sum(&self, build: BuildId, page: u16) -> Option<u32>
        ensures { result ≡ option_map (λ g. sum (cell_at (world_of self.now).machine g).bytes) (granule_of_page self.now build page) }
    {
        let granule = self.page_granule(build, page)?;
        Some(self.monitor.byte_sum(granule))
    }

    /// Returns the state and the VMID of a build's realm. Returns `None` if the build has no realm.
    pub fn realm_view(&self, build: BuildId) -> Option<(RealmState, Vmid)>
        ensures { result ≡ realm_at (world_of self.now) build }
    {
        let realm = self.realm(build)?;
        Some((realm.state(), realm.vmid()))
    }

    /// Returns the measurement of a build's realm. Returns `None` if the build has no realm. RMM 1.0, Realm Initial
    /// Measurement.
    pub fn measurement(&self, build: BuildId) -> Option<[u8; 32]>
        ensures { result ≡ measurement_at (world_of self.now) build }
    {
        let realm = self.realm(build)?;
        Some(*realm.measurement())
    }

    /// Returns the number of granules that no build leases.
    pub fn free_count(&self) -> u16
        ensures { result ≡ length (free_set (world_of self.now)) }
    {
        self.monitor.free_count()
    }

    /// Returns the granule of a build's page. Returns `None` if there is no such page.
    pub fn page_granule(&self, build: BuildId, page: u16) -> Option<Gran>
        ensures value { result ≡ granule_of_page self.now build page }
        ensures inside { IfSome result (λ g. g < self.now.limits.pages) }
    {
        if self.ledger.has_build(build) {
            self.ledger.page(build, page)
        } else {
            None
        }
    }

    /// Returns the RMM's record of a build's realm. Returns `None` if the build has no realm. The result has the
    /// realm's state, its VMID, its starting tables with the width of its IPAs, the number of its next REC, and its
    /// measurement. A walk of its tables begins at level 1.
    pub fn realm(&self, build: BuildId) -> Option<&RealmDesc>
        ensures { option_copied result ≡ option_map attributes_of (row_of (world_of self.now) build) }
    {
        if !self.ledger.has_build(build) {
            return None;
        }
        match self.ledger.realm(build) {
            Some(rd) => self.monitor.realm(rd),
            None => None,
        }
    }
}

impl<S: PageStore + Drop> Host<S> {
    /// Returns the host's ledger, and frees all memory of the simulated machine.
    pub fn into_ledger(self) -> HostLedger
        ensures { result ≡ self }
    {
        let Host { monitor: _, ledger } = self;
        ledger
    }
}
