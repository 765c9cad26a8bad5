//! Functions by which the checks of a command read the ledger of a host, as the trait `BuildsView` requires.
ghost use Rattle.host_ledger.specs.Summary.{summary_of};

use crate::HostLedger;
use granule_addr::{BuildId, Gran};
use host_commands::BuildsView;

impl BuildsView for HostLedger {
    ghost seen = { summary_of };

    fn has_build(&self, build: BuildId) -> bool {
        (build.number() as usize) < self.builds.len()
    }

    fn is_aborting(&self, build: BuildId) -> bool {
        self.builds[build.number() as usize].aborting
    }

    fn page(&self, build: BuildId, page: u16) -> Option<Gran> {
        self.leases.page(build, page)
    }

    fn has_realm(&self, build: BuildId) -> bool {
        self.builds[build.number() as usize].realm.is_some()
    }

    fn open_count(&self, build: BuildId) -> u16 {
        self.builds[build.number() as usize].journal.len()
    }

    fn room_left(&self, build: BuildId) -> u16 {
        self.capacity() - self.used(build)
    }

    fn has_vmid(&self) -> bool {
        self.lowest_vmid().is_some()
    }
}
