//! A read-only view of a host's builds, for checking a build's command.
ghost use Rattle.std.specs.Prelude.{◌≡◌, ◌<◌, nat_lt, IsSome};
ghost use Rattle.host_commands.specs.BuildsSummary.{BuildsSummary, granule_of_page};

use granule_addr::{BuildId, Gran};

/// A read-only view of a host's builds, with the data that command checks need.
pub trait BuildsView {
    ghost seen: { Self → BuildsSummary };

    /// Returns whether the host has the build.
    fn has_build(&self, build: BuildId) -> bool
        ensures { result ≡ nat_lt build (seen self.now).builds };

    /// Returns whether the build is being aborted.
    fn is_aborting(&self, build: BuildId) -> bool
        requires { build < (seen self.now).builds }
        ensures { result ≡ (seen self.now).aborting build };

    /// Returns the granule of a build's page, if the build has that page. No build has more pages than the largest
    /// machine.
    fn page(&self, build: BuildId, page: u16) -> Option<Gran>
        requires { build < (seen self.now).builds }
        ensures value { result ≡ granule_of_page (seen self.now) build page }
        ensures few { IsSome result → page < 4096 };

    /// Returns whether the build has a realm.
    fn has_realm(&self, build: BuildId) -> bool
        requires { build < (seen self.now).builds }
        ensures { result ≡ (seen self.now).realm build };

    /// Returns the number of a build's reversible operations that are not yet reversed. These are the build's open
    /// operations.
    fn open_count(&self, build: BuildId) -> u16
        requires { build < (seen self.now).builds }
        ensures { result ≡ (seen self.now).opened build };

    /// Returns the number of history entries that are left for the build.
    fn room_left(&self, build: BuildId) -> u16
        requires { build < (seen self.now).builds }
        ensures { result ≡ (seen self.now).room_left build };

    /// Returns whether the host has a free VMID for a new realm.
    fn has_vmid(&self) -> bool
        ensures { result ≡ (seen self.now).vmid };
}
