//! The application of a history to a new host, without the events of one build.
ghost use Rattle.std.specs.Prelude.{◌≡◌};
ghost use Rattle.realm_host.specs.Recorded.{fresh_like, IsWithout};

use crate::Host;
use granule_addr::BuildId;
use host_ledger::HostLedger;
use page_arena::PageStore;

/// Applies a history to a fresh host, leaving out one build's events. `ledger` has the history. The fresh host has just
/// been booted, with the same settings and as many pages. Each event is accepted in turn. The host then has the history
/// without the build, and the world without it.
pub fn apply_without<S: PageStore>(ledger: &HostLedger, build: BuildId, fresh: &mut Host<S>)
    requires { fresh.old ≡ fresh_like ledger.now }
    ensures { IsWithout ledger.now build fresh.new }
{
    for event in ledger.history() {
        if event.build == build {
            continue;
        }
        if !fresh.apply_recorded(event) {
            unreachable!()
        }
    }
}
