//! Functions that read a host's state. They read granules, realms, RECs, RTT entries, open operations and marks.
ghost use Rattle.std.specs.Prelude.{◌≡◌, ◌+◌, ◌<◌, IfSome, option_map};
ghost use Rattle.granule_addr.specs.Ipa.{covered_count, first_covered, widest_space};
ghost use Rattle.realm_model.specs.Places.{rd_of};
ghost use Rattle.host_ledger.specs.View.{world_of, open_of, is_aborting, mark_of};
ghost use Rattle.host_ledger.specs.Kept.{IsMarkOf};
ghost use Rattle.realm_host.specs.Readings.{granule_at, rec_at, row_at};
ghost use Rattle.realm_host.specs.Refusals.{is_newest_running};

use crate::{Host, Mark};
use granule_addr::{BuildId, Gran, IpaGran, Level, RecNo};
use host_commands::BuildsView;
use page_arena::PageStore;
use realm_model::{Act, GranuleState};
use rmi_monitor::Rec;
use rtt::Entry;

/// The state of a granule, with its build and its realm, if any. The build leases the granule. The realm is the one
/// that the granule belongs to, given by its RD.
#[derive(Clone, Copy)]
pub struct GranuleView {
    pub state: GranuleState,
    pub build: Option<BuildId>,
    pub realm: Option<Gran>,
}

/// An RTT entry of a realm, with its level and its first IPA granule. The first IPA granule is the first one that the
/// entry covers. RMM 1.0, RTT entry.
#[derive(Clone, Copy)]
pub struct RowView {
    pub level: Level,
    pub first: IpaGran,
    pub entry: Entry,
}

impl RowView {
    /// Returns the number of the first IPA granule after those that the entry covers.
    pub fn next(&self) -> u32
        ensures { result ≡ self.now.first + covered_count self.now.level }
    {
        self.first.number() + covered_count(self.level)
    }
}

// The number of IPA granules that a row of a level covers.
fn covered_count(level: Level) -> u32
    ensures { result ≡ covered_count level }
{
    match level.number() {
        1 => 262_144,
        2 => 512,
        _ => 1,
    }
}

// The first IPA granule of the row that covers IPA granule `ipa` at a level.
fn first_covered(ipa: u32, level: Level) -> IpaGran
    requires { ipa < widest_space }
    ensures { result ≡ first_covered level ipa }
{
    let covered = covered_count(level);
    IpaGran::new(ipa / covered * covered, 43).unwrap()
}

impl<S: PageStore> Host<S> {
    /// Returns the number of auxiliary granules of a REC. RMM 1.0, RMI_REC_AUX_COUNT.
    pub fn rec_aux_count(&self) -> u8
        ensures { result ≡ self.now.limits.aux }
    {
        self.monitor.rec_aux_count()
    }

    /// Returns the number of granules of the machine.
    pub fn pages(&self) -> u16
        ensures { result ≡ self.now.limits.pages }
    {
        self.monitor.pages()
    }

    /// Returns a granule's state, the build that leases it, and its realm. Returns `None` if the machine has no such
    /// granule. An RD belongs to its own realm.
    pub fn granule_view(&self, granule: Gran) -> Option<GranuleView>
        ensures { result ≡ granule_at (world_of self.now) granule }
    {
        if granule.number() >= self.monitor.pages() {
            return None;
        }
        Some(GranuleView {
            state: self.monitor.state(granule),
            build: self.ledger.holder(granule),
            realm: self.monitor.realm_of(granule),
        })
    }

    /// Returns the RD of a build's realm. Returns `None` if the build has no realm.
    pub fn rd(&self, build: BuildId) -> Option<Gran>
        ensures value { result ≡ rd_of build (world_of self.now) }
        ensures inside { IfSome result (λ rd. rd < self.now.limits.pages) }
    {
        if self.ledger.has_build(build) {
            self.ledger.realm(build)
        } else {
            None
        }
    }

    /// Returns a REC of a build's realm. The result has the granule, the state and the auxiliary granules of REC
    /// `number`. Returns `None` if there is no such REC. Each number is below that of the realm's next REC.
    pub fn rec(&self, build: BuildId, number: RecNo) -> Option<(Gran, &Rec)>
        ensures { option_map (λ rec. (rec.0, rec.1.now)) result ≡ rec_at (world_of self.now) build number }
    {
        if !self.ledger.has_build(build) {
            return None;
        }
        let granule = self.ledger.rec(build, number)?;
        let rec = self.monitor.rec_at(granule)?;
        Some((granule, rec))
    }

    /// Returns the RTT entry at which the walk for an IPA granule ends, in a build's realm. The walk goes down to level
    /// `to` at most. It ends at the first row that is not TABLE, or at the row of level `to`.
    /// Returns None if the build has no realm, or if the IPA granule is not in the realm's address space.
    ///
    /// `ipa` is the number of an IPA granule. Walks to level 3, the first from 0 and each next one from `next` of the
    /// row before, list all rows but those that are TABLE. RMM 1.0, RTT walk.
    pub fn row(&self, build: BuildId, ipa: u32, to: Level) -> Option<RowView>
        ensures value { result ≡ row_at (world_of self.now) build ipa to }
        ensures past { IfSome result (λ row. ipa < row.first + covered_count row.level) }
    {
        let rd = self.rd(build)?;
        let end = self.monitor.walk(rd, ipa, to)?;
        Some(RowView {
            level: end.level,
            first: first_covered(ipa, end.level),
            entry: end.entry,
        })
    }

    /// Returns the open operations of a build, the newest last. They are those that have a reverse and are not undone
    /// yet. The list is empty if there is no such build.
    pub fn open_acts(&self, build: BuildId) -> &[Act]
        ensures { result.now ≡ open_of self.now build }
    {
        if self.ledger.has_build(build) {
            self.ledger.open_above(build, 0)
        } else {
            &[]
        }
    }

    /// Returns whether a build's newest open operation created a running REC. Such an operation cannot be undone now.
    /// An operation is open if it has a reverse and is not undone yet. False if there is no such build.
    pub fn is_newest_running(&self, build: BuildId) -> bool
        ensures { result ≡ is_newest_running self.now build }
    {
        if !self.ledger.has_build(build) {
            return false;
        }
        match self.ledger.newest(build) {
            Some(newest) => self.is_running(build, newest),
            None => false,
        }
    }

    /// Returns whether an abort of a build has begun and is not finished.
    pub fn is_aborting(&self, build: BuildId) -> bool
        ensures { result ≡ is_aborting self.now build }
    {
        self.ledger.has_build(build) && self.ledger.is_aborting(build)
    }

    /// Returns a build's last mark, if that mark is still valid. `check_back` says whether the build can go back to the
    /// mark now.
    pub fn kept_mark(&self, build: BuildId) -> Option<Mark>
        ensures value { result ≡ mark_of self.now build }
        ensures stands { IfSome result (IsMarkOf self.now build) }
    {
        if self.ledger.has_build(build) {
            self.ledger.mark(build)
        } else {
            None
        }
    }
}
