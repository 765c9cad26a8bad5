//! Queries about granules, RECs and translation tables, which change nothing.
ghost use Rattle.std.specs.Prelude.{◌≡◌, ◌<◌, length};
ghost use Rattle.std.specs.Option.{option_copied};
ghost use Rattle.realm_model.specs.Machine.{cell_at};
ghost use Rattle.rmi_monitor.specs.Named.{rec_attributes_at};
ghost use Rattle.rmi_monitor.specs.Walked.{walk_in};

use crate::places::tables_of;
use crate::{Monitor, Rec};
use granule_addr::{Gran, IpaGran, Level};
use page_arena::PageStore;
use rtt::Walk;

impl<S: PageStore> Monitor<S> {
    /// Returns the RD of a granule's realm, or `None` if the granule belongs to no realm. An RD belongs to its own
    /// realm.
    pub fn realm_of(&self, granule: Gran) -> Option<Gran>
        requires { granule < length self.now.machine }
        ensures { result ≡ (cell_at self.now.machine granule).realm }
    {
        self.granules.realm_of(granule)
    }

    /// Returns the REC in a granule, or `None` if the granule is not a REC. A REC has its number in the realm, its
    /// state and its auxiliaries.
    pub fn rec_at(&self, granule: Gran) -> Option<&Rec>
        requires { granule < length self.now.machine }
        ensures { option_copied result ≡ rec_attributes_at self.now.machine granule }
    {
        self.recs[granule.number() as usize].as_ref()
    }

    /// Walks a realm's translation tables for an IPA granule, down to level `to` at most. The realm has RD `rd`.
    ///
    /// Returns the level and the entry at which the walk ends. Returns `None` if granule `rd` is not an RD, or if the
    /// IPA granule is not in the realm's address space.
    ///
    /// `ipa` is the number of an IPA granule, of either half of the address space. RMM 1.0, RTT walk.
    pub fn walk(&self, rd: Gran, ipa: u32, to: Level) -> Option<Walk>
        requires { rd < length self.now.machine }
        ensures { result ≡ walk_in self.now.machine rd ipa to }
    {
        let realm = self.realms[rd.number() as usize].as_ref()?;
        let ipa = IpaGran::new(ipa, realm.root().width.number())?;
        Some(tables_of(rd, realm).walk(&self.store, &self.granules, ipa, to))
    }
}
