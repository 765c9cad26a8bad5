//! Edits of a realm's attributes, made in place by commands and by steps of guests' programs.
ghost use Rattle.std.specs.Prelude.{◌≡◌};
ghost use Rattle.rmm_granules.specs.RealmEdits.{edited_realm};

use rmm_model::{RmmRealm, RmmRealmState};

/// An edit of the attributes of a realm.
#[derive(Clone, Copy)]
pub enum RealmEdit {
    /// Sets the state of the realm to SYSTEM_OFF.
    SwitchOff,
    /// Subtracts one from the realm's number of RECs.
    RemoveRec,
}

impl RealmEdit {
    // Applies the edit to a realm.
    #[inline(always)]
    pub(crate) fn make(self, realm: &mut RmmRealm)
        ensures { realm.new ≡ edited_realm self realm.old }
    {
        match self {
            RealmEdit::SwitchOff => realm.state = RmmRealmState::SystemOff,
            RealmEdit::RemoveRec => realm.rec_count = realm.rec_count.saturating_sub(1),
        }
    }
}
