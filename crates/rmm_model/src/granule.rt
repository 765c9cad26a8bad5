//! The attributes of granules, and their states.
ghost use Rattle.std.specs.Prelude.{◌≡◌};

use crate::{RmmRealm, RmmRec};
use granule_addr::Gran;

/// The state of a granule, with the realm's attributes for an RD, and the REC's attributes for a REC. RMM 1.0,
/// RmmGranuleState.
#[derive(Clone, Copy)]
pub enum RmmGranuleState {
    Undelegated,
    Delegated,
    Rd(RmmRealm),
    Rec(RmmRec),
    RecAux,
    Data,
    Rtt,
}

/// The attributes of a granule: its state, and the RD of the realm that owns it, if any. The granule's page is not
/// among them.
#[derive(Clone, Copy)]
pub struct RmmGranule {
    pub state: RmmGranuleState,
    pub owner: Option<Gran>,
}

impl RmmGranuleState {
    ghost use Rattle.rmm_model.specs.Granule.{is_undelegated, is_delegated, realm_of, rec_of};

    pub fn is_undelegated(&self) -> bool
        ensures { result ≡ is_undelegated self.now }
    {
        matches!(self, RmmGranuleState::Undelegated)
    }

    pub fn is_delegated(&self) -> bool
        ensures { result ≡ is_delegated self.now }
    {
        matches!(self, RmmGranuleState::Delegated)
    }

    /// Returns the attributes of the realm, if the granule is an RD.
    pub fn realm(&self) -> Option<RmmRealm>
        ensures { result ≡ realm_of self.now }
    {
        match self {
            RmmGranuleState::Rd(realm) => Some(*realm),
            _ => None,
        }
    }

    /// Returns the attributes of the REC, if the granule is a REC.
    pub fn rec(&self) -> Option<RmmRec>
        ensures { result ≡ rec_of self.now }
    {
        match self {
            RmmGranuleState::Rec(rec) => Some(*rec),
            _ => None,
        }
    }
}
