//! Records of granules' attributes, laid out so that a change of state writes only a few bytes.
ghost use Rattle.std.specs.Prelude.{◌≡◌, unwrap_or};
ghost use Rattle.rmm_model.specs.declared.granule.RmmGranuleState.TheVariants.{Undelegated, Rec as IsRec};
ghost use Rattle.rmm_model.specs.Granule.{is_undelegated, is_delegated, realm_of, rec_of, of_no_realm};
ghost use Rattle.rmm_model.specs.Rec.{no_rec};
ghost use Rattle.rmm_granules.specs.RealmEdits.{edited_rd};
ghost use Rattle.rmm_granules.specs.RecEdits.{edited};

use crate::realm_edit::RealmEdit;
use crate::rec_edit::RecEdit;
use granule_addr::Gran;
use rmi_abi::HashAlgorithm;
use rmm_model::{RmmGranule, RmmGranuleState, RmmRealm, RmmRealmState, RmmRec};
use std::marker::Model;

/// The kind of a granule's state, without the attributes of a realm or a REC. RMM 1.0, RmmGranuleState.
#[derive(Clone, Copy)]
pub(crate) enum GranuleKind {
    Undelegated,
    Delegated,
    Rd,
    Rec,
    RecAux,
    Data,
    Rtt,
}

/// The record that `Granules` keeps of a granule, with the granule's attributes as its logical view.
///
/// It has attributes of a REC and of a realm in addition to the kind of the state. Those that the kind does not have
/// are left as they are. So a state without attributes is set by writing its kind and the owner. RMI_REC_ENTER reads
/// the kind and the attributes of a REC, so these two lie side by side.
#[derive(Drop)]
pub(crate) struct GranuleRecord {
    kind: GranuleKind,
    owner: Option<Gran>,
    rec: RmmRec,
    realm: RmmRealm,
}

impl Model for GranuleRecord {
    ghost use Rattle.rmm_model.specs.declared.granule.RmmGranule.{RmmGranule};

    ghost Value = { RmmGranule };

    ghost use Rattle.rmm_granules.specs.Records.{recorded_state};

    ghost view = { λ r. record { state = recorded_state r.kind r.realm r.rec; owner = r.owner } };
}

// Returns realm attributes for the record of a granule that is not an RD. Nothing reads them.
fn no_realm() -> RmmRealm {
    RmmRealm {
        state: RmmRealmState::New,
        hash: HashAlgorithm::Sha256,
        rim: [0; 64],
        s2sz: 0,
        start_level: 0,
        first_table: Gran::from_number(0),
        table_count: 0,
        vmid: 0,
        next_rec: 0,
        rec_count: 0,
    }
}

impl GranuleRecord {
    /// Creates the record of an UNDELEGATED granule.
    pub(crate) fn undelegated() -> GranuleRecord
        ensures { result ≡ of_no_realm Undelegated }
    {
        GranuleRecord {
            kind: GranuleKind::Undelegated,
            owner: None,
            rec: RmmRec::new(false, 0),
            realm: no_realm(),
        }
    }

    /// Returns whether the granule is UNDELEGATED.
    pub(crate) fn is_undelegated(&self) -> bool
        ensures { result ≡ is_undelegated self.now.state }
    {
        matches!(self.kind, GranuleKind::Undelegated)
    }

    /// Returns whether the granule is DELEGATED.
    pub(crate) fn is_delegated(&self) -> bool
        ensures { result ≡ is_delegated self.now.state }
    {
        matches!(self.kind, GranuleKind::Delegated)
    }

    /// Returns the state of the granule.
    pub(crate) fn state(&self) -> RmmGranuleState
        ensures { result ≡ self.now.state }
    {
        match self.kind {
            GranuleKind::Undelegated => RmmGranuleState::Undelegated,
            GranuleKind::Delegated => RmmGranuleState::Delegated,
            GranuleKind::Rd => RmmGranuleState::Rd(self.realm),
            GranuleKind::Rec => RmmGranuleState::Rec(self.rec),
            GranuleKind::RecAux => RmmGranuleState::RecAux,
            GranuleKind::Data => RmmGranuleState::Data,
            GranuleKind::Rtt => RmmGranuleState::Rtt,
        }
    }

    /// Returns the attributes of the realm, or `None` for a granule that is not an RD.
    pub(crate) fn realm(&self) -> Option<RmmRealm>
        ensures { result ≡ realm_of self.now.state }
    {
        match self.kind {
            GranuleKind::Rd => Some(self.realm),
            _ => None,
        }
    }

    /// Returns the attributes of the REC, or `None` for a granule that is not a REC.
    pub(crate) fn rec(&self) -> Option<RmmRec>
        ensures { result ≡ rec_of self.now.state }
    {
        match self.kind {
            GranuleKind::Rec => Some(self.rec),
            _ => None,
        }
    }

    /// Returns the RD of the realm that owns the granule, or `None` if no realm owns it.
    pub(crate) fn owner(&self) -> Option<Gran>
        ensures { result ≡ self.now.owner }
    {
        self.owner
    }

    /// Sets the state and the owner of the granule.
    #[inline(always)]
    pub(crate) fn set(&mut self, kept: RmmGranule)
        ensures { self.new ≡ kept }
    {
        self.owner = kept.owner;
        match kept.state {
            RmmGranuleState::Undelegated => self.kind = GranuleKind::Undelegated,
            RmmGranuleState::Delegated => self.kind = GranuleKind::Delegated,
            RmmGranuleState::Rd(realm) => {
                self.kind = GranuleKind::Rd;
                self.realm = realm;
            }
            RmmGranuleState::Rec(rec) => {
                self.kind = GranuleKind::Rec;
                self.rec = rec;
            }
            RmmGranuleState::RecAux => self.kind = GranuleKind::RecAux,
            RmmGranuleState::Data => self.kind = GranuleKind::Data,
            RmmGranuleState::Rtt => self.kind = GranuleKind::Rtt,
        }
    }

    /// Edits the realm of an RD in place. A granule that is not an RD stays as it is.
    #[inline(always)]
    pub(crate) fn edit_realm(&mut self, edit: RealmEdit)
        ensures { self.new ≡ edited_rd edit self.old (realm_of self.old.state) }
    {
        if let GranuleKind::Rd = self.kind {
            edit.make(&mut self.realm);
            self.owner = None;
        }
    }

    /// Edits the attributes of a REC in place. A granule that is not a REC first becomes one, with the attributes of a
    /// new REC.
    #[inline(always)]
    pub(crate) fn edit_rec(&mut self, edit: RecEdit)
        ensures { self.new
            ≡ record self.old { state = IsRec (edited edit (unwrap_or (rec_of self.old.state) no_rec)) } }
    {
        match self.kind {
            GranuleKind::Rec => {}
            _ => {
                self.kind = GranuleKind::Rec;
                self.rec = RmmRec::new(false, 0);
            }
        }
        edit.make(&mut self.rec);
    }
}
