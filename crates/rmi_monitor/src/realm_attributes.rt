//! Realm descriptors, which hold the attributes of realms.
ghost use Rattle.std.specs.Prelude.{◌≡◌, ◌+◌, ◌<◌};
ghost use Rattle.std.specs.FinMap.{empty};
ghost use Rattle.realm_model.specs.Rows.{root_rows};
ghost use Rattle.realm_model.specs.Measurement.{measurement_after};
ghost use Rattle.realm_model.specs.Command.Check as checks;
ghost use Rattle.realm_model.specs.Command.Realm.{new_realm};
ghost use Rattle.realm_model.specs.declared.states.RealmState.TheVariants.{Active};
ghost use Rattle.rmi_monitor.specs.Attributes.{realm_row};

use crate::extend_measurement;
use granule_addr::{RecNo, Root, Vmid};
use realm_model::RealmState;
use std::marker::Model;

/// The descriptor of a realm. It has the realm's state, VMID, starting tables and measurement, and the number of the
/// realm's next REC.
///
/// RMM 1.0, Realm attributes.
#[derive(Drop)]
pub struct RealmDesc {
    state: RealmState,
    vmid: Vmid,
    root: Root,
    next: RecNo,
    measurement: [u8; 32],
}

impl Model for RealmDesc {
    ghost use Rattle.rmi_monitor.specs.Attributes.{RealmAttributes};

    ghost Value = { RealmAttributes };

    ghost view = { λ d. record {
      state = d.state;
      vmid = d.vmid;
      root = d.root;
      next = d.next;
      measurement = d.measurement;
    } };
}

impl RealmDesc {
    /// Creates the descriptor of a new realm. The realm is NEW and has no RECs. Its measurement is 32 zero bytes.
    ///
    /// `root` has its starting tables. RMM 1.0, RMI_REALM_CREATE.
    #[tactic(auto, unfolding(realm_model::specs::Measurement::zero_measurement, realm_model::specs::Command::Realm::new_realm))]
    pub fn new(vmid: Vmid, root: Root) -> RealmDesc
        ensures row { realm_row result empty (root_rows root.width) ≡ new_realm vmid root }
    {
        RealmDesc {
            state: RealmState::New,
            vmid,
            root,
            next: RecNo::new(0),
            measurement: [0; 32],
        }
    }

    /// Returns whether the realm is NEW.
    pub fn is_new(&self) -> bool
        ensures { result ≡ checks.is_new self.now.state }
    {
        matches!(self.state, RealmState::New)
    }

    /// Returns the state of the realm, NEW or ACTIVE. RMM 1.0, Realm state, without SYSTEM_OFF.
    pub fn state(&self) -> RealmState
        ensures { result ≡ self.now.state }
    {
        self.state
    }

    /// Sets the state of the realm to ACTIVE. The caller checks that it is NEW. RMM 1.0, RMI_REALM_ACTIVATE.
    pub fn activate(&mut self)
        ensures { self.new ≡ record self.old { state = Active } }
    {
        self.state = RealmState::Active;
    }

    /// Returns the starting tables and the IPA width of the realm.
    pub fn root(&self) -> Root
        ensures { result ≡ self.now.root }
    {
        self.root
    }

    /// Returns the realm's initial measurement, as extended so far. RMM 1.0, Realm measurement.
    pub fn measurement(&self) -> &[u8; 32]
        ensures { result.now ≡ self.now.measurement }
    {
        &self.measurement
    }

    /// Extends the realm's measurement with the given bytes. RMM 1.0, Realm measurement.
    pub fn measure(&mut self, event: &[u8])
        ensures { self.new ≡ record self.old {
          measurement = measurement_after self.old.measurement event.now;
        } }
    {
        self.measurement = extend_measurement(&self.measurement, event);
    }

    /// Returns the number that the realm's next REC gets. RMM 1.0, REC index.
    pub fn next_number(&self) -> RecNo
        ensures { result ≡ self.now.next }
    {
        self.next
    }

    /// Returns the realm's next REC number, and increments the stored number.
    ///
    /// RMM 1.0, RMI_REC_CREATE.
    pub fn take_rec_number(&mut self) -> RecNo
        requires { self.old.next < 65535 }
        ensures number { result ≡ self.old.next }
        ensures raised { self.new ≡ record self.old { next = self.old.next + 1 } }
    {
        let number = self.next;
        self.next = RecNo::new(number.number() + 1);
        number
    }

    /// Returns the VMID of the realm.
    pub fn vmid(&self) -> Vmid
        ensures { result ≡ self.now.vmid }
    {
        self.vmid
    }
}
