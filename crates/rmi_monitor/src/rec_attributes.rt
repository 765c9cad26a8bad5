//! The attributes of realm execution contexts (RECs).
ghost use Rattle.std.specs.Prelude.{◌≡◌, ◌≤◌, length};
ghost use Rattle.realm_model.specs.Command.Check as checks;
ghost use Rattle.realm_model.specs.declared.states.RecState.TheVariants.{Ready, Running};

use arrayvec::ArrayVec;
use granule_addr::{Gran, RecNo};
use realm_model::RecState;
use std::marker::Model;

/// The attributes of a realm execution context (REC), other than its granule.
///
/// RMM 1.0, REC attributes.
#[derive(Drop)]
pub struct Rec {
    number: RecNo,
    state: RecState,
    auxiliaries: ArrayVec<Gran, 16>,
}

impl Model for Rec {
    ghost use Rattle.rmi_monitor.specs.Attributes.{RecAttributes};

    ghost Value = { RecAttributes };

    ghost view = { λ r. record {
      number = r.number;
      state = r.state;
      auxiliaries = r.auxiliaries.items;
    } };
}

impl Rec {
    /// Creates a READY REC. `number` is its number in its realm, and `auxiliaries` are its auxiliary granules.
    ///
    /// RMM 1.0, RMI_REC_CREATE.
    pub fn new(number: RecNo, auxiliaries: ArrayVec<Gran, 16>) -> Rec
        ensures { result ≡ record {
          number = number;
          state = Ready;
          auxiliaries = auxiliaries.items;
        } }
    {
        Rec {
            number,
            state: RecState::Ready,
            auxiliaries,
        }
    }

    /// Returns the number of the REC in its realm. RMM 1.0, REC index.
    pub fn number(&self) -> RecNo
        ensures { result ≡ self.now.number }
    {
        self.number
    }

    /// Returns the auxiliary granules of the REC. They are in the sequence given when the REC was created. RMM 1.0,
    /// Auxiliary granules.
    pub fn auxiliaries(&self) -> &[Gran]
        ensures value { result.now ≡ self.now.auxiliaries }
        ensures few { length result.now ≤ 16 }
    {
        self.auxiliaries.as_slice()
    }

    /// Returns the state of the REC, READY or RUNNING. RMM 1.0, REC state.
    pub fn state(&self) -> RecState
        ensures { result ≡ self.now.state }
    {
        self.state
    }

    /// Returns whether the REC is READY.
    pub fn is_ready(&self) -> bool
        ensures { result ≡ checks.is_ready self.now.state }
    {
        matches!(self.state, RecState::Ready)
    }

    /// Sets the state of the REC to RUNNING. The caller checks that the REC is READY, and its realm ACTIVE. RMM 1.0,
    /// RMI_REC_ENTER.
    pub fn enter(&mut self)
        ensures { self.new ≡ record self.old { state = Running } }
    {
        self.state = RecState::Running;
    }

    /// Sets the state of the REC to READY. The caller checks that the REC is RUNNING. RMM 1.0, REC exit.
    pub fn exit(&mut self)
        ensures { self.new ≡ record self.old { state = Ready } }
    {
        self.state = RecState::Ready;
    }
}
