//! The types for the operations and events of the realm model. An event is an accepted operation and its build.
ghost use Rattle.std.specs.Prelude.{◌≡◌, ◌↔◌, true};
ghost use Rattle.realm_model.specs.Kind.{act_kind};

use arrayvec::ArrayVec;
use granule_addr::{BuildId, Gran, IpaGran, Level, Order, PageOff, RecNo, Root, Vmid};

/// An operation: an accepted command, or the lease or return of a block, with its operands and the granules, VMID, REC
/// number or byte that its build got.
///
/// `UnTake`, `Undelegate`, `UnRealm`, `UnRtt`, `UnData` and `UnRec` are reverses. `UnData` is the reverse of `Data` and
/// of `Unknown`.
#[derive(PartialEq, Eq, Drop)]
pub enum Act {
    /// The lease of a block of free granules to a build.
    Take {
        order: Order,
        first: Gran,
    },
    /// The return of a leased block by its build. The block is cleared.
    UnTake {
        order: Order,
        first: Gran,
    },
    /// The host's write of one value to all bytes of a page.
    Fill {
        granule: Gran,
        value: u8,
    },
    /// The host's read of a byte of a page.
    Peek {
        granule: Gran,
        offset: PageOff,
        byte: u8,
    },
    /// The command RMI_GRANULE_DELEGATE.
    Delegate {
        granule: Gran,
    },
    /// The command RMI_GRANULE_UNDELEGATE.
    Undelegate {
        granule: Gran,
    },
    /// The command RMI_REALM_CREATE.
    Realm {
        rd: Gran,
        root: Root,
        vmid: Vmid,
    },
    /// The command RMI_REALM_DESTROY.
    UnRealm {
        rd: Gran,
        root: Root,
        vmid: Vmid,
    },
    /// The command RMI_REALM_ACTIVATE.
    Activate,
    /// The command RMI_RTT_CREATE.
    Rtt {
        granule: Gran,
        ipa: IpaGran,
        level: Level,
    },
    /// The command RMI_RTT_DESTROY.
    UnRtt {
        granule: Gran,
        ipa: IpaGran,
        level: Level,
    },
    /// The command RMI_RTT_INIT_RIPAS, for a range of `count` pages.
    Ripas {
        ipa: IpaGran,
        count: u16,
    },
    /// The command RMI_DATA_CREATE.
    Data {
        granule: Gran,
        ipa: IpaGran,
        source: Gran,
    },
    /// The command RMI_DATA_CREATE_UNKNOWN.
    Unknown {
        granule: Gran,
        ipa: IpaGran,
    },
    /// The command RMI_DATA_DESTROY.
    UnData {
        granule: Gran,
        ipa: IpaGran,
    },
    /// The command RMI_REC_CREATE.
    Rec {
        granule: Gran,
        auxiliaries: ArrayVec<Gran, 16>,
        number: RecNo,
    },
    /// The command RMI_REC_DESTROY.
    UnRec {
        granule: Gran,
        auxiliaries: ArrayVec<Gran, 16>,
        number: RecNo,
    },
    /// The command RMI_REC_ENTER, up to the point at which the REC runs.
    Enter {
        number: RecNo,
    },
    /// The exit of a running REC, which becomes READY.
    Exit {
        number: RecNo,
    },
    /// A running REC's write of a byte of its realm's memory.
    Poke {
        number: RecNo,
        ipa: IpaGran,
        offset: PageOff,
        value: u8,
    },
}

/// An accepted operation and its build.
#[derive(PartialEq, Eq, Drop)]
pub struct Event {
    pub build: BuildId,
    pub act: Act,
}

impl Event {
    /// Returns whether two events have the same operation and the same build.
    pub fn is_same(&self, event: &Event) -> bool
        ensures { (result ≡ true) ↔ (self.now ≡ event.now) }
    {
        self == event
    }
}

/// Returns a copy of a list of granules. No memory is allocated.
pub fn clone_granules(granules: &ArrayVec<Gran, 16>) -> ArrayVec<Gran, 16>
    ensures { result ≡ granules.now }
{
    let mut clone = ArrayVec::new();
    for granule in granules.as_slice() {
        clone.push(*granule);
    }
    clone
}

impl Act {
    ghost use Rattle.std.specs.Prelude.{Some, None, if◌then◌else◌};
    ghost use Rattle.realm_model.specs.Act as acts;

    /// Returns whether two operations have the same kind, granules and numbers.
    pub fn is_same(&self, act: &Act) -> bool
        ensures { (result ≡ true) ↔ (self.now ≡ act.now) }
    {
        self == act
    }

    /// Returns a copy of the operation. No memory is allocated.
    #[tactic(auto, unfolding(crate::specs::Act::reverse_of))]
    pub fn clone(&self) -> Act
        ensures { result ≡ self.now }
    {
        if let Some(paired) = self.clone_paired() {
            return paired;
        }
        match *self {
            Act::UnTake { order, first } => Act::UnTake { order, first },
            Act::Fill { granule, value } => Act::Fill { granule, value },
            Act::Peek {
                granule,
                offset,
                byte,
            } => Act::Peek {
                granule,
                offset,
                byte,
            },
            Act::Undelegate { granule } => Act::Undelegate { granule },
            Act::UnRealm { rd, root, vmid } => Act::UnRealm { rd, root, vmid },
            Act::Activate => Act::Activate,
            Act::UnRtt {
                granule,
                ipa,
                level,
            } => Act::UnRtt {
                granule,
                ipa,
                level,
            },
            Act::Ripas { ipa, count } => Act::Ripas { ipa, count },
            Act::UnData { granule, ipa } => Act::UnData { granule, ipa },
            Act::UnRec {
                granule,
                ref auxiliaries,
                number,
            } => Act::UnRec {
                granule,
                auxiliaries: clone_granules(auxiliaries),
                number,
            },
            Act::Enter { number } => Act::Enter { number },
            Act::Exit { number } => Act::Exit { number },
            Act::Poke {
                number,
                ipa,
                offset,
                value,
            } => Act::Poke {
                number,
                ipa,
                offset,
                value,
            },
            _ => unreachable!(),
        }
    }

    // A copy of the operation, if it has a reverse.
    #[tactic(auto, unfolding(crate::specs::Act::reverse_of))]
    fn clone_paired(&self) -> Option<Act>
        ensures { result ≡ (if acts.is_paired self.now then Some self.now else None) }
    {
        let paired = match *self {
            Act::Take { order, first } => Act::Take { order, first },
            Act::Delegate { granule } => Act::Delegate { granule },
            Act::Realm { rd, root, vmid } => Act::Realm { rd, root, vmid },
            Act::Rtt {
                granule,
                ipa,
                level,
            } => Act::Rtt {
                granule,
                ipa,
                level,
            },
            Act::Data {
                granule,
                ipa,
                source,
            } => Act::Data {
                granule,
                ipa,
                source,
            },
            Act::Unknown { granule, ipa } => Act::Unknown { granule, ipa },
            Act::Rec {
                granule,
                ref auxiliaries,
                number,
            } => Act::Rec {
                granule,
                auxiliaries: clone_granules(auxiliaries),
                number,
            },
            _ => return None,
        };
        Some(paired)
    }

    /// Returns whether the operation has a reverse.
    #[tactic(auto, using(crate::proofs::PairedKinds::paired_by_kind))]
    pub fn is_paired(&self) -> bool
        ensures { result ≡ acts.is_paired self.now }
    {
        kind_of(self).is_some()
    }

    /// Returns whether the operation is a reverse operation, as UNDELEGATE is of DELEGATE.
    #[tactic(auto, unfolding(crate::specs::Act::is_reverse))]
    pub fn is_reverse(&self) -> bool
        ensures { result ≡ acts.is_reverse self.now }
    {
        matches!(
            self,
            Act::UnTake { .. }
                | Act::Undelegate { .. }
                | Act::UnRealm { .. }
                | Act::UnRtt { .. }
                | Act::UnData { .. }
                | Act::UnRec { .. }
        )
    }
}

/// The RD of a build's realm, and the granule of the REC that an operation names. Each is `None` if there is none.
/// Given both, the RMM searches for neither. The value of `rec` does not matter to an operation that names no REC.
#[derive(Clone, Copy)]
pub struct RealmAndRec {
    pub realm: Option<Gran>,
    pub rec: Option<Gran>,
}

/// The kind of an operation that can be reversed.
#[derive(Clone, Copy, Debug, PartialEq, Eq)]
pub enum Kind {
    Take,
    Delegate,
    Realm,
    Rtt,
    Data,
    Unknown,
    Rec,
}

/// Returns the kind of an operation, or `None` if the operation has no reverse.
pub fn kind_of(act: &Act) -> Option<Kind>
    ensures { result ≡ act_kind act.now }
{
    match act {
        Act::Take { .. } => Some(Kind::Take),
        Act::Delegate { .. } => Some(Kind::Delegate),
        Act::Realm { .. } => Some(Kind::Realm),
        Act::Rtt { .. } => Some(Kind::Rtt),
        Act::Data { .. } => Some(Kind::Data),
        Act::Unknown { .. } => Some(Kind::Unknown),
        Act::Rec { .. } => Some(Kind::Rec),
        _ => None,
    }
}
