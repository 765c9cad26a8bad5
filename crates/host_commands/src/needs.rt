//! The table of the requirements that each command has on its build.
ghost use Rattle.std.specs.Prelude.{◌≡◌, ◌≤◌};
ghost use Rattle.host_commands.specs.Needs.{needs_of, needs_but_vmid, tables_named};

use crate::Cmd;
use granule_addr::IpaWidth;

/// The requirement of a command on the realm of its build: the build must have a realm, must have none, or may have
/// one.
#[derive(Clone, Copy)]
pub enum RealmRequirement {
    Either,
    Realm,
    NoRealm,
}

/// The requirements of a command on its build and on free VMIDs. They are one row of a table of all commands.
#[derive(Clone, Copy)]
pub struct Needs {
    /// The requirement on the build's realm.
    pub realm: RealmRequirement,
    /// Whether an undo can reverse the command's operation. The operation then stays open, and needs an entry in the
    /// journal.
    pub paired: bool,
    /// The number of history entries that the command takes. They come from the build's room. The event takes one, and
    /// a later reverse or exit another. The command `exit` takes none: `enter` took the entry for the exit.
    pub room: u16,
    /// Whether the command needs a free VMID for a new realm.
    pub vmid: bool,
}

/// Returns the number of starting tables that a `realm` command names. `width` is the IPA width that the command names.
/// The result is 1 if no realm can have that width.
pub fn tables_named(width: u8) -> u16
    ensures value { result ≡ tables_named width }
    ensures few { result ≤ 16 }
{
    IpaWidth::new(width).map_or(1, |width| width.start_count())
}

// The requirements of a command that needs no VMID.
fn but_vmid(realm: RealmRequirement, paired: bool, room: u16) -> Needs
    ensures { result ≡ needs_but_vmid realm paired room }
{
    Needs {
        realm,
        paired,
        room,
        vmid: false,
    }
}

impl Cmd {
    /// Returns the command's requirements, from the table of all commands.
    #[tactic(auto, unfolding(crate::specs::Needs::needs_of))]
    pub fn needs(&self) -> Needs
        ensures { result ≡ needs_of self.now }
    {
        match self {
            Cmd::Take { .. } | Cmd::Delegate { .. } => but_vmid(RealmRequirement::Either, true, 2),
            Cmd::Fill { .. } | Cmd::Peek { .. } => but_vmid(RealmRequirement::Either, false, 1),
            Cmd::Realm { .. } => Needs {
                realm: RealmRequirement::NoRealm,
                paired: true,
                room: 2,
                vmid: true,
            },
            Cmd::Rtt { .. } | Cmd::Data { .. } | Cmd::Unknown { .. } | Cmd::Rec { .. } => {
                but_vmid(RealmRequirement::Realm, true, 2)
            }
            Cmd::Ripas { .. } | Cmd::Activate | Cmd::Poke { .. } => but_vmid(
                RealmRequirement::Realm,
                false,
                1,
            ),
            Cmd::Enter { .. } => but_vmid(RealmRequirement::Realm, false, 2),
            Cmd::Exit { .. } => but_vmid(RealmRequirement::Realm, false, 0),
        }
    }
}
