//! Replies to accepted commands and undos, and the values allocated for commands.
ghost use Rattle.std.specs.Prelude.{◌≡◌};
ghost use Rattle.host_commands.specs.Replies.{reply_of};

use granule_addr::{RecNo, Vmid};
use realm_model::{Act, Kind};

/// The host's reply to an accepted command of a build.
#[derive(Clone, Copy, Debug, PartialEq, Eq)]
pub enum Reply {
    Done,
    /// The first page of the taken block, in the build's own numbering.
    FirstPage(u16),
    /// The byte that a `peek` command read from a page.
    Byte(u8),
    /// The VMID of the realm that was created.
    Vmid(Vmid),
    /// The number of the REC that was created.
    Number(RecNo),
}

/// Returns the host's reply to a command, given the operation that the command asks for. `page_count` is the number of
/// the build's pages before the operation.
pub fn reply_of(page_count: u16, act: &Act) -> Reply
    ensures { result ≡ reply_of page_count act.now }
{
    match act {
        Act::Take { .. } => Reply::FirstPage(page_count),
        Act::Peek { byte, .. } => Reply::Byte(*byte),
        Act::Realm { vmid, .. } => Reply::Vmid(*vmid),
        Act::Rec { number, .. } => Reply::Number(*number),
        _ => Reply::Done,
    }
}

/// The values that the host allocates or reads for a command: a VMID, a REC number and a byte. Each value may be
/// anything for a command that does not use it.
#[derive(Clone, Copy)]
pub struct Allocated {
    /// The lowest free VMID, for a command that creates a realm.
    pub vmid: Vmid,
    /// The realm's next REC number, for a command that creates a REC.
    pub number: RecNo,
    /// The byte that was read, for a command that reads one.
    pub byte: u8,
}

/// The host's reply to a successful undo of a build's operation. `kind` is the kind of the reversed operation, and
/// `left` is the number of operations that the build has open afterwards.
#[derive(Clone, Copy, Debug, PartialEq, Eq)]
pub struct Undone {
    pub kind: Kind,
    pub left: u16,
}
