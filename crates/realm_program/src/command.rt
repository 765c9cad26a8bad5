//! Checks whether a command and the host's reply to it match an event.
ghost use Rattle.std.specs.Prelude.{◌≡◌, ◌↔◌, length, IsTrue};
ghost use Rattle.std.specs.List.{flat_map};
ghost use Rattle.host_commands.specs.Replies.{reply_of};
ghost use Rattle.realm_model.specs.History.{pages_held};
ghost use Rattle.realm_program.specs.Fitting.{IsMadeOf, IsFittingAct, IsFittingReply};
ghost use Rattle.realm_program.specs.Allocation.{allocated_in};

use crate::pages::{granules_of, has_pages};
use granule_addr::{RecNo, Vmid};
use host_commands::{Allocated, Cmd, Reply, act_of, reply_of};
use realm_model::Act;

// The values that were allocated for an operation, with defaults for those that the operation does not hold.
fn allocated_for(act: &Act) -> Allocated
    ensures { result ≡ allocated_in act.now }
{
    let mut allocated = Allocated {
        vmid: Vmid::new(1).unwrap(),
        number: RecNo::new(0),
        byte: 0,
    };
    match act {
        Act::Realm { vmid, .. } => allocated.vmid = *vmid,
        Act::Rec { number, .. } => allocated.number = *number,
        Act::Peek { byte, .. } => allocated.byte = *byte,
        _ => {}
    }
    allocated
}

// Whether `act` is the operation of `cmd` on the granules of the pages that `cmd` names.
fn is_act_on_pages(opened: &[Act], cmd: &Cmd, act: &Act) -> bool
    ensures { IsTrue result ↔ IsMadeOf (flat_map pages_held opened.now) cmd.now act.now }
{
    let Some(granules) = granules_of(opened, cmd) else {
        return false;
    };
    match act_of(cmd, &granules, allocated_for(act)) {
        Some(made) => made.is_same(act),
        None => false,
    }
}

// Whether `act` is an operation that `cmd` can perform. A Take may get any block of its order.
fn is_act_of(opened: &[Act], cmd: &Cmd, act: &Act) -> bool
    ensures { IsTrue result ↔ IsFittingAct (flat_map pages_held opened.now) cmd.now act.now }
{
    match (cmd, act) {
        (Cmd::Take { order }, Act::Take { order: taken, .. }) => *order == taken.number(),
        (Cmd::Take { .. }, _) => false,
        _ => is_act_on_pages(opened, cmd, act),
    }
}

// Whether `reply` is the reply to the operation `act`. The reply to a Take is the number of pages that the build had
// before.
fn is_reply_to(opened: &[Act], reply: &Reply, act: &Act) -> bool
    ensures { IsTrue result ↔ (reply.now ≡ reply_of (length (flat_map pages_held opened.now)) act.now) }
{
    match (act, reply) {
        (Act::Take { .. }, Reply::FirstPage(first)) => has_pages(opened, *first),
        (Act::Take { .. }, _) => false,
        _ => *reply == reply_of(0, act),
    }
}

/// Returns whether `act` can be the operation of a build's command `cmd`, with `reply` as the reply to the command. The
/// build's open operations are `opened`.
pub(crate) fn command_and_reply_match(opened: &[Act], cmd: &Cmd, reply: &Reply, act: &Act) -> bool
    ensures { IsTrue result ↔ IsFittingReply (flat_map pages_held opened.now) cmd.now reply.now act.now }
{
    is_act_of(opened, cmd, act) && is_reply_to(opened, reply, act)
}
