//! Functions of the C interface that list the RMM operations for a command or an undo. The hypervisor performs these
//! operations on its RMM. The functions change nothing.
ghost use Rattle.std.specs.Prelude.{◌≡◌};
ghost use Rattle.rhm_c.specs.Preparing as preparing;

use crate::action::raw_actions;
use crate::answer::{CLOSED, NO_BUILD, refusal_status, refusal_value};
use crate::command::{asked, build_of};
use crate::placed_host::PlainHost;
use crate::{HostHandle, RawActions, RawCommand};
use history_calls::{Actions, Frame, actions_asked, actions_back, refusal_of_command};
use host_commands::Refusal;
use std::alloc::Global;

// The model's X0: the word of the refusal, or 0 if there is none.
fn word_of(refusal: &Option<Refusal>) -> u64
    ensures { result ≡ preparing.word_of refusal.now }
{
    match refusal {
        Some(refusal) => refusal_value(refusal),
        None => 0,
    }
}

// Writes the operations and the model's X0, or returns the number of the refusal.
fn write(actions: Result<Actions, Refusal>, refusal: Option<Refusal>, into: &mut RawActions) -> u64
    ensures { (result, into.new) ≡ preparing.prepared_or_refused actions refusal into.old }
{
    match actions {
        Ok(actions) => {
            *into = raw_actions(actions.as_slice(), word_of(&refusal));
            0
        }
        Err(refusal) => refusal_status(&refusal),
    }
}

// Writes the operations for the command that C asks for, and returns the status.
fn prepare(
    frame: Frame,
    host: &PlainHost,
    build: u64,
    raw: &RawCommand,
    into: &mut RawActions,
) -> u64
    ensures { (result, into.new) ≡ preparing.prepared build raw.now into.old frame host.now }
{
    match asked(build, raw) {
        Ok((build, cmd)) => {
            write(
                actions_asked(frame, host, build, (raw.run % 64) as u16, &cmd),
                refusal_of_command(host, build, &cmd),
                into,
            )
        }
        Err(status) => status,
    }
}

// Writes the operations for an undo of the build with the given number, and returns the status.
fn prepare_undo(frame: Frame, host: &PlainHost, build: u64, into: &mut RawActions) -> u64
    ensures { (result, into.new) ≡ preparing.prepared_undo build into.old frame host.now }
{
    match build_of(build) {
        Some(build) => write(actions_back(frame, host, build), None, into),
        None => NO_BUILD,
    }
}

/// Lists the RMM operations needed to perform a build's command, and changes nothing. Returns 0, with the operations
/// that the hypervisor performs on its RMM, in sequence; a Take needs none. `expected` is X0 of the model: 0, or the
/// word of its refusal.
///
/// Else `actions` stays as it is. 1 to 12 is the number of the refusal that the host gives before it calls the RMM. 13
/// means that no RMM call has such an operand, no such REC exists, a page to fill or read is not UNDELEGATED, or a REC
/// to exit is READY. 14 means that the handle is closed, and 15 that the structure encodes no command.
#[unsafe(no_mangle)]
pub extern "C" fn rhm_prepare(
    alloc: Global,
    handle: &mut HostHandle,
    build: u64,
    command: &RawCommand,
    actions: &mut RawActions,
) -> u64
    ensures prepared { (result, actions.new) ≡ preparing.on_handle (preparing.prepared build command.now) actions.old handle.old.held.host }
    ensures same { handle.new.held.host ≡ handle.old.held.host }
{
    let Some(placed) = handle.take(alloc) else {
        return CLOSED;
    };
    let status = prepare(placed.frame, &placed.host, build, command, actions);
    handle.give(placed);
    status
}

/// Lists the RMM operations needed to undo a build's newest open operation, and changes nothing. That is the last
/// reversible one that is not undone yet. `rhm_prepare` prepares a command in the same way. The refusals are 1, 7 and
/// 8, and 14 is a closed handle.
#[unsafe(no_mangle)]
pub extern "C" fn rhm_prepare_undo(
    alloc: Global,
    handle: &mut HostHandle,
    build: u64,
    actions: &mut RawActions,
) -> u64
    ensures prepared { (result, actions.new) ≡ preparing.on_handle (preparing.prepared_undo build) actions.old handle.old.held.host }
    ensures same { handle.new.held.host ≡ handle.old.held.host }
{
    let Some(placed) = handle.take(alloc) else {
        return CLOSED;
    };
    let status = prepare_undo(placed.frame, &placed.host, build, actions);
    handle.give(placed);
    status
}
