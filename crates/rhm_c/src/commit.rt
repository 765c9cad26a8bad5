//! Functions of the C interface that complete a prepared command or a prepared undo. The RMM has answered, and the host
//! performs the command or the undo if the model's answer is the same.
ghost use Rattle.std.specs.Prelude.{◌≡◌};
ghost use Rattle.std.specs.List.{list_all};
ghost use Rattle.rhm_c.specs.Command as commands;
ghost use Rattle.rhm_c.specs.Answer.{IsOnHandle};
ghost use Rattle.rhm_c.specs.Commit as commits;

use crate::answer::{CallAnswer, NO_BUILD, closed, only, refused};
use crate::asking::{ask, given};
use crate::command::{asked, build_of};
use crate::placed_host::PlainHost;
use crate::undo::undo;
use crate::{HostHandle, RawCommand};
use history_calls::{Actions, Frame, HostAction, actions_asked, actions_back, refusal_of_command};
use host_commands::Refusal;
use std::alloc::Global;

/// The RMM's answer to a prepared RMI call, with the registers X0 and X1. The registers do not matter if no call was to
/// be made.
#[repr(C)]
#[derive(Drop)]
pub struct FirmwareAnswer {
    pub x0: u64,
    pub x1: u64,
}

// The X0 that the RMM of the crate `rmm` returns from the entry of a REC that keeps running.
const RUNNING: u64 = 0xFFFF_FFFF_FFFF_FFFE;

// The statuses for an X0 that is not the model's, and for an X1 that is not the known output.
const DIVERGED: u64 = 16;

const OTHER_OUTPUT: u64 = 17;

// The answer to a commit with an X0 other than `word`, which is the model's X0.
fn diverged(word: u64) -> CallAnswer
    ensures { result ≡ commits.diverged word }
{
    CallAnswer {
        status: DIVERGED,
        value: word,
    }
}

// Whether an RMM that answers with `x0` has performed an operation. An operation that is no call counts as performed.
fn is_performed(action: &HostAction, x0: u64) -> bool
    ensures { result ≡ commits.is_performed x0 action.now }
{
    match action {
        HostAction::Call { .. } => x0 % 256 == 0,
        HostAction::Enter { .. } => x0 % 256 == 0 || x0 == RUNNING,
        _ => true,
    }
}

// Whether `x1` is the known output of an operation, or the operation has no known output.
fn is_output(action: &HostAction, x1: u64) -> bool
    ensures { result ≡ commits.is_output x1 action.now }
{
    match action {
        HostAction::Call {
            x1: Some(known),
            ..
        } => x1 == *known,
        _ => true,
    }
}

// Whether an RMM that answers with `x0` has performed each of the operations.
fn are_performed(actions: &[HostAction], x0: u64) -> bool
    ensures { result ≡ list_all (commits.is_performed x0) actions.now }
{
    actions.iter().all(|action| is_performed(action, x0))
}

// Whether `x1` is the output of each operation that has a known output.
fn are_outputs(actions: &[HostAction], x1: u64) -> bool
    ensures { result ≡ list_all (commits.is_output x1) actions.now }
{
    actions.iter().all(|action| is_output(action, x1))
}

// Checks that the RMM's answer agrees with the model's, for operations that the model performs. The error is the call's
// answer.
fn check_performed(actions: &[HostAction], answer: &FirmwareAnswer) -> Result<(), CallAnswer>
    ensures { result ≡ commits.check_performed answer.now actions.now }
{
    if !are_performed(actions, answer.x0) {
        return Err(diverged(0));
    }
    if !are_outputs(actions, answer.x1) {
        return Err(only(OTHER_OUTPUT));
    }
    Ok(())
}

// The answer to the commit of a call that the model refuses, by the RMM's X0.
fn check_refused(refusal: &Refusal, x0: u64) -> CallAnswer
    ensures { result ≡ commits.check_refused x0 refusal.now }
{
    match refusal {
        Refusal::Rmi(rmi) if x0 != rmi.word() => diverged(rmi.word()),
        _ => refused(refusal),
    }
}

// Checks that the RMM's answer and the host's refusal, if any, allow the commit of a prepared call. The error is the
// call's answer.
fn check(
    prepared: Result<Actions, Refusal>,
    refusal: Option<Refusal>,
    answer: &FirmwareAnswer,
) -> Result<(), CallAnswer>
    ensures { result ≡ commits.committable answer.now refusal prepared }
{
    match prepared {
        Ok(actions) => match refusal {
            Some(refusal) => Err(check_refused(&refusal, answer.x0)),
            None => check_performed(actions.as_slice(), answer),
        },
        Err(refusal) => Err(refused(&refusal)),
    }
}

// Commits the command that C asks for.
fn commit(
    frame: Frame,
    host: &mut PlainHost,
    build: u64,
    raw: &RawCommand,
    answer: &FirmwareAnswer,
) -> CallAnswer
    ensures { commits.IsCommitted raw.now answer.now (commands.command_asked build raw.now) frame host.old result host.new }
{
    let (build, cmd) = match asked(build, raw) {
        Ok(asked) => asked,
        Err(status) => return only(status),
    };
    let prepared = actions_asked(frame, host, build, (raw.run % 64) as u16, &cmd);
    match check(prepared, refusal_of_command(host, build, &cmd), answer) {
        Ok(()) => ask(host, build, &cmd),
        Err(answer) => answer,
    }
}

// Commits an undo of the build with the given number.
fn commit_undo(
    frame: Frame,
    host: &mut PlainHost,
    build: u64,
    answer: &FirmwareAnswer,
) -> CallAnswer
    ensures { commits.IsUndoCommitted answer.now (commands.build_in build) frame host.old result host.new }
{
    let Some(build) = build_of(build) else {
        return only(NO_BUILD);
    };
    match check(actions_back(frame, host, build), None, answer) {
        Ok(()) => undo(host, build),
        Err(answer) => answer,
    }
}

/// Performs a prepared command of a build if the RMM answered as the model predicts. `answer` has the registers of the
/// RMM's answer. If they agree with the model's answer, does and returns what `rhm_ask` would.
///
/// Else nothing changes. 16 means that X0 differs from the model's X0, which is in `value`. That is 0 if the model
/// performs the call, or else the word of its refusal. 17 means that the RMM and the model perform the call, but X1 is
/// not the output that the host knows.
#[unsafe(no_mangle)]
pub extern "C" fn rhm_commit(
    alloc: Global,
    handle: &mut HostHandle,
    build: u64,
    command: &RawCommand,
    answer: &FirmwareAnswer,
    value: &mut u64,
) -> u64
    ensures { IsOnHandle (commits.IsCommitted command.now answer.now (commands.command_asked build command.now)) handle.old.held.host
        (record { status = result; value = value.new }) handle.new.held.host }
{
    let Some(mut placed) = handle.take(alloc) else {
        return given(closed(), value);
    };
    let committed = commit(placed.frame, &mut placed.host, build, command, answer);
    handle.give(placed);
    given(committed, value)
}

/// Performs a prepared undo of a build if the RMM answered as the model predicts. `rhm_commit` commits a command in the
/// same way. Returns 0, with the number of operations that are left open in `value`.
#[unsafe(no_mangle)]
pub extern "C" fn rhm_commit_undo(
    alloc: Global,
    handle: &mut HostHandle,
    build: u64,
    answer: &FirmwareAnswer,
    value: &mut u64,
) -> u64
    ensures { IsOnHandle (commits.IsUndoCommitted answer.now (commands.build_in build)) handle.old.held.host
        (record { status = result; value = value.new }) handle.new.held.host }
{
    let Some(mut placed) = handle.take(alloc) else {
        return given(closed(), value);
    };
    let committed = commit_undo(placed.frame, &mut placed.host, build, answer);
    handle.give(placed);
    given(committed, value)
}
