//! Functions of the C interface that perform a command in one call.
ghost use Rattle.std.specs.Prelude.{◌≡◌};
ghost use Rattle.realm_host.specs.Call.{Ask};
ghost use Rattle.rhm_c.specs.Command as commands;
ghost use Rattle.rhm_c.specs.Answer.{answered_as, IsAnsweredAs, IsCommanded, IsOnHandle};

use crate::answer::{CallAnswer, closed, done, only, refused, reply_value};
use crate::command::asked;
use crate::placed_host::PlainHost;
use crate::{HostHandle, RawCommand};
use granule_addr::BuildId;
use host_commands::Cmd;
use std::alloc::Global;

/// Performs a build's command on a host, and returns the reply or the refusal.
pub(crate) fn ask(host: &mut PlainHost, build: BuildId, cmd: &Cmd) -> CallAnswer
    ensures { IsAnsweredAs answered_as host.old build (Ask cmd.now) result host.new }
{
    match host.ask(build, cmd) {
        Ok(reply) => done(reply_value(reply)),
        Err(refusal) => refused(&refusal),
    }
}

// Performs the command that C asks for.
fn ask_raw(host: &mut PlainHost, build: u64, raw: &RawCommand) -> CallAnswer
    ensures { IsCommanded (commands.command_asked build raw.now) host.old result host.new }
{
    match asked(build, raw) {
        Ok((build, cmd)) => ask(host, build, &cmd),
        Err(status) => only(status),
    }
}

/// Performs a build's command in one call. If the host performs it, appends one event to the history, and returns 0,
/// with the reply in `value`.
///
/// Else nothing changes. A status from 1 to 13 is the number of the refusal, and `value` is the page, the order or the
/// RMM's result word that the refusal has. 14 is returned for a closed handle, and 15 if there is no such command.
/// `value` is 0 if the answer has none.
#[unsafe(no_mangle)]
pub extern "C" fn rhm_ask(
    alloc: Global,
    handle: &mut HostHandle,
    build: u64,
    command: &RawCommand,
    value: &mut u64,
) -> u64
    ensures { IsOnHandle (λ place. IsCommanded (commands.command_asked build command.now)) handle.old.held.host
        (record { status = result; value = value.new }) handle.new.held.host }
{
    let Some(mut placed) = handle.take(alloc) else {
        return given(closed(), value);
    };
    let answer = ask_raw(&mut placed.host, build, command);
    handle.give(placed);
    given(answer, value)
}

// Writes the value of an answer, and returns its status.
pub(crate) fn given(answer: CallAnswer, value: &mut u64) -> u64
    ensures { record { status = result; value = value.new } ≡ answer }
{
    *value = answer.value;
    answer.status
}
