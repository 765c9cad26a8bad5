//! Functions of the C interface that mark a build's current point, and roll the build back to its mark.
ghost use Rattle.std.specs.Prelude.{◌≡◌};
ghost use Rattle.rhm_c.specs.Command.{build_in};
ghost use Rattle.rhm_c.specs.Answer.{IsOnHandle};
ghost use Rattle.rhm_c.specs.Undoing.{IsOfBuild, IsMarkedHere, IsBackHere, refusal_without_mark};

use crate::HostHandle;
use crate::answer::{CallAnswer, counted, done, refused};
use crate::build_call::{BuildCall, call_build};
use crate::placed_host::PlainHost;
use granule_addr::BuildId;
use host_commands::{Refusal, check_build};
use std::alloc::Global;

/// Marks a build's current point for a later rollback.
pub(crate) fn mark(host: &mut PlainHost, build: BuildId) -> CallAnswer
    ensures { IsMarkedHere host.old build result host.new }
{
    match host.mark(build) {
        Ok(mark) => done(u64::from(mark.length())),
        Err(refusal) => refused(&refusal),
    }
}

// The refusal of a rollback for a build that has no mark.
fn refusal_without_mark(host: &PlainHost, build: BuildId) -> Refusal
    ensures { result ≡ refusal_without_mark host.now build }
{
    match check_build(host.ledger(), build) {
        Ok(()) => Refusal::NothingToUndo,
        Err(refusal) => refusal,
    }
}

/// Rolls a build back to its marked point, by undoing the operations opened since then.
pub(crate) fn roll_back(host: &mut PlainHost, build: BuildId) -> CallAnswer
    ensures { IsBackHere host.old build result host.new }
{
    match host.kept_mark(build) {
        Some(mark) => counted(&host.rollback_to(build, mark)),
        None => refused(&refusal_without_mark(host, build)),
    }
}

/// Marks a build's current point for a later rollback, in place of an older mark. Returns 0, with the number of the
/// build's open operations in `value`.
///
/// Else nothing changes: 1 and 2 are the refusals, and 14 a closed handle.
#[unsafe(no_mangle)]
pub extern "C" fn rhm_mark(
    alloc: Global,
    handle: &mut HostHandle,
    build: u64,
    value: &mut u64,
) -> u64
    ensures { IsOnHandle (λ place. IsOfBuild IsMarkedHere (build_in build)) handle.old.held.host
        (record { status = result; value = value.new }) handle.new.held.host }
{
    call_build(alloc, handle, build, BuildCall::Mark, value)
}

/// Rolls a build back to its mark in one call: undoes the operations opened since the mark, the newest first. Returns
/// 0, with the number of undone operations in `value`. The mark stays.
///
/// Any other status changes nothing: 1, 2, 7 and 8 are refusals, and the first that applies is returned. 7 means that
/// the build has no mark. 14 is a closed handle.
#[unsafe(no_mangle)]
pub extern "C" fn rhm_roll_back(
    alloc: Global,
    handle: &mut HostHandle,
    build: u64,
    value: &mut u64,
) -> u64
    ensures { IsOnHandle (λ place. IsOfBuild IsBackHere (build_in build)) handle.old.held.host
        (record { status = result; value = value.new }) handle.new.held.host }
{
    call_build(alloc, handle, build, BuildCall::RollBack, value)
}
