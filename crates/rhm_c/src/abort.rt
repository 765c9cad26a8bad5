//! Functions of the C interface that abort a build.
ghost use Rattle.std.specs.Prelude.{◌≡◌};
ghost use Rattle.rhm_c.specs.Command.{build_in};
ghost use Rattle.rhm_c.specs.Answer.{IsOnHandle};
ghost use Rattle.rhm_c.specs.Undoing.{IsOfBuild, IsBegunHere, IsAbortedHere};

use crate::HostHandle;
use crate::answer::{CallAnswer, counted};
use crate::build_call::{BuildCall, call_build};
use crate::placed_host::PlainHost;
use granule_addr::BuildId;
use std::alloc::Global;

/// Begins to abort a build, so that the host refuses the build's commands until the build has no operation open.
pub(crate) fn begin(host: &mut PlainHost, build: BuildId) -> CallAnswer
    ensures { IsBegunHere host.old build result host.new }
{
    counted(&host.begin_abort(build))
}

/// Aborts a build, by undoing all its reversible operations that are not undone yet.
pub(crate) fn abort(host: &mut PlainHost, build: BuildId) -> CallAnswer
    ensures { IsAbortedHere host.old build result host.new }
{
    counted(&host.abort(build))
}

/// Begins to abort a build, so that the host refuses the build's commands until the build has no operation open. Until
/// then each of its undos is performed. Returns 0, with the number of operations that it has open in `value`.
///
/// Else nothing changes: 1, 2 and 8 are the refusals, and 14 a closed handle.
#[unsafe(no_mangle)]
pub extern "C" fn rhm_begin_abort(
    alloc: Global,
    handle: &mut HostHandle,
    build: u64,
    value: &mut u64,
) -> u64
    ensures { IsOnHandle (λ place. IsOfBuild IsBegunHere (build_in build)) handle.old.held.host
        (record { status = result; value = value.new }) handle.new.held.host }
{
    call_build(alloc, handle, build, BuildCall::BeginAbort, value)
}

/// Aborts a build in one call, by undoing all its reversible operations that are not undone yet. The newest is undone
/// first. Returns 0, with the number of undone operations in `value`.
///
/// Else nothing changes: 1 and 8 are the refusals, and 14 a closed handle.
#[unsafe(no_mangle)]
pub extern "C" fn rhm_abort(
    alloc: Global,
    handle: &mut HostHandle,
    build: u64,
    value: &mut u64,
) -> u64
    ensures { IsOnHandle (λ place. IsOfBuild IsAbortedHere (build_in build)) handle.old.held.host
        (record { status = result; value = value.new }) handle.new.held.host }
{
    call_build(alloc, handle, build, BuildCall::Abort, value)
}
