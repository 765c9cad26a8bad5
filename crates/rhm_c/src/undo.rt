//! Functions of the C interface that undo a build's newest open operation in one call.
ghost use Rattle.std.specs.Prelude.{◌≡◌};
ghost use Rattle.rhm_c.specs.Command.{build_in};
ghost use Rattle.rhm_c.specs.Answer.{IsOnHandle};
ghost use Rattle.rhm_c.specs.Undoing.{IsOfBuild, IsUndoneHere};

use crate::HostHandle;
use crate::answer::{CallAnswer, done, refused};
use crate::build_call::{BuildCall, call_build};
use crate::placed_host::PlainHost;
use granule_addr::BuildId;
use std::alloc::Global;

/// Undoes a build's newest reversible operation that is not undone yet.
pub(crate) fn undo(host: &mut PlainHost, build: BuildId) -> CallAnswer
    ensures { IsUndoneHere host.old build result host.new }
{
    match host.undo(build) {
        Ok(undone) => done(u64::from(undone.left)),
        Err(refusal) => refused(&refusal),
    }
}

/// Undoes a build's newest reversible operation that is not undone yet. It does so whatever other builds have done
/// since. Returns 0, with the number of operations that are left open in `value`.
///
/// Else nothing changes: 1, 7 and 8 are the refusals, and 14 a closed handle.
#[unsafe(no_mangle)]
pub extern "C" fn rhm_undo(
    alloc: Global,
    handle: &mut HostHandle,
    build: u64,
    value: &mut u64,
) -> u64
    ensures { IsOnHandle (λ place. IsOfBuild IsUndoneHere (build_in build)) handle.old.held.host
        (record { status = result; value = value.new }) handle.new.held.host }
{
    call_build(alloc, handle, build, BuildCall::Undo, value)
}
