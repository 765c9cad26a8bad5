//! C calls on a build: an undo, the beginning of an abort, a whole abort, a mark, and a rollback to the mark.
ghost use Rattle.std.specs.Prelude.{◌≡◌};
ghost use Rattle.rhm_c.specs.Command.{build_in};
ghost use Rattle.rhm_c.specs.Answer.{IsOnHandle};
ghost use Rattle.rhm_c.specs.Undoing.{IsOfBuild, IsCalledHere};

use crate::HostHandle;
use crate::abort::{abort, begin};
use crate::answer::{CallAnswer, NO_BUILD, closed, only};
use crate::asking::given;
use crate::command::build_of;
use crate::marks::{mark, roll_back};
use crate::placed_host::PlainHost;
use crate::undo::undo;
use granule_addr::BuildId;
use std::alloc::Global;

/// A C call on a build: an undo, the beginning of an abort, a whole abort, a mark, or a rollback to the mark.
#[derive(Clone, Copy)]
pub(crate) enum BuildCall {
    Undo,
    BeginAbort,
    Abort,
    Mark,
    RollBack,
}

// Performs a call on a build.
fn perform(host: &mut PlainHost, build: BuildId, call: BuildCall) -> CallAnswer
    ensures { IsCalledHere call host.old build result host.new }
{
    match call {
        BuildCall::Undo => undo(host, build),
        BuildCall::BeginAbort => begin(host, build),
        BuildCall::Abort => abort(host, build),
        BuildCall::Mark => mark(host, build),
        BuildCall::RollBack => roll_back(host, build),
    }
}

// Performs a call on the build with the given number.
fn perform_of(host: &mut PlainHost, build: u64, call: BuildCall) -> CallAnswer
    ensures { IsOfBuild (IsCalledHere call) (build_in build) host.old result host.new }
{
    match build_of(build) {
        Some(build) => perform(host, build, call),
        None => only(NO_BUILD),
    }
}

/// Performs a `BuildCall` on a build of the host that a handle keeps. Writes the value of its answer, and returns the
/// status.
pub(crate) fn call_build(
    alloc: Global,
    handle: &mut HostHandle,
    build: u64,
    call: BuildCall,
    value: &mut u64,
) -> u64
    ensures { IsOnHandle (λ place. IsOfBuild (IsCalledHere call) (build_in build)) handle.old.held.host
        (record { status = result; value = value.new }) handle.new.held.host }
{
    let Some(mut placed) = handle.take(alloc) else {
        return given(closed(), value);
    };
    let answer = perform_of(&mut placed.host, build, call);
    handle.give(placed);
    given(answer, value)
}
