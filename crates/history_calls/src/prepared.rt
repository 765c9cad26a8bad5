//! Functions that compute, in advance, the RMM calls and other actions for a command or an undo.
ghost use Rattle.std.specs.Prelude.{◌≡◌, ◌<◌, None};
ghost use Rattle.realm_model.specs.Act.{reverse_of};
ghost use Rattle.realm_model.specs.Running.{next_number};
ghost use Rattle.realm_model.specs.World.{realm_of};
ghost use Rattle.host_commands.specs.Checks.{checks_of, first_that_holds};
ghost use Rattle.host_ledger.specs.Summary.{summary_of};
ghost use Rattle.host_ledger.specs.View.{world_of};
ghost use Rattle.realm_host.specs.Readings.{rec_at};
ghost use Rattle.history_calls.specs.Prepared as prepared;

use crate::free_block::block_refusal;
use crate::{Actions, Frame, actions_of};
use arrayvec::ArrayVec;
use build_journal::reverse_of;
use granule_addr::{BuildId, RecNo, Vmid};
use host_commands::{Allocated, Cmd, Refusal, act_of, check_needs};
use page_arena::PageStore;
use realm_host::{GranuleState, Host};
use realm_model::{Act, RealmAndRec, Rmi};

// The number that the next REC of a build's realm gets; 0 if the build has no realm.
fn next_rec<S: PageStore>(host: &Host<S>, build: BuildId) -> RecNo
    ensures { result ≡ next_number (realm_of build (world_of host.now)) }
{
    match host.realm(build) {
        Some(realm) => realm.next_number(),
        None => RecNo::new(0),
    }
}

// The values that the host would allocate for a command of a build. The byte of a Peek is not known yet.
pub(crate) fn allocated<S: PageStore>(host: &Host<S>, build: BuildId) -> Allocated
    ensures { result ≡ prepared.allocated_before host.now build }
{
    let vmid = match host.ledger().lowest_vmid() {
        Some(vmid) => vmid,
        None => Vmid::new(1).unwrap(),
    };
    Allocated {
        vmid,
        number: next_rec(host, build),
        byte: 0,
    }
}

// The realm of a build, and the REC in it that an operation names.
fn subject<S: PageStore>(host: &Host<S>, build: BuildId, act: &Act) -> RealmAndRec
    requires { build < host.now.limits.builds }
    ensures { result ≡ prepared.subject_of host.now build act.now }
{
    let ledger = host.ledger();
    let rec = match act {
        Act::UnRec { number, .. }
        | Act::Enter { number }
        | Act::Exit { number }
        | Act::Poke { number, .. } => ledger.rec(build, *number),
        _ => None,
    };
    RealmAndRec {
        realm: ledger.realm(build),
        rec,
    }
}

// The actions on an RMM that perform an operation of a build.
fn actions_for<S: PageStore>(
    frame: Frame,
    host: &Host<S>,
    build: BuildId,
    run: u16,
    act: &Act,
) -> Actions
    requires there { build < host.now.limits.builds }
    requires run { run < 64 }
    ensures { result ≡ prepared.actions_for frame host.now build run act.now }
{
    actions_of(frame, subject(host, build, act), run, act)
}

// Returns the result for a command that has no operation: no actions for a Take, and RMI_ERROR_INPUT for any other.
fn without_act(cmd: &Cmd) -> Result<Actions, Refusal>
    ensures { result ≡ prepared.without_act cmd.now }
{
    match cmd {
        Cmd::Take { .. } => Ok(ArrayVec::new()),
        _ => Err(Refusal::Rmi(Rmi::INPUT)),
    }
}

// The refusal, if any, of an access to a page whose granule is in the given state.
fn access_refusal(state: Option<GranuleState>) -> Option<Refusal>
    ensures { result ≡ prepared.access_refusal state }
{
    match state {
        Some(GranuleState::Undelegated) => None,
        _ => Some(Refusal::Rmi(Rmi::INPUT)),
    }
}

// The refusal of a command on a REC, if the REC does not exist.
fn entry_refusal<S: PageStore>(host: &Host<S>, build: BuildId, number: RecNo) -> Option<Refusal>
    ensures { result ≡ prepared.entry_refusal (rec_at (world_of host.now) build number) }
{
    match host.rec(build, number) {
        Some(_) => None,
        None => Some(Refusal::Rmi(Rmi::INPUT)),
    }
}

// The refusal of an exit, if the REC does not exist or does not run.
fn exit_refusal<S: PageStore>(host: &Host<S>, build: BuildId, number: RecNo) -> Option<Refusal>
    ensures { result ≡ prepared.exit_refusal (rec_at (world_of host.now) build number) }
{
    match host.rec(build, number) {
        Some((_, rec)) => {
            if rec.is_ready() {
                Some(Refusal::Rmi(Rmi::REC))
            } else {
                None
            }
        }
        None => Some(Refusal::Rmi(Rmi::INPUT)),
    }
}

// The refusal, if any, that the model gives to a command before the RMM is called.
pub(crate) fn refused_before<S: PageStore>(
    host: &Host<S>,
    build: BuildId,
    cmd: &Cmd,
) -> Option<Refusal>
    requires passed { first_that_holds (checks_of (summary_of host.now) build cmd.now) ≡ None }
    ensures { result ≡ prepared.refused_before host.now build cmd.now }
{
    match cmd {
        Cmd::Take { order } => block_refusal(host, build, *order),
        Cmd::Fill { page, .. } | Cmd::Peek { page, .. } => {
            access_refusal(host.page_state(build, *page))
        }
        Cmd::Enter { number } | Cmd::Poke { number, .. } => entry_refusal(host, build, *number),
        Cmd::Exit { number } => exit_refusal(host, build, *number),
        _ => None,
    }
}

// Returns the actions on an RMM for a command whose operation is `act`, or the model's refusal.
fn actions_of_act<S: PageStore>(
    frame: Frame,
    host: &Host<S>,
    build: BuildId,
    run: u16,
    cmd: &Cmd,
    act: Option<Act>,
) -> Result<Actions, Refusal>
    requires there { build < host.now.limits.builds }
    requires run { run < 64 }
    requires passed { first_that_holds (checks_of (summary_of host.now) build cmd.now) ≡ None }
    ensures { result ≡ prepared.actions_or_refusal frame host.now build run cmd.now act }
{
    if let Some(refusal) = refused_before(host, build, cmd) {
        return Err(refusal);
    }
    match act {
        Some(act) => Ok(actions_for(frame, host, build, run, &act)),
        None => without_act(cmd),
    }
}

/// Returns the actions, such as RMM calls, that the host would take to perform a command. The error is the refusal that
/// the host gives before the RMM is called.
pub fn actions_asked<S: PageStore>(
    frame: Frame,
    host: &Host<S>,
    build: BuildId,
    run: u16,
    cmd: &Cmd,
) -> Result<Actions, Refusal>
    requires { run < 64 }
    ensures { result ≡ prepared.actions_asked frame host.now build run cmd.now }
{
    let granules = check_needs(host.ledger(), build, cmd)?;
    let act = act_of(cmd, &granules, allocated(host, build));
    actions_of_act(frame, host, build, run, cmd, act)
}

// Returns the actions on an RMM for the reverse of a build's newest open operation. An open operation has a reverse.
fn actions_of_newest<S: PageStore>(
    frame: Frame,
    host: &Host<S>,
    build: BuildId,
    newest: &Act,
) -> Result<Actions, Refusal>
    requires { build < host.now.limits.builds }
    ensures { result ≡ prepared.actions_of_back frame host.now build (reverse_of newest.now) }
{
    match reverse_of(newest) {
        Some(back) => Ok(actions_for(frame, host, build, 0, &back)),
        None => Err(Refusal::NothingToUndo),
    }
}

/// Returns the actions, such as RMM calls, that the host would take to perform an undo. The error is the refusal of the
/// undo.
pub fn actions_back<S: PageStore>(
    frame: Frame,
    host: &Host<S>,
    build: BuildId,
) -> Result<Actions, Refusal>
    ensures { result ≡ prepared.actions_back frame host.now build }
{
    let ledger = host.ledger();
    if !ledger.has_build(build) {
        return Err(Refusal::NoBuild);
    }
    let Some(newest) = ledger.newest(build) else {
        return Err(Refusal::NothingToUndo);
    };
    if host.is_newest_running(build) {
        return Err(Refusal::RecRunning);
    }
    actions_of_newest(frame, host, build, newest)
}
