//! The checks of a build's command, in ascending order of the refusals' numbers.
ghost use Rattle.std.specs.Prelude.{◌≡◌, ◌<◌, Some, None, IfOk, IfErr};
ghost use Rattle.host_commands.specs.Checks.{AreFound, checked, build_checks, order_checks, realm_checks, journal_checks, room_checks, vmid_checks, state_checks, checks_of, first_that_holds};

use crate::pages::granules_of;
use crate::{BuildsView, Cmd, Needs, RealmRequirement, Refusal};
use arrayvec::ArrayVec;
use granule_addr::{BuildId, Gran};
use realm_model::JOURNAL_ROOM;

/// Checks that the build exists and is not being aborted. Otherwise the refusal is `NoBuild` or `Aborting`.
pub fn check_build<D: BuildsView>(view: &D, build: BuildId) -> Result<(), Refusal>
    ensures { result ≡ checked (build_checks (D.seen view.now) build) }
{
    if !view.has_build(build) {
        return Err(Refusal::NoBuild);
    }
    if view.is_aborting(build) {
        return Err(Refusal::Aborting);
    }
    Ok(())
}

// Checks that the order of a block to take is at most 9; refuses with `BadOrder` otherwise.
fn check_order(cmd: &Cmd) -> Result<(), Refusal>
    ensures { result ≡ checked (order_checks cmd.now) }
{
    match cmd {
        Cmd::Take { order } if *order > 9 => Err(Refusal::BadOrder),
        _ => Ok(()),
    }
}

// Checks that the build has a realm, or has none, as the command requires; refuses with `NoRealm` or `RealmThere`
// otherwise.
fn check_realm<D: BuildsView>(
    view: &D,
    build: BuildId,
    wants: RealmRequirement,
) -> Result<(), Refusal>
    requires { build < (D.seen view.now).builds }
    ensures { result ≡ checked (realm_checks (D.seen view.now) build wants) }
{
    match wants {
        RealmRequirement::NoRealm if view.has_realm(build) => Err(Refusal::RealmThere),
        RealmRequirement::Realm if !view.has_realm(build) => Err(Refusal::NoRealm),
        _ => Ok(()),
    }
}

// Checks that the build's journal has an entry left, if the command needs one; refuses with `JournalFull` otherwise.
fn check_journal<D: BuildsView>(view: &D, build: BuildId, paired: bool) -> Result<(), Refusal>
    requires { build < (D.seen view.now).builds }
    ensures { result ≡ checked (journal_checks (D.seen view.now) build paired) }
{
    if paired && view.open_count(build) >= JOURNAL_ROOM {
        return Err(Refusal::JournalFull);
    }
    Ok(())
}

// Checks that the build has at least `needed` entries of its room left; refuses with `HistoryFull` otherwise.
fn check_room<D: BuildsView>(view: &D, build: BuildId, needed: u16) -> Result<(), Refusal>
    requires { build < (D.seen view.now).builds }
    ensures { result ≡ checked (room_checks (D.seen view.now) build needed) }
{
    if view.room_left(build) < needed {
        return Err(Refusal::HistoryFull);
    }
    Ok(())
}

// Checks that a VMID is free, if the command needs one; refuses with `NoVmid` otherwise.
fn check_vmid<D: BuildsView>(view: &D, wanted: bool) -> Result<(), Refusal>
    ensures { result ≡ checked (vmid_checks (D.seen view.now) wanted) }
{
    if wanted && !view.has_vmid() {
        return Err(Refusal::NoVmid);
    }
    Ok(())
}

// Checks the requirements of a command on its build's realm, journal and room, and on a free VMID.
fn check_state<D: BuildsView>(view: &D, build: BuildId, needs: &Needs) -> Result<(), Refusal>
    requires { build < (D.seen view.now).builds }
    ensures { result ≡ checked (state_checks (D.seen view.now) build needs.now) }
{
    check_realm(view, build, needs.realm)?;
    check_journal(view, build, needs.paired)?;
    check_room(view, build, needs.room)?;
    check_vmid(view, needs.vmid)
}

/// Checks that a build meets the requirements of its command. Returns the granule of each page that the command names.
/// An error is the refusal with the lowest number of those that hold. Refusals 11 and 13, of the store and of the RMM,
/// are not checked here.
pub fn check_needs<D: BuildsView>(
    view: &D,
    build: BuildId,
    cmd: &Cmd,
) -> Result<ArrayVec<Gran, 17>, Refusal>
    ensures none { IfOk result (λ granules. first_that_holds (checks_of (D.seen view.now) build cmd.now) ≡ None) }
    ensures refusal { IfErr result (λ refusal. first_that_holds (checks_of (D.seen view.now) build cmd.now) ≡ Some refusal) }
    ensures granules { IfOk result (λ granules. AreFound (D.seen view.now) build cmd.now granules.items) }
    ensures there { IfOk result (λ granules. build < (D.seen view.now).builds) }
{
    check_build(view, build)?;
    check_order(cmd)?;
    let granules = granules_of(view, build, cmd)?;
    check_state(view, build, &cmd.needs())?;
    Ok(granules)
}
