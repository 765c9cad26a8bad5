//! Functions that compute the outcomes of a guest's memory accesses, RSI and PSCI calls, waits, and writes of system
//! registers.
ghost use Rattle.std.specs.Prelude.{◌≡◌, ◌<◌, ◌≤◌, ◌^◌, IfOk};
ghost use Rattle.rmm_model.specs.Entry.{descriptor_of};
ghost use Rattle.rmm_model.specs.Machine.{granule_count};
ghost use Rattle.rmm_model.specs.Realm.{IsServed};
ghost use Rattle.rmm_model.specs.Step as steps;
ghost use Rattle.rmm.specs.ExitEdits as edits;

use crate::host::host_granule;
use crate::operand::{is_in_space, is_protected};
use granule_addr::Gran;
use page_arena::PageStore;
use rmi_abi::{EnterFlags, ExitReason, RecExit, RmmSettings, is_mpidr, rec_number};
use rmm_granules::{Granules, RecEdit, entry_at, granule_named, walk};
use rmm_model::{
    AccessSize, GuestStep, LastExit, PsciRequest, RipasRequest, RmmRealm, RmmRec, RmmRipas,
    RmmRttEntry, StepOutcome, StepResult, entry_offset,
};

// ---- accesses to memory

// The exit for an abort at an address.
fn abort(esr: u64, ipa: u64) -> RecExit
    ensures { result ≡ steps.abort esr ipa }
{
    RecExit {
        esr,
        hpfar: ipa / 4096 * 16,
        ..RecExit::only(ExitReason::Sync)
    }
}

// The exit for an access that the host can emulate, with the value that the guest writes.
fn emulatable(esr: u64, ipa: u64, value: u64) -> RecExit
    ensures { result ≡ steps.emulatable esr ipa value }
{
    RecExit {
        esr,
        far: ipa % 4096,
        hpfar: ipa / 4096 * 16,
        gpr0: value,
        ..RecExit::only(ExitReason::Sync)
    }
}

// Whether an entry leads to memory of the guest.
fn is_memory(entry: RmmRttEntry) -> bool
    ensures { result ≡ steps.is_memory entry }
{
    match entry {
        RmmRttEntry::Assigned(ripas, _) => ripas.is_ram(),
        _ => false,
    }
}

fn is_empty(ripas: RmmRipas) -> bool
    ensures { result ≡ steps.is_empty ripas }
{
    matches!(ripas, RmmRipas::Empty)
}

// Returns the granule that was found, or an SEA if there is no granule.
fn found_or_sea(found: Option<Gran>) -> Result<Gran, StepOutcome>
    ensures { result ≡ steps.found_or_sea found }
{
    match found {
        Some(granule) => Ok(granule),
        None => Err(StepOutcome::Result(StepResult::Sea)),
    }
}

// Returns the granule of a protected address, or the outcome of an access that fails.
fn protected_access<S: PageStore>(
    granules: &Granules<S>,
    class: u64,
    entry: RmmRttEntry,
    level: u8,
    ipa: u64,
) -> Result<Gran, StepOutcome>
    requires class { class ≤ 0x90000000 }
    requires fits { descriptor_of entry < 2 ^ 48 }
    ensures value { result ≡ steps.protected_access granules.now class entry level ipa }
    ensures inside { IfOk result (λ granule. granule < granule_count granules.now) }
{
    if is_memory(entry) {
        let address = entry.descriptor() + entry_offset(level, ipa);
        return found_or_sea(granule_named(granules, address));
    }
    if is_empty(entry.ripas()) {
        Err(StepOutcome::Result(StepResult::Sea))
    } else {
        Err(StepOutcome::Exit(abort(class + 4 + level as u64, ipa), LastExit::Other))
    }
}

// Whether the S2AP field of a descriptor permits a write if `writes` is `true`, and a read otherwise.
fn may_access(desc: u64, writes: bool) -> bool
    ensures { result ≡ steps.may_access desc writes }
{
    if writes {
        desc / 0x80 % 2 == 1
    } else {
        desc / 0x40 % 2 == 1
    }
}

// The WnR bit of a data abort's syndrome.
fn wnr(writes: bool) -> u64
    ensures value { result ≡ steps.wnr writes }
    ensures below { result ≤ 0x40 }
{
    if writes { 0x40 } else { 0 }
}

// Returns the host's granule at a physical address, or the outcome of an access that fails.
fn host_access<S: PageStore>(
    granules: &Granules<S>,
    address: u64,
    ipa: u64,
) -> Result<Gran, StepOutcome>
    ensures value { result ≡ steps.host_access granules.now address ipa }
    ensures inside { IfOk result (λ granule. granule < granule_count granules.now) }
{
    match host_granule(granules, address) {
        Some(granule) => Ok(granule),
        None => Err(StepOutcome::Exit(abort(0x9000_0028, ipa), LastExit::UnprotectedAbort)),
    }
}

// The fields of ESR_EL2 that describe the access of an emulatable data abort.
fn of_access(writes: bool, size: AccessSize, level: u8) -> u64
    ensures value { result ≡ steps.of_access writes size level }
    ensures below { result ≤ 0xC0_0140 }
{
    size.syndrome() + (wnr(writes) + level as u64)
}

// Returns the granule of an unprotected address, or the outcome of an access that fails.
#[inline(always)]
fn unprotected_access<S: PageStore>(
    granules: &Granules<S>,
    entry: RmmRttEntry,
    level: u8,
    ipa: u64,
    writes: bool,
    size: AccessSize,
    value: u64,
) -> Result<Gran, StepOutcome>
    requires { descriptor_of entry < 2 ^ 48 }
    ensures value { result
        ≡ steps.unprotected_access granules.now entry level ipa writes size value }
    ensures inside { IfOk result (λ granule. granule < granule_count granules.now) }
{
    let esr = of_access(writes, size, level);
    if !entry.is_assigned_ns() {
        let exit = emulatable(0x9100_0004 + esr, ipa, value);
        return Err(StepOutcome::Exit(exit, LastExit::EmulatableAbort));
    }
    if may_access(entry.descriptor(), writes) {
        let address = entry.descriptor() / 4096 * 4096 + entry_offset(level, ipa);
        host_access(granules, address, ipa)
    } else {
        let exit = emulatable(0x9100_000C + esr, ipa, value);
        Err(StepOutcome::Exit(exit, LastExit::EmulatableAbort))
    }
}

// Returns the granule in which an address of a guest lies, or the outcome of an access that fails.
#[inline(always)]
#[tactic(auto, unfolding(rmm_model::specs::Step::access))]
pub fn access<S: PageStore>(
    granules: &Granules<S>,
    realm: &RmmRealm,
    ipa: u64,
    writes: bool,
    size: AccessSize,
    value: u64,
) -> Result<Gran, StepOutcome>
    requires { IsServed (granule_count granules.now) realm.now }
    ensures value { result ≡ steps.access granules.now realm.now ipa writes size value }
    ensures inside { IfOk result (λ granule. granule < granule_count granules.now) }
{
    if !is_in_space(realm, ipa) {
        return Err(StepOutcome::Result(StepResult::Sea));
    }
    let found = walk(granules, realm, ipa, 3);
    let entry = entry_at(granules, &found, ipa);
    if is_protected(realm, ipa) {
        protected_access(granules, 0x9000_0000, entry, found.level, ipa)
    } else {
        unprotected_access(granules, entry, found.level, ipa, writes, size, value)
    }
}

// Returns the granule from which a guest fetches an instruction, or the outcome of a fetch that fails.
#[tactic(auto, unfolding(rmm_model::specs::Step::fetched))]
pub fn fetched<S: PageStore>(
    granules: &Granules<S>,
    realm: &RmmRealm,
    ipa: u64,
) -> Result<Gran, StepOutcome>
    requires { IsServed (granule_count granules.now) realm.now }
    ensures { result ≡ steps.fetched granules.now realm.now ipa }
{
    if !is_protected(realm, ipa) {
        return Err(StepOutcome::Result(StepResult::Sea));
    }
    let found = walk(granules, realm, ipa, 3);
    let entry = entry_at(granules, &found, ipa);
    protected_access(granules, 0x8000_0000, entry, found.level, ipa)
}

// The outcome of an access that gives the guest no value.
pub fn tried(found: Result<Gran, StepOutcome>) -> StepOutcome
    ensures { result ≡ steps.tried found }
{
    match found {
        Ok(_) => StepOutcome::Result(StepResult::Done),
        Err(outcome) => outcome,
    }
}

// ---- calls

// The outcome of RSI_HOST_CALL.
fn host_call(imm: u64, gpr0: u64, gpr1: u64, gpr2: u64) -> StepOutcome
    ensures { result ≡ steps.host_call imm gpr0 gpr1 gpr2 }
{
    let exit = RecExit {
        gpr0,
        gpr1,
        gpr2,
        imm: imm % 0x1_0000,
        ..RecExit::only(ExitReason::HostCall)
    };
    StepOutcome::Exit(exit, LastExit::HostCall)
}

// Whether RSI_IPA_STATE_SET accepts a range and a RIPAS.
fn is_ripas_range(realm: &RmmRealm, base: u64, top: u64, ripas: u64) -> bool
    requires { realm.now.s2sz ≤ 48 }
    ensures { result ≡ steps.is_ripas_range realm.now base top ripas }
{
    base % 4096 == 0 && top % 4096 == 0 && base < top && is_protected(realm, top - 1) && ripas < 2
}

fn ripas_of(code: u64) -> RmmRipas
    ensures { result ≡ steps.ripas_of code }
{
    match code {
        1 => RmmRipas::Ram,
        _ => RmmRipas::Empty,
    }
}

fn ripas_exit(base: u64, top: u64, ripas: u64) -> StepOutcome
    ensures { result ≡ steps.ripas_exit base top ripas }
{
    let exit = RecExit {
        ripas_base: base,
        ripas_top: top,
        ripas,
        ..RecExit::only(ExitReason::RipasChange)
    };
    StepOutcome::Exit(exit, LastExit::RipasChange)
}

// The value that a PSCI exit shows for the second or third operand of the call.
fn shown(settings: &RmmSettings, operand: u64) -> u64
    ensures { result ≡ steps.shown settings.now operand }
{
    if settings.shows_target_alone {
        0
    } else {
        operand
    }
}

// The exit of a PSCI call.
fn psci_exit(settings: &RmmSettings, function: u64, target: u64, b: u64, c: u64) -> StepOutcome
    ensures { result ≡ steps.psci_exit settings.now function target b c }
{
    let exit = RecExit {
        gpr0: function,
        gpr1: target,
        gpr2: shown(settings, b),
        gpr3: shown(settings, c),
        ..RecExit::only(ExitReason::Psci)
    };
    StepOutcome::Exit(exit, LastExit::Other)
}

fn psci_gives(value: u64) -> StepOutcome
    ensures { result ≡ steps.psci_gives value }
{
    StepOutcome::Result(StepResult::Psci(value))
}

// Whether a REC of the realm was given the MPIDR `mpidr`.
fn was_given(realm: &RmmRealm, mpidr: u64) -> bool
    ensures { result ≡ steps.was_given realm.now mpidr }
{
    is_mpidr(mpidr) && rec_number(mpidr) < realm.next_rec as u64
}

// The outcome of PSCI_CPU_ON.
fn cpu_on(
    settings: &RmmSettings,
    realm: &RmmRealm,
    rec: &RmmRec,
    target: u64,
    entry_point: u64,
    context: u64,
) -> StepOutcome
    requires { realm.now.s2sz ≤ 48 }
    ensures { result ≡ steps.cpu_on settings.now realm.now rec.now target entry_point context }
{
    if !is_protected(realm, entry_point) {
        psci_gives(0xFFFF_FFFF_FFFF_FFF7)
    } else if !was_given(realm, target) {
        psci_gives(0xFFFF_FFFF_FFFF_FFFE)
    } else if target == rec.mpidr {
        psci_gives(0xFFFF_FFFF_FFFF_FFFC)
    } else {
        psci_exit(settings, 0xC400_0003, target, entry_point, context)
    }
}

// The outcome of PSCI_AFFINITY_INFO.
fn affinity_info(
    settings: &RmmSettings,
    realm: &RmmRealm,
    rec: &RmmRec,
    target: u64,
    level: u64,
) -> StepOutcome
    ensures { result ≡ steps.affinity_info settings.now realm.now rec.now target level }
{
    if !(level == 0 && was_given(realm, target)) {
        psci_gives(0xFFFF_FFFF_FFFF_FFFE)
    } else if target == rec.mpidr {
        psci_gives(0)
    } else {
        psci_exit(settings, 0xC400_0004, target, level, 0)
    }
}

// The outcome of a WFI or a WFE, trapped or not.
fn wait(traps: bool, esr: u64) -> StepOutcome
    ensures { result ≡ steps.wait traps esr }
{
    if traps {
        let exit = RecExit {
            esr,
            ..RecExit::only(ExitReason::Sync)
        };
        StepOutcome::Exit(exit, LastExit::Other)
    } else {
        StepOutcome::Result(StepResult::Done)
    }
}

// The outcome of a write to a system register.
fn system_register(iss: u64, value: u64) -> StepOutcome
    ensures { result ≡ steps.system_register iss value }
{
    let exit = RecExit {
        esr: 0x6000_0000 + iss % 0x200_0000,
        gpr0: value,
        ..RecExit::only(ExitReason::Sync)
    };
    StepOutcome::Exit(exit, LastExit::SystemRegister)
}

// The outcome of a step that accesses no memory.
#[inline(always)]
pub fn call_outcome(
    settings: &RmmSettings,
    realm: &RmmRealm,
    rec: &RmmRec,
    flags: u64,
    step: GuestStep,
) -> StepOutcome
    requires { realm.now.s2sz ≤ 48 }
    ensures { result ≡ steps.call_outcome settings.now realm.now rec.now flags step }
{
    match step {
        GuestStep::HostCall {
            imm,
            gpr0,
            gpr1,
            gpr2,
        } => host_call(imm, gpr0, gpr1, gpr2),
        GuestStep::SetRipas {
            base,
            top,
            ripas,
            ..
        } => {
            if is_ripas_range(realm, base, top, ripas) {
                ripas_exit(base, top, ripas)
            } else {
                StepOutcome::Result(StepResult::RsiErrorInput)
            }
        }
        GuestStep::CpuOn {
            target,
            entry_point,
            context,
        } => cpu_on(settings, realm, rec, target, entry_point, context),
        GuestStep::AffinityInfo { target, level } => affinity_info(
            settings, realm, rec, target, level,
        ),
        GuestStep::CpuOff => psci_exit(settings, 0x8400_0002, 0, 0, 0),
        GuestStep::CpuSuspend => psci_exit(settings, 0xC400_0001, 0, 0, 0),
        GuestStep::SystemOff => psci_exit(settings, 0x8400_0008, 0, 0, 0),
        GuestStep::SystemReset => psci_exit(settings, 0x8400_0009, 0, 0, 0),
        GuestStep::Wfi => wait(EnterFlags::traps_wfi(flags), 0x0400_0000),
        GuestStep::Wfe => wait(EnterFlags::traps_wfe(flags), 0x0400_0001),
        GuestStep::SystemRegister { iss, value } => system_register(iss, value),
        _ => StepOutcome::Spin,
    }
}

// The edit of a REC when a step of its guest causes an exit.
#[inline(always)]
pub fn exit_edit(step: GuestStep) -> RecEdit
    ensures { result ≡ edits.exit_edit step }
{
    match step {
        GuestStep::SetRipas {
            base,
            top,
            ripas,
            flags,
        } => RecEdit::Ripas(RipasRequest {
            base,
            top,
            ripas: ripas_of(ripas),
            changes_destroyed: flags % 2 == 1,
        }),
        GuestStep::CpuOn {
            target,
            entry_point,
            context,
        } => RecEdit::Psci(PsciRequest::CpuOn {
            target,
            entry_point,
            context,
        }),
        GuestStep::AffinityInfo { target, .. } => {
            RecEdit::Psci(PsciRequest::AffinityInfo { target })
        }
        GuestStep::CpuOff => RecEdit::Runnable(false),
        GuestStep::CpuSuspend => RecEdit::Psci(PsciRequest::Complete(0)),
        _ => RecEdit::Nothing,
    }
}
