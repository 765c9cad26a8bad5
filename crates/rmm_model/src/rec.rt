//! The attributes of RECs, and their requests to the host.
ghost use Rattle.std.specs.Prelude.{◌≡◌, ◌<◌, length};
ghost use Rattle.rmm_model.specs.Rec as recs;

use crate::RmmRipas;
use page_arena::word_in;

/// The state of a REC. RMM 1.0, RmmRecState.
#[derive(Clone, Copy)]
pub enum RmmRecState {
    Ready,
    Running,
}

/// The change of RIPAS that a REC asked for. RMM 1.0, attributes ripas_addr, ripas_top, ripas_value and
/// ripas_destroyed.
///
/// The host has changed the RIPAS up to the address `base`. Both `base` and `top` are 0 if there is no request.
#[derive(Clone, Copy)]
pub struct RipasRequest {
    pub base: u64,
    pub top: u64,
    pub ripas: RmmRipas,
    pub changes_destroyed: bool,
}

/// The PSCI request of a REC, if any: one that the host has to complete, or one that is complete and has a result. RMM
/// 1.0, attribute psci_pending.
#[derive(Clone, Copy)]
pub enum PsciRequest {
    None,
    CpuOn {
        target: u64,
        entry_point: u64,
        context: u64,
    },
    AffinityInfo {
        target: u64,
    },
    Complete(u64),
}

/// The kind of a REC's last exit, which decides the result that the guest gets at the next RMI_REC_ENTER. RMM 1.0,
/// attributes host_call and emulatable_abort.
#[derive(Clone, Copy)]
pub enum LastExit {
    /// No exit since the last entry, or an exit of a kind that has no variant of its own.
    Other,
    HostCall,
    RipasChange,
    /// An emulatable data abort at an unprotected address. The host can emulate the access.
    EmulatableAbort,
    /// A non-emulatable abort at an unprotected address.
    UnprotectedAbort,
    /// A write to a system register.
    SystemRegister,
}

/// The attributes of a REC. RMM 1.0, REC attributes.
///
/// A REC's granule holds the REC's registers, the addresses of its auxiliary granules, and a ring of its guest's
/// pending steps. While the REC is RUNNING, `run` is the address of its run page.
#[derive(Clone, Copy)]
pub struct RmmRec {
    pub mpidr: u64,
    pub run: u64,
    pub ripas: RipasRequest,
    pub psci: PsciRequest,
    pub state: RmmRecState,
    pub is_runnable: bool,
    pub exit: LastExit,
    pub first_step: u8,
    pub step_count: u8,
    pub result_count: u8,
}

impl RipasRequest {
    /// The value that means that a REC has no RIPAS request.
    pub const NONE: RipasRequest = RipasRequest {
        base: 0,
        top: 0,
        ripas: RmmRipas::Empty,
        changes_destroyed: false,
    };
}

impl RmmRec {
    /// Creates the attributes of a READY REC without requests, results or steps.
    pub fn new(is_runnable: bool, mpidr: u64) -> RmmRec
        ensures { result ≡ recs.new_rec is_runnable mpidr }
    {
        RmmRec {
            state: RmmRecState::Ready,
            is_runnable,
            mpidr,
            ripas: RipasRequest::NONE,
            psci: PsciRequest::None,
            exit: LastExit::Other,
            run: 0,
            first_step: 0,
            step_count: 0,
            result_count: 0,
        }
    }

    pub fn is_running(&self) -> bool
        ensures { result ≡ recs.is_running self.now.state }
    {
        matches!(self.state, RmmRecState::Running)
    }

    /// Returns whether the REC is on in the sense of PSCI. A REC is on if it is runnable or RUNNING.
    pub fn is_on(&self) -> bool
        ensures { result ≡ recs.is_on self.now }
    {
        self.is_runnable || self.is_running()
    }
}

/// Reads the address of auxiliary granule `k` from a REC's granule.
pub fn aux_address(page: &[u8], k: u8) -> u64
    requires page { length page.now ≡ 4096 }
    requires below { k < 16 }
    ensures { result ≡ recs.aux_of page.now k }
{
    word_in(page, 32 + k as usize)
}
