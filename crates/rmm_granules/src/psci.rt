//! Functions that check how the host completes a REC's PSCI request. RMM 1.0, RMI_PSCI_COMPLETE.
ghost use Rattle.std.specs.Prelude.{◌≡◌};
ghost use Rattle.rmm_model.specs.Command.PsciComplete as command;

use rmm_model::PsciRequest;

/// The PSCI status SUCCESS.
pub const PSCI_SUCCESS: u64 = 0;

const PSCI_DENIED: u64 = 0xFFFF_FFFF_FFFF_FFFD;

/// Returns whether a PSCI request waits for the host to complete it.
pub fn is_pending(request: PsciRequest) -> bool
    ensures { result ≡ command.is_pending request }
{
    match request {
        PsciRequest::CpuOn { .. } => true,
        PsciRequest::AffinityInfo { .. } => true,
        _ => false,
    }
}

/// Returns the target MPIDR of a PSCI request; 0 if the request has no target.
pub fn target_of(request: PsciRequest) -> u64
    ensures { result ≡ command.target_of request }
{
    match request {
        PsciRequest::CpuOn { target, .. } => target,
        PsciRequest::AffinityInfo { target } => target,
        _ => 0,
    }
}

// Whether the host may deny a request.
fn can_be_denied(request: PsciRequest) -> bool
    ensures { result ≡ command.can_be_denied request }
{
    matches!(request, PsciRequest::CpuOn { .. })
}

/// Returns whether the host may complete a PSCI request with the given status. The status has to be success, or DENIED
/// for a CPU_ON.
pub fn is_status(request: PsciRequest, status: u64) -> bool
    ensures { result ≡ command.is_status request status }
{
    status == PSCI_SUCCESS || (status == PSCI_DENIED && can_be_denied(request))
}
