//! The reasons why a run of a plan in threads fails.
ghost use Rattle.std.specs.Prelude.{◌≡◌};
ghost use Rattle.realm_program.specs.declared.run_fault.RunFault.TheVariants.{Memory};

use granule_addr::BuildId;
use std::alloc::AllocError;

/// The reason why the run of a plan in threads fails.
#[derive(Clone, Copy)]
pub enum RunFault {
    /// A failed allocation.
    Memory,
    /// The lowest-numbered build whose worker was denied a turn by the gate.
    Stuck(BuildId),
    /// A build's report, or a list of events of a build's seat, that does not match the history.
    Mismatch,
}

impl From<AllocError> for RunFault {
    ghost from_gives = { λ _ fault. fault ≡ Memory };

    fn from(_error: AllocError) -> RunFault {
        RunFault::Memory
    }
}
