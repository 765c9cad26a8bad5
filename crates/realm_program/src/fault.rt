//! The reasons why a program prints nothing, or only part of its text.
ghost use Rattle.std.specs.Prelude.{◌≡◌};
ghost use Rattle.realm_program.specs.declared.fault.Fault.TheVariants.{Memory, Device};

use checked_io::{DeviceFailed, ReadError};
use command_line::Reason;
use granule_addr::BuildId;
use realm_plan::{PlanError, PlanFault};
use std::alloc::AllocError;
use thiserror::Error;

/// The reason why a program prints nothing, or only a prefix of its text. The reason's line goes to standard error.
#[derive(Clone, Copy, Debug, PartialEq, Eq, Error)]
pub enum Fault {
    /// An input that is not a plan.
    #[error(transparent)]
    Plan(PlanFault),
    /// A request to leave out a build that the plan does not have.
    #[error("erase names no build")]
    EraseNamesNoBuild,
    /// A failed allocation.
    #[error("memory")]
    Memory,
    /// A build whose worker waited in vain for its next turn.
    #[error("thread")]
    Stuck(BuildId),
    /// A contradiction between two accounts of a run, such as a worker's report and the history. In a run in threads:
    /// the history does not match a worker's report, or the events of a worker's seat. In an exploration of schedules:
    /// a run contradicts an earlier run, or the graph of the runs. For a plan with a new schedule: its text, read back,
    /// is not that plan.
    #[error("mismatch")]
    Mismatch,
    /// A failed read or write.
    #[error("device")]
    Device,
}

impl Reason for Fault {
    ghost use Rattle.realm_program.specs.Fault.{status_of};

    ghost status_of = { status_of };

    ghost memory = { Memory };

    fn status(&self) -> u8 {
        match self {
            Fault::Plan(_) => 1,
            Fault::EraseNamesNoBuild => 2,
            Fault::Memory => 3,
            Fault::Stuck(_) => 3,
            Fault::Mismatch => 4,
            Fault::Device => 5,
        }
    }

    fn of_memory() -> Fault {
        Fault::Memory
    }
}

impl From<PlanError> for Fault {
    ghost use Rattle.std.specs.Prelude.{◌≡◌};
    ghost use Rattle.realm_program.specs.Fault.{fault_of_plan};

    ghost from_gives = { λ error fault. fault ≡ fault_of_plan error };

    fn from(error: PlanError) -> Fault {
        match error {
            PlanError::Memory => Fault::Memory,
            PlanError::Fault(fault) => Fault::Plan(fault),
        }
    }
}

impl From<ReadError> for Fault {
    ghost use Rattle.std.specs.Prelude.{◌≡◌};
    ghost use Rattle.realm_program.specs.Fault.{fault_of_read};

    ghost from_gives = { λ error fault. fault ≡ fault_of_read error };

    fn from(error: ReadError) -> Fault {
        match error {
            ReadError::Memory => Fault::Memory,
            ReadError::Device => Fault::Device,
        }
    }
}

impl From<DeviceFailed> for Fault {
    ghost from_gives = { λ _ fault. fault ≡ Device };

    fn from(_error: DeviceFailed) -> Fault {
        Fault::Device
    }
}

impl From<AllocError> for Fault {
    ghost from_gives = { λ _ fault. fault ≡ Memory };

    fn from(_error: AllocError) -> Fault {
        Fault::Memory
    }
}
