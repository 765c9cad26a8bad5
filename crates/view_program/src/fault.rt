//! The reasons why a `realmview` subcommand fails.
ghost use Rattle.std.specs.Prelude.{◌≡◌};
ghost use Rattle.view_program.specs.declared.fault.ViewError.TheVariants.{Plan, Memory, Device};

use checked_io::{DeviceFailed, ReadError};
use command_line::Reason;
use realm_host::WhyNot;
use std::alloc::AllocError;
use thiserror::Error;

/// The reason why a `realmview` subcommand fails. The text of the reason goes to standard error. Input lines are
/// counted from 1.
#[derive(Debug, Drop, Error)]
pub enum ViewError {
    /// An input that is not a plan. The string has the input's errors as `check` writes them.
    #[error("{}", .0.trim_end())]
    NoPlan(String),
    /// A plan from which the requested text cannot be made, with the reason.
    #[error(transparent)]
    Plan(realm_program::Fault),
    /// A history whose first line is missing or does not describe a machine.
    #[error("line 1 opens no history")]
    NoOpening,
    /// A line of a history that is not the text of an event, with the line's number.
    #[error("line {0} is no event")]
    NoEvent(usize),
    /// An event of a history that cannot be applied to the host. The fields are the number of its line, the reason, and
    /// the reason in words.
    #[error("line {0} is refused: {2}")]
    Refused(usize, WhyNot, String),
    /// A request to leave out the events of a build that the machine does not have.
    #[error("erase names no build")]
    EraseNamesNoBuild,
    /// A plan that becomes too large with its new schedule. With all the turns that its builds need, the plan would
    /// have too many turns or bytes.
    #[error("with the turns that its builds need, the plan has more than 16384 turns or 1048576 bytes")]
    OrderOutsideLimits,
    /// A failed allocation.
    #[error("memory")]
    Memory,
    /// A failed read or write.
    #[error("device")]
    Device,
}

impl Reason for ViewError {
    ghost use Rattle.view_program.specs.Stop.{view_status_of};

    ghost status_of = { view_status_of };

    ghost memory = { Memory };

    fn status(&self) -> u8 {
        match self {
            ViewError::NoPlan(_) => 1,
            ViewError::Plan(fault) => fault.status(),
            ViewError::NoOpening | ViewError::NoEvent(_) | ViewError::Refused(..) => 1,
            ViewError::OrderOutsideLimits => 1,
            ViewError::EraseNamesNoBuild => 2,
            ViewError::Memory => 3,
            ViewError::Device => 5,
        }
    }

    fn of_memory() -> ViewError {
        ViewError::Memory
    }
}

impl From<realm_program::Fault> for ViewError {
    ghost from_gives = { λ error fault. fault ≡ Plan error };

    fn from(error: realm_program::Fault) -> ViewError {
        ViewError::Plan(error)
    }
}

impl From<ReadError> for ViewError {
    ghost use Rattle.std.specs.Prelude.{◌≡◌};
    ghost use Rattle.view_program.specs.Stop.{view_fault_of_read};

    ghost from_gives = { λ error fault. fault ≡ view_fault_of_read error };

    fn from(error: ReadError) -> ViewError {
        match error {
            ReadError::Memory => ViewError::Memory,
            ReadError::Device => ViewError::Device,
        }
    }
}

impl From<DeviceFailed> for ViewError {
    ghost from_gives = { λ _ fault. fault ≡ Device };

    fn from(_error: DeviceFailed) -> ViewError {
        ViewError::Device
    }
}

impl From<AllocError> for ViewError {
    ghost from_gives = { λ _ fault. fault ≡ Memory };

    fn from(_error: AllocError) -> ViewError {
        ViewError::Memory
    }
}
