//! The errors that stop the run of a trace before its end.
ghost use Rattle.std.specs.Prelude.{◌≡◌};
ghost use Rattle.trace_program.specs.declared.fault.TraceError.TheVariants.{Memory, Device};

use checked_io::DeviceFailed;
use command_line::Reason;
use std::alloc::AllocError;
use thiserror::Error;

/// An error that stops the run of a trace before its end. The message of the error goes to standard error.
#[derive(Clone, Copy, Debug, Error)]
pub enum TraceError {
    /// A failed allocation.
    #[error("memory")]
    Memory,
    /// A failed read or write.
    #[error("device")]
    Device,
    /// A trace that takes more than 2^64 - 1 reads, or has more than 2^64 - 1 lines in a check.
    #[error("the trace is too long")]
    TooLong,
}

impl Reason for TraceError {
    ghost use Rattle.trace_program.specs.Stop.{trace_status_of};

    ghost status_of = { trace_status_of };

    ghost memory = { Memory };

    fn status(&self) -> u8 {
        match self {
            TraceError::Memory => 3,
            TraceError::Device | TraceError::TooLong => 5,
        }
    }

    fn of_memory() -> TraceError {
        TraceError::Memory
    }
}

impl From<DeviceFailed> for TraceError {
    ghost from_gives = { λ _ fault. fault ≡ Device };

    fn from(_error: DeviceFailed) -> TraceError {
        TraceError::Device
    }
}

impl From<AllocError> for TraceError {
    ghost from_gives = { λ _ fault. fault ≡ Memory };

    fn from(_error: AllocError) -> TraceError {
        TraceError::Memory
    }
}
