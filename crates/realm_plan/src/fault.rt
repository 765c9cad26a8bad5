//! The errors of parsing a plan. An error is a fault in the plan's bytes, or a failed allocation.
ghost use Rattle.std.specs.Prelude.{◌≡◌};
ghost use Rattle.realm_plan.specs.declared.fault.PlanError.TheVariants.{Memory};

use std::alloc::{AllocError, AllocFailed};
use thiserror::Error;

/// The reason why bytes are not a valid plan. Of several reasons, it is the first in this list; but too many bytes come
/// before all other reasons.
#[derive(Clone, Copy, Debug, PartialEq, Eq, Error)]
pub enum PlanFault {
    /// A plan whose bytes are not UTF-8, or are not a TOML document.
    #[error("plan 20 syntax")]
    Syntax,
    /// A required key that a plan lacks, an unknown key, or a key whose value has the wrong type.
    #[error("plan 21 key")]
    Key,
    /// The first step whose text cannot be parsed, in the sequence of a plan's builds and their steps. The fields are
    /// the numbers of the build and of the step, both counted from 0.
    #[error("plan 22 step {build} {step}")]
    Step { build: usize, step: usize },
    /// The first entry of a plan's schedule `order` that names no build. The index of the entry is `place`, counted
    /// from 0.
    #[error("plan 23 order {place}")]
    Order { place: usize },
    /// A limit that the plan violates: on a number, on a list's length or on the plan's size in bytes.
    #[error("plan 24 limit")]
    Limit,
}

/// The error of parsing a plan, which is a fault in the bytes or a failed allocation.
#[derive(Clone, Copy, Debug, Error)]
pub enum PlanError {
    /// A failed allocation.
    #[error("memory")]
    Memory,
    #[error(transparent)]
    Fault(PlanFault),
}

impl From<AllocError> for PlanError {
    ghost from_gives = { λ _ e. e ≡ Memory };

    fn from(_e: AllocError) -> PlanError {
        PlanError::Memory
    }
}

impl<T: Drop> From<AllocFailed<T>> for PlanError {
    ghost from_gives = { λ _ e. e ≡ Memory };

    fn from(_e: AllocFailed<T>) -> PlanError {
        PlanError::Memory
    }
}
