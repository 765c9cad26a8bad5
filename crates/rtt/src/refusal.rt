//! The refusal of an operation on translation tables, with the RTT level that it reports.
ghost use Rattle.std.specs.Prelude.{◌≡◌};
ghost use Rattle.realm_model.specs.Command.Check.{error_rtt};

use granule_addr::Level;
use realm_model::{Rmi, Status};
use thiserror::Error;

/// The refusal of an operation on a realm's translation tables. It has the level of the table whose entry is not what
/// the operation needs. RMM 1.0, RMI_ERROR_RTT.
#[derive(Clone, Copy, Debug, Drop, Error)]
#[error("the entry at level {} is not what is needed", .level.number())]
pub struct Rtt {
    pub level: Level,
}

/// Converts the refusal of an operation on translation tables to the result RMI_ERROR_RTT with the refusal's level.
impl From<Rtt> for Rmi {
    ghost from_gives = { λ refusal rmi. rmi ≡ error_rtt refusal.level };

    fn from(refusal: Rtt) -> Rmi {
        Rmi {
            status: Status::Rtt,
            index: refusal.level.number(),
        }
    }
}
