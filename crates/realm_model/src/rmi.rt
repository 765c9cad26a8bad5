//! The refusals of the RMM, and their result words.
ghost use Rattle.std.specs.Prelude.{◌≡◌, ◌+◌, ◌*◌};

/// The RMI status that gives the reason for a refused command. RMM 1.0, RMI status codes.
#[derive(Clone, Copy, Debug, PartialEq, Eq)]
pub enum Status {
    Input,
    Realm,
    Rec,
    Rtt,
}

impl Status {
    ghost use Rattle.realm_model.specs.Rmi.{status_code};

    /// Returns the number that encodes the status in a result word. The number is never 0, which is RMI_SUCCESS.
    pub fn code(self) -> u8
        ensures { result ≡ status_code self }
    {
        match self {
            Status::Input => 1,
            Status::Realm => 2,
            Status::Rec => 3,
            Status::Rtt => 4,
        }
    }
}

/// A refusal by the RMM, with a status and an index. The index is a table's level for RMI_ERROR_RTT, and 0 otherwise.
#[derive(Clone, Copy, Debug, PartialEq, Eq)]
pub struct Rmi {
    pub status: Status,
    pub index: u8,
}

impl Rmi {
    ghost use Rattle.realm_model.specs.Rmi.{result_word};

    /// The refusal with the status RMI_ERROR_INPUT. It is due to an input value of the command.
    pub const INPUT: Rmi = Rmi {
        status: Status::Input,
        index: 0,
    };

    /// The refusal with the status RMI_ERROR_REALM. It is due to the state of a realm.
    pub const REALM: Rmi = Rmi {
        status: Status::Realm,
        index: 0,
    };

    /// The refusal with the status RMI_ERROR_REC. It is due to the state of a REC.
    pub const REC: Rmi = Rmi {
        status: Status::Rec,
        index: 0,
    };

    /// Returns the RMI result word of the refusal. It has the status in bits 0 to 7 and the index in bits 8 to 15.
    pub fn word(self) -> u64
        ensures { result ≡ result_word self }
    {
        self.status.code() as u64 + 256 * self.index as u64
    }
}
