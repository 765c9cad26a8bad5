//! The role of each page that a step names, such as RD, starting table, data or auxiliary.
use host_commands::{Cmd, Step};
use realm_host::GranuleState;

/// The role of a page that a step names.
#[derive(Clone, Copy)]
pub(crate) enum Role {
    /// No role, as for the page of a `delegate` step.
    NoRole,
    Rd,
    StartingTable,
    Table,
    Data,
    Source,
    Rec,
    Auxiliary,
}

impl Role {
    /// Returns the words for the role, such as `RD `, to be put before the noun `page`.
    pub(crate) fn words(self) -> &'static str {
        match self {
            Role::NoRole => "",
            Role::Rd => "RD ",
            Role::StartingTable => "starting table ",
            Role::Table => "table ",
            Role::Data => "data ",
            Role::Source => "source ",
            Role::Rec => "REC ",
            Role::Auxiliary => "auxiliary ",
        }
    }
}

/// Returns the role of a page that a step names. It is `NoRole` if the step gives its pages no role. A page that is
/// named twice has its first role.
pub(crate) fn role_of(step: &Step, page: u16) -> Role {
    let Step::Ask(cmd) = step else {
        return Role::NoRole;
    };
    match cmd {
        Cmd::Realm { rd, .. } if *rd == page => Role::Rd,
        Cmd::Realm { .. } => Role::StartingTable,
        Cmd::Rtt { .. } => Role::Table,
        Cmd::Data { page: data, .. } if *data == page => Role::Data,
        Cmd::Data { .. } => Role::Source,
        Cmd::Unknown { .. } => Role::Data,
        Cmd::Rec { page: rec, .. } if *rec == page => Role::Rec,
        Cmd::Rec { .. } => Role::Auxiliary,
        _ => Role::NoRole,
    }
}

/// Returns the role of a page in a step, given the page's required state. The page of a `data` step that has to be
/// UNDELEGATED is the source.
pub(crate) fn role_by_state(step: &Step, page: u16, required: GranuleState) -> Role {
    match (required, step) {
        (GranuleState::Undelegated, Step::Ask(Cmd::Data { .. })) => Role::Source,
        (GranuleState::Undelegated, _) => Role::NoRole,
        _ => role_of(step, page),
    }
}
