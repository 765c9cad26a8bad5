//! The names of refusals, and of states of granules, realms, RECs and table entries. RMM 1.0 names the states and the
//! RMI results.
use crate::phrase::{Phrase, one, plain};
use realm_host::{EntryState, GranuleState, RealmState, RecState, Refusal, Rmi};
use realm_model::Status;
use realm_plan::{realm_word, state_word};

// The name of an RMI result, with the index if the result is RMI_ERROR_RTT.
fn rmi_name(rmi: Rmi) -> Phrase {
    match rmi.status {
        Status::Input => plain("RMI_ERROR_INPUT"),
        Status::Realm => plain("RMI_ERROR_REALM"),
        Status::Rec => plain("RMI_ERROR_REC"),
        Status::Rtt => one("RMI_ERROR_RTT, index {}", rmi.index as u64),
    }
}

/// Returns the name of a refusal: one of the host's own refusals, or the result of an RMI command.
pub(crate) fn refusal_name(refusal: Refusal) -> Phrase {
    match refusal {
        Refusal::NoBuild => plain("NoBuild"),
        Refusal::Aborting => plain("Aborting"),
        Refusal::BadOrder => plain("BadOrder"),
        Refusal::NotLeased(_) => plain("NotLeased"),
        Refusal::RealmThere => plain("RealmThere"),
        Refusal::NoRealm => plain("NoRealm"),
        Refusal::NothingToUndo => plain("NothingToUndo"),
        Refusal::RecRunning => plain("RecRunning"),
        Refusal::JournalFull => plain("JournalFull"),
        Refusal::HistoryFull => plain("HistoryFull"),
        Refusal::NoBlock(_) => plain("NoBlock"),
        Refusal::NoVmid => plain("NoVmid"),
        Refusal::Rmi(rmi) => rmi_name(rmi),
    }
}

pub(crate) fn granule_state(state: Option<GranuleState>) -> &'static str {
    match state {
        Some(state) => state_word(state),
        None => "missing",
    }
}

pub(crate) fn realm_state(state: Option<RealmState>) -> &'static str {
    match state {
        Some(state) => realm_word(state),
        None => "missing",
    }
}

pub(crate) fn rec_state(state: Option<RecState>) -> &'static str {
    match state {
        Some(RecState::Ready) => "READY",
        Some(RecState::Running) => "RUNNING",
        None => "missing",
    }
}

pub(crate) fn entry_state(state: Option<EntryState>) -> &'static str {
    match state {
        Some(EntryState::Unassigned) => "UNASSIGNED",
        Some(EntryState::Assigned) => "ASSIGNED",
        Some(EntryState::Table) => "TABLE",
        None => "missing",
    }
}
