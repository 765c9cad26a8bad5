//! The actions of a host on an RMM, such as RMI calls, for a command that the RMM refuses.
//!
//! This project's RMM refuses some commands that RMM 1.0 accepts. Others it refuses with another result word.
use buddy::BuddyArena;
use granule_addr::{BuildId, IpaGran, is_protected};
use history_calls::{Actions, Frame, RUN_PAGE_COUNT, actions_asked};
use host_commands::Cmd;
use realm_host::Host;
use realm_model::{Rmi, Status};

// The number of pages that one table of level 3 maps.
const PAGES_OF_A_TABLE: u32 = 512;

// Whether an IPA granule is in the unprotected half of a realm's address space.
fn is_unprotected(host: &Host<BuddyArena>, build: BuildId, ipa: u32) -> bool {
    let Some(realm) = host.realm(build) else {
        return false;
    };
    let width = realm.root().width;
    match IpaGran::new(ipa, width.number()) {
        Some(ipa) => !is_protected(ipa, width),
        None => false,
    }
}

// Whether a run of pages is mapped by one table of level 3.
fn is_in_one_table(ipa: u32, count: u16) -> bool {
    ipa % PAGES_OF_A_TABLE + u32::from(count) <= PAGES_OF_A_TABLE
}

// Whether RMM 1.0 also answers a command with the refusal `rmi`. RMM 1.0 has tables for unprotected IPAs, and changes
// the RIPAS of as many pages as it can.
fn is_of_the_standard(host: &Host<BuddyArena>, build: BuildId, cmd: &Cmd, rmi: Rmi) -> bool {
    match (cmd, rmi.status) {
        (Cmd::Rtt { ipa, .. }, Status::Input) => !is_unprotected(host, build, *ipa),
        (Cmd::Ripas { ipa, count }, Status::Input) => is_in_one_table(*ipa, *count),
        (Cmd::Ripas { .. }, Status::Rtt) | (Cmd::Poke { .. }, _) => false,
        _ => true,
    }
}

/// Returns the host's actions, such as RMI calls, for a command that the RMM has just refused. The result is `None` if
/// RMM 1.0 has no such call or may answer otherwise. A REC's run uses the last run page, which is given to a REC only
/// if all others are in use.
pub(crate) fn refused_calls(
    frame: Frame,
    host: &Host<BuddyArena>,
    build: BuildId,
    cmd: &Cmd,
    rmi: Rmi,
) -> Option<Actions> {
    if !is_of_the_standard(host, build, cmd, rmi) {
        return None;
    }
    actions_asked(frame, host, build, RUN_PAGE_COUNT - 1, cmd).ok()
}
