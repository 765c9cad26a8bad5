//! A test that applies the recorded events of one host to a fresh host.
use crate::boot::booted;
use crate::{Fault, tell};
use buddy::BuddyArena;
use realm_host::Host;
use realm_model::Event;
use std::alloc::Global;

// Applies the events of a history to a host one after another, and returns the number of those that it accepts.
fn apply_all(host: &mut Host<BuddyArena>, history: &[Event]) -> u32 {
    let mut applied: u32 = 0;
    for event in history {
        applied = applied.saturating_add(u32::from(host.apply_recorded(event)));
    }
    applied
}

/// Applies the recorded events of one host to a fresh host.
pub(crate) fn applies_again(
    rt: &impl Print,
    alloc: Global,
    host: &Host<BuddyArena>,
) -> Result<(), Fault> {
    let mut fresh = booted(rt, alloc)?;
    let history = host.history();
    tell(rt, "quiet");
    let applied = apply_all(&mut fresh, history);
    let _told = println!(rt;
        "{applied} of {} recorded events are applied",
        history.len()
    );
    Ok(())
}
