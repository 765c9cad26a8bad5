//! Checks which pages and realms three builds have left on a host after their runs.
use crate::expected::{holds, same_text};
use granule_addr::BuildId;
use page_arena::PageStore;
use plan_replay::map_text;
use realm_host::Host;
use std::alloc::Global;
use std::process::Abort;

// The VMID of a build's realm.
fn vmid_of<S: PageStore>(rt: &impl Abort, host: &Host<S>, number: u8) -> u8 {
    let build = BuildId::new(number).expect(rt, "a build");
    let (_, vmid) = host.realm_view(build).expect(rt, "a realm");
    vmid.number()
}

// The expected map of a host with two guests, each with all that it has built.
fn wanted_map(rt: &impl Abort, alloc: Global, vmid0: u8, vmid2: u8) -> String {
    let text = format!(in alloc;
        "0 page 0 RD
0 page 1 RTT
0 page 2 RTT
0 page 3 RTT
0 page 4 DATA 28666
0 page 5 UNDELEGATED 28672
0 page 6 REC
0 page 7 REC_AUX
0 realm ACTIVE vmid {vmid0}
2 page 0 RD
2 page 1 RTT
2 page 2 RTT
2 page 3 RTT
2 page 4 DATA 36856
2 page 5 UNDELEGATED 36864
2 page 6 REC
2 page 7 REC_AUX
2 realm ACTIVE vmid {vmid2}
free 8
"
    );
    text.expect(rt, "memory")
}

/// Checks that builds 0 and 2 still have all their pages and their realms. The VMIDs of the realms differ. Build 1 has
/// nothing.
pub(crate) fn has_two_guests<S: PageStore>(rt: &impl Abort, alloc: Global, host: &Host<S>) {
    let vmid0 = vmid_of(rt, host, 0);
    let vmid2 = vmid_of(rt, host, 2);
    holds(rt, "each has its own", vmid0 != vmid2);
    holds(rt, "the VMID of build 0", (1..=3).contains(&vmid0));
    holds(rt, "the VMID of build 2", (1..=3).contains(&vmid2));
    let want = wanted_map(rt, alloc, vmid0, vmid2);
    let seen = map_text(alloc, host).expect(rt, "memory");
    same_text(rt, seen.as_str(), want.as_str());
}

/// Checks that a host's printed map of pages and realms shows nothing of build 1. Applies the history without build 1's
/// events to `fresh`, and compares the maps of both hosts.
pub(crate) fn is_without_build_1<S: PageStore>(
    rt: &impl Abort,
    alloc: Global,
    host: &Host<S>,
    fresh: &mut Host<S>,
) {
    for event in host.history() {
        if event.build.number() != 1 {
            holds(rt, "an event is applied", fresh.apply_recorded(event));
        }
    }
    let want = map_text(alloc, fresh).expect(rt, "memory");
    let seen = map_text(alloc, host).expect(rt, "memory");
    same_text(rt, seen.as_str(), want.as_str());
}
