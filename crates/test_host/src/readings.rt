//! Checks what a host reports about its pages and realms.
use crate::calls::Call;
use realm_host::{BuildId, Host, PageStore, RealmState};

fn is_realm<S: PageStore>(host: &Host<S>, build: BuildId, want: Option<(RealmState, u8)>) -> bool {
    match (host.realm_view(build), want) {
        (Some((seen, vmid)), Some((state, number))) => seen == state && vmid.number() == number,
        (None, None) => true,
        _ => false,
    }
}

/// Returns whether a reading of a host's state gives the expected answer. The result is `false` for a call that is not
/// a reading.
pub(crate) fn is_read<S: PageStore>(host: &Host<S>, build: BuildId, call: &Call) -> bool {
    match call {
        Call::Pages(free, all, own) => {
            host.free_count() == *free && host.pages() == *all && host.page_count(build) == *own
        }
        Call::Page(page, state, sum) => {
            host.page_state(build, *page) == Some(*state)
                && host.page_sum(build, *page) == Some(*sum)
        }
        Call::Realm(want) => is_realm(host, build, *want),
        Call::Measurement(want) => host.measurement(build) == *want,
        _ => false,
    }
}
