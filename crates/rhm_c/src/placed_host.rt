//! A host, together with the physical addresses of its granules.
ghost use Rattle.std.specs.Prelude.{◌≡◌, true, IfSome};
ghost use Rattle.rhm_c.specs.Settings.{are_settings, opened_host};

use crate::HostSettings;
use history_calls::Frame;
use page_arena::PlainStore;
use realm_host::{Host, Settings};
use std::alloc::Global;

/// A host that keeps the pages of its granules in a `PlainStore`.
pub(crate) type PlainHost = Host<PlainStore>;

/// A host, with the physical address of granule 0 and the number of granules. Both numbers are in `frame`.
#[derive(Drop)]
pub struct PlacedHost {
    pub(crate) host: Host<PlainStore>,
    pub(crate) frame: Frame,
}

impl PlacedHost {
    /// Creates a host with the given settings. Returns `None` if there is not enough memory.
    pub(crate) fn open(alloc: Global, settings: &HostSettings) -> Option<PlacedHost>
        requires { are_settings settings.now ≡ true }
        ensures { IfSome result (λ placed. placed ≡ opened_host settings.now) }
    {
        let numbers = Settings::new(
            settings.vmids as u8,
            settings.aux as u8,
            settings.history as u16,
            settings.builds as u8,
        )?;
        let Ok(store) = PlainStore::build(alloc, settings.pages as u16) else {
            return None;
        };
        let Ok(host) = Host::boot(alloc, numbers, store) else {
            return None;
        };
        let frame = Frame::new(settings.base, settings.pages as u16);
        Some(PlacedHost { host, frame })
    }
}
