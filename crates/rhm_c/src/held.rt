//! A heap-allocated host that a C program keeps. The field with the host's pointer is private to this file.
ghost use Rattle.std.specs.Prelude.{◌≡◌, true, Option, Some, None, is_some};
ghost use Rattle.std.specs.Coded.{coded_option};
ghost use Rattle.rhm_c.specs.Codes.{placed_host_code};
ghost use Rattle.rhm_c.specs.declared.placed_host.PlacedHost as declared;
ghost use Rattle.box_parts.specs.Owned.{held_owns};
ghost use Rattle.rhm_c.specs.contracts.placed_host.PlacedHost.{the_row as host_row};

use crate::PlacedHost;
use box_parts::BoxParts;
use std::alloc::Global;
use std::marker::Model;

/// A pointer to a host on the heap, null if there is none.
#[repr(C)]
#[derive(Drop)]
pub struct HeldHost {
    at: *mut u8,
    pub ghost host: { Option declared.PlacedHost } by { coded_option placed_host_code },
}

impl Model for HeldHost {
    ghost also_owns = { λ h. held_owns host_row h.at h.host };
}

impl HeldHost {
    pub(crate) fn none() -> HeldHost
        ensures { result.host ≡ None }
    {
        HeldHost {
            at: std::ptr::null_mut(),
        }
    }

    pub(crate) fn of(parts: BoxParts<PlacedHost, Global>) -> HeldHost
        ensures { result.host ≡ Some parts.value }
    {
        let BoxParts { ptr, alloc: _ } = parts;
        HeldHost { at: ptr as *mut u8 }
    }

    pub(crate) fn into_parts(self, alloc: Global) -> BoxParts<PlacedHost, Global>
        requires { is_some self.host ≡ true }
        ensures { self.host ≡ Some result.value }
    {
        let HeldHost { at } = self;
        BoxParts {
            ptr: at as *mut PlacedHost,
            alloc,
        }
    }
}
