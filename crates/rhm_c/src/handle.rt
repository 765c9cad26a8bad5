//! Handles through which a C program keeps a host.
ghost use Rattle.std.specs.Prelude.{◌≡◌, Some, None, IfSome, IfNone, is_some};

use crate::{HeldHost, PlacedHost};
use box_parts::BoxParts;
use std::alloc::Global;
use std::mem::replace;

/// A handle through which a C program keeps a host. A closed handle has no host. A handle whose bytes are all 0 is
/// closed.
#[repr(C)]
#[derive(Drop)]
pub struct HostHandle {
    is_open: bool,
    pub held: HeldHost,
    ghost agrees: { is_some held.host ≡ is_open },
}

impl HostHandle {
    // Takes the host out, which closes the handle.
    pub(crate) fn take(&mut self, alloc: Global) -> Option<Box<PlacedHost>>
        ensures some { IfSome result (λ placed. self.old.held.host ≡ Some placed.value) }
        ensures none { IfNone result (self.old.held.host ≡ None) }
        ensures closed { self.new.held.host ≡ None }
    {
        if !self.is_open {
            return None;
        }
        let closed = HostHandle {
            is_open: false,
            held: HeldHost::none(),
        };
        let HostHandle { is_open: _, held } = replace(self, closed);
        Some(held.into_parts(alloc).into_box())
    }

    // Puts a host into a closed handle. A host that the handle had already would never be freed.
    pub(crate) fn give(&mut self, placed: Box<PlacedHost>)
        requires closed { self.old.held.host ≡ None }
        ensures { self.new.held.host ≡ Some placed.value }
    {
        *self = HostHandle {
            is_open: true,
            held: HeldHost::of(BoxParts::of(placed)),
        };
    }

    // Whether the handle has a host.
    pub(crate) fn is_open(&mut self) -> bool
        ensures answer { result ≡ is_some self.old.held.host }
        ensures same { self.new ≡ self.old }
    {
        self.is_open
    }
}
