//! The handle through which a C program owns an RMM.
ghost use Rattle.std.specs.Prelude.{◌≡◌, Some, None, IfSome, IfNone, is_some};

use crate::{HeldRmm, PlainRmm};
use box_parts::BoxParts;
use std::alloc::Global;
use std::mem::replace;

/// A handle through which a C program owns an RMM. A closed handle has no RMM. A handle whose bytes are all 0 is
/// closed.
#[repr(C)]
#[derive(Drop)]
pub struct RmmHandle {
    is_open: bool,
    pub held: HeldRmm,
    ghost agrees: { is_some held.machine ≡ is_open },
}

impl RmmHandle {
    // Takes the RMM out, which closes the handle.
    pub(crate) fn take(&mut self, alloc: Global) -> Option<Box<PlainRmm>>
        ensures some { IfSome result (λ rmm. self.old.held.machine ≡ Some rmm.value) }
        ensures none { IfNone result (self.old.held.machine ≡ None) }
        ensures closed { self.new.held.machine ≡ None }
    {
        if !self.is_open {
            return None;
        }
        let closed = RmmHandle {
            is_open: false,
            held: HeldRmm::none(),
        };
        let RmmHandle { is_open: _, held } = replace(self, closed);
        Some(held.into_parts(alloc).into_box())
    }

    // Puts an RMM into a closed handle. The RMM of an open handle would never be freed.
    pub(crate) fn give(&mut self, rmm: Box<PlainRmm>)
        requires closed { self.old.held.machine ≡ None }
        ensures { self.new.held.machine ≡ Some rmm.value }
    {
        *self = RmmHandle {
            is_open: true,
            held: HeldRmm::of(BoxParts::of(rmm)),
        };
    }

    // Whether the handle has an RMM.
    pub(crate) fn is_open(&mut self) -> bool
        ensures answer { result ≡ is_some self.old.held.machine }
        ensures same { self.new ≡ self.old }
    {
        self.is_open
    }
}
