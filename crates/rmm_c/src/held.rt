//! The pointer through which a C program's handle owns an RMM on the heap. No other file has access to the pointer.
ghost use Rattle.std.specs.Prelude.{◌≡◌, true, Option, Some, None, is_some};
ghost use Rattle.std.specs.Coded.{coded_option};
ghost use Rattle.rmm_model.specs.Codes.{machine_code};
ghost use Rattle.rmm_model.specs.Machine.{Machine};
ghost use Rattle.box_parts.specs.Owned.{held_owns};
ghost use Rattle.rmm_c.specs.contracts.plain_rmm.PlainRmm.{the_row as rmm_row};

use crate::PlainRmm;
use box_parts::BoxParts;
use std::alloc::Global;
use std::marker::Model;

/// A pointer to an RMM on the heap, or null if there is none.
#[repr(C)]
#[derive(Drop)]
pub struct HeldRmm {
    at: *mut u8,
    pub ghost machine: { Option Machine } by { coded_option machine_code },
}

impl Model for HeldRmm {
    ghost also_owns = { λ h. held_owns rmm_row h.at h.machine };
}

impl HeldRmm {
    pub(crate) fn none() -> HeldRmm
        ensures { result.machine ≡ None }
    {
        HeldRmm {
            at: std::ptr::null_mut(),
        }
    }

    pub(crate) fn of(parts: BoxParts<PlainRmm, Global>) -> HeldRmm
        ensures { result.machine ≡ Some parts.value }
    {
        let BoxParts { ptr, alloc: _ } = parts;
        HeldRmm { at: ptr as *mut u8 }
    }

    pub(crate) fn into_parts(self, alloc: Global) -> BoxParts<PlainRmm, Global>
        requires { is_some self.machine ≡ true }
        ensures { self.machine ≡ Some result.value }
    {
        let HeldRmm { at } = self;
        BoxParts {
            ptr: at as *mut PlainRmm,
            alloc,
        }
    }
}
