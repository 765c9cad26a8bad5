//! The physical addresses of the machine on which a history's events happen.
ghost use Rattle.std.specs.Prelude.{◌≡◌, ◌<◌, ◌≤◌, ◌+◌, ◌%◌, ◌^◌};
ghost use Rattle.history_calls.specs.Frame as frames;

use granule_addr::Gran;
use std::marker::Model;

/// The count of the host's run pages, which RMI_REC_ENTER uses for running RECs. At most that many running RECs have a
/// page of their own.
pub const RUN_PAGE_COUNT: u16 = 64;

/// The number of granules that the host keeps for RMI parameters and REC runs. They follow the granules of the
/// history's machine.
pub const HOST_GRANULES: u16 = 66;

/// The physical address range of the machine on which a history's events happen. It is stored as the address of granule
/// 0 and the machine's number of granules.
#[derive(Clone, Copy)]
pub struct Frame {
    base: u64,
    pages: u16,
}

impl Model for Frame {
    ghost use Rattle.history_calls.specs.Frame.{Place, IsFrame};

    ghost Value = { Place };

    ghost view = { λ frame. record { base = frame.base; pages = frame.pages } };

    ghost invariant = { λ frame. IsFrame frame.base frame.pages };

    ghost inverse = { λ place. record { base = place.base; pages = place.pages } };
}

impl Frame {
    /// Creates the address range of a machine with `pages` granules at physical address `base`. Granule 0 is at the
    /// address `base`.
    pub fn new(base: u64, pages: u16) -> Frame
        requires granule { base % 4096 ≡ 0 }
        requires low { base < 2 ^ 46 }
        requires few { pages ≤ 4096 }
        ensures { result ≡ record { base = base; pages = pages } }
    {
        Frame { base, pages }
    }

    /// Returns the physical address of the machine's granule 0, in bytes.
    pub fn base(self) -> u64
        ensures { result ≡ self.base }
    {
        self.base
    }

    /// Returns the number of granules of the machine plus the host's own `HOST_GRANULES`.
    pub fn granules(self) -> u16
        ensures { result ≡ self.pages + 66 }
    {
        self.pages + HOST_GRANULES
    }

    /// Returns the physical address of a granule of the machine, in bytes.
    pub fn address(self, granule: Gran) -> u64
        ensures value { result ≡ frames.address self granule }
        ensures below { result < 2 ^ 47 }
    {
        self.base + 4096 * granule.number() as u64
    }

    /// Returns the physical address of the host's own granule `number`, in bytes.
    pub(crate) fn host(self, number: u16) -> u64
        requires { number < 66 }
        ensures { result ≡ frames.host self number }
    {
        self.base + 4096 * (self.pages as u64 + number as u64)
    }
}
