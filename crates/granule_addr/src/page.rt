//! Byte offsets in a page.
ghost use Rattle.std.specs.Prelude.{◌≡◌, ◌<◌, nat_lt, Some, None, if◌then◌else◌};

use std::marker::Model;

/// The offset of a byte in a page, 0 to 4095.
#[derive(Clone, Copy, PartialEq, Eq)]
pub struct PageOff(u16);

impl Model for PageOff {
    ghost use Rattle.std.specs.Prelude.{ℕ, ◌<◌};

    ghost Value = { ℕ };

    ghost view = { λ o. o.0 };

    ghost invariant = { λ o. o.0 < 4096 };

    ghost inverse = { λ n. record { 0 = n } };
}

impl PageOff {
    pub fn new(offset: u16) -> Option<PageOff>
        ensures { result ≡ (if nat_lt offset 4096 then Some offset else None) }
    {
        if offset < 4096 {
            Some(PageOff(offset))
        } else {
            None
        }
    }

    pub fn number(self) -> u16
        ensures value { result ≡ self }
        ensures below { result < 4096 }
    {
        self.0
    }
}
