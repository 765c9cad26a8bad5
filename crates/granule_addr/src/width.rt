//! IPA widths of realms, and the starting tables that each width needs.
ghost use Rattle.std.specs.Prelude.{◌≡◌, ◌-◌, ◌^◌, ◌<◌, ◌≤◌, Some, None, if◌then◌else◌};
ghost use Rattle.granule_addr.specs.Ipa.{is_width};
ghost use Rattle.granule_addr.specs.Root.{start_count};

use crate::Gran;
use std::marker::Model;

/// The IPA width of a realm, 39 to 43 bits. RMM 1.0, Realm attributes; the range is this profile's own.
#[derive(Clone, Copy, PartialEq, Eq)]
pub struct IpaWidth(u8);

impl Model for IpaWidth {
    ghost use Rattle.std.specs.Prelude.{ℕ, ◌≤◌};

    ghost Value = { ℕ };

    ghost view = { λ w. w.0 };

    ghost invariant = { λ w. (39 ≤ w.0) × (w.0 ≤ 43) };

    ghost inverse = { λ n. record { 0 = n } };
}

impl IpaWidth {
    pub fn new(width: u8) -> Option<IpaWidth>
        ensures { result ≡ (if is_width width then Some width else None) }
    {
        if 39 <= width && width <= 43 {
            Some(IpaWidth(width))
        } else {
            None
        }
    }

    /// Returns the least IPA width, which needs one starting table.
    pub fn least() -> IpaWidth
        ensures { result ≡ 39 }
    {
        IpaWidth(39)
    }

    /// Returns the IPA width as a number of bits.
    pub fn number(self) -> u8
        ensures value { result ≡ self }
        ensures at_least { 39 ≤ result }
        ensures at_most { result ≤ 43 }
    {
        self.0
    }

    /// Returns the number of starting tables that this IPA width needs. The number is 1, 2, 4, 8 or 16.
    pub fn start_count(self) -> u16
        ensures value { result ≡ start_count self }
        ensures some { 0 < result }
        ensures at_most { result ≤ 16 }
    {
        1u16 << (self.0 - 39)
    }
}

/// The starting tables of a realm, in adjacent granules. `first` is the first table, and `width` determines the number
/// of tables. RMM 1.0, Realm attributes: RTT base address and IPA width.
#[derive(Clone, Copy, PartialEq, Eq)]
pub struct Root {
    pub first: Gran,
    pub width: IpaWidth,
}
