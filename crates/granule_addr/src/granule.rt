//! Granule numbers, and the largest number of granules that a machine can have.
ghost use Rattle.std.specs.Prelude.{◌≡◌, ◌<◌, ◌&&◌, nat_lt, Some, None, if◌then◌else◌};

use std::marker::Model;

/// The largest number of granules that a machine can have.
pub const MOST_PAGES: u16 = 4096;

/// The number of a granule in its machine: granules are counted from 0, by rising address. RMM 1.0, Granule.
#[derive(Clone, Copy, Default, PartialEq, Eq)]
pub struct Gran(u16);

impl Model for Gran {
    ghost use Rattle.std.specs.Prelude.{ℕ, ◌<◌};

    ghost Value = { ℕ };

    ghost view = { λ g. g.0 };

    ghost invariant = { λ g. g.0 < 4096 };

    ghost inverse = { λ n. record { 0 = n } };
}

impl Gran {
    /// Creates a granule number, if `number` is below 4,096 and a machine of `pages` granules has that granule. Returns
    /// `None` otherwise.
    pub fn new(number: u16, pages: u16) -> Option<Gran>
        ensures { result ≡ (if nat_lt number 4096 && nat_lt number pages then Some number else None) }
    {
        if number < MOST_PAGES && number < pages {
            Some(Gran(number))
        } else {
            None
        }
    }

    /// Converts a number below 4,096 to a granule number.
    pub fn from_number(number: u16) -> Gran
        requires { number < 4096 }
        ensures { result ≡ number }
    {
        Gran(number)
    }

    pub fn number(self) -> u16
        ensures value { result ≡ self }
        ensures below { result < 4096 }
    {
        self.0
    }
}
