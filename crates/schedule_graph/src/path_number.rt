//! Natural numbers of any size for counting the paths of a graph. Those below 2^128 are added as `u128`.
ghost use Rattle.std.specs.Prelude.{◌≡◌, ◌+◌, ◌==◌, OnOk, IfOk};

use crate::number::Count;
use std::alloc::{AllocError, Global};
use std::marker::Model;

/// A natural number of any size, used to count the paths of a graph. The fields are the remainder and the quotient on
/// division by 2^128. The view is the number.
#[derive(Drop)]
pub struct PathNumber {
    low: u128,
    high: Count,
}

impl Model for PathNumber {
    ghost use Rattle.std.specs.Prelude.{ℕ, ◌+◌, ◌*◌, ◌^◌};

    ghost Value = { ℕ };

    ghost view = { λ n. n.low + 2 ^ 128 * n.high };
}

impl PathNumber {
    /// Creates the number 0.
    pub fn zero(alloc: Global) -> PathNumber
        ensures { result ≡ 0 }
    {
        PathNumber {
            low: 0,
            high: Count::zero(alloc),
        }
    }

    /// Creates the number 1.
    pub fn one(alloc: Global) -> PathNumber
        ensures { result ≡ 1 }
    {
        PathNumber {
            low: 1,
            high: Count::zero(alloc),
        }
    }

    /// Adds `other` to the number. The one error is that allocation failed; the number is then unspecified.
    pub fn add(&mut self, other: &PathNumber) -> Result<(), AllocError>
        ensures { OnOk result (self.new ≡ self.old + other.now) }
    {
        let (low, is_over) = self.low.overflowing_add(other.low);
        self.low = low;
        if is_over {
            self.high.add_one()?;
        }
        self.high.add(&other.high)
    }

    /// Returns whether the number is 0.
    pub fn is_zero(&self) -> bool
        ensures { result ≡ (self.now == 0) }
    {
        self.low == 0 && self.high.is_zero()
    }

    /// Converts the number to a `Count`, which has decimal digits. The one error is that allocation failed.
    pub fn count(&self, alloc: Global) -> Result<Count, AllocError>
        ensures { IfOk result (λ count. count ≡ self.now) }
    {
        let mut count = self.high.shifted(alloc)?;
        let low = Count::of(alloc, self.low)?;
        count.add(&low)?;
        Ok(count)
    }
}
