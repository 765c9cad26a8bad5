//! Blocks of granules, with the order and the buddy of a block.
ghost use Rattle.std.specs.Prelude.{◌≡◌, ◌*◌, ◌/◌, ◌^◌, ◌<◌, ◌≤◌, nat_le, Some, None, if◌then◌else◌, bit_xor};

use crate::Gran;
use std::marker::Model;

/// The order of a block, 0 to 9. The block has 2^order granules, and begins at a multiple of 2^order.
#[derive(Clone, Copy, Debug, PartialEq, Eq)]
pub struct Order(u8);

impl Model for Order {
    ghost use Rattle.std.specs.Prelude.{ℕ, ◌≤◌};

    ghost Value = { ℕ };

    ghost view = { λ o. o.0 };

    ghost invariant = { λ o. o.0 ≤ 9 };

    ghost inverse = { λ n. record { 0 = n } };
}

impl Order {
    pub fn new(order: u8) -> Option<Order>
        ensures { result ≡ (if nat_le order 9 then Some order else None) }
    {
        if order <= 9 { Some(Order(order)) } else { None }
    }

    pub fn number(self) -> u8
        ensures value { result ≡ self }
        ensures at_most { result ≤ 9 }
    {
        self.0
    }

    /// Returns the number of granules in a block of this order.
    pub fn size(self) -> u16
        ensures value { result ≡ 2 ^ self }
        ensures some { 0 < result }
        ensures at_most { result ≤ 512 }
        ensures order { self ≤ 9 }
    {
        1u16 << self.0
    }
}

/// Rounds `number` down to a multiple of 2^order.
pub fn align_down(number: u16, order: Order) -> u16
    ensures { result ≡ number / 2 ^ order * 2 ^ order }
{
    let size = order.size();
    number / size * size
}

/// Returns the first granule number of a block's buddy, which is the other half of the aligned block of twice the size.
/// The number differs from `first` in bit `order` alone. A machine may lack a granule with that number.
pub fn buddy_of(first: Gran, order: Order) -> u16
    ensures { result ≡ bit_xor first (2 ^ order) }
{
    first.number() ^ order.size()
}
