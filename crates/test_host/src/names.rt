//! Converts a plain number to a block order, or to a granule.
use granule_addr::{Gran, Order};

/// Returns the block order `number` modulo 10.
pub(crate) fn order(number: u8) -> Order {
    Order::new(number % 10).unwrap()
}

/// Returns the granule `number` modulo 4096.
pub(crate) fn granule(number: u16) -> Gran {
    Gran::new(number % 4096, 4096).unwrap()
}
