//! Writes and parses texts that consist of a word and decimal numbers.
//!
//! A number is written in decimal, without a sign and without leading zeros, and one space is before it. A function
//! that returns a value returns the one that the text spells; if it returns none, the text spells none.
#![tactic(auto)]

mod number;
mod operands;
mod range;
mod spelling;

pub use number::{cut_at_space, numbers_of};
pub use operands::{Operand, four_operands, one_operand, three_operands, two_operands};
pub use range::{at_most, up_to};
pub use spelling::{NumbersText, SpelledText};
