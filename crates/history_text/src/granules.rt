//! The greatest granule number and the greatest IPA granule number in a history's text, and functions that convert
//! numbers to granules.
ghost use Rattle.std.specs.Prelude.{◌≡◌, ◌≤◌};
ghost use Rattle.decimal_text.specs.Rows.{up_to};
ghost use Rattle.history_text.specs.Written.{granule, ipa};

use arrayvec::ArrayVec;
use granule_addr::{Gran, IpaGran};

/// The greatest granule number, which is that of the last granule of the largest machine.
pub const GRANULE: u32 = 4095;

/// The greatest IPA granule number, which is that of the last IPA granule of the widest address space.
pub const IPA: u32 = 2_147_483_647;

/// The maximum number of auxiliary granules of a REC.
const MOST_AUXILIARIES: usize = 16;

/// The largest IPA width of a realm, in bits.
const WIDEST: u8 = 43;

pub fn granule_of(number: u32) -> Gran
    requires { number ≤ granule }
    ensures { result ≡ number }
{
    Gran::from_number(number as u16)
}

pub fn ipa_of(number: u32) -> IpaGran
    requires { number ≤ ipa }
    ensures { result ≡ number }
{
    IpaGran::new(number, WIDEST).unwrap()
}

/// Converts up to 16 granule numbers to granules. Returns `None` if there are more than 16 numbers, or if a number is
/// out of range.
pub fn granules_of(numbers: &[u32]) -> Option<ArrayVec<Gran, MOST_AUXILIARIES>>
    ensures { result ≡ up_to 16 granule numbers.now }
{
    if numbers.len() > MOST_AUXILIARIES {
        return None;
    }
    let mut found = ArrayVec::new();
    for number in numbers {
        if *number > GRANULE {
            return None;
        }
        found.push(granule_of(*number));
    }
    Some(found)
}
