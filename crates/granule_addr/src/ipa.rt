//! IPA granule numbers, and functions that say whether an IPA granule is protected, and which starting table and
//! entries cover it.
ghost use Rattle.std.specs.Prelude.{◌≡◌, ◌↔◌, ◌<◌, ◌&&◌, IsTrue, Some, None, if◌then◌else◌};
ghost use Rattle.granule_addr.specs.Ipa.{is_width, is_in_space, is_protected_at, entry_index, start_index, widest_space};

use crate::{IpaWidth, Level};
use std::marker::Model;

/// The number of an IPA granule: its IPA divided by 4,096. RMM 1.0, Realm address space.
#[derive(Clone, Copy, PartialEq, Eq)]
pub struct IpaGran(u32);

impl Model for IpaGran {
    ghost use Rattle.std.specs.Prelude.{ℕ, ◌<◌};
    ghost use Rattle.granule_addr.specs.Ipa.{widest_space};

    ghost Value = { ℕ };

    ghost view = { λ i. i.0 };

    ghost invariant = { λ i. i.0 < widest_space };

    ghost inverse = { λ n. record { 0 = n } };
}

impl IpaGran {
    /// Creates an IPA granule number, if an address space of `width` bits has IPA granule `number`. Returns `None` if
    /// it does not, or if realms have no address space of `width` bits.
    pub fn new(number: u32, width: u8) -> Option<IpaGran>
        ensures { result ≡ (if is_width width && is_in_space number width then Some number else None) }
    {
        let width = IpaWidth::new(width)?;
        if number < 1 << (width.number() - 12) {
            Some(IpaGran(number))
        } else {
            None
        }
    }

    pub fn number(self) -> u32
        ensures value { result ≡ self }
        ensures below { result < widest_space }
    {
        self.0
    }
}

/// Returns whether an IPA granule is in the protected, lower half of the realm's address space. RMM 1.0, Protected IPA.
pub fn is_protected(ipa: IpaGran, width: IpaWidth) -> bool
    ensures { result ≡ is_protected_at ipa width }
{
    ipa.number() < 1 << (width.number() - 13)
}

/// Returns the index of the RTT entry that covers an IPA granule at a level. The index is 0 to 511.
pub fn index_at(ipa: IpaGran, level: Level) -> u16
    ensures value { result ≡ entry_index level ipa }
    ensures below { result < 512 }
{
    let number = ipa.number();
    let index = match level.number() {
        1 => number / 262_144 % 512,
        2 => number / 512 % 512,
        _ => number % 512,
    };
    index as u16
}

/// Returns the index of the starting table that covers the IPA granule. The index is 0 to 15. RMM 1.0, RTT walk.
pub fn start_table(ipa: IpaGran) -> u16
    ensures value { result ≡ start_index ipa }
    ensures below { result < 16 }
{
    (ipa.number() / 134_217_728) as u16
}
