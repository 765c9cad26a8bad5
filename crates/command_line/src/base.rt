//! The address of a machine's first granule. An option of a command line can set the address.
ghost use Rattle.std.specs.Prelude.{◌≡◌, ◌<◌, ◌%◌, ◌^◌};

use std::marker::Model;

/// The address of a machine's first granule, in bytes: a multiple of 4,096 below 2^46.
#[derive(Clone, Copy)]
pub struct BaseAddress(u64);

impl Model for BaseAddress {
    ghost use Rattle.std.specs.Prelude.{ℕ, ◌≡◌, ◌<◌, ◌%◌, ◌^◌};

    ghost Value = { ℕ };

    ghost view = { λ base. base.0 };

    ghost invariant = { λ base. (base.0 % 4096 ≡ 0) × (base.0 < 2 ^ 46) };

    ghost inverse = { λ n. record { 0 = n } };
}

impl BaseAddress {
    /// Returns the default address of a machine's first granule, 0x80000000. Most RMMs that are built for tests have
    /// memory there.
    pub fn usual() -> BaseAddress
        ensures { result ≡ 0x80000000 }
    {
        BaseAddress(0x8000_0000)
    }

    /// Parses an address in hexadecimal, such as `0x80000000`. The result is `None` if the text gives no number, or no
    /// multiple of 4,096 below 2^46.
    pub(crate) fn read(text: &str) -> Option<BaseAddress> {
        let address = u64::from_str_radix(text.strip_prefix("0x")?, 16).ok()?;
        if address % 4096 == 0 && address < (1 << 46) {
            Some(BaseAddress(address))
        } else {
            None
        }
    }

    pub fn address(self) -> u64
        ensures value { result ≡ self }
        ensures granule { result % 4096 ≡ 0 }
        ensures below { result < 2 ^ 46 }
    {
        self.0
    }
}
