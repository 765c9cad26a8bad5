//! The sizes of a guest's memory accesses.
ghost use Rattle.std.specs.Prelude.{◌≡◌, ◌+◌, ◌≤◌, length};
ghost use Rattle.rmm_model.specs.Access as accesses;

use page_arena::word_in;

/// The size of a guest's memory access. Arm Architecture Reference Manual, SAS of ISS encoding for an exception from a
/// Data Abort.
#[derive(Clone, Copy)]
pub enum AccessSize {
    Byte,
    Halfword,
    Word,
    Doubleword,
}

impl AccessSize {
    /// Returns the access size for a number of bytes, or `Byte` if no access has that size.
    pub fn of(bytes: u64) -> AccessSize
        ensures { result ≡ accesses.access_size bytes }
    {
        match bytes {
            2 => AccessSize::Halfword,
            4 => AccessSize::Word,
            8 => AccessSize::Doubleword,
            _ => AccessSize::Byte,
        }
    }

    /// Returns the access size as the SAS field of a data abort syndrome, at its bit position in ESR_EL2.
    pub fn syndrome(self) -> u64
        ensures value { result ≡ accesses.syndrome self }
        ensures below { result ≤ 0xC0_0000 }
    {
        match self {
            AccessSize::Byte => 0,
            AccessSize::Halfword => 0x40_0000,
            AccessSize::Word => 0x80_0000,
            AccessSize::Doubleword => 0xC0_0000,
        }
    }

    /// Truncates a value to the access size.
    pub fn low(self, value: u64) -> u64
        ensures { result ≡ accesses.low_bytes self value }
    {
        match self {
            AccessSize::Byte => value % 0x100,
            AccessSize::Halfword => value % 0x1_0000,
            AccessSize::Word => value % 0x1_0000_0000,
            AccessSize::Doubleword => value,
        }
    }

    /// Reads a value of the access size from a page, at the page offset of `ipa` rounded down to a multiple of the
    /// size.
    #[tactic(auto, unfolding(crate::specs::Access::value_in))]
    pub fn read(self, page: &[u8], ipa: u64) -> u64
        requires { length page.now ≡ 4096 }
        ensures { result ≡ accesses.value_in page.now self ipa }
    {
        let offset = (ipa % 4096) as usize;
        match self {
            AccessSize::Byte => page[offset] as u64,
            AccessSize::Halfword => two_bytes(page, offset / 2 * 2),
            AccessSize::Word => four_bytes(page, offset / 4 * 4),
            AccessSize::Doubleword => word_in(page, offset / 8),
        }
    }
}

// The little-endian value of the two bytes at an offset of a page.
#[tactic(auto, unfolding(crate::specs::Access::two_bytes_in))]
fn two_bytes(page: &[u8], offset: usize) -> u64
    requires page { length page.now ≡ 4096 }
    requires inside { offset + 2 ≤ 4096 }
    ensures value { result ≡ accesses.two_bytes_in page.now offset }
    ensures below { result ≤ 0xFFFF }
{
    page[offset] as u64 + page[offset + 1] as u64 * 0x100
}

// The little-endian value of the four bytes at an offset of a page.
#[tactic(auto, unfolding(crate::specs::Access::four_bytes_in))]
fn four_bytes(page: &[u8], offset: usize) -> u64
    requires page { length page.now ≡ 4096 }
    requires inside { offset + 4 ≤ 4096 }
    ensures { result ≡ accesses.four_bytes_in page.now offset }
{
    two_bytes(page, offset) + two_bytes(page, offset + 2) * 0x1_0000
}
