//! Levels of translation tables. The level decides the size of an entry, and which entry covers an address.
//!
//! The size of an entry is written as a power of two, so that no division or multiplication by it is left in the
//! program. A remainder by a constant is cheaper still, so `entry_offset` has a match arm for each level.
ghost use Rattle.std.specs.Prelude.{◌≡◌, ◌<◌, ◌≤◌, ◌/◌, ◌%◌, ◌^◌};
ghost use Rattle.rmm_model.specs.Level as levels;

// The base-2 logarithm of the number of bytes that an entry at a level covers.
#[tactic(auto, unfolding(crate::specs::Level::entry_size))]
fn entry_shift(level: u8) -> u8
    ensures value { 2 ^ result ≡ levels.entry_size level }
    ensures most { result ≤ 39 }
{
    match level {
        3 => 12,
        2 => 21,
        1 => 30,
        _ => 39,
    }
}

/// Returns the number of bytes that an entry at a level covers: 4 KiB, 2 MiB, 1 GiB or 512 GiB. RMM 1.0, RTT level.
#[tactic(auto, unfolding(crate::specs::Level::entry_size))]
pub fn entry_size(level: u8) -> u64
    ensures value { result ≡ levels.entry_size level }
    ensures at_least { 4096 ≤ result }
    ensures at_most { result ≤ 2 ^ 39 }
{
    1 << entry_shift(level)
}

/// Returns the number of the entry that covers an address, counted across all the level's tables. The entry of address
/// 0 has number 0.
pub fn entry_number(level: u8, address: u64) -> u64
    ensures { result ≡ address / levels.entry_size level }
{
    address >> entry_shift(level)
}

/// Returns the offset of an address from the start of the range that its entry at `level` covers.
#[tactic(auto, unfolding(crate::specs::Level::entry_size))]
pub fn entry_offset(level: u8, address: u64) -> u64
    ensures value { result ≡ address % levels.entry_size level }
    ensures below { result < 2 ^ 39 }
{
    match level {
        3 => address % 4096,
        2 => address % 0x20_0000,
        1 => address % 0x4000_0000,
        _ => address % 0x80_0000_0000,
    }
}

/// Returns the index of the entry that covers an address, among the 512 entries of its table.
#[tactic(auto, unfolding(crate::specs::Level::entry_index))]
pub fn entry_index(level: u8, ipa: u64) -> u16
    ensures value { result ≡ levels.entry_index level ipa }
    ensures below { result < 512 }
{
    (entry_number(level, ipa) % 512) as u16
}

/// Returns the index of the starting table that covers an IPA, given the starting level.
#[tactic(auto, unfolding(crate::specs::Level::start_table_index))]
pub fn start_table_index(level: u8, ipa: u64) -> u64
    ensures { result ≡ levels.start_table_index level ipa }
{
    entry_number(level, ipa) / 512
}
