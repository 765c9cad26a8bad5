//! Checks of a translation table that is to be folded into an entry. RMM 1.0, RMI_RTT_FOLD.
ghost use Rattle.std.specs.Prelude.{◌≡◌, ◌^◌, ◌<◌, ◌≤◌, length};
ghost use Rattle.rmm_model.specs.Entry.{descriptor_of};
ghost use Rattle.rmm_model.specs.Table.{entry_in_page};
ghost use Rattle.rmm_model.specs.Command.RttFold as command;

use page_arena::word_in;
use rmi_abi::RmmSettings;
use rmm_model::{RmmRttEntry, entry_from_word, entry_offset, has_parts};

/// Returns the first entry of a translation table.
#[tactic(auto, unfolding(rmm_model::specs::Table::entry_in_page))]
pub fn first_entry(page: &[u8]) -> RmmRttEntry
    requires { length page.now ≡ 4096 }
    ensures value { result ≡ entry_in_page page.now 0 }
    ensures fits { descriptor_of result < 2 ^ 48 }
{
    entry_from_word(word_in(page, 0))
}

// Whether an entry maps nothing, or maps an address that an entry one level higher can map.
fn is_aligned_above(entry: RmmRttEntry, level: u8) -> bool
    requires { 1 ≤ level }
    ensures { result ≡ command.is_aligned_above entry level }
{
    !entry.is_mapping() || entry_offset(level - 1, entry.descriptor() / 4096 * 4096) == 0
}

/// Returns whether a table is homogeneous: its entries are the children that one non-TABLE entry of the level above
/// would have. Whether that level allows blocks is not checked.
#[tactic(auto, unfolding(rmm_model::specs::Command::RttFold::is_homogeneous))]
pub fn is_homogeneous(page: &[u8], level: u8) -> bool
    requires page { length page.now ≡ 4096 }
    requires level { 1 ≤ level }
    ensures { result ≡ command.is_homogeneous page.now level }
{
    let first = first_entry(page);
    !first.is_table() && is_aligned_above(first, level) && has_parts(page, first, level)
}

/// Returns whether folding a table would make a block at a level that allows no blocks.
pub fn is_block_too_high(settings: &RmmSettings, page: &[u8], level: u8) -> bool
    requires { length page.now ≡ 4096 }
    ensures { result ≡ command.is_block_too_high settings.now page.now level }
{
    first_entry(page).is_mapping() && level <= settings.block_level
}
