//! A function that writes an RTT entry into the table at which an RTT walk ended.
ghost use Rattle.std.specs.Prelude.{◌≡◌, ◌<◌};
ghost use Rattle.rmm_model.specs.Machine.{granule_count};
ghost use Rattle.rmm_model.specs.Walk as walks;

use page_arena::PageStore;
use rmm_granules::Granules;
use rmm_model::{RmmRttEntry, RttWalk, entry_index};

// Writes the entry that covers an address in the table at which a walk ended.
pub fn write<S: PageStore>(
    granules: &mut Granules<S>,
    found: &RttWalk,
    ipa: u64,
    entry: RmmRttEntry,
)
    requires { found.now.table < granule_count granules.old }
    ensures { granules.new ≡ walks.with_entry granules.old found.now ipa entry }
{
    granules.set_word(found.table, entry_index(found.level, ipa), entry.word());
}
