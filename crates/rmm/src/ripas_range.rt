//! Functions that check a range of IPAs and change its RIPAS. The entries that change are those of one table.
ghost use Rattle.std.specs.Prelude.{◌≡◌, ◌+◌, ◌^◌, ◌<◌, ◌≤◌, [], OnOk};
ghost use Rattle.rmm_model.specs.Check.{first_failing, refusal_in};
ghost use Rattle.rmm_model.specs.Level.{entry_index as index_of};
ghost use Rattle.rmm_model.specs.Machine.{granule_count};
ghost use Rattle.rmm_model.specs.Command.RipasRange as ranges;

use page_arena::{PageStore, word_in};
use rmm_granules::{Granules, entry_at};
use rmm_model::{
    Changeable, Condition, FailedCondition, RmmRipas, RttWalk, entry_from_word, entry_index,
    entry_number, entry_offset, entry_size, error_input, error_rtt, first_fixed,
};

// Checks that a range is not empty.
pub fn check_size(base: u64, top: u64) -> Result<(), FailedCondition>
    ensures refusal { refusal_in result ≡ first_failing (ranges.size_checks base top) }
    ensures size { OnOk result (base < top) }
{
    if top <= base {
        return Err(error_input(Condition::Size));
    }
    Ok(())
}

// Checks that a range begins with a complete entry whose RIPAS can be changed.
pub fn check_progress<S: PageStore>(
    granules: &Granules<S>,
    changeable: Changeable,
    found: &RttWalk,
    base: u64,
    top: u64,
) -> Result<(), FailedCondition>
    requires inside { found.now.table < granule_count granules.now }
    requires low { base < 2 ^ 48 }
    ensures { refusal_in result
        ≡ first_failing (ranges.progress_checks [] granules.now changeable found.now base top) }
{
    if entry_offset(found.level, base) != 0 {
        return Err(error_rtt(Condition::BaseAlign, found.level));
    }
    if !entry_at(granules, found, base).can_change(changeable) {
        return Err(error_rtt(Condition::RtteState, found.level));
    }
    if base + entry_size(found.level) > top {
        return Err(error_rtt(Condition::NoProgress, found.level));
    }
    Ok(())
}

// The number of a table's entries that lie below `top`, from the entry of `base` on.
#[tactic(auto, unfolding(rmm_model::specs::Command::RipasRange::entries_below))]
fn entries_below(found: &RttWalk, base: u64, top: u64) -> u16
    requires { base ≤ top }
    ensures value { result ≡ ranges.entries_below found.now base top }
    ensures within { index_of found.now.level base + result ≤ 512 }
{
    let rest = 512 - entry_index(found.level, base);
    let whole = entry_number(found.level, top - base);
    if whole <= rest as u64 {
        whole as u16
    } else {
        rest
    }
}

// The number of a table's entries from `base` to `top` that precede the first entry whose RIPAS cannot be changed.
pub fn change_count<S: PageStore>(
    granules: &Granules<S>,
    changeable: Changeable,
    found: &RttWalk,
    base: u64,
    top: u64,
) -> u16
    requires inside { found.now.table < granule_count granules.now }
    requires size { base ≤ top }
    ensures value { result ≡ ranges.change_count granules.now changeable found.now base top }
    ensures within { index_of found.now.level base + result ≤ 512 }
{
    let first = entry_index(found.level, base);
    let end = first + entries_below(found, base, top);
    first_fixed(granules.page(found.table), changeable, first, end) - first
}

// Writes a RIPAS to `count` entries of a table, from entry `first` on.
pub fn write_ripas<S: PageStore>(
    granules: &mut Granules<S>,
    found: &RttWalk,
    first: u16,
    ripas: RmmRipas,
    count: u16,
)
    requires inside { found.now.table < granule_count granules.old }
    requires within { first + count ≤ 512 }
    ensures changed { granules.new
        ≡ ranges.with_ripas_from granules.old found.now.table first ripas count }
    ensures count { granule_count granules.new ≡ granule_count granules.old }
{
    for k in 0..count {
        let index = first + k;
        let entry = entry_from_word(word_in(granules.page(found.table), index as usize));
        granules.set_word(found.table, index, entry.with_ripas(ripas).word());
    }
}
