//! Functions that search the 512 entries of a translation table, or compare them with the children of an entry.
ghost use Rattle.std.specs.Prelude.{◌≡◌, ◌+◌, ◌-◌, ◌^◌, ◌<◌, ◌≤◌, length};
ghost use Rattle.std.specs.Bool.{OnTrue};
ghost use Rattle.rmm_model.specs.Table as tables;
ghost use Rattle.rmm_model.specs.Entry.{descriptor_of};

use crate::entry::LEAST_LIVE;
use crate::{Changeable, ChildWords, RmmRttEntry, entry_from_word};
use page_arena::word_in;

/// Finds a table's first live entry, from index `from` on. Returns the index of the entry, or 512 if there is none.
#[tactic(auto, unfolding(crate::specs::Table::entry_in_page))]
pub fn first_live(page: &[u8], from: u16) -> u16
    requires page { length page.now ≡ 4096 }
    requires from { from ≤ 512 }
    ensures value { result ≡ tables.first_live_from page.now from }
    ensures behind { from ≤ result }
    ensures within { result ≤ 512 }
{
    for index in from..512 {
        if entry_from_word(word_in(page, index as usize)).is_live() {
            return index;
        }
    }
    512
}

// Whether eight entries of a table, from `first` on, have words below those of live entries. All bits of their words
// are compared at once: a number is at most its bitwise or with another.
fn are_low(page: &[u8], first: u16) -> bool
    requires page { length page.now ≡ 4096 }
    requires first { first + 8 ≤ 512 }
    ensures { OnTrue result
        (tables.first_live_from page.now first ≡ tables.first_live_from page.now (first + 8)) }
{
    let at = first as usize;
    let a = word_in(page, at);
    let b = word_in(page, at + 1);
    let c = word_in(page, at + 2);
    let d = word_in(page, at + 3);
    let e = word_in(page, at + 4);
    let f = word_in(page, at + 5);
    let g = word_in(page, at + 6);
    let h = word_in(page, at + 7);
    (a | b | c | d | e | f | g | h) < LEAST_LIVE
}

/// Returns whether any entry of a table is live.
#[tactic(auto, unfolding(crate::specs::Table::has_live))]
pub fn has_live(page: &[u8]) -> bool
    requires { length page.now ≡ 4096 }
    ensures { result ≡ tables.has_live page.now }
{
    for k in 0..64 {
        if !are_low(page, 8 * k) {
            return first_live(page, 8 * k) != 512;
        }
    }
    false
}

/// Finds the first table entry whose RIPAS a command does not change. The search begins at `from`. Returns the index of
/// the entry, or `end` if there is none before `end`.
pub fn first_fixed(page: &[u8], changeable: Changeable, from: u16, end: u16) -> u16
    requires page { length page.now ≡ 4096 }
    requires from { from ≤ end }
    requires end { end ≤ 512 }
    ensures value { result ≡ tables.first_fixed changeable page.now (end - from) from }
    ensures behind { from ≤ result }
    ensures within { result ≤ end }
{
    for index in from..end {
        if !entry_from_word(word_in(page, index as usize)).can_change(changeable) {
            return index;
        }
    }
    end
}

/// Returns whether the entries of a table are exactly the children of entry `whole`. The table is at the given level,
/// and `whole` is an entry above it.
pub fn has_parts(page: &[u8], whole: RmmRttEntry, level: u8) -> bool
    requires page { length page.now ≡ 4096 }
    requires whole { descriptor_of whole < 2 ^ 48 }
    ensures { result ≡ tables.has_parts page.now whole level 512 0 }
{
    let words = ChildWords::new(whole, level);
    for index in 0..512 {
        if word_in(page, index as usize) != words.word(index) {
            return false;
        }
    }
    true
}
