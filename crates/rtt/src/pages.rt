//! Functions that read and write entries in the pages of translation tables.
ghost use Rattle.std.specs.Prelude.{◌≡◌, ◌≢◌, ◌↔◌, ◌⊎◌, ℕ, ◌+◌, ◌<◌, ◌≤◌, true, false, length, IsTrue};
ghost use Rattle.page_arena.specs.Page.{page_at, is_free};
ghost use Rattle.page_arena.specs.Word.{word_at, with_word};
ghost use Rattle.realm_model.specs.Rows as rows;
ghost use Rattle.rtt.specs.Word.{entry_word};
ghost use Rattle.rtt.specs.Tables.{entries_of};

use crate::Entry;
use granule_addr::Gran;
use page_arena::PageStore;

// Reads an entry of a table.
#[tactic(auto, unfolding(crate::specs::Tables::entries_of))]
pub fn read<S: PageStore>(store: &S, table: Gran, index: u16) -> Entry
    requires inside { table < length (S.page_bytes store.now) }
    requires index { index < 512 }
    ensures { result ≡ entries_of (S.page_bytes store.now) table index }
{
    Entry::from_word(store.word(table, index))
}

// Writes an entry of a table.
pub fn write<S: PageStore>(store: &mut S, table: Gran, index: u16, entry: Entry)
    requires inside { table < length (S.page_bytes store.old) }
    requires taken { is_free (S.free_flags store.old) table ≡ false }
    requires index { index < 512 }
    ensures written { S.page_bytes store.new ≡ with_word (S.page_bytes store.old) table index (entry_word entry) }
    ensures flags { S.free_flags store.new ≡ S.free_flags store.old }
{
    store.set_word(table, index, entry.to_word());
}

// Writes the same entry at `count` indices of a table, from the index `first` on.
pub(crate) fn fill_entries<S: PageStore>(
    store: &mut S,
    table: Gran,
    first: u16,
    count: u16,
    entry: Entry,
)
    requires inside { table < length (S.page_bytes store.old) }
    requires taken { is_free (S.free_flags store.old) table ≡ false }
    requires fits { first + count ≤ 512 }
    ensures written { (index : ℕ) → first ≤ index → index < first + count
        → word_at (S.page_bytes store.new) table index ≡ entry_word entry }
    ensures kept { (index : ℕ) → index < 512 → ((index < first) ⊎ (first + count ≤ index))
        → word_at (S.page_bytes store.new) table index ≡ word_at (S.page_bytes store.old) table index }
    ensures others { (granule : ℕ) → granule ≢ table
        → page_at (S.page_bytes store.new) granule ≡ page_at (S.page_bytes store.old) granule }
    ensures pages { length (S.page_bytes store.new) ≡ length (S.page_bytes store.old) }
    ensures flags { S.free_flags store.new ≡ S.free_flags store.old }
{
    let word = entry.to_word();
    // (a whole table whose words are 0 is a page of zeros, which a store writes at once)
    if word == 0 && count == 512 {
        store.fill(table, 0);
        return;
    }
    for index in first..first + count {
        store.set_word(table, index, word);
    }
}

// Whether the `count` entries of a table from `first` on are all UNASSIGNED.
pub(crate) fn all_unassigned<S: PageStore>(store: &S, table: Gran, first: u16, count: u16) -> bool
    requires inside { table < length (S.page_bytes store.now) }
    requires fits { first + count ≤ 512 }
    ensures { IsTrue result ↔ ((index : ℕ) → first ≤ index → index < first + count
        → rows.is_unassigned (entries_of (S.page_bytes store.now) table index) ≡ true) }
{
    for index in first..first + count {
        if !read(store, table, index).is_unassigned() {
            return false;
        }
    }
    true
}

// Whether no entry of a table leads to a table.
pub(crate) fn leads_to_no_table<S: PageStore>(store: &S, table: Gran) -> bool
    requires { table < length (S.page_bytes store.now) }
    ensures { IsTrue result ↔ ((index : ℕ) → index < 512
        → rows.is_table (entries_of (S.page_bytes store.now) table index) ≡ false) }
{
    for index in 0..512 {
        if read(store, table, index).is_table() {
            return false;
        }
    }
    true
}
