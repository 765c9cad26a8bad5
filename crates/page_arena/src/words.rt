//! Access to 64-bit words in the bytes of a page.
ghost use Rattle.std.specs.Prelude.{◌≡◌, ◌+◌, ◌^◌, ◌<◌, ◌≤◌, length};
ghost use Rattle.page_arena.specs.Word.{with_bytes, word_of_page, page_with_word, bytes_of_words, rising_word};

/// Returns the 64-bit word at `index` in a page, little-endian.
#[tactic(auto, unfolding(crate::specs::Word::word_of_page))]
pub fn word_in(page: &[u8], index: usize) -> u64
    requires page { length page.now ≡ 4096 }
    requires index { index < 512 }
    ensures { result ≡ word_of_page page.now index }
{
    let mut bytes = [0; 8];
    bytes.copy_from_slice(&page[8 * index..8 * index + 8]);
    u64::from_le_bytes(bytes)
}

/// Writes the 64-bit word at `index` in a page, little-endian.
#[tactic(auto, unfolding(crate::specs::Word::page_with_word, crate::specs::Word::with_bytes))]
pub fn set_word_in(page: &mut [u8], index: usize, word: u64)
    requires page { length page.old ≡ 4096 }
    requires index { index < 512 }
    ensures { page.new ≡ page_with_word page.old index word }
{
    page[8 * index..8 * index + 8].copy_from_slice(&word.to_le_bytes());
}

/// Writes bytes into a page, from an offset on.
#[tactic(auto, unfolding(crate::specs::Word::with_bytes))]
pub fn write_in(page: &mut [u8], offset: usize, bytes: &[u8])
    requires page { length page.old ≡ 4096 }
    requires fits { offset + length bytes.now ≤ 4096 }
    ensures { page.new ≡ with_bytes page.old offset bytes.now }
{
    page[offset..offset + bytes.len()].copy_from_slice(bytes);
}

/// Fills a page with 512 words that rise by `step` modulo 2^48.
///
/// Word k, counted from 0, is `kind + (first + k * step) % 2^48`.
pub fn write_rising_in(page: &mut [u8; 4096], kind: u64, first: u64, step: u64)
    requires kind { kind ≤ 2 ^ 60 }
    requires first { first < 2 ^ 48 }
    requires step { step ≤ 2 ^ 39 }
    ensures { page.new ≡ bytes_of_words 512 (rising_word kind first step) }
{
    let mut low = first;
    for index in 0..512usize {
        set_word_in(page, index, kind + low % 0x1_0000_0000_0000);
        low += step;
    }
}
