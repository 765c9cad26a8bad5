//! The words to suggest for trace lines that are not commands.
use rmm_trace::name_text;
use rmm_trace::place::WRITE;
use std::alloc::{AllocError, Global};
use strsim::osa_distance;

// The most bytes that a compared word may have.
const LONGEST: usize = 32;

// Whether two words that differ by `edits` edits are near: at most a third of the longer word's length.
fn is_near(edits: usize, one: &str, other: &str) -> bool {
    edits.saturating_mul(3) <= one.len().max(other.len())
}

// The part of a text before its first space; the whole text if it has none.
fn first_word(text: &str) -> &str {
    text.split(' ').next().unwrap_or("")
}

/// Returns the word, of those that can begin a trace line, that is nearest to the first word of a given line. Returns
/// `None` if the line is not UTF-8, or if its first word is longer than 32 bytes. Also returns `None` if the first word
/// is one of these words, or is near to none of them.
pub(crate) fn nearest_word(alloc: Global, line: &[u8]) -> Result<Option<&'static str>, AllocError> {
    let Ok(text) = str::from_utf8(line) else {
        return Ok(None);
    };
    let word = first_word(text);
    if word.len() > LONGEST {
        return Ok(None);
    }
    let mut found = None;
    let mut least = usize::MAX;
    for place in 0..WRITE {
        let name = name_text(place);
        let edits = osa_distance(alloc, word, name)?;
        if edits == 0 {
            return Ok(None);
        }
        if edits < least && is_near(edits, name, word) {
            found = Some(name);
            least = edits;
        }
    }
    Ok(found)
}
