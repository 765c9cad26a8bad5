//! The search for the name that a misspelled word probably means.
use std::alloc::{AllocError, Global};
use strsim::osa_distance;

/// The maximum length, in bytes, of a word that is compared with names.
const LONGEST: usize = 32;

/// Returns the name that is nearest to a word, if one is near enough. A name is near enough if it differs from the word
/// only in case, or by at most one edit for every three bytes of the longer one. Of equally near names, the first is
/// returned.
pub(crate) fn nearest(
    alloc: Global,
    names: &[&'static str],
    word: &str,
) -> Result<Option<&'static str>, AllocError> {
    if word.len() > LONGEST {
        return Ok(None);
    }
    let mut found = None;
    let mut least = usize::MAX;
    for name in names {
        let edits = if word.eq_ignore_ascii_case(name) {
            0
        } else {
            osa_distance(alloc, word, name)?
        };
        let is_near = edits.saturating_mul(3) <= name.len().max(word.len());
        if is_near && edits < least {
            found = Some(*name);
            least = edits;
        }
    }
    Ok(found)
}
