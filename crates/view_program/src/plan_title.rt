//! The title of a plan, which is the comment at the beginning of the plan's text.
use std::alloc::{AllocError, Global};
use std::str::from_utf8;

// The text of a comment line; `None` for any other line.
fn comment_in(line: &str) -> Option<&str> {
    Some(line.trim().strip_prefix('#')?.trim())
}

/// Returns the title of a plan, which is the comment at its beginning. The comment's lines are joined by spaces. The
/// title is empty if there is no comment.
pub(crate) fn plan_title(alloc: Global, source: &[u8]) -> Result<String, AllocError> {
    let text = from_utf8(source).unwrap_or("");
    let text = text.strip_prefix('\u{feff}').unwrap_or(text);
    let mut title = String::new(alloc);
    for line in text.trim_start().lines() {
        let Some(words) = comment_in(line) else {
            break;
        };
        if !title.is_empty() {
            title.push_str(" ")?;
        }
        title.push_str(words)?;
    }
    Ok(title)
}
