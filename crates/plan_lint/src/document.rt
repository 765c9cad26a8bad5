//! The search for the mistakes in a document that is not a valid plan.
use crate::builds::{count_of_builds, report_builds};
use crate::finding::{Finding, Findings, Span};
use crate::keys::{report_numbers, report_unknown_keys};
use crate::message_text::Piece;
use crate::order::report_order;
use crate::outline::Outline;
use crate::syntax::report_syntax;
use crate::walk::outline_of;
use realm_plan::{MOST_BYTES, PlanFault};
use std::alloc::{AllocError, Global};
use std::str::from_utf8;

/// Finds the mistakes in bytes that are not a plan. The parser of plans rejected the bytes with `fault`. The one error
/// is that allocation failed.
pub(crate) fn errors_in(
    alloc: Global,
    bytes: &[u8],
    fault: PlanFault,
) -> Result<Vec<Finding>, AllocError> {
    let mut found = Findings::new(alloc);
    if bytes.len() > MOST_BYTES {
        report_length(&mut found);
    } else if fault == PlanFault::Syntax {
        report_no_toml(alloc, bytes, &mut found)?;
    } else if let Ok(text) = from_utf8(bytes) {
        report_mistakes(alloc, text, &mut found)?;
    }
    found.finish()
}

// Reports that a document is longer than a plan can be.
fn report_length(found: &mut Findings) {
    let words = "a plan has at most {} bytes, and this is longer";
    let pieces = [Piece::Count(MOST_BYTES)];
    found.error(PlanFault::Limit, Span::new(0, 0), words, &pieces);
}

// Reports the mistake in bytes that are no TOML.
fn report_no_toml(alloc: Global, bytes: &[u8], found: &mut Findings) -> Result<(), AllocError> {
    if let Err(error) = toml::table_from_slice(alloc, bytes) {
        let range = error.span().ok_or(AllocError)?;
        report_syntax(bytes, range, error.message(), found);
    }
    Ok(())
}

fn report_mistakes(alloc: Global, text: &str, found: &mut Findings) -> Result<(), AllocError> {
    let outline = outline_of(alloc, text)?;
    report_mistakes_in(text, &outline, found)
}

fn report_mistakes_in(
    text: &str,
    outline: &Outline,
    found: &mut Findings,
) -> Result<(), AllocError> {
    if outline.keys.is_empty() && outline.builds.is_empty() {
        report_empty_plan(found);
        return Ok(());
    }
    let meant = report_unknown_keys(outline, found);
    report_numbers(outline, meant, found);
    // (builds are not counted if an unknown key was probably meant as `build`)
    let count = match count_of_builds(outline) {
        Some(count) if count > 0 && !meant.build => Some(count),
        _ => None,
    };
    report_order(outline, count, found)?;
    report_builds(text, outline, meant, found);
    Ok(())
}

// Reports a text without any key.
fn report_empty_plan(found: &mut Findings) {
    let words = "the plan is empty; it needs `pages` and `[[build]]`";
    found.error(PlanFault::Key, Span::new(0, 0), words, &[]);
    found.help("a small plan is", &[]);
    for line in [
        "pages = 8",
        "order = [0]",
        "[[build]]",
        "steps = [\"take 0\"]",
    ] {
        found.note("    ", line, &[]);
    }
}
