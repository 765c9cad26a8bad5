//! The search for mistakes in the builds of a plan.
use crate::finding::{Findings, Severity};
use crate::keys::{MeantKeys, means_steps, report_wrong_kind};
use crate::message_text::Piece::{Count, Quoted, Words};
use crate::outline::{Build, Content, Outline, Value};
use crate::step_text::{InvalidStep, report_invalid_step};
use realm_plan::{MOST_BUILDS, MOST_STEPS, PlanFault, step_from_text};

/// Returns the number of builds of a plan, or `None` if `build` is missing or not an array.
pub(crate) fn count_of_builds(outline: &Outline) -> Option<usize> {
    match outline.value("build") {
        Some(value) if !value.is_array() => None,
        None if outline.builds.is_empty() => None,
        _ => Some(outline.builds.len()),
    }
}

/// Reports the mistakes in the builds of a plan.
pub(crate) fn report_builds(text: &str, outline: &Outline, meant: MeantKeys, found: &mut Findings) {
    match outline.value("build") {
        Some(value) if !value.is_array() => report_no_builds(text, value, found),
        _ if !outline.builds.is_empty() => report_each_build(text, &outline.builds, found),
        Some(value) => report_empty_build_array(outline, value, found),
        None if meant.build => {}
        None => {
            found.error(PlanFault::Key, outline.start(), "missing key `build`", &[]);
            found.help("add a line `[[build]]`, and below it `steps = [..]`", &[]);
        }
    }
}

// Reports the mistakes in each build, and too many builds.
fn report_each_build(text: &str, builds: &[Build], found: &mut Findings) {
    for (number, build) in builds.iter().enumerate() {
        report_build(text, number, build, found);
    }
    if let Some(first) = builds.get(MOST_BUILDS) {
        let pieces = [Count(MOST_BUILDS), Count(builds.len())];
        let words = "expected at most {} builds, found {}";
        found.error(PlanFault::Limit, first.value.span, words, &pieces);
    }
}

// Reports a value of `build` that is not an array of tables.
fn report_no_builds(text: &str, value: &Value, found: &mut Findings) {
    let span = value.span;
    match text.get(span.start..span.end) {
        Some(header) if matches!(&value.content, Content::Headed) => {
            let words = "expected `[[build]]`, found {}";
            found.error(PlanFault::Key, span, words, &[Quoted(header)]);
        }
        _ => report_wrong_kind(value, "an array of tables", found),
    }
    found.help("each build begins with a line `[[build]]`", &[]);
}

// Reports an empty array of builds. Each turn names no build then.
fn report_empty_build_array(outline: &Outline, value: &Value, found: &mut Findings) {
    let also = if outline.turns.is_empty() {
        None
    } else {
        Some(PlanFault::Order { place: 0 })
    };
    let words = "`build` is empty; a plan has 1 to 8 builds";
    found.add(
        Severity::Error(PlanFault::Limit, also),
        value.span,
        words,
        &[],
    );
}

// Reports the mistakes in a build, which should be a table with `steps` as its only key.
fn report_build(text: &str, number: usize, build: &Build, found: &mut Findings) {
    if !matches!(&build.value.content, Content::Table | Content::Tables) {
        return report_wrong_kind(&build.value, "a table", found);
    }
    match build.steps_value() {
        Some(value) if value.is_array() => report_steps(text, number, build, found),
        Some(value) => report_no_steps(value, found),
        None if means_steps(build, found) => {}
        None => {
            let words = "missing key `steps` in build {}";
            found.error(PlanFault::Key, build.value.span, words, &[Count(number)]);
            found.help("a build that does nothing has `steps = []`", &[]);
        }
    }
}

// Reports a value of `steps` that is not an array.
fn report_no_steps(value: &Value, found: &mut Findings) {
    report_wrong_kind(value, "an array", found);
    if let Some(step) = value.as_text() {
        if step_from_text(step).is_some() {
            found.help("write `[\"{}\"]`", &[Words(step)]);
        }
    }
}

// Reports the mistakes in the steps of a build. Each step has to be a string.
fn report_steps(text: &str, number: usize, build: &Build, found: &mut Findings) {
    for (step, value) in build.steps.iter().enumerate() {
        let fault = PlanFault::Step {
            build: number,
            step,
        };
        report_step(text, value, fault, found);
    }
    if let Some(first) = build.steps.get(MOST_STEPS) {
        let pieces = [Count(MOST_STEPS), Count(build.steps.len())];
        let words = "expected at most {} steps, found {}";
        found.error(PlanFault::Limit, first.span, words, &pieces);
    }
}

fn report_step(text: &str, value: &Value, fault: PlanFault, found: &mut Findings) {
    let Some(written) = value.as_text() else {
        return report_wrong_kind(value, "a string", found);
    };
    if step_from_text(written).is_none() {
        // (unless a string has an escape, its text follows the opening quote unchanged)
        let inside = match text.as_bytes().get(value.span.start.saturating_add(1)..) {
            Some(after) => after.starts_with(written.as_bytes()),
            None => false,
        };
        let step = InvalidStep {
            written,
            fault,
            whole: value.span,
            inside,
        };
        report_invalid_step(&step, found);
    }
}
