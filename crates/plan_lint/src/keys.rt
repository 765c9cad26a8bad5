//! The search for mistakes in the keys and the numeric values of a plan.
use crate::finding::Findings;
use crate::message_text::Piece::{Quoted, Whole, Words};
use crate::outline::{Build, KeyValue, Outline, Value, is_among, plan_keys};
use realm_plan::PlanFault;

/// The keys that were probably meant by unknown or misplaced keys of a plan. Only `pages` and `build` are noted.
#[derive(Clone, Copy)]
pub struct MeantKeys {
    pub pages: bool,
    pub build: bool,
}

impl MeantKeys {
    fn note(&mut self, key: Option<&str>) {
        self.pages |= key == Some("pages");
        self.build |= key == Some("build");
    }
}

/// Reports the unknown and misplaced keys of a plan, and returns the keys that were probably meant. A key that is there
/// several times in a row, as in `[machine.cpu]` below `[machine]`, is reported once.
pub(crate) fn report_unknown_keys(outline: &Outline, found: &mut Findings) -> MeantKeys {
    let mut meant = MeantKeys {
        pages: outline.has_deeper_pages,
        build: false,
    };
    let mut before = None;
    for key in &outline.keys {
        let name = key.name.as_str();
        if before != Some(name) && !is_among(plan_keys(), name) {
            meant.note(report_unknown_key(outline, key, found));
        }
        before = Some(name);
    }
    for build in &outline.builds {
        report_unknown_keys_of(outline, build, &mut meant, found);
    }
    meant
}

fn report_unknown_keys_of(
    outline: &Outline,
    build: &Build,
    meant: &mut MeantKeys,
    found: &mut Findings,
) {
    let mut before = None;
    for key in &build.keys {
        let name = key.name.as_str();
        if before != Some(name) && name != "steps" {
            meant.note(report_unknown_key_of(outline, build, key, found));
        }
        before = Some(name);
    }
}

// Reports a key that no build has, and returns the key of the plan that was probably meant, if there is one.
fn report_unknown_key_of<'a>(
    outline: &Outline,
    build: &Build,
    key: &'a KeyValue,
    found: &mut Findings,
) -> Option<&'a str> {
    let name = key.name.as_str();
    if name != "build" && is_among(plan_keys(), name) {
        return report_key_of_plan(outline, key, found);
    }
    if build.steps_value().is_none() && is_near_steps(key, found) {
        report_misspelled_key(key, "steps", found);
    } else {
        report_no_such_key(key, "the only key of a build is `steps`", found);
    }
    None
}

// Reports a key that no plan has, and returns the key that was probably meant, if there is one.
fn report_unknown_key<'a>(
    outline: &Outline,
    key: &'a KeyValue,
    found: &mut Findings,
) -> Option<&'a str> {
    let name = key.name.as_str();
    if name == "steps" {
        let words = "`steps` is a key of a build, not of the plan";
        found.error(PlanFault::Key, key.key, words, &[]);
        if outline.lacks("build") && key.value.is_array() {
            found.help("write `[[build]]` on a line above it", &[]);
        }
        return Some("build");
    }
    let near = found.nearest(&outline.missing, name);
    match near {
        Some(near) => report_misspelled_key(key, near, found),
        None => {
            let all =
                "the keys of a plan are `pages`, `vmids`, `aux`, `history`, `order` and `build`";
            report_no_such_key(key, all, found);
        }
    }
    near
}

// Reports a key of the plan that is written in a build, and returns the key if the plan lacks it.
fn report_key_of_plan<'a>(
    outline: &Outline,
    key: &'a KeyValue,
    found: &mut Findings,
) -> Option<&'a str> {
    let name = key.name.as_str();
    let words = "{} is a key of the plan, not of a build";
    found.error(PlanFault::Key, key.key, words, &[Quoted(name)]);
    if !outline.lacks(name) {
        return None;
    }
    found.help("write it above the first `[[build]]`", &[]);
    Some(name)
}

fn is_near_steps(key: &KeyValue, found: &mut Findings) -> bool {
    found.nearest(&["steps"], key.name.as_str()).is_some()
}

/// Returns whether some key of a build that lacks `steps` is probably a misspelled `steps`.
pub(crate) fn means_steps(build: &Build, found: &mut Findings) -> bool {
    for key in &build.keys {
        if is_near_steps(key, found) {
            return true;
        }
    }
    false
}

fn report_misspelled_key(key: &KeyValue, near: &str, found: &mut Findings) {
    let pieces = [Quoted(key.name.as_str()), Quoted(near)];
    let words = "unknown key {}; did you mean {}?";
    found.error(PlanFault::Key, key.key, words, &pieces);
}

fn report_no_such_key(key: &KeyValue, all: &str, found: &mut Findings) {
    let pieces = [Quoted(key.name.as_str())];
    found.error(PlanFault::Key, key.key, "unknown key {}", &pieces);
    found.help(all, &[]);
}

/// The numeric keys of a plan, with their least and greatest values.
const NUMBERS: [(&str, i64, i64); 4] = [
    ("pages", 1, 4096),
    ("vmids", 1, 255),
    ("aux", 0, 16),
    ("history", 16, 16384),
];

/// Reports the mistakes in the values of a plan's numeric keys. A missing `pages` is reported too, unless `meant` has
/// it.
pub(crate) fn report_numbers(outline: &Outline, meant: MeantKeys, found: &mut Findings) {
    for (name, low, high) in &NUMBERS {
        if let Some(value) = outline.value(name) {
            report_number(name, *low, *high, value, found);
        }
    }
    if outline.lacks("pages") && !meant.pages {
        found.error(PlanFault::Key, outline.start(), "missing key `pages`", &[]);
        let words = "add `pages = N`, with N from 1 to 4096, above all tables";
        found.help(words, &[]);
    }
}

fn report_number(name: &str, low: i64, high: i64, value: &Value, found: &mut Findings) {
    match value.as_whole() {
        None => report_no_integer(value, found),
        Some(whole) if low <= whole && whole <= high => {}
        Some(whole) => {
            let pieces = [Quoted(name), Whole(low), Whole(high), Whole(whole)];
            let words = "{} must be from {} to {}, found {}";
            found.error(PlanFault::Limit, value.span, words, &pieces);
        }
    }
}

/// Reports a value that should be an integer but is of another kind.
pub(crate) fn report_no_integer(value: &Value, found: &mut Findings) {
    report_wrong_kind(value, "an integer", found);
    if let Some(text) = value.as_text() {
        if text.parse::<i64>().is_ok() {
            found.help("remove the quotes", &[]);
        }
    }
}

/// Reports a value whose kind is not the expected one.
pub(crate) fn report_wrong_kind(value: &Value, expected: &str, found: &mut Findings) {
    let pieces = [Words(expected), Words(value.content.kind())];
    let words = "expected {}, found {}";
    found.error(PlanFault::Key, value.span, words, &pieces);
}
