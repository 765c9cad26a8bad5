//! The search for mistakes in a plan's `order`, the list of its turns.
use crate::finding::Findings;
use crate::keys::{report_no_integer, report_wrong_kind};
use crate::message_text::Piece::{Count, Plural, Whole, Words};
use crate::outline::{Outline, Value};
use realm_plan::{MOST_TURNS, PlanFault};
use std::alloc::AllocError;
use std::collections::BTreeMap;

/// The turns of a plan that name the same missing build. `count` is the number of these turns.
#[derive(Clone, Copy)]
struct Stray {
    /// The index of the first turn that names the build.
    place: usize,
    count: usize,
}

/// Reports the mistakes in the key `order` of a plan. The number of builds is `None` if it is unknown.
pub(crate) fn report_order(
    outline: &Outline,
    builds: Option<usize>,
    found: &mut Findings,
) -> Result<(), AllocError> {
    match outline.value("order") {
        Some(value) if value.is_array() => report_turns(outline, builds, found),
        Some(value) => {
            report_wrong_kind(value, "an array", found);
            if let Some(whole) = value.as_whole() {
                found.help("write `[{}]`", &[Whole(whole)]);
            }
            Ok(())
        }
        None => Ok(()),
    }
}

fn report_turns(
    outline: &Outline,
    builds: Option<usize>,
    found: &mut Findings,
) -> Result<(), AllocError> {
    for turn in &outline.turns {
        if turn.as_whole().is_none() {
            report_no_integer(turn, found);
        }
    }
    if let Some(count) = builds {
        report_strays(&outline.turns, count, found)?;
    }
    if let Some(first) = outline.turns.get(MOST_TURNS) {
        let pieces = [Count(MOST_TURNS), Count(outline.turns.len())];
        let words = "expected at most {} turns, found {}";
        found.error(PlanFault::Limit, first.span, words, &pieces);
    }
    Ok(())
}

// Reports turns that name missing builds, with one finding for each such build.
fn report_strays(turns: &[Value], builds: usize, found: &mut Findings) -> Result<(), AllocError> {
    let mut numbers = BTreeMap::new(found.alloc);
    count_strays(turns, builds, &mut numbers)?;
    report_all_strays(turns, builds, &numbers, found);
    Ok(())
}

// Notes the turns that name missing builds, by the number that they name.
fn count_strays(
    turns: &[Value],
    builds: usize,
    numbers: &mut BTreeMap<i64, Stray>,
) -> Result<(), AllocError> {
    for (place, turn) in turns.iter().enumerate() {
        match turn.as_whole() {
            Some(number) if !is_build(number, builds) => {
                let stray = numbers.entry(number)?.or_insert(Stray { place, count: 0 });
                stray.count = stray.count.saturating_add(1);
            }
            _ => {}
        }
    }
    Ok(())
}

fn report_all_strays(
    turns: &[Value],
    builds: usize,
    numbers: &BTreeMap<i64, Stray>,
    found: &mut Findings,
) {
    let counts_from_1 = numbers.len() == 1 && counts_from_1(turns, builds);
    for (number, stray) in numbers.iter() {
        if let Some(turn) = turns.get(stray.place) {
            report_stray(turn, *number, *stray, builds, found);
        }
        if counts_from_1 {
            found.help("subtract 1 from each turn", &[]);
        }
    }
}

// Whether a number is that of a build, in a plan of `count` builds.
fn is_build(number: i64, count: usize) -> bool {
    match usize::try_from(number) {
        Ok(build) => build < count,
        Err(_) => false,
    }
}

// Whether each turn is a number from 1 to the number of builds.
fn counts_from_1(turns: &[Value], builds: usize) -> bool {
    for turn in turns {
        match turn.as_whole() {
            Some(number) if number > 0 && is_build(number.saturating_sub(1), builds) => {}
            _ => return false,
        }
    }
    builds > 0
}

// Reports the turns that all name the same missing build.
fn report_stray(turn: &Value, number: i64, stray: Stray, builds: usize, found: &mut Findings) {
    let fault = PlanFault::Order { place: stray.place };
    let verb = if builds == 1 { "is" } else { "are" };
    let pieces = [Whole(number), Words(verb), Count(builds)];
    let words = "build {} does not exist; builds are numbered from 0 and there {} {}";
    found.error(fault, turn.span, words, &pieces);
    let more = stray.count.saturating_sub(1);
    if more > 0 {
        let verb = if more == 1 { "names" } else { "name" };
        let pieces = [Count(more), Plural(more), Words(verb)];
        found.note("note: ", "{} more turn{} {} it", &pieces);
    }
}
