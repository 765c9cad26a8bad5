//! Steps of builds for tests, spelled as in a plan.
use crate::expected::push;
use host_commands::{Cmd, Step};
use realm_plan::step_from_text;
use std::alloc::Global;
use std::process::Abort;

/// The steps of a build, as a plan spells them.
pub(crate) type Words = &'static [&'static str];

/// Parses a step of a build.
pub(crate) fn step_of(rt: &impl Abort, word: &str) -> Step {
    step_from_text(word).expect(rt, "a step").asked()
}

/// Parses the steps of a build.
pub(crate) fn steps_of(rt: &impl Abort, alloc: Global, words: Words) -> Vec<Step> {
    let mut steps = Vec::new(alloc);
    for word in words {
        push(rt, &mut steps, step_of(rt, word));
    }
    steps
}

/// Steps that take two pages and fill the first one.
pub(crate) const FILLS: Words = &["take 1", "fill 0 1"];

/// Four steps, the third of which the RMM refuses.
pub(crate) const IS_REFUSED: Words = &["take 1", "delegate 0", "delegate 0", "fill 1 5"];

/// Steps that take a page, fill it, and read its last byte.
pub(crate) const READS: Words = &["take 0", "fill 0 2", "peek 0 4095"];

/// The number of steps of each guest build in the tests.
pub(crate) const STEPS: usize = 18;

/// The index of the step by which a guest build enters its REC. The REC runs from then on.
pub(crate) const ENTER: usize = 16;

// The steps of a guest, from leasing a block of eight pages to running a realm. Its one page of memory has the bytes of
// page 5 but for the last, which its REC writes. The value of page 5 is left to each guest.
const GUEST: Words = &[
    "take 3",
    "fill 5 0",
    "delegate 0",
    "delegate 1",
    "delegate 2",
    "delegate 3",
    "delegate 4",
    "delegate 6",
    "delegate 7",
    "realm 0 1 39",
    "rtt 2 0 2",
    "rtt 3 0 3",
    "ripas 8 4",
    "data 4 0 5",
    "rec 6 7",
    "activate",
    "enter 0",
    "poke 0 0 4095 1",
];

/// Returns the steps of a guest build that fills a page with `value`. After the steps, the guest's page of memory has
/// this value in each byte but the last.
pub(crate) fn guest_steps(rt: &impl Abort, alloc: Global, value: u8) -> Vec<Step> {
    let mut steps = steps_of(rt, alloc, GUEST);
    assert!(rt; steps.len() == STEPS);
    steps[1] = Step::Ask(Cmd::Fill { page: 5, value });
    steps
}
