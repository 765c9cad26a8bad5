//! Tests of the printed lines for refusals that no plan can cause.
use crate::expected::same_text;
use granule_addr::BuildId;
use host_commands::{Refusal, Step};
use plan_replay::{TurnAnswer, push_turn};
use realm_plan::PlanStep;
use std::alloc::Global;
use std::process::Abort;

// Checks the line of a refused undo of build 7.
fn has_line(rt: &impl Abort, alloc: Global, refusal: Refusal, line: &str) {
    let undo = PlanStep::Whole(Step::Undo);
    let mut text = String::new(alloc);
    let build = BuildId::new(7).unwrap();
    push_turn(&mut text, build, &undo, TurnAnswer::Refused(refusal)).expect(rt, "memory");
    same_text(rt, text.as_str(), line);
}

#[test]
fn lines_of_refusals_that_no_plan_meets(rt: HostRuntime) {
    has_line(&rt, rt.alloc(), Refusal::NoBuild, "7 undo = no 1 NoBuild\n");
    has_line(
        &rt,
        rt.alloc(),
        Refusal::Aborting,
        "7 undo = no 2 Aborting\n",
    );
}
