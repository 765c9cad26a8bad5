//! Tests that run the builds of a plan in threads. The runs use devices in memory, some of which fail, and gates that
//! let builds wait.
use crate::devices::{Devices, Failing, Outcome};
use crate::expected::equal;
use crate::gates::{ForBuild0, MeetingGate};
use builders::{Gate, OpenGate};
use command_line::Reason;
use granule_addr::BuildId;
use realm_plan::PlanFault;
use realm_program::{Fault, run};
use std::alloc::Global;
use std::marker::Sync;
use std::process::Abort;
use std::sync::Wait;
use std::thread::Threads;

const PLAN: &[u8] = br#"pages = 2
[[build]]
steps = ["take 0", "fill 0 9", "peek 0 0"]
[[build]]
steps = ["take 0", "fill 0 3", "peek 0 0"]
"#;

const TEXT: &[u8] = b"0 take 0 = ok 0
0 fill 0 9 = ok
0 peek 0 0 = ok 9
1 take 0 = ok 0
1 fill 0 3 = ok
1 peek 0 0 = ok 3
0 page 0 UNDELEGATED 36864
1 page 0 UNDELEGATED 12288
free 0
audit ok
";

// Runs the input's plan in threads that pass a gate, and checks the outcome.
fn runs<R: Threads + Wait + Abort + Sync, G: Gate + Sync>(
    rt: &R,
    alloc: Global,
    gate: &G,
    devices: &Devices<'_>,
    want: &Outcome<'_>,
) {
    let mut input = devices.source();
    let mut output = devices.sink(alloc);
    let end = run(rt, alloc, &mut input, &mut output, gate);
    want.check_outcome(rt, devices, end, input.device(), output.device());
}

// The plan as the input of devices that do not fail.
const WORKING: &Devices<'static> = &Devices {
    case: "the plan",
    input: PLAN,
    failing: Failing::Nothing,
};

#[test]
fn each_build_reads_after_both_have_filled(rt: HostRuntime) {
    let gate = MeetingGate::from(&rt);
    let want = Outcome::printed(TEXT, 1);
    runs(&rt, rt.alloc(), &gate, WORKING, &want);
}

#[test]
fn the_lowest_build_that_waits_in_vain_is_reported(rt: HostRuntime) {
    let fault = Fault::Stuck(BuildId::new(1).unwrap());
    equal(&rt, "the status", fault.status() as u64, 3);
    let want = Outcome::nothing(fault, 0);
    runs(&rt, rt.alloc(), &ForBuild0, WORKING, &want);
}

const NO_PLAN: &Devices<'static> = &Devices {
    case: "no plan",
    input: b"pages =",
    failing: Failing::Nothing,
};

// Runs the plan on devices of which one call fails, and checks the outcome.
fn fails<R: Threads + Wait + Abort + Sync>(
    rt: &R,
    alloc: Global,
    case: &str,
    failing: Failing,
    want: &Outcome<'_>,
) {
    let devices = Devices {
        case,
        input: PLAN,
        failing,
    };
    runs(rt, alloc, &OpenGate, &devices, want);
}

// The first input is not a plan. Then each read fails in turn, and each write of one byte.
#[test]
fn a_failure_leaves_a_prefix_of_the_text(rt: HostRuntime) {
    let want = Outcome::nothing(Fault::Plan(PlanFault::Syntax), 0);
    runs(&rt, rt.alloc(), &OpenGate, NO_PLAN, &want);
    for n in 0..5 {
        let want = Outcome::nothing(Fault::Device, PLAN.len().saturating_sub(25 * n));
        fails(&rt, rt.alloc(), "a read fails", Failing::Read(n), &want);
    }
    for n in 0..TEXT.len() {
        let want = Outcome::cut(&TEXT[..n]);
        fails(&rt, rt.alloc(), "a write fails", Failing::Write(n), &want);
    }
}
