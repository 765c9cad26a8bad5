//! Tests that replay a plan and check the output. The replays use devices in memory, some of which fail.
use crate::devices::{Devices, Failing, Outcome};
use granule_addr::BuildId;
use realm_plan::PlanFault;
use realm_program::{Fault, replay};
use std::alloc::Global;
use std::process::Abort;

const PLAN: &[u8] = br#"pages = 1
order = [0, 0, 0, 0]
[[build]]
steps = ["take 0", "fill 0 255", "delegate 0", "undo"]
"#;

const TEXT: &[u8] = b"0 take 0 = ok 0
0 fill 0 255 = ok
0 delegate 0 = ok
0 undo = ok delegate
0 page 0 UNDELEGATED 0
free 0
";

// Replays the plan in the input, and checks the outcome.
fn replays(
    rt: &impl Abort,
    alloc: Global,
    devices: &Devices<'_>,
    erase: Option<BuildId>,
    want: &Outcome<'_>,
) {
    let mut input = devices.source();
    let mut output = devices.sink(alloc);
    let end = replay(alloc, &mut input, &mut output, erase);
    want.check_outcome(rt, devices, end, input.device(), output.device());
}

// Replays a plan on devices that do not fail, and checks the outcome.
fn works(
    rt: &impl Abort,
    alloc: Global,
    case: &str,
    input: &[u8],
    erase: Option<BuildId>,
    want: &Outcome<'_>,
) {
    let devices = Devices {
        case,
        input,
        failing: Failing::Nothing,
    };
    replays(rt, alloc, &devices, erase, want);
}

#[test]
fn a_build_is_replayed_or_left_out(rt: HostRuntime) {
    let rows = [
        ("a page comes back empty", None, Outcome::printed(TEXT, 1)),
        (
            "the only build is left out",
            BuildId::new(0),
            Outcome::printed(b"free 1\n", 1),
        ),
        (
            "a build that the plan has not",
            BuildId::new(1),
            Outcome::nothing(Fault::EraseNamesNoBuild, 0),
        ),
    ];
    for (case, erase, want) in &rows {
        works(&rt, rt.alloc(), case, PLAN, *erase, want);
    }
}

#[test]
fn a_plan_that_is_too_long_is_not_read_to_its_end(rt: HostRuntime) {
    let spaces = vec![in rt.alloc(); b' '; 1_048_600].expect(&rt, "memory");
    let want = Outcome::nothing(Fault::Plan(PlanFault::Limit), 23);
    works(&rt, rt.alloc(), "a long plan", &spaces, None, &want);
}

// Replays the plan on devices of which one call fails, and checks the outcome.
fn fails(rt: &impl Abort, alloc: Global, case: &str, failing: Failing, want: &Outcome<'_>) {
    let devices = Devices {
        case,
        input: PLAN,
        failing,
    };
    replays(rt, alloc, &devices, None, want);
}

// Each read fails in turn, then each write of one byte, and last the flush.
#[test]
fn a_failure_leaves_a_prefix_of_the_text(rt: HostRuntime) {
    for n in 0..5 {
        let want = Outcome::nothing(Fault::Device, PLAN.len().saturating_sub(25 * n));
        fails(&rt, rt.alloc(), "a read fails", Failing::Read(n), &want);
    }
    for n in 0..TEXT.len() {
        let want = Outcome::cut(&TEXT[..n]);
        fails(&rt, rt.alloc(), "a write fails", Failing::Write(n), &want);
    }
    let want = Outcome {
        end: Err(Fault::Device),
        left: 0,
        text: TEXT,
        writes: 11,
        flushes: 1,
    };
    fails(&rt, rt.alloc(), "the flush fails", Failing::Flush, &want);
}
