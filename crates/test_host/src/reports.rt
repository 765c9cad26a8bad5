//! Checks that the reports of builds that share a host have the expected lines.
use crate::expected::{equal, holds_at};
use crate::lines::{Line, No, Want, has_line};
use crate::steps::{ENTER, STEPS};
use builders::{Answer, Asked, Report, ReportLine};
use realm_host::Kind;
use std::process::Abort;

// The name of a line in the message of a failed test.
const GUEST: &str = "a line of a guest";

// Checks that the first `steps` lines are those of the first steps, and that each step is accepted.
fn accepted(rt: &impl Abort, lines: &[ReportLine], steps: usize) {
    for step in 0..steps {
        let is_so = match lines.get(step) {
            Some(
                ReportLine {
                    asked: Asked::Step(place),
                    answer: Answer::Replied(_),
                },
            ) => *place == step,
            _ => false,
        };
        holds_at(rt, GUEST, step, is_so);
    }
}

/// Checks in a guest build's report that all of the build's steps were accepted. The lines of the report are exactly
/// those of the steps.
pub(crate) fn is_accepted(rt: &impl Abort, report: &Report) {
    let lines = report.lines.as_slice();
    accepted(rt, lines, STEPS);
    equal(rt, "lines", lines.len() as u64, STEPS as u64);
}

// The steps that open an operation, the newest first, each with the expected line of its undo.
const UNDOS: &[(usize, Line)] = &[
    (14, Line::Undo(Want::Undone(Kind::Rec, 12))),
    (13, Line::Undo(Want::Undone(Kind::Data, 11))),
    (11, Line::Undo(Want::Undone(Kind::Rtt, 10))),
    (10, Line::Undo(Want::Undone(Kind::Rtt, 9))),
    (9, Line::Undo(Want::Undone(Kind::Realm, 8))),
    (8, Line::Undo(Want::Undone(Kind::Delegate, 7))),
    (7, Line::Undo(Want::Undone(Kind::Delegate, 6))),
    (6, Line::Undo(Want::Undone(Kind::Delegate, 5))),
    (5, Line::Undo(Want::Undone(Kind::Delegate, 4))),
    (4, Line::Undo(Want::Undone(Kind::Delegate, 3))),
    (3, Line::Undo(Want::Undone(Kind::Delegate, 2))),
    (2, Line::Undo(Want::Undone(Kind::Delegate, 1))),
    (0, Line::Undo(Want::Undone(Kind::Take, 0))),
];

// Checks that the lines from `place` on are exactly the undos of the steps before the refused step.
fn is_undone(rt: &impl Abort, lines: &[ReportLine], mut place: usize, refused: usize) {
    for (step, undo) in UNDOS {
        if *step < refused {
            has_line(rt, GUEST, lines, place, undo);
            place = place.saturating_add(1);
        }
    }
    equal(rt, "lines", lines.len() as u64, place as u64);
}

/// Checks in a guest build's report that step `refused` was refused. All steps before this step are accepted. Then a
/// REC that runs exits, and all is undone.
pub(crate) fn is_refused(rt: &impl Abort, report: &Report, refused: usize) {
    let lines = report.lines.as_slice();
    accepted(rt, lines, refused);
    has_line(
        rt,
        GUEST,
        lines,
        refused,
        &Line::Step(refused, Want::No(No::Input)),
    );
    let mut place = refused.saturating_add(1);
    if refused > ENTER {
        has_line(rt, GUEST, lines, place, &Line::Exited(0));
        place = place.saturating_add(1);
    }
    is_undone(rt, lines, place, refused);
}
