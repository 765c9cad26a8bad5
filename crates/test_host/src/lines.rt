//! Answers and lines that tests expect in workers' reports, written with plain numbers.
use crate::expected::{equal, holds_at};
use builders::{Answer, Asked, ReportLine};
use granule_addr::RecNo;
use realm_host::{Kind, Refusal, Reply, Rmi, Undone};
use std::process::Abort;

/// The expected reason for a refusal in a test.
#[derive(Drop)]
pub(crate) enum No {
    Build,
    Aborting,
    HistoryFull,
    NothingToUndo,
    RecRunning,
    /// A refusal by the RMM with the status RMI_ERROR_INPUT.
    Input,
    /// A refusal because the build has no page of the given number.
    Page(u16),
}

/// An expected answer to a step of a build, or to an undo after a refused step.
#[derive(Drop)]
pub(crate) enum Want {
    Done,
    /// The first page of the block that a Take step leased.
    Page(u16),
    Byte(u8),
    Marked(u16),
    /// The answer to an abort step or a `back` step with nothing to undo.
    Nothing,
    /// An accepted undo of an operation. The number says how many operations are left open.
    Undone(Kind, u16),
    No(No),
}

/// An expected line of a worker's report.
#[derive(Drop)]
pub(crate) enum Line {
    /// The answer to a step, with the number of the step.
    Step(usize, Want),
    /// The answer to an undo after a refused step.
    Undo(Want),
    /// An accepted exit of a running REC after a refused step. The number is the REC's.
    Exited(u16),
}

impl No {
    /// Converts this reason to a `Refusal`, for comparison with the host's.
    pub(crate) fn of_host(&self) -> Refusal {
        match self {
            No::Build => Refusal::NoBuild,
            No::Aborting => Refusal::Aborting,
            No::HistoryFull => Refusal::HistoryFull,
            No::NothingToUndo => Refusal::NothingToUndo,
            No::RecRunning => Refusal::RecRunning,
            No::Input => Refusal::Rmi(Rmi::INPUT),
            No::Page(page) => Refusal::NotLeased(*page),
        }
    }
}

impl Want {
    /// Converts this expected answer to an `Answer`, for comparison with a worker's.
    pub(crate) fn answer(&self) -> Answer {
        match self {
            Want::Done => Answer::Replied(Reply::Done),
            Want::Page(page) => Answer::Replied(Reply::FirstPage(*page)),
            Want::Byte(byte) => Answer::Replied(Reply::Byte(*byte)),
            Want::Marked(open) => Answer::Marked(*open),
            Want::Nothing => Answer::Nothing,
            Want::Undone(kind, left) => {
                let (kind, left) = (*kind, *left);
                Answer::Undone(Undone { kind, left })
            }
            Want::No(no) => Answer::Refused(no.of_host()),
        }
    }
}

impl Line {
    // The line in a report.
    fn of_report(&self) -> ReportLine {
        let (asked, answer) = match self {
            Line::Step(step, want) => (Asked::Step(*step), want.answer()),
            Line::Undo(want) => (Asked::Undo, want.answer()),
            Line::Exited(number) => (Asked::Exit(RecNo::new(*number)), Want::Done.answer()),
        };
        ReportLine { asked, answer }
    }
}

/// Checks that a line of a report is the expected one. `place` is the index of the line.
pub(crate) fn has_line(
    rt: &impl Abort,
    name: &str,
    seen: &[ReportLine],
    place: usize,
    want: &Line,
) {
    let is_so = seen.get(place) == Some(&want.of_report());
    holds_at(rt, name, place, is_so);
}

/// Checks that the lines of a report are the expected ones.
pub(crate) fn has_lines(rt: &impl Abort, name: &str, seen: &[ReportLine], want: &[Line]) {
    for place in 0..want.len() {
        has_line(rt, name, seen, place, &want[place]);
    }
    equal(rt, name, seen.len() as u64, want.len() as u64);
}
