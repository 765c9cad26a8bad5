//! The report of a build's worker, with a line for each answer.
use granule_addr::{BuildId, RecNo};
use host_commands::{Refusal, Reply, Undone};

/// The step, exit or undo that a worker asked for, as recorded in a line of the worker's report.
#[derive(Clone, Copy, PartialEq, Eq)]
pub enum Asked {
    /// A step of a build in the plan, by its index from 0.
    Step(usize),
    /// A worker's request to exit a running REC after a step was refused.
    Exit(RecNo),
    /// A worker's request, after a refused step, to undo the build's newest open operation.
    Undo,
}

/// The answer to a step, exit or undo, as a worker's report records it.
#[derive(Clone, Copy, PartialEq, Eq)]
pub enum Answer {
    /// The reply to an accepted command.
    Replied(Reply),
    /// An accepted undo, with the operation's kind and the number of operations left to undo.
    Undone(Undone),
    /// The number of operations that were open when a mark was set.
    Marked(u16),
    /// The answer to a step that has nothing to undo. The step is an abort or a `back`.
    Nothing,
    Refused(Refusal),
}

/// One line of a worker's report, with a question and the answer to it.
#[derive(Clone, Copy, PartialEq, Eq)]
pub struct ReportLine {
    pub asked: Asked,
    pub answer: Answer,
}

/// The report of a build's worker, with a line for each answer to a step, exit or undo.
#[derive(Drop)]
pub struct Report {
    pub build: BuildId,
    pub lines: Vec<ReportLine>,
}

/// The error that a build's worker gets if the scheduler (`Gate`) withholds its next turn.
#[derive(Clone, Copy)]
pub struct Stuck;
