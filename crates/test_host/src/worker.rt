//! Tests of a build's worker with a fake host client and a fake scheduler, without a host.
ghost use Rattle.std.specs.Prelude.{◌≡◌, ◌+◌, ◌*◌, ◌≤◌, [], length, vec_capacity};

use crate::expected::holds;
use crate::lines::{Line, No, Want, has_lines};
use crate::steps::{FILLS, IS_REFUSED, READS, Words, steps_of};
use builders::{Gate, Report, Stuck, Teller, work};
use granule_addr::BuildId;
use host_commands::{Cmd, Refusal, Reply, Step};
use host_ledger::{HostLedger, Mark};
use realm_host::{Kind, Undone};
use std::alloc::Global;
use std::process::Abort;
use std::sync::atomic::{AtomicU64, Ordering};

// A teller that refuses up to two questions, numbered from 0, and accepts all others. An undo always leaves 1.
#[derive(Drop)]
struct Fake<'a> {
    asked: &'a AtomicU64,
    case: &'a Case,
    mark: Mark,
}

impl Fake<'_> {
    fn answer(&mut self) -> Result<(), Refusal> {
        let question = self.asked.load(Ordering::SeqCst);
        self.asked
            .store(question.saturating_add(1), Ordering::SeqCst);
        if question == self.case.refused || question == self.case.refused_later {
            return Err(Refusal::HistoryFull);
        }
        Ok(())
    }
}

impl Teller for Fake<'_> {
    ghost tells = { λ fake exchanges. Unit {0} };

    ghost loan = { λ fake. 0 };

    fn ask(&mut self, cmd: &Cmd) -> Result<Reply, Refusal> {
        let _cmd = cmd;
        self.answer()?;
        Ok(Reply::Done)
    }

    fn undo(&mut self) -> Result<Undone, Refusal> {
        self.answer()?;
        Ok(Undone {
            kind: Kind::Delegate,
            left: 1,
        })
    }

    fn mark(&mut self) -> Result<Mark, Refusal> {
        self.answer()?;
        Ok(self.mark)
    }

    fn check_back(&mut self, mark: Mark) -> Result<u16, Refusal> {
        let _mark = mark;
        self.answer()?;
        Ok(self.case.above)
    }
}

// A gate that gives each of the first `most` turns once. Turn N is given only when exactly N questions were asked.
#[derive(Drop)]
struct Turns<'a> {
    most: u64,
    asked: &'a AtomicU64,
    passed: AtomicU64,
}

impl Gate for Turns<'_> {
    ghost passes = { λ gate build turn. Unit {0} };

    ghost stops = { λ gate build turn. Unit {0} };

    fn pass(&self, build: BuildId, turn: usize) -> Result<(), Stuck> {
        let (_build, turn) = (build, turn as u64);
        let passed = self.passed.load(Ordering::SeqCst);
        let is_next = turn == passed && turn == self.asked.load(Ordering::SeqCst);
        // After a request for a turn that is not the next turn, no turn passes.
        let after = if is_next {
            passed.saturating_add(1)
        } else {
            NEVER
        };
        self.passed.store(after, Ordering::SeqCst);
        if !is_next || turn >= self.most {
            return Err(Stuck);
        }
        Ok(())
    }
}

// A case: the two refused questions, the number of operations above the mark, and the number of turns that are given.
#[derive(Clone, Copy)]
struct Case {
    refused: u64,
    refused_later: u64,
    above: u16,
    turns: u64,
}

const NEVER: u64 = 10_000;

// The case in which no question is refused, and each turn is given.
const ALL: Case = Case {
    refused: NEVER,
    refused_later: NEVER,
    above: 0,
    turns: NEVER,
};

// The mark of a build that has done nothing.
fn first_mark(rt: &impl Abort, alloc: Global) -> Mark {
    match HostLedger::build(alloc, 1, 1, 0, 1, 16) {
        Ok(ledger) => ledger.mark_now(BuildId::new(0).unwrap()),
        Err(_) => panic!(rt; "there is no memory for ledger"),
    }
}

// Whether a worker gets all turns that it needs for the steps.
fn takes_all(report: &mut Report, case: &Case, mark: Mark, steps: &[Step]) -> bool
    requires empty { report.old.lines.items ≡ [] }
    requires few { length steps.now ≤ 16 }
    requires room { 2 * length steps.now + 1 ≤ vec_capacity report.old.lines }
{
    let asked = AtomicU64::new(0);
    let mut fake = Fake {
        asked: &asked,
        case,
        mark,
    };
    let gate = Turns {
        most: case.turns,
        asked: &asked,
        passed: AtomicU64::new(0),
    };
    work(report, steps, &mut fake, &gate).is_ok()
}

// Checks the lines that a worker reports for the steps, and whether it finishes as expected.
fn works(
    rt: &impl Abort,
    alloc: Global,
    name: &str,
    case: &Case,
    steps: Words,
    want: &[Line],
    ended: bool,
) {
    let steps = steps_of(rt, alloc, steps);
    assert!(rt; steps.len() <= 16);
    let mark = first_mark(rt, alloc);
    let mut report = Report {
        build: BuildId::new(0).unwrap(),
        lines: Vec::with_capacity(alloc, 2 * steps.len() + 1).expect(rt, "memory"),
    };
    let has_ended = takes_all(&mut report, case, mark, steps.as_slice());
    holds(rt, name, has_ended == ended);
    has_lines(rt, name, report.lines.as_slice(), want);
}

// The case in which question 0, the first one, is refused.
const REFUSED_0: Case = Case { refused: 0, ..ALL };

const REFUSED_1: Case = Case { refused: 1, ..ALL };

const REFUSED_2: Case = Case { refused: 2, ..ALL };

const REFUSED_3: Case = Case { refused: 3, ..ALL };

// The refusal of a question by the teller.
const FULL: Want = Want::No(No::HistoryFull);

// The teller's answer to each undo that it accepts: one operation is left open.
const ONE_LEFT: Want = Want::Undone(Kind::Delegate, 1);

// The line of each accepted undo after a refusal.
const UNDONE: Line = Line::Undo(ONE_LEFT);

// Cases for three lists of steps: one for the refusal of each step, and one in which none is refused. After a refusal,
// the open takes and delegations are undone.
const REFUSED_STEPS: &[(&str, Case, Words, &[Line])] = &[
    ("fills, 0", REFUSED_0, FILLS, &[Line::Step(0, FULL)]),
    (
        "fills, 1",
        REFUSED_1,
        FILLS,
        &[Line::Step(0, Want::Done), Line::Step(1, FULL), UNDONE],
    ),
    (
        "fills",
        ALL,
        FILLS,
        &[Line::Step(0, Want::Done), Line::Step(1, Want::Done)],
    ),
    (
        "is refused, 0",
        REFUSED_0,
        IS_REFUSED,
        &[Line::Step(0, FULL)],
    ),
    (
        "is refused, 1",
        REFUSED_1,
        IS_REFUSED,
        &[Line::Step(0, Want::Done), Line::Step(1, FULL), UNDONE],
    ),
    (
        "is refused, 2",
        REFUSED_2,
        IS_REFUSED,
        &[
            Line::Step(0, Want::Done),
            Line::Step(1, Want::Done),
            Line::Step(2, FULL),
            UNDONE,
            UNDONE,
        ],
    ),
    (
        "is refused, 3",
        REFUSED_3,
        IS_REFUSED,
        &[
            Line::Step(0, Want::Done),
            Line::Step(1, Want::Done),
            Line::Step(2, Want::Done),
            Line::Step(3, FULL),
            UNDONE,
            UNDONE,
            UNDONE,
        ],
    ),
    (
        "is refused",
        ALL,
        IS_REFUSED,
        &[
            Line::Step(0, Want::Done),
            Line::Step(1, Want::Done),
            Line::Step(2, Want::Done),
            Line::Step(3, Want::Done),
        ],
    ),
    ("reads, 0", REFUSED_0, READS, &[Line::Step(0, FULL)]),
    (
        "reads, 1",
        REFUSED_1,
        READS,
        &[Line::Step(0, Want::Done), Line::Step(1, FULL), UNDONE],
    ),
    (
        "reads, 2",
        REFUSED_2,
        READS,
        &[
            Line::Step(0, Want::Done),
            Line::Step(1, Want::Done),
            Line::Step(2, FULL),
            UNDONE,
        ],
    ),
    (
        "reads",
        ALL,
        READS,
        &[
            Line::Step(0, Want::Done),
            Line::Step(1, Want::Done),
            Line::Step(2, Want::Done),
        ],
    ),
];

#[test]
fn each_step_is_refused_once(rt: HostRuntime) {
    for (name, case, steps, want) in REFUSED_STEPS {
        works(&rt, rt.alloc(), name, case, steps, want, true);
    }
}

const DELEGATES: Words = &["delegate 0", "delegate 0", "delegate 0"];

const ENDS: &[(&str, Case, Words, &[Line], bool)] = &[
    (
        "a refused step is followed by undos",
        REFUSED_2,
        &["delegate 0", "delegate 0", "delegate 0", "undo"],
        &[
            Line::Step(0, Want::Done),
            Line::Step(1, Want::Done),
            Line::Step(2, FULL),
            UNDONE,
            UNDONE,
        ],
        true,
    ),
    (
        "a refused undo ends it",
        Case {
            refused: 2,
            refused_later: 3,
            ..ALL
        },
        DELEGATES,
        &[
            Line::Step(0, Want::Done),
            Line::Step(1, Want::Done),
            Line::Step(2, FULL),
            Line::Undo(FULL),
        ],
        true,
    ),
    (
        "nothing is reported of a turn that does not come",
        Case {
            refused: 2,
            turns: 4,
            ..ALL
        },
        DELEGATES,
        &[
            Line::Step(0, Want::Done),
            Line::Step(1, Want::Done),
            Line::Step(2, FULL),
            UNDONE,
        ],
        false,
    ),
    (
        "an abort undoes what its own replies count",
        ALL,
        &["delegate 0", "delegate 0", "abort", "abort", "back"],
        &[
            Line::Step(0, Want::Done),
            Line::Step(1, Want::Done),
            Line::Step(2, ONE_LEFT),
            Line::Step(2, ONE_LEFT),
            Line::Step(3, Want::Nothing),
            Line::Step(4, Want::No(No::NothingToUndo)),
        ],
        true,
    ),
    (
        "running RECs exit in rising number",
        ALL,
        &["enter 5", "enter 3", "delegate 0", "enter 5", "abort"],
        &[
            Line::Step(0, Want::Done),
            Line::Step(1, Want::Done),
            Line::Step(2, Want::Done),
            Line::Step(3, Want::Done),
            Line::Step(4, Want::No(No::RecRunning)),
            Line::Exited(3),
            Line::Exited(5),
            UNDONE,
        ],
        true,
    ),
    (
        "the way back is no longer than the journal",
        Case { above: 7, ..ALL },
        &["delegate 0", "mark", "delegate 0", "back", "back"],
        &[
            Line::Step(0, Want::Done),
            Line::Step(1, Want::Marked(0)),
            Line::Step(2, Want::Done),
            Line::Step(3, ONE_LEFT),
            Line::Step(3, ONE_LEFT),
            Line::Step(4, Want::Nothing),
        ],
        true,
    ),
    (
        "checking back takes a turn",
        Case {
            above: 2,
            turns: 5,
            ..ALL
        },
        &["delegate 0", "mark", "delegate 0", "back"],
        &[
            Line::Step(0, Want::Done),
            Line::Step(1, Want::Marked(0)),
            Line::Step(2, Want::Done),
            Line::Step(3, ONE_LEFT),
        ],
        false,
    ),
];

#[test]
fn workers_end_so(rt: HostRuntime) {
    for (name, case, steps, want, ended) in ENDS {
        works(&rt, rt.alloc(), name, case, steps, want, *ended);
    }
}
