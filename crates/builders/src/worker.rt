//! The worker that performs the steps of a build on a shared host.
ghost use Rattle.std.specs.Prelude.{◌≡◌, ◌+◌, ◌*◌, ◌<◌, ◌≤◌, [], false, length, vec_len, vec_capacity, IfOk, IfErr};
ghost use Rattle.builders.specs.Workers.{IsFaithful, IsWorkerRun};

use crate::seat_teller::SeatTeller;
use crate::shared::Shared;
use build_seats::{Gate, Ledgers, Report, Seat, work};
use granule_addr::BuildId;
use host_commands::Step;
use page_arena::PageStore;
use std::alloc::{AllocError, Global};
use std::marker::Model;
use std::sync::Wait;

/// A worker that performs the steps of one build on a shared host. It has the build's session handle (`Seat`) and
/// steps, and the answers that the worker got.
pub struct Worker<L: Ledgers> {
    seat: Seat<L>,
    steps: Vec<Step>,
    report: Report,
    ended: bool,
}

impl<L: Ledgers> Drop for Worker<L> {
    fn drop(self) {
        let Worker {
            seat: _,
            steps: _,
            report: _,
            ended: _,
        } = self;
    }
}

impl<L: Ledgers> Model for Worker<L> {
    ghost use Rattle.std.specs.Prelude.{◌≡◌, ◌≤◌, ◌+◌, ◌*◌, vec_len, vec_capacity};
    ghost use Rattle.builders.specs.Workers.{WorkerView, IsFaithful};

    ghost Value = { WorkerView };

    ghost view = { λ w. record { seat = w.seat; steps = w.steps.items; lines = w.report.lines.items; ended = w.ended } };

    ghost invariant = { λ w. IsFaithful L.opened (record { seat = w.seat; steps = w.steps.items; lines = w.report.lines.items; ended = w.ended })
        × (w.report.build ≡ w.seat.build) × (vec_len w.steps ≤ 1024) × (2 * vec_len w.steps + 1 ≤ vec_capacity w.report.lines) };
}

impl<L: Ledgers> Worker<L> {
    /// Creates a worker that performs `steps` for the build whose session handle is `seat`. Its report is empty. If the
    /// allocation of the report fails, the handle and the steps are returned.
    pub fn build(
        alloc: Global,
        seat: Seat<L>,
        steps: Vec<Step>,
    ) -> Result<Worker<L>, (AllocError, Seat<L>, Vec<Step>)>
        requires trail { seat.trail ≡ [] }
        requires few { vec_len steps ≤ 1024 }
        ensures ok { IfOk result (λ worker. worker ≡ record { seat = seat; steps = steps.items; lines = []; ended = false }) }
        ensures back { IfErr result (λ e. (e.1 ≡ seat) × (e.2.items ≡ steps.items)) }
    {
        let Ok(lines) = Vec::with_capacity(alloc, 2 * steps.len() + 1) else {
            return Err((AllocError, seat, steps));
        };
        let report = Report {
            build: seat.build(),
            lines,
        };
        Ok(Worker {
            seat,
            steps,
            report,
            ended: false,
        })
    }

    /// Returns the number of the worker's build.
    pub fn number(&self) -> BuildId
        ensures { result ≡ self.now.seat.build }
    {
        self.seat.build()
    }

    /// Returns whether the worker has finished a run in which the gate stopped no turn. The gate then gave the worker
    /// every turn that the worker waited for.
    pub fn has_ended(&self) -> bool
        ensures { result ≡ self.now.ended }
    {
        self.ended
    }

    /// Performs the steps of the worker's build, in turns that the scheduler `gate` gives. After the first refusal the
    /// remaining steps are left out. The worker then asks for exits of the running RECs, and for undos of what is open.
    /// It stops at a refusal of these, or when the gate stops a turn.
    pub fn run<R: Wait, S: PageStore, G: Gate>(&mut self, rt: &R, shared: &Shared<S, L>, gate: &G)
        requires { self.old.lines ≡ [] }
        ensures { IsWorkerRun L.opened (G.passes gate.now self.old.seat.build) (G.stops gate.now self.old.seat.build) self.old self.new }
    {
        let Worker {
            seat,
            steps,
            report,
            ended,
        } = self;
        *ended = work_at(rt, shared, seat, steps.as_slice(), report, gate);
    }

    /// Consumes the worker, and returns its session handle (`Seat`), its steps and its report.
    pub fn end(self) -> (Seat<L>, Vec<Step>, Report)
        ensures parts { (result.0 ≡ self.seat) × (result.1.items ≡ self.steps) × (result.2.lines.items ≡ self.lines) }
        ensures build { result.2.build ≡ self.seat.build }
        ensures faithful { IsFaithful L.opened self }
    {
        let Worker {
            seat,
            steps,
            report,
            ended: _,
        } = self;
        (seat, steps, report)
    }
}

// Performs the steps of a seat's build, and returns whether the gate gave every turn.
fn work_at<R: Wait, S: PageStore, G: Gate, L: Ledgers>(
    rt: &R,
    shared: &Shared<S, L>,
    seat: &mut Seat<L>,
    steps: &[Step],
    report: &mut Report,
    gate: &G,
) -> bool
    requires trail { seat.old.trail ≡ [] }
    requires empty { report.old.lines.items ≡ [] }
    requires few { length steps.now ≤ 1024 }
    requires room { 2 * length steps.now + 1 ≤ vec_capacity report.old.lines }
    requires build { report.old.build ≡ seat.old.build }
    ensures run { IsWorkerRun L.opened (G.passes gate.now seat.old.build) (G.stops gate.now seat.old.build)
        (record { seat = seat.old; steps = steps.now; lines = []; ended = false })
        (record { seat = seat.new; steps = steps.now; lines = report.new.lines.items; ended = result }) }
    ensures same { (report.new.build ≡ report.old.build) × (vec_capacity report.new.lines ≡ vec_capacity report.old.lines) }
{
    // (the contracts of these calls say that a seat's build is below 8, and that the seat counts its trail)
    let _ = (seat.build(), seat.count());
    let mut teller = SeatTeller { rt, shared, seat };
    let ended = work(report, steps, &mut teller, gate).is_ok();
    let _ = (teller.seat.build(), teller.seat.count());
    ended
}
