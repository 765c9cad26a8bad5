//! Runs each build of a plan in a thread of its own. The results of the builds' workers are here too.
ghost use Rattle.std.specs.Prelude.{◌≡◌, [], map, vec_len, string_bytes, IfOk, IfErr};
ghost use Rattle.realm_plan.specs.PlanView.{plan_view};
ghost use Rattle.realm_program.specs.Workers.{AreLeft, IsWithoutWorkersText, IsWorkersText, worker_seats, IsReportOf};
ghost use Rattle.build_seats.specs.Seats.{new_seat};
ghost use Rattle.std.specs.List.{range_with_len, AllZip};
ghost use Rattle.realm_program.specs.Order.{ScheduleIsNotRevealed};
ghost use Rattle.build_seats.specs.Names.{AreNamed};

use crate::append::append_item;
use crate::new_workers::workers_of;
use crate::run_fault::RunFault;
use crate::threads_text::audited_text_of;
use builders::{Blanks, Gate, Ledgers, Report, Seat, Shared, Worker, run_builds};
use host_commands::Step;
use page_arena::PageStore;
use realm_host::Host;
use realm_plan::Plan;
use std::alloc::{AllocError, Global};
use std::marker::{Brand, Send, Sync};
use std::sync::Wait;
use std::thread::Threads;

// Runs a worker in each new seat of a shared host until all have ended, and returns the workers' results.
fn work_all<
    R: Threads + Wait + Sync,
    S: PageStore + Send,
    G: Gate + Sync,
    L: Ledgers + Send + Sync,
>(
    rt: &R,
    alloc: Global,
    plan: &Plan,
    shared: &Shared<S, L>,
    seats: Vec<Seat<L>>,
    gate: &G,
) -> Result<Ends<L>, RunFault>
    requires { seats.items ≡ map new_seat (range_with_len 0 (vec_len plan.now.builds)) }
    ensures ok { IfOk result (λ ends. AreLeft (plan_view plan.now) (G.passes gate.now) (G.stops gate.now) L.opened ends.seats.items ends.reports.items) }
    ensures err { IfErr result (IsWithoutWorkersText (plan_view plan.now) (G.passes gate.now) (G.stops gate.now) L.opened) }
{
    let mut workers = workers_of(alloc, plan, seats)?;
    if let Err(build) = run_builds(rt, shared, workers.as_mut_slice(), gate) {
        return Err(RunFault::Stuck(build));
    }
    let ends = ends_of(alloc, workers)?;
    Ok(ends)
}

// Runs a worker in each new seat of a shared host, closes the host, and returns the text of the run.
fn run_shared<
    R: Threads + Wait + Sync,
    S: PageStore + Drop + Send,
    G: Gate + Sync,
    L: Ledgers + Send + Sync,
>(
    rt: &R,
    alloc: Global,
    plan: &Plan,
    shared: Shared<S, L>,
    seats: Vec<Seat<L>>,
    gate: &G,
) -> Result<String, RunFault>
    requires { seats.items ≡ map new_seat (range_with_len 0 (vec_len plan.now.builds)) }
    ensures ok { IfOk result (λ text. IsWorkersText (plan_view plan.now) (G.passes gate.now) (G.stops gate.now) L.opened (string_bytes text)) }
    ensures err { IfErr result (IsWithoutWorkersText (plan_view plan.now) (G.passes gate.now) (G.stops gate.now) L.opened) }
{
    let Ends { seats, reports } = work_all(rt, alloc, plan, &shared, seats, gate)?;
    let Ok(host) = shared.close(seats) else {
        return Err(RunFault::Mismatch);
    };
    audited_text_of(alloc, plan, reports.as_slice(), &host)
}

// Runs a plan as `run_text` does, with ledgers that are made from `blanks`.
fn run_with<
    R: Threads + Wait + Sync,
    S: PageStore + Drop + Send,
    G: Gate + Sync,
    L: Ledgers + Send + Sync,
>(
    rt: &R,
    alloc: Global,
    plan: &Plan,
    blanks: Blanks,
    host: Host<S>,
    gate: &G,
) -> Result<String, RunFault>
    requires empty { host.history ≡ [] }
    requires builds { host.limits.builds ≡ vec_len plan.now.builds }
    requires opened { host ≡ L.opened }
    requires named { AreNamed L.names blanks }
    ensures ok { IfOk result (λ text. IsWorkersText (plan_view plan.now) (G.passes gate.now) (G.stops gate.now) host (string_bytes text)) }
    ensures err { IfErr result (IsWithoutWorkersText (plan_view plan.now) (G.passes gate.now) (G.stops gate.now) host) }
{
    let (shared, seats) = match Shared::<S, L>::start(alloc, blanks, host) {
        Ok(started) => started,
        Err((error, _blanks, _host)) => return Err(error.into()),
    };
    run_shared(rt, alloc, plan, shared, seats, gate)
}

/// Runs each build of a plan in its own thread, and returns the output text. A worker runs each build, on a host whose
/// history is empty. The text is complete in memory: the lines of the reports by build, the host's map, and `audit ok`.
/// Runs that leave the builds the same seats have the same map, in whatever sequence the builds took the lock.
///
/// Errors. `Stuck`: the worker of this build, and of no lower one, waited in vain for a turn of the gate. `Mismatch`:
/// the host is not closed, or a report does not match its history. `Memory`: allocation failed.
pub fn run_text<R: Threads + Wait + Sync, S: PageStore + Drop + Send, G: Gate + Sync>(
    rt: &R,
    alloc: Global,
    plan: &Plan,
    host: Host<S>,
    gate: &G,
) -> Result<String, RunFault>
    requires empty { host.history ≡ [] }
    requires builds { host.limits.builds ≡ vec_len plan.now.builds }
    ensures ok { IfOk result (λ text. IsWorkersText (plan_view plan.now) (G.passes gate.now) (G.stops gate.now) host (string_bytes text)) }
    ensures err { IfErr result (IsWithoutWorkersText (plan_view plan.now) (G.passes gate.now) (G.stops gate.now) host) }
    ensures order { ScheduleIsNotRevealed (plan_view plan.now) (G.passes gate.now) (G.stops gate.now) host }
{
    run_with::<R, S, G, Brand>(rt, alloc, plan, Blanks::new(), host, gate)
}

/// The seats and reports of the workers that performed the steps of a plan's builds. Each report is paired with the
/// worker's steps.
#[derive(Drop)]
pub struct Ends<L: Ledgers> {
    pub seats: Vec<Seat<L>>,
    pub reports: Vec<(Report, Vec<Step>)>,
}

/// Ends the workers of a plan's builds, and returns the workers' seats and reports, in the sequence of the workers.
pub(crate) fn ends_of<L: Ledgers>(
    alloc: Global,
    workers: Vec<Worker<L>>,
) -> Result<Ends<L>, AllocError>
    ensures seats { IfOk result (λ ends. ends.seats.items ≡ worker_seats workers.items) }
    ensures reports { IfOk result (λ ends. AllZip IsReportOf workers.items ends.reports.items) }
{
    let mut seats = Vec::with_capacity(alloc, workers.len())?;
    let mut reports = Vec::with_capacity(alloc, workers.len())?;
    for worker in workers {
        let (seat, steps, report) = worker.end();
        append_item(&mut seats, seat)?;
        append_item(&mut reports, (report, steps))?;
    }
    Ok(Ends { seats, reports })
}
