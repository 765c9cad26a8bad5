//! Creates the workers that perform the steps of a plan's builds.
ghost use Rattle.std.specs.Prelude.{◌≡◌, ◌<◌, map, vec_len, IfOk};
ghost use Rattle.std.specs.List.{range_with_len};
ghost use Rattle.realm_plan.specs.Asked.{asked};
ghost use Rattle.realm_plan.specs.PlanView.{plan_view};
ghost use Rattle.build_seats.specs.Seats.{new_seat};
ghost use Rattle.realm_program.specs.Workers.{new_worker, new_workers};

use crate::append::append_item;
use builders::{Ledgers, Seat, Worker};
use host_commands::Step;
use realm_plan::{Plan, PlanStep};
use std::alloc::{AllocError, Global};

// Returns the requests to the host that the steps of a plan make.
fn asked_of(alloc: Global, steps: &[PlanStep]) -> Result<Vec<Step>, AllocError>
    ensures { IfOk result (λ asks. asks.items ≡ map asked steps.now) }
{
    let mut asks = Vec::with_capacity(alloc, steps.len())?;
    for step in steps {
        append_item(&mut asks, step.asked())?;
    }
    Ok(asks)
}

// Returns the worker of a new seat, with the steps of the seat's build.
fn worker_of<L: Ledgers>(
    alloc: Global,
    plan: &Plan,
    build: usize,
    seat: Seat<L>,
) -> Result<Worker<L>, AllocError>
    requires there { build < vec_len plan.now.builds }
    requires seat { seat ≡ new_seat build }
    ensures { IfOk result (λ worker. worker ≡ new_worker (plan_view plan.now) build) }
{
    let steps = asked_of(alloc, plan.builds[build].as_slice())?;
    match Worker::build(alloc, seat, steps) {
        Ok(worker) => Ok(worker),
        Err((error, _seat, _steps)) => Err(error),
    }
}

/// Creates a worker for each build, to perform the build's steps on a shared host. The workers are in the sequence of
/// the seats.
pub fn workers_of<L: Ledgers>(
    alloc: Global,
    plan: &Plan,
    seats: Vec<Seat<L>>,
) -> Result<Vec<Worker<L>>, AllocError>
    requires { seats.items ≡ map new_seat (range_with_len 0 (vec_len plan.now.builds)) }
    ensures { IfOk result (λ workers. workers.items ≡ new_workers (plan_view plan.now)) }
{
    let mut workers = Vec::with_capacity(alloc, seats.len())?;
    let mut build = 0;
    for seat in seats {
        append_item(&mut workers, worker_of(alloc, plan, build, seat)?)?;
        build += 1;
    }
    Ok(workers)
}
