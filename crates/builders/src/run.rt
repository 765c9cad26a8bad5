//! Runs the workers of several builds in parallel, each in a thread of its own.
ghost use Rattle.std.specs.Prelude.{◌≡◌, [], true, All, MatchOption, MatchResult};
ghost use Rattle.builders.specs.Runs.{AreRun, IsLowestWaiting};
ghost use Rattle.builders.specs.Workers.{IsWorkerRun};

use crate::shared::Shared;
use crate::worker::Worker;
use build_seats::{Gate, Ledgers};
use granule_addr::BuildId;
use page_arena::PageStore;
use std::marker::{Send, Sync};
use std::sync::Wait;
use std::thread;
use std::thread::Threads;

/// Runs each of the given workers in a thread of its own. The call waits for all workers. If no thread can be made, the
/// workers run one after another. An `Err` has the lowest build whose worker has not ended: the gate stopped one of its
/// turns.
pub fn run_builds<
    R: Threads + Wait + Sync,
    S: PageStore + Send,
    G: Gate + Sync,
    L: Ledgers + Send + Sync,
>(rt: &R, shared: &Shared<S, L>, workers: &mut [Worker<L>], gate: &G) -> Result<(), BuildId>
    requires { All (λ worker. worker.lines ≡ []) workers.old }
    ensures run { AreRun L.opened (G.passes gate.now) (G.stops gate.now) workers.old workers.new }
    ensures told { MatchResult result (λ _. All (λ worker. worker.ended ≡ true) workers.new) (λ build. IsLowestWaiting workers.new build) }
{
    // One thread at least is required, even for no worker.
    let threads = workers.len().max(1);
    thread::for_each_mut(
        rt,
        workers,
        threads,
        &|_, worker: &mut Worker<L>|
            requires { worker.old.lines ≡ [] }
            ensures { IsWorkerRun L.opened (G.passes gate.entry.now worker.old.seat.build) (G.stops gate.entry.now worker.old.seat.build) worker.old worker.new }
        { worker.run(rt, shared, gate) },
    );
    lowest_unended_build(workers).map_or(Ok(()), Err)
}

// The lowest build whose worker has not ended.
fn lowest_unended_build<L: Ledgers>(workers: &[Worker<L>]) -> Option<BuildId>
    ensures { MatchOption result (All (λ worker. worker.ended ≡ true) workers.now) (λ build. IsLowestWaiting workers.now build) }
{
    workers
        .iter()
        .filter(|worker| !worker.has_ended())
        .map(|worker| worker.number())
        .min()
}
