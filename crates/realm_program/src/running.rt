//! Reads a plan, runs its builds in threads, and writes the output text.
ghost use Rattle.std.specs.Prelude.{◌≡◌, ◌+◌, ◌≤◌, ◌↔◌, ◌⊎◌, false, true, Err, IfOk, IfErr, string_bytes};
ghost use Rattle.realm_plan.specs.PlanView.{plan_view};
ghost use Rattle.realm_program.specs.Whole.{ReadsOnce};
ghost use Rattle.realm_program.specs.Printed.{IsEnd};
ghost use Rattle.realm_program.specs.Threads.{IsThreadsText, IsWithoutThreadsText, ScheduleIsNotPrinted};
ghost use Rattle.realm_program.specs.RunFault.{fault_of_run};
ghost use Rattle.realm_program.specs.declared.fault.Fault.TheVariants.{Device};

use crate::{Fault, RunFault, boot, plan_in, run_text};
use buddy::BuddyArena;
use builders::Gate;
use checked_io::Told;
use realm_plan::Plan;
use std::alloc::Global;
use std::io::{Read, Write};
use std::marker::Sync;
use std::sync::Wait;
use std::thread::Threads;

// The fault of the program for a run that has no text.
fn fault_of(fault: RunFault) -> Fault
    ensures { result ≡ fault_of_run fault }
{
    match fault {
        RunFault::Memory => Fault::Memory,
        RunFault::Stuck(build) => Fault::Stuck(build),
        RunFault::Mismatch => Fault::Mismatch,
    }
}

// Runs the plan in threads, and returns the text of the run.
fn threads_text_of<H: Threads + Wait + Sync, G: Gate + Sync>(
    rt: &H,
    alloc: Global,
    plan: &Plan,
    gate: &G,
) -> Result<String, Fault>
    ensures ok { IfOk result (λ text. IsThreadsText (G.passes gate.now) (G.stops gate.now) (plan_view plan.now) (string_bytes text)) }
    ensures err { IfErr result (IsWithoutThreadsText (G.passes gate.now) (G.stops gate.now) (plan_view plan.now)) }
{
    let host = boot::<BuddyArena>(alloc, plan)?;
    run_text(rt, alloc, plan, host, gate).map_err(fault_of)
}

/// Reads a plan, runs each build in its own thread, and writes the output text. Each thread has the worker of one
/// build. The workers get their turns from the gate. The plan's schedule plays no part. The sequence in which the
/// builds took the lock is not printed. Runs of a plan in which each build got the same answers, with the same
/// allocations, have the same text.
///
/// The text is complete before any of it is written.
///
/// Errors: the fault of a plan. `Stuck`: the worker of this build, and of no lower one, waited in vain for a turn.
/// `Mismatch`: the events of a build's seat are not the build's events in the history, or a report does not match it.
/// `Memory`: allocation failed. `Device`: a read failed and nothing is written, or a write failed and a prefix of the
/// text is written.
pub fn run<H: Threads + Wait + Sync, R: Read, W: Write, G: Gate + Sync>(
    rt: &H,
    alloc: Global,
    input: &mut Told<R>,
    output: &mut Told<W>,
    gate: &G,
) -> Result<(), Fault>
    requires readable { input.old.failed ≡ false }
    requires writable { output.old.failed ≡ false }
    ensures end { IsEnd (IsThreadsText (G.passes gate.now) (G.stops gate.now)) (IsWithoutThreadsText (G.passes gate.now) (G.stops gate.now)) input.new.failed
        (R.remaining input.old.device) (W.contents output.old.device) (W.contents output.new.device) result }
    ensures device { ((input.new.failed ≡ true) ⊎ (output.new.failed ≡ true)) ↔ (result ≡ Err Device) }
    ensures asked { input.new.reads ≤ input.old.reads + 1048578 }
    ensures once { ReadsOnce (R.remaining input.old.device) input.old.reads input.new.reads }
    ensures order { ScheduleIsNotPrinted (G.passes gate.now) (G.stops gate.now) }
{
    let plan = plan_in(alloc, input)?;
    let text = threads_text_of(rt, alloc, &plan, gate)?;
    output.write_whole(text.as_bytes())?;
    Ok(())
}
