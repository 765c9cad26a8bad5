//! Functions that run a plan, and return or write the output text. The printed map without one build is here too.
ghost use Rattle.std.specs.Prelude.{◌≡◌, ◌+◌, ◌<◌, ◌≤◌, ◌↔◌, ◌⊎◌, ◌≢◌, [], false, true, Err, IfOk, IfErr, string_bytes, vec_len};
ghost use Rattle.std.specs.Result.{OnOk};
ghost use Rattle.plan_replay.specs.Run.{IsReportedRun};
ghost use Rattle.realm_plan.specs.PlanView.{plan_view};
ghost use Rattle.realm_program.specs.Whole.{ReadsOnce};
ghost use Rattle.realm_program.specs.Printed.{IsEnd};
ghost use Rattle.realm_host.specs.Recorded.{fresh_like};
ghost use Rattle.realm_program.specs.Replay.{opening_host, RunLeadsTo, IsMapWithout, IsText, IsErasedText, IsAskedText, IsWithoutText};
ghost use Rattle.realm_program.specs.declared.fault.Fault.TheVariants.{Device, Mismatch};

use crate::boot_host::{BuildableStore, boot};
use crate::fault::Fault;
use crate::printing::{PlanText, print};
use buddy::BuddyArena;
use checked_io::Told;
use granule_addr::BuildId;
use plan_replay::{empty_output_text, map_text, push_map, run_turns};
use realm_host::{Host, HostLedger, apply_without};
use realm_plan::Plan;
use std::alloc::{AllocError, Global};
use std::io::{Read, Write};

// Runs the plan, appends the lines of the turns, and returns the host.
fn run_plan<S: BuildableStore>(
    alloc: Global,
    plan: &Plan,
    lines: &mut String,
) -> Result<Host<S>, AllocError>
    ensures { IfOk result (λ host. IsReportedRun (plan_view plan.now) (opening_host (plan_view plan.now)) host (string_bytes lines.old) (string_bytes lines.new)) }
{
    let mut host = boot(alloc, plan)?;
    run_turns(&mut host, plan, lines)?;
    Ok(host)
}

// Runs the plan, and appends the text of the run.
fn push_text<S: BuildableStore>(
    alloc: Global,
    plan: &Plan,
    text: &mut String,
) -> Result<(), AllocError>
    requires { string_bytes text.old ≡ [] }
    ensures { OnOk result (IsText (plan_view plan.now) (string_bytes text.new)) }
{
    let host = run_plan::<S>(alloc, plan, text)?;
    push_map(text, &host)
}

/// Runs a plan, and returns the output text of the run. The text is complete in memory. The one error is that
/// allocation failed.
pub fn text_of<S: BuildableStore>(alloc: Global, plan: &Plan) -> Result<String, AllocError>
    ensures { IfOk result (λ text. IsText (plan_view plan.now) (string_bytes text)) }
{
    let mut text = empty_output_text(alloc, plan)?;
    push_text::<S>(alloc, plan, &mut text)?;
    Ok(text)
}

// Runs the plan, and returns the host's ledger alone. The lines of the turns are dropped, and the memory of the machine
// is given back.
fn ledger_of(alloc: Global, plan: &Plan) -> Result<HostLedger, AllocError>
    ensures { IfOk result (RunLeadsTo (plan_view plan.now)) }
{
    let mut lines = empty_output_text(alloc, plan)?;
    let host = run_plan::<BuddyArena>(alloc, plan, &mut lines)?;
    Ok(host.into_ledger())
}

/// Returns the map that is printed for a history without the events of one build. The map is that of a fresh host,
/// booted from the plan, to which the other events are applied. The one error is that allocation failed.
pub fn map_without(
    alloc: Global,
    plan: &Plan,
    ledger: &HostLedger,
    build: BuildId,
) -> Result<String, AllocError>
    requires { opening_host (plan_view plan.now) ≡ fresh_like ledger.now }
    ensures { IfOk result (λ text. IsMapWithout ledger.now build (string_bytes text)) }
{
    let mut fresh = boot::<BuddyArena>(alloc, plan)?;
    apply_without(ledger, build, &mut fresh);
    map_text(alloc, &fresh)
}

// Runs the plan, and returns the map without the events of one of the plan's builds.
fn run_without(alloc: Global, plan: &Plan, build: BuildId) -> Result<String, AllocError>
    requires { build < vec_len plan.now.builds }
    ensures { IfOk result (λ text. IsErasedText (plan_view plan.now) build (string_bytes text)) }
{
    let ledger = ledger_of(alloc, plan)?;
    map_without(alloc, plan, &ledger, build)
}

// Runs the plan, and returns the map without the events of a build, if the plan has the build.
fn erased_text_of(alloc: Global, plan: &Plan, build: BuildId) -> Result<String, Fault>
    ensures ok { IfOk result (λ text. IsErasedText (plan_view plan.now) build (string_bytes text)) }
    ensures err { IfErr result (IsWithoutText (Some build) (plan_view plan.now)) }
{
    if build.number() as usize >= plan.builds.len() {
        return Err(Fault::EraseNamesNoBuild);
    }
    Ok(run_without(alloc, plan, build)?)
}

// Returns the text of a run of the plan, or the map without the build `erase`.
fn asked_text_of(alloc: Global, plan: &Plan, erase: Option<BuildId>) -> Result<String, Fault>
    ensures ok { IfOk result (λ text. IsAskedText erase (plan_view plan.now) (string_bytes text)) }
    ensures err { IfErr result (IsWithoutText erase (plan_view plan.now)) }
{
    match erase {
        Some(build) => erased_text_of(alloc, plan, build),
        None => Ok(text_of::<BuddyArena>(alloc, plan)?),
    }
}

// A request for the text of a replay, or for the map without the build `erase`.
#[derive(Drop)]
struct ReplayRequest {
    erase: Option<BuildId>,
}

impl PlanText for ReplayRequest {
    ghost is_text = { λ asked. IsAskedText asked.erase };

    ghost is_without = { λ asked. IsWithoutText asked.erase };

    fn text_of(&self, alloc: Global, plan: &Plan) -> Result<Vec<u8>, Fault> {
        Ok(asked_text_of(alloc, plan, self.erase)?.into_bytes())
    }
}

/// Reads a plan, runs it, and writes the output text of the run. If a build is to be left out, writes the map that the
/// run's history leads to without the build's events.
///
/// The text is complete before any of it is written. Errors: the fault of a plan. `EraseNamesNoBuild`: the build to be
/// left out is not one of the plan's. `Memory`: allocation failed. `Device`: a read failed and nothing is written, or a
/// write failed and a prefix of the text is written.
pub fn replay<R: Read, W: Write>(
    alloc: Global,
    input: &mut Told<R>,
    output: &mut Told<W>,
    erase: Option<BuildId>,
) -> Result<(), Fault>
    requires readable { input.old.failed ≡ false }
    requires writable { output.old.failed ≡ false }
    ensures end { IsEnd (IsAskedText erase) (IsWithoutText erase) input.new.failed
        (R.remaining input.old.device) (W.contents output.old.device) (W.contents output.new.device) result }
    ensures never_mismatch { result ≢ Err Mismatch }
    ensures device { ((input.new.failed ≡ true) ⊎ (output.new.failed ≡ true)) ↔ (result ≡ Err Device) }
    ensures asked { input.new.reads ≤ input.old.reads + 1048578 }
    ensures once { ReadsOnce (R.remaining input.old.device) input.old.reads input.new.reads }
{
    print(&ReplayRequest { erase }, alloc, input, output)
}
