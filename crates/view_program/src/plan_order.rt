//! The subcommand `order`, which gives a plan a new schedule. The schedule gives each build all the turns that it
//! needs.
ghost use Rattle.std.specs.Prelude.{◌≡◌, ◌+◌, ◌≤◌, ◌↔◌, ◌⊎◌, false, true, Ok, Err, IfOk, IfErr, OnOk, string_bytes};
ghost use Rattle.realm_plan.specs.Plan.{plan_of};
ghost use Rattle.realm_plan.specs.PlanView.{plan_view};
ghost use Rattle.realm_program.specs.Whole.{ReadsOnce};
ghost use Rattle.view_program.specs.OrderText.{order_part, with_schedule, IsWithOrder};
ghost use Rattle.view_program.specs.Reordered.{IsOrderOf, IsWholeText, IsReorderedText, IsNotWhole, IsNotReordered, IsReorderEnd};
ghost use Rattle.view_program.specs.declared.fault.ViewError.TheVariants.{Device};

use crate::fault::ViewError;
use crate::order_place::order_place;
use crate::order_text::order_array;
use crate::printing::plan_from;
use crate::same_plan::is_same_but_schedule;
use crate::schedules::{schedule_in_rotation, schedule_one_by_one};
use checked_io::Told;
use command_line::realmview::SchedulingPolicy;
use realm_plan::{MOST_TURNS, Plan, PlanError, PlanFault};
use realm_program::read_whole;
use std::alloc::{AllocError, Global};
use std::io::{Read, Write};
use std::str::from_utf8;

// The schedule that follows the policy and gives each build of the plan all the turns that it needs.
fn order_of(alloc: Global, plan: &Plan, turns: SchedulingPolicy) -> Result<Vec<usize>, AllocError>
    ensures { IfOk result (λ order. IsOrderOf turns (plan_view plan.now) order.items) }
{
    match turns {
        SchedulingPolicy::InRotation => schedule_in_rotation(alloc, plan),
        SchedulingPolicy::OneByOne => schedule_one_by_one(alloc, plan),
    }
}

// The text to write below `front`: the schedule alone, or a line with the key `order` and the schedule.
fn part_for(
    alloc: Global,
    front: &[u8],
    is_value: bool,
    order: &[usize],
) -> Result<String, AllocError>
    ensures { IfOk result (λ part. string_bytes part ≡ order_part is_value front.now order.now) }
{
    let array = order_array(alloc, order)?;
    if is_value {
        return Ok(array);
    }
    let mut line = String::new(alloc);
    if !front.is_empty() && !front.ends_with(b"\n") {
        line.push_str("\n")?;
    }
    writeln!(line, "order = {array}")?;
    Ok(line)
}

/// Returns a plan's text with `order` as its schedule. The plan's own schedule is left out. The one error is that
/// allocation failed.
pub(crate) fn with_order(
    alloc: Global,
    bytes: &[u8],
    order: &[usize],
) -> Result<Vec<u8>, AllocError>
    ensures { IfOk result (λ text. IsWithOrder order.now bytes.now text.items) }
{
    let place = order_place(alloc, from_utf8(bytes).unwrap_or(""))?;
    let (until, back) = bytes.split_at(place.to.min(bytes.len()));
    let (front, _) = until.split_at(place.from.min(until.len()));
    let part = part_for(alloc, front, place.is_value, order)?;
    let mut text = Vec::new(alloc);
    text.extend_from_slice(front)?;
    text.extend_from_slice(part.as_bytes())?;
    text.extend_from_slice(back)?;
    Ok(text)
}

/// Returns the schedule of a plan, as the index of each turn's build. The one error is that allocation failed.
pub(crate) fn own_schedule(alloc: Global, plan: &Plan) -> Result<Vec<usize>, AllocError>
    ensures { IfOk result (λ schedule. schedule.items ≡ (plan_view plan.now).order) }
{
    plan.order
        .iter()
        .map(|build| build.number() as usize)
        .collect(alloc)
}

// Whether a plan's own schedule is `order`, and the one that `order_of` returns for the policy.
fn has_whole_schedule(
    alloc: Global,
    plan: &Plan,
    turns: SchedulingPolicy,
    order: &[usize],
) -> Result<bool, AllocError>
    ensures whole { IfOk result (λ whole. whole ≡ true → IsOrderOf turns (plan_view plan.now) (plan_view plan.now).order) }
    ensures own { IfOk result (λ whole. whole ≡ true → (plan_view plan.now).order ≡ order.now) }
{
    let whole = order_of(alloc, plan, turns)?;
    let own = own_schedule(alloc, plan)?;
    Ok(own == whole && own.as_slice() == order)
}

// Whether a plan is `plan` with the schedule `order`, and this schedule is the one that `order_of` returns for it.
fn is_order_of_plan(
    alloc: Global,
    read: &Plan,
    plan: &Plan,
    turns: SchedulingPolicy,
    order: &[usize],
) -> Result<bool, AllocError>
    ensures whole { IfOk result (λ is. is ≡ true → IsOrderOf turns (plan_view read.now) (plan_view read.now).order) }
    ensures plan { IfOk result (λ is. is ≡ true → plan_view read.now ≡ with_schedule order.now (plan_view plan.now)) }
{
    Ok(is_same_but_schedule(read, plan) && has_whole_schedule(alloc, read, turns, order)?)
}

// Checks that a text is the plan with the schedule `order`, which gives each build all the turns that it needs.
fn read_back(
    alloc: Global,
    text: &[u8],
    plan: &Plan,
    turns: SchedulingPolicy,
    order: &[usize],
) -> Result<(), ViewError>
    ensures ok { OnOk result (IsWholeText turns text.now) }
    ensures plan { OnOk result (plan_of text.now ≡ Ok (with_schedule order.now (plan_view plan.now))) }
    ensures err { IfErr result (IsNotWhole text.now) }
{
    match Plan::from_bytes(alloc, text) {
        Ok(read) if is_order_of_plan(alloc, &read, plan, turns, order)? => Ok(()),
        Err(PlanError::Memory) => Err(ViewError::Memory),
        Err(PlanError::Fault(PlanFault::Limit)) => Err(ViewError::OrderOutsideLimits),
        _ => Err(ViewError::Plan(realm_program::Fault::Mismatch)),
    }
}

// The text of a plan, with a schedule that gives each build all the turns that it needs.
fn reordered(
    alloc: Global,
    bytes: &[u8],
    plan: &Plan,
    turns: SchedulingPolicy,
) -> Result<Vec<u8>, ViewError>
    ensures ok { IfOk result (λ text. IsWholeText turns text.items) }
    ensures text { IfOk result (λ text. IsReorderedText turns (plan_view plan.now) bytes.now text.items) }
    ensures err { IfErr result (IsNotReordered turns (plan_view plan.now) bytes.now) }
{
    let order = order_of(alloc, plan, turns)?;
    if order.len() > MOST_TURNS {
        return Err(ViewError::OrderOutsideLimits);
    }
    let text = with_order(alloc, bytes, &order)?;
    read_back(alloc, &text, plan, turns, &order)?;
    Ok(text)
}

/// Reads a plan, and writes it with a new schedule. The schedule gives each build all the turns that it needs. The
/// turns include those of aborts and rollbacks. The value of `order` is replaced, and the rest of the text is as it
/// was. The text is read back before it is written: it has to be the plan with the new schedule. In the run with the
/// new schedule, each turn is of a build with a step left, and in the end no build has one.
///
/// The text is complete before any of it is written.
///
/// Errors. `NoPlan`, with the errors of an input that is not a plan. `OrderOutsideLimits`: the plan would have too many
/// turns or bytes. `Memory`: allocation failed. `Device`: a read failed and nothing is written, or a write failed and a
/// prefix of the text is written. `Mismatch`: the text, read back, is not the plan with the new schedule, or a second
/// run has another schedule.
pub fn reorder<R: Read, W: Write>(
    alloc: Global,
    source: &str,
    input: &mut Told<R>,
    output: &mut Told<W>,
    turns: SchedulingPolicy,
) -> Result<(), ViewError>
    requires readable { input.old.failed ≡ false }
    requires writable { output.old.failed ≡ false }
    ensures end { IsReorderEnd turns source.now input.new.failed (R.remaining input.old.device)
        (W.contents output.old.device) (W.contents output.new.device) result }
    ensures device { ((input.new.failed ≡ true) ⊎ (output.new.failed ≡ true)) ↔ (result ≡ Err Device) }
    ensures asked { input.new.reads ≤ input.old.reads + 1048578 }
    ensures once { ReadsOnce (R.remaining input.old.device) input.old.reads input.new.reads }
{
    let bytes = read_whole(alloc, input)?;
    let plan = plan_from(alloc, source, &bytes)?;
    let text = reordered(alloc, &bytes, &plan, turns)?;
    output.write_whole(&text)?;
    Ok(())
}
