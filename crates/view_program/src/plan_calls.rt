//! The RMM calls of a plan's run, as a trace or a C table.
ghost use Rattle.std.specs.Prelude.{◌≡◌, ◌<◌, ◌≤◌, ◌++◌, false, true, length, slice_get, None, Some, IfOk, IfSome, OnOk, string_bytes, vec_len};
ghost use Rattle.std.specs.Bool.{OnTrue};
ghost use Rattle.std.specs.List.{flat_map};
ghost use Rattle.command_line.specs.declared.realmview.CallsForm.TheVariants.{Trace};
ghost use Rattle.history_calls.specs.Lines.{action_line, platform_line};
ghost use Rattle.realm_plan.specs.PlanView.{plan_view};
ghost use Rattle.realm_program.specs.Replay.{IsWithoutText};
ghost use Rattle.view_program.specs.Calls.{comment_start, is_poke, is_refusal_of_rmm, AppendsCallsOfEvent, AppendsTurnAndCalls, AppendsCallsOfTurn, IsCallsText};

use crate::call_rows::{push_action_rows, push_platform_row};
use crate::plan_text::ViewText;
use crate::refused_calls::refused_calls;
use buddy::BuddyArena;
use command_line::BaseAddress;
use command_line::realmview::CallsForm;
use granule_addr::{BuildId, Level};
use history_calls::{Frame, HostAction, RunPages, actions_of, push_action, push_platform};
use host_commands::{Cmd, Refusal, Step};
use plan_replay::{PlanCursor, TurnAnswer, push_turn, take_turn};
use realm_host::Host;
use realm_model::{Act, Event, Ripas, Rmi};
use realm_plan::{Plan, PlanStep, push_idle};
use realm_program::{Fault, boot};
use std::alloc::{AllocError, Global};

// The comment in place of a guest's write that RMM 1.0 refuses.
const BESIDE_RAM: &str =
    "no call: the RIPAS there is not RAM, and in RMM 1.0 the guest's write is refused\n";

// The comment in place of a refused call that RMM 1.0 does not have or may answer otherwise.
const OTHERWISE: &str = "no call: RMM 1.0 has none for it, or may answer otherwise\n";

// Whether an event is a guest's write at an address whose RIPAS is not RAM. RMM 1.0 has no write there.
fn is_beside_ram(host: &Host<BuddyArena>, event: &Event) -> bool
    ensures { OnTrue result (is_poke event.now.act ≡ true) }
{
    let Act::Poke { ipa, .. } = event.act else {
        return false;
    };
    match host.row(event.build, ipa.number(), Level::last()) {
        Some(row) => !matches!(row.entry.ripas, Ripas::Ram),
        None => true,
    }
}

// Begins a comment that extends to the end of the line.
fn begin_comment(text: &mut String, form: CallsForm) -> Result<(), AllocError>
    ensures { OnOk result (string_bytes text.new ≡ string_bytes text.old ++ comment_start form) }
{
    match form {
        CallsForm::Trace => text.push_str("# "),
        CallsForm::Rows => text.push_str("// "),
    }
}

// Appends the line or the row that describes the machine.
fn push_opening(
    text: &mut String,
    form: CallsForm,
    frame: Frame,
    auxiliaries: u8,
) -> Result<(), AllocError>
    ensures { OnOk result (form ≡ Trace → string_bytes text.new ≡ string_bytes text.old ++ platform_line frame auxiliaries) }
{
    match form {
        CallsForm::Trace => push_platform(text, frame, auxiliaries),
        CallsForm::Rows => push_platform_row(text, frame, auxiliaries),
    }
}

// Appends an action with its answer. A call is refused if there is a refusal.
fn push_in_form(
    text: &mut String,
    form: CallsForm,
    action: &HostAction,
    refusal: Option<Rmi>,
) -> Result<(), AllocError>
    ensures { OnOk result (form ≡ Trace → string_bytes text.new ≡ string_bytes text.old ++ action_line action.now refusal) }
{
    match form {
        CallsForm::Trace => push_action(text, action, refusal),
        CallsForm::Rows => push_action_rows(text, action, refusal),
    }
}

// Appends actions with their answers. The calls among them are refused if there is a refusal.
fn push_actions(
    text: &mut String,
    form: CallsForm,
    actions: &[HostAction],
    refusal: Option<Rmi>,
) -> Result<(), AllocError>
    ensures { OnOk result (form ≡ Trace → string_bytes text.new ≡ string_bytes text.old ++ flat_map (λ action. action_line action refusal) actions.now) }
{
    for action in actions {
        push_in_form(text, form, action, refusal)?;
    }
    Ok(())
}

// Appends the actions for the event that the host has just recorded. `runs` has the run pages for RMI_REC_ENTER, with
// the running REC that uses each.
fn push_recorded(
    text: &mut String,
    form: CallsForm,
    frame: Frame,
    runs: &mut RunPages,
    host: &Host<BuddyArena>,
    event: &Event,
) -> Result<(), AllocError>
    requires { event.now.build < host.now.limits.builds }
    ensures { OnOk result (form ≡ Trace → AppendsCallsOfEvent frame runs.old runs.new host.now event.now (string_bytes text.old) (string_bytes text.new)) }
{
    if is_beside_ram(host, event) {
        begin_comment(text, form)?;
        return text.push_str(BESIDE_RAM);
    }
    let subject = host.ledger().place(event.build, &event.act);
    let run = runs.page_for(subject.rec, &event.act);
    let actions = actions_of(frame, subject, run, &event.act);
    push_actions(text, form, actions.as_slice(), None)
}

/// A text under construction that lists the RMM calls of a plan's run. `runs` has the run pages for RMI_REC_ENTER, with
/// the running REC that uses each.
#[derive(Drop)]
struct CallsText {
    text: String,
    form: CallsForm,
    frame: Frame,
    runs: RunPages,
}

impl CallsText {
    // Appends to `below` the call of a command that the RMM has refused, or a comment in its place.
    fn push_refused(
        &self,
        below: &mut String,
        host: &Host<BuddyArena>,
        build: BuildId,
        cmd: &Cmd,
        rmi: Rmi,
    ) -> Result<(), AllocError> {
        match refused_calls(self.frame, host, build, cmd, rmi) {
            Some(actions) => push_actions(below, self.form, actions.as_slice(), Some(rmi)),
            None => {
                begin_comment(below, self.form)?;
                below.push_str(OTHERWISE)
            }
        }
    }

    // Appends to `below` the call of a step, if the RMM has refused it.
    fn push_if_refused(
        &self,
        below: &mut String,
        host: &Host<BuddyArena>,
        build: BuildId,
        step: &PlanStep,
        answer: &TurnAnswer,
    ) -> Result<(), AllocError>
        ensures { OnOk result (is_refusal_of_rmm answer.now ≡ false → string_bytes below.new ≡ string_bytes below.old) }
    {
        let TurnAnswer::Refused(Refusal::Rmi(rmi)) = answer else {
            return Ok(());
        };
        match step.asked() {
            Step::Ask(cmd) => self.push_refused(below, host, build, &cmd, *rmi),
            _ => Ok(()),
        }
    }

    // Appends to `below` what is below the line of a turn: the actions for its event, or the call that the RMM refused.
    // The history had `before` events.
    fn push_below(
        &mut self,
        below: &mut String,
        host: &Host<BuddyArena>,
        before: usize,
        build: BuildId,
        step: &PlanStep,
        answer: &TurnAnswer,
    ) -> Result<(), AllocError>
        ensures event { OnOk result (self.old.form ≡ Trace → IfSome (slice_get host.now.history before)
            (λ event. AppendsCallsOfEvent self.old.frame self.old.runs self.new.runs host.now event (string_bytes below.old) (string_bytes below.new))) }
        ensures below { OnOk result (length host.now.history ≤ before → is_refusal_of_rmm answer.now ≡ false → string_bytes below.new ≡ string_bytes below.old) }
        ensures pages { length host.now.history ≤ before → self.new.runs ≡ self.old.runs }
        ensures text { self.new.text ≡ self.old.text }
        ensures form { self.new.form ≡ self.old.form }
        ensures frame { self.new.frame ≡ self.old.frame }
    {
        match host.history().get(before) {
            Some(event) => push_recorded(below, self.form, self.frame, &mut self.runs, host, event),
            None => self.push_if_refused(below, host, build, step, answer),
        }
    }

    // Appends the line of a turn, and below it the actions for its event or the call that the RMM refused. The history
    // had `before` events.
    fn push_answered(
        &mut self,
        alloc: Global,
        host: &Host<BuddyArena>,
        before: usize,
        build: BuildId,
        step: &PlanStep,
        answer: TurnAnswer,
    ) -> Result<(), AllocError>
        ensures turn { OnOk result (AppendsTurnAndCalls self.old.form self.old.frame self.old.runs self.new.runs before host.now
            (record { build = build; told = Some (step.now, answer) }) (string_bytes self.old.text) (string_bytes self.new.text)) }
        ensures form { self.new.form ≡ self.old.form }
        ensures frame { self.new.frame ≡ self.old.frame }
    {
        push_turn(&mut self.text, build, step, answer)?;
        let mut below = String::new(alloc);
        self.push_below(&mut below, host, before, build, step, &answer)?;
        self.text.push_str(below.as_str())
    }

    // Performs one turn of a build, and appends its line and its actions.
    fn push_turn(
        &mut self,
        alloc: Global,
        host: &mut Host<BuddyArena>,
        plan: &Plan,
        places: &mut [PlanCursor; 8],
        build: BuildId,
    ) -> Result<(), AllocError>
        requires { build < vec_len plan.now.builds }
        ensures turn { OnOk result (AppendsCallsOfTurn self.old.form self.old.frame (plan_view plan.now) self.old.runs self.new.runs
            (record { host = host.old; places = places.old }) build (record { host = host.new; places = places.new })
            (string_bytes self.old.text) (string_bytes self.new.text)) }
        ensures form { self.new.form ≡ self.old.form }
        ensures frame { self.new.frame ≡ self.old.frame }
    {
        let before = host.history().len();
        begin_comment(&mut self.text, self.form)?;
        match take_turn(host, plan, places, build.number() as usize) {
            Some((step, answer)) => self.push_answered(alloc, host, before, build, step, answer),
            None => push_idle(&mut self.text, build),
        }
    }
}

// The text of the calls of the plan's run on a fresh host, whose granule 0 is at the address `base`.
fn calls_text(
    alloc: Global,
    plan: &Plan,
    form: CallsForm,
    base: BaseAddress,
) -> Result<String, AllocError>
    ensures { IfOk result (λ text. IsCallsText form base (plan_view plan.now) (string_bytes text)) }
{
    let frame = Frame::new(base.address(), plan.pages);
    let mut host = boot::<BuddyArena>(alloc, plan)?;
    let mut text = String::new(alloc);
    push_opening(&mut text, form, frame, plan.aux)?;
    let mut calls = CallsText {
        text,
        form,
        frame,
        runs: RunPages::new(),
    };
    let mut places = [PlanCursor::first(); 8];
    for build in &plan.order {
        calls.push_turn(alloc, &mut host, plan, &mut places, *build)?;
    }
    Ok(calls.text)
}

/// A kind of text for a plan: the calls that the plan's run makes to an RMM. The text has a description of the machine,
/// and each turn of the run as a comment. Below a turn are the calls for its event, or the call that the RMM refused.
/// The text is missing only if allocation failed.
#[derive(Drop)]
pub struct Calls {
    /// The address of granule 0, in bytes.
    pub base: BaseAddress,
    pub form: CallsForm,
}

impl ViewText for Calls {
    ghost is_text = { λ asked _. IsCallsText asked.form asked.base };

    ghost is_without = { λ asked. IsWithoutText None };

    fn text_of(&self, alloc: Global, plan: Plan, _source: &[u8]) -> Result<Vec<u8>, Fault> {
        Ok(calls_text(alloc, &plan, self.form, self.base)?.into_bytes())
    }
}
