//! The command RMI_REC_ENTER, and the host interrupt that ends the run of a REC.
ghost use Rattle.std.specs.Prelude.{◌≡◌, ◌<◌, ◌≤◌, ◌==◌, ◌&&◌, false, not, IfOk};
ghost use Rattle.rmi_abi.specs.RecRun.{only_reason};
ghost use Rattle.rmm_model.specs.declared.rec.LastExit.TheVariants.{RipasChange, HostCall, EmulatableAbort};
ghost use Rattle.rmm_model.specs.Guest as guests;
ghost use Rattle.rmm_model.specs.Check.{outcome, first_failing, refusal_in};
ghost use Rattle.rmm_model.specs.Machine.{granule_count, granule_at, number_of};
ghost use Rattle.rmm_model.specs.Realm.{IsServed};
ghost use Rattle.rmm_model.specs.Step as steps;
ghost use Rattle.rmm_model.specs.Command.RecEnter as command;
ghost use Rattle.rmm.specs.CheckedOperands.{IsEntry};

use crate::access::{read, write};
use crate::guest::{first_step, owner_realm, past_step, push_result, rec_in, rec_named};
use crate::host::host_granule;
use crate::operand::host_page;
use crate::realm::error_realm;
use crate::rec::{error_rec, rec_of};
use crate::run_page::{copy_gic, copy_gprs, is_gic_wrong, write_run, write_run_reason};
use crate::step::{call_outcome, exit_edit, fetched, tried};
use granule_addr::Gran;
use page_arena::PageStore;
use rmi_abi::{EnterFlags, ExitReason, RecExit, SmcResult, Word, entry_gpr};
use rmm_granules::{
    Granules, OperandConditions, RealmEdit, RecEdit, is_no_mmio, is_pending, state_of,
};
use rmm_model::{
    Condition, FailedCondition, GuestStep, LastExit, PsciRequest, RipasRequest, RmmRealm,
    RmmRealmState, RmmRec, StepOutcome, StepResult,
};

// A REC that can be entered, and its run page.
#[derive(Clone, Copy)]
pub struct Entering {
    pub rec: Gran,
    pub run: Gran,
}

// ---- exits

// Ends the run of a REC with an exit.
#[inline(always)]
#[tactic(auto, unfolding(rmm_model::specs::Command::RecEnter::after_exit))]
pub fn leave<S: PageStore>(granules: &mut Granules<S>, g: Gran, exit: &RecExit, last: LastExit)
    requires { g < granule_count granules.old }
    ensures machine { granules.new ≡ command.after_exit granules.old g exit.now last }
    ensures count { granule_count granules.new ≡ granule_count granules.old }
{
    let run = rec_in(granules, g).run;
    granules.edit_rec(g, RecEdit::Leave(last));
    write_run(granules, g, run, exit);
}

// Ends the run of a REC with an IRQ exit, as after an interrupt of the host.
#[inline(always)]
#[tactic(auto, unfolding(rmm_model::specs::Command::RecEnter::after_exit))]
pub fn leave_by_irq<S: PageStore>(granules: &mut Granules<S>, g: Gran)
    requires { g < granule_count granules.old }
    ensures machine { granules.new
        ≡ command.after_exit granules.old g (only_reason ExitReason.Irq) LastExit.Other }
    ensures count { granule_count granules.new ≡ granule_count granules.old }
{
    let run = rec_in(granules, g).run;
    granules.edit_rec(g, RecEdit::Leave(LastExit::Other));
    write_run_reason(granules, g, run, ExitReason::Irq);
}

// ---- entries

// The result that a guest gets for its request to change RIPAS.
fn ripas_result(asked: &RipasRequest, flags: u64) -> StepResult
    ensures { result ≡ command.ripas_result asked.now flags }
{
    if EnterFlags::rejects_ripas(flags) && asked.ripas.is_ram() && asked.base != asked.top {
        StepResult::Rejected(asked.base)
    } else {
        StepResult::Accepted(asked.base)
    }
}

// The result of an access that the host emulated.
fn emulated(step: GuestStep, gpr0: u64) -> StepResult
    ensures { result ≡ command.emulated step gpr0 }
{
    match step {
        GuestStep::Read { size, .. } => StepResult::Read(size.low(gpr0)),
        _ => StepResult::Done,
    }
}

// Ends the first step of a guest with a result.
#[inline(always)]
fn end_step<S: PageStore>(granules: &mut Granules<S>, g: Gran, r: &StepResult)
    requires { g < granule_count granules.old }
    ensures machine { granules.new ≡ command.with_step_ended granules.old g r.now }
    ensures count { granule_count granules.new ≡ granule_count granules.old }
{
    past_step(granules, g);
    push_result(granules, g, r);
}

// Gives the guest the result of its PSCI request, if the request is complete.
fn push_psci<S: PageStore>(granules: &mut Granules<S>, g: Gran, request: PsciRequest)
    requires { g < granule_count granules.old }
    ensures machine { granules.new ≡ command.with_psci_result granules.old g request }
    ensures count { granule_count granules.new ≡ granule_count granules.old }
{
    if let PsciRequest::Complete(value) = request {
        granules.edit_rec(g, RecEdit::Psci(PsciRequest::None));
        push_result(granules, g, &StepResult::Psci(value));
    }
}

// Gives the guest the result of its request to change RIPAS, with the address that the change reached.
fn push_ripas<S: PageStore>(granules: &mut Granules<S>, g: Gran, flags: u64)
    requires { g < granule_count granules.old }
    ensures machine { granules.new ≡ command.with_host_answer granules.old g RipasChange 0 flags }
    ensures count { granule_count granules.new ≡ granule_count granules.old }
{
    let result = ripas_result(&rec_in(granules, g).ripas, flags);
    granules.edit_rec(g, RecEdit::Ripas(RipasRequest::NONE));
    push_result(granules, g, &result);
}

// Gives the guest the host's answer to a host call.
fn push_return<S: PageStore>(granules: &mut Granules<S>, g: Gran, run: Gran)
    requires inside { g < granule_count granules.old }
    requires run { run < granule_count granules.old }
    ensures machine { granules.new ≡ command.with_host_answer granules.old g HostCall run 0 }
    ensures count { granule_count granules.new ≡ granule_count granules.old }
{
    let value = entry_gpr(granules.page(run), 0);
    copy_gprs(granules, g, run);
    push_result(granules, g, &StepResult::Returned(value));
}

// Gives the guest the host's answer to an emulatable abort, if the host has one.
fn push_abort<S: PageStore>(granules: &mut Granules<S>, g: Gran, run: Gran, flags: u64)
    requires inside { g < granule_count granules.old }
    requires run { run < granule_count granules.old }
    ensures machine { granules.new ≡ command.with_host_answer granules.old g EmulatableAbort run flags }
    ensures count { granule_count granules.new ≡ granule_count granules.old }
{
    if EnterFlags::injects_sea(flags) {
        end_step(granules, g, &StepResult::Sea);
    } else if EnterFlags::emulates_mmio(flags) {
        let value = entry_gpr(granules.page(run), 0);
        let result = emulated(first_step(granules, g), value);
        end_step(granules, g, &result);
    }
}

// Gives the guest the host's answer to its last exit.
fn answer_exit<S: PageStore>(
    granules: &mut Granules<S>,
    g: Gran,
    last: LastExit,
    run: Gran,
    flags: u64,
)
    requires inside { g < granule_count granules.old }
    requires run { run < granule_count granules.old }
    ensures machine { granules.new ≡ command.with_host_answer granules.old g last run flags }
    ensures count { granule_count granules.new ≡ granule_count granules.old }
{
    match last {
        LastExit::RipasChange => push_ripas(granules, g, flags),
        LastExit::HostCall => push_return(granules, g, run),
        LastExit::SystemRegister => push_result(granules, g, &StepResult::Done),
        LastExit::UnprotectedAbort => {
            if EnterFlags::injects_sea(flags) {
                end_step(granules, g, &StepResult::Sea);
            }
        }
        LastExit::EmulatableAbort => push_abort(granules, g, run, flags),
        LastExit::Other => {
            let request = rec_in(granules, g).psci;
            push_psci(granules, g, request);
        }
    }
}

// Enters a REC, without performing its guest's steps.
#[tactic(auto, unfolding(rmm_model::specs::Command::RecEnter::after_entry))]
fn enter<S: PageStore>(granules: &mut Granules<S>, g: Gran, address: u64, run: Gran, flags: u64)
    requires inside { g < granule_count granules.old }
    requires run { run < granule_count granules.old }
    requires number { run ≡ number_of granules.old address }
    ensures machine { granules.new ≡ command.after_entry granules.old g address flags }
    ensures count { granule_count granules.new ≡ granule_count granules.old }
{
    let last = rec_in(granules, g).exit;
    granules.edit_rec(g, RecEdit::Enter(address));
    copy_gic(granules, g, run);
    answer_exit(granules, g, last, run, flags);
}

// ---- steps

// Turns off the realm that owns a REC.
fn system_off<S: PageStore>(granules: &mut Granules<S>, g: Gran)
    requires { g < granule_count granules.old }
    ensures machine { granules.new ≡ command.with_system_off granules.old (granule_at granules.old g).owner }
    ensures count { granule_count granules.new ≡ granule_count granules.old }
{
    if let Some(rd) = granules.owner(g) {
        granules.edit_realm(rd, RealmEdit::SwitchOff);
    }
}

// Performs a guest's call, and updates its REC if the call causes an exit.
fn call<S: PageStore>(
    granules: &mut Granules<S>,
    realm: &RmmRealm,
    g: Gran,
    flags: u64,
    step: GuestStep,
) -> StepOutcome
    requires inside { g < granule_count granules.old }
    requires width { realm.now.s2sz ≤ 48 }
    ensures outcome { result
        ≡ steps.call_outcome granules.old.settings realm.now (guests.rec_in granules.old g) flags step }
    ensures machine { granules.new ≡ command.with_exit_of granules.old g step (steps.is_exit result) }
    ensures count { granule_count granules.new ≡ granule_count granules.old }
{
    let rec = rec_in(granules, g);
    let outcome = call_outcome(granules.settings(), realm, &rec, flags, step);
    if let StepOutcome::Exit(_, _) = outcome {
        granules.edit_rec(g, exit_edit(step));
    }
    outcome
}

// Performs a guest's PSCI call that turns off the guest's realm.
#[inline(always)]
fn turn_off<S: PageStore>(
    granules: &mut Granules<S>,
    realm: &RmmRealm,
    g: Gran,
    flags: u64,
    step: GuestStep,
) -> StepOutcome
    requires inside { g < granule_count granules.old }
    requires width { realm.now.s2sz ≤ 48 }
    ensures outcome { result
        ≡ steps.call_outcome granules.old.settings realm.now (guests.rec_in granules.old g) flags step }
    ensures machine { granules.new
        ≡ command.with_system_off granules.old (granule_at granules.old g).owner }
    ensures count { granule_count granules.new ≡ granule_count granules.old }
{
    let rec = rec_in(granules, g);
    let outcome = call_outcome(granules.settings(), realm, &rec, flags, step);
    system_off(granules, g);
    outcome
}

// Performs a step of a guest.
#[tactic(auto, unfolding(rmm_model::specs::Command::RecEnter::step_outcome, rmm_model::specs::Command::RecEnter::after_step))]
fn perform<S: PageStore>(
    granules: &mut Granules<S>,
    realm: &RmmRealm,
    g: Gran,
    flags: u64,
    step: GuestStep,
) -> StepOutcome
    requires inside { g < granule_count granules.old }
    requires served { IsServed (granule_count granules.old) realm.now }
    ensures outcome { result ≡ command.step_outcome granules.old realm.now g flags step }
    ensures machine { granules.new ≡ command.after_step granules.old realm.now g step result }
    ensures count { granule_count granules.new ≡ granule_count granules.old }
{
    match step {
        GuestStep::Write { ipa, value, size } => write(granules, realm, ipa, size, value),
        GuestStep::Read { ipa, size } => read(granules, realm, ipa, size),
        GuestStep::Fetch { ipa } => tried(fetched(granules, realm, ipa)),
        GuestStep::SystemOff => turn_off(granules, realm, g, flags, step),
        GuestStep::SystemReset => turn_off(granules, realm, g, flags, step),
        _ => call(granules, realm, g, flags, step),
    }
}

// Whether a guest retries a step that caused an exit.
fn is_tried_again(reason: ExitReason, last: LastExit) -> bool
    ensures { result ≡ (command.is_sync reason && not (command.is_done last)) }
{
    matches!(reason, ExitReason::Sync) && !matches!(last, LastExit::SystemRegister)
}

// Moves the guest past a step, unless the guest retries the step.
fn pass_step<S: PageStore>(granules: &mut Granules<S>, g: Gran, outcome: StepOutcome)
    requires { g < granule_count granules.old }
    ensures machine { granules.new ≡ command.with_step_passed granules.old g outcome }
    ensures count { granule_count granules.new ≡ granule_count granules.old }
{
    match outcome {
        StepOutcome::Result(r) => end_step(granules, g, &r),
        StepOutcome::Exit(exit, last) => {
            if !is_tried_again(exit.reason, last) {
                past_step(granules, g);
            }
        }
        StepOutcome::Spin => past_step(granules, g),
    }
}

// The outcome if no step can be performed: an IRQ exit, as after a timer interrupt of the host.
fn no_step() -> StepOutcome
    ensures { result ≡ command.no_step }
{
    StepOutcome::Exit(RecExit::only(ExitReason::Irq), LastExit::Other)
}

// Whether a guest has no step to perform.
fn is_idle<S: PageStore>(granules: &Granules<S>, g: Gran) -> bool
    requires { g < granule_count granules.now }
    ensures { result ≡ (guests.rec_in granules.now g).step_count == 0 }
{
    rec_in(granules, g).step_count == 0
}

// Performs the first step of a guest that has at least one.
#[tactic(auto, unfolding(rmm_model::specs::Command::RecEnter::first_step_outcome, rmm_model::specs::Command::RecEnter::after_first_step))]
fn perform_first<S: PageStore>(granules: &mut Granules<S>, g: Gran, flags: u64) -> StepOutcome
    requires inside { g < granule_count granules.old }
    requires busy { (guests.rec_in granules.old g).step_count == 0 ≡ false }
    ensures outcome { result ≡ command.first_step_outcome granules.old g flags }
    ensures machine { granules.new ≡ command.after_first_step granules.old g flags }
    ensures count { granule_count granules.new ≡ granule_count granules.old }
{
    match owner_realm(granules, g) {
        Some(realm) => {
            let step = first_step(granules, g);
            let outcome = perform(granules, &realm, g, flags, step);
            pass_step(granules, g, outcome);
            outcome
        }
        None => no_step(),
    }
}

// Performs up to 16 steps of a guest, and stops after one that causes an exit or spins. Returns whether the REC left.
fn perform_steps<S: PageStore>(granules: &mut Granules<S>, g: Gran, flags: u64) -> bool
    requires { g < granule_count granules.old }
    ensures { (result, granules.new) ≡ command.after_steps granules.old g flags 16 }
{
    for i in 0..16u8 {
        if is_idle(granules, g) {
            break;
        }
        match perform_first(granules, g, flags) {
            StepOutcome::Result(_) => {}
            StepOutcome::Exit(exit, last) => {
                leave(granules, g, &exit, last);
                return true;
            }
            StepOutcome::Spin => return false,
        }
    }
    leave_by_irq(granules, g);
    true
}

// Runs a guest. If the guest has no step to perform, its REC leaves at once. Returns whether the REC left.
fn run_guest<S: PageStore>(granules: &mut Granules<S>, g: Gran, flags: u64) -> bool
    requires { g < granule_count granules.old }
    ensures { (result, granules.new) ≡ command.after_steps granules.old g flags 16 }
{
    if is_idle(granules, g) {
        leave_by_irq(granules, g);
        true
    } else {
        perform_steps(granules, g, flags)
    }
}

// ---- the command

// Checks that a realm is ACTIVE, its REC READY and runnable, the run page's MMIO flag and GIC fields valid, and no PSCI
// request pending.
#[tactic(auto, unfolding(rmm_model::specs::Command::RecEnter::enter_checks))]
fn check_enter(
    state: RmmRealmState,
    rec: &RmmRec,
    flags: u64,
    is_wrong: bool,
) -> Result<(), FailedCondition>
    ensures { refusal_in result ≡ first_failing (command.enter_checks state rec.now flags is_wrong) }
{
    if matches!(state, RmmRealmState::New) {
        return Err(error_realm(Condition::RealmNew));
    }
    if matches!(state, RmmRealmState::SystemOff) {
        return Err(FailedCondition {
            condition: Condition::SystemOff,
            answer: SmcResult::only(Word::ErrorRealm(1)),
        });
    }
    if rec.is_running() {
        return Err(error_rec(Condition::RecState));
    }
    if !rec.is_runnable {
        return Err(error_rec(Condition::RecRunnable));
    }
    if is_no_mmio(rec, flags) {
        return Err(error_rec(Condition::RecMmio));
    }
    if is_wrong {
        return Err(error_rec(Condition::RecGicv3));
    }
    if is_pending(rec.psci) {
        return Err(error_rec(Condition::RecPsci));
    }
    Ok(())
}

// Returns the REC that RMI_REC_ENTER enters, with its run page, or the failed condition.
#[tactic(auto, unfolding(rmm_model::specs::Command::RecEnter::rec_enter))]
fn find_entry<S: PageStore>(
    granules: &Granules<S>,
    rec: u64,
    address: u64,
) -> Result<Entering, FailedCondition>
    ensures refusal { refusal_in result ≡ first_failing (command.rec_enter rec address granules.now).checks }
    ensures found { IfOk result (IsEntry granules.now rec address) }
{
    let run = host_page(granules, address, OperandConditions::RUN)?;
    let found = rec_of(granules, rec, OperandConditions::REC)?;
    let state = state_of(owner_realm(granules, found.granule));
    let flags = EnterFlags::read(granules.page(run));
    check_enter(state, &found.rec, flags, is_gic_wrong(granules, run))?;
    Ok(Entering {
        rec: found.granule,
        run,
    })
}

// Performs RMI_REC_ENTER.
#[inline(never)]
#[tactic(auto, unfolding(rmm_model::specs::Command::RecEnter::rec_enter))]
pub fn rec_enter<S: PageStore>(granules: &mut Granules<S>, rec: u64, address: u64) -> SmcResult
    ensures answer { result ≡ (outcome (command.rec_enter rec address granules.old) granules.old).0 }
    ensures machine { granules.new ≡ (outcome (command.rec_enter rec address granules.old) granules.old).1 }
{
    match find_entry(granules, rec, address) {
        Ok(found) => {
            let flags = EnterFlags::read(granules.page(found.run));
            enter(granules, found.rec, address, found.run, flags);
            if run_guest(granules, found.rec, flags) {
                SmcResult::only(Word::Success)
            } else {
                SmcResult::only(Word::Running)
            }
        }
        Err(refusal) => refusal.into_answer(),
    }
}

// Ends the run of the REC at an address by an interrupt of the host; `None` if no REC runs there.
#[tactic(auto, unfolding(rmm_model::specs::Command::RecEnter::interrupted))]
pub fn interrupt<S: PageStore>(granules: &mut Granules<S>, address: u64) -> Option<Word>
    ensures { (result, granules.new) ≡ command.interrupted granules.old address }
{
    let g = rec_named(granules, address)?;
    let rec = rec_in(granules, g);
    if !rec.is_running() {
        return None;
    }
    let word = if host_granule(granules, rec.run).is_some() {
        Word::Success
    } else {
        Word::ErrorInput
    };
    leave_by_irq(granules, g);
    Some(word)
}
