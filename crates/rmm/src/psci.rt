//! The command RMI_PSCI_COMPLETE.
ghost use Rattle.std.specs.Prelude.{◌≡◌, ◌<◌, ◌==◌, ◌∷◌, [], true, IfOk};
ghost use Rattle.rmm_model.specs.declared.condition.Condition.TheVariants.{Alias, CallingAlign, CallingBound, CallingState};
ghost use Rattle.rmm_model.specs.Check.{check, outcome, first_failing, refusal_in, error_input};
ghost use Rattle.rmm_model.specs.Machine.{granule_count, number_of};
ghost use Rattle.rmm_model.specs.Command.Operand.{rec_at, rec_checks};
ghost use Rattle.rmm_model.specs.Guest.{rec_in};
ghost use Rattle.rmm_model.specs.Command.PsciComplete as command;
ghost use Rattle.rmm.specs.CheckedOperands.{IsCompletion};

use crate::rec::{NamedRec, rec_of};
use granule_addr::Gran;
use page_arena::PageStore;
use rmi_abi::{SmcResult, Word};
use rmm_granules::{
    Granules, OperandConditions, PSCI_SUCCESS, RecEdit, is_pending, is_same_owner, is_status,
    target_of,
};
use rmm_model::{Condition, FailedCondition, PsciRequest, error_input};

const PSCI_ALREADY_ON: u64 = 0xFFFF_FFFF_FFFF_FFFC;

// The state of a processor that is off, as AFFINITY_INFO reports it.
const PSCI_OFF: u64 = 1;

// A request that can be completed: the calling REC, the request, its target REC, and whether the target is on.
#[derive(Clone, Copy)]
pub struct Completion {
    pub calling: Gran,
    pub request: PsciRequest,
    pub target: Gran,
    pub on: bool,
}

// ---- requests

// The result of a request, from the host's status and whether the target is on.
fn psci_result(request: PsciRequest, on: bool, status: u64) -> u64
    ensures { result ≡ command.psci_result request on status }
{
    match request {
        PsciRequest::CpuOn { .. } => { if on { PSCI_ALREADY_ON } else { status } }
        _ => { if on { PSCI_SUCCESS } else { PSCI_OFF } }
    }
}

// Checks that two RECs belong to one realm, that the first has a pending request for the second, and that the status
// fits the request.
#[tactic(auto, unfolding(rmm_model::specs::Command::PsciComplete::request_checks))]
fn check_request<S: PageStore>(
    granules: &Granules<S>,
    calling: &NamedRec,
    target: &NamedRec,
    status: u64,
) -> Result<(), FailedCondition>
    requires calling { calling.now.granule < granule_count granules.now }
    requires target { target.now.granule < granule_count granules.now }
    ensures { refusal_in result
        ≡ first_failing (command.request_checks granules.now calling.now.granule calling.now.rec target.now.granule target.now.rec status) }
{
    let request = calling.rec.psci;
    if !is_pending(request) {
        return Err(error_input(Condition::Pending));
    }
    if !is_same_owner(
        granules.owner(calling.granule),
        granules.owner(target.granule),
    ) {
        return Err(error_input(Condition::Owner));
    }
    if target_of(request) != target.rec.mpidr {
        return Err(error_input(Condition::Target));
    }
    if !is_status(request, status) {
        return Err(error_input(Condition::Status));
    }
    Ok(())
}

// ---- the effect

// Makes the target of a CPU_ON runnable, at the requested entry point.
fn begin_target<S: PageStore>(granules: &mut Granules<S>, granule: Gran, request: PsciRequest)
    requires { granule < granule_count granules.old }
    ensures { granules.new
        ≡ command.with_target granules.old granule (rec_in granules.old granule) request true }
{
    if let PsciRequest::CpuOn {
        entry_point,
        context,
        ..
    } = request
    {
        granules.edit_rec(granule, RecEdit::Runnable(true));
        granules.set_word(granule, 31, entry_point);
        granules.set_word(granule, 0, context);
    }
}

// Returns the REC at `calling`, which must not be `target`, or the failed condition.
fn find_caller<S: PageStore>(
    granules: &Granules<S>,
    calling: u64,
    target: u64,
) -> Result<NamedRec, FailedCondition>
    ensures refusal { refusal_in result
        ≡ first_failing (check Alias [] (calling == target) error_input
        ∷ rec_checks CallingAlign CallingBound CallingState granules.now calling) }
    ensures number { IfOk result (λ found. found.granule ≡ number_of granules.now calling) }
    ensures inside { IfOk result (λ found. found.granule < granule_count granules.now) }
    ensures rec { IfOk result (λ found. found.rec ≡ rec_at granules.now calling) }
{
    if calling == target {
        return Err(error_input(Condition::Alias));
    }
    rec_of(granules, calling, OperandConditions::CALLING)
}

// Returns the request that RMI_PSCI_COMPLETE completes, or the failed condition.
#[tactic(auto, unfolding(rmm_model::specs::Command::PsciComplete::psci_complete))]
fn find_request<S: PageStore>(
    granules: &Granules<S>,
    calling: u64,
    target: u64,
    status: u64,
) -> Result<Completion, FailedCondition>
    ensures refusal { refusal_in result
        ≡ first_failing (command.psci_complete calling target status granules.now).checks }
    ensures found { IfOk result (IsCompletion granules.now calling target) }
{
    let caller = find_caller(granules, calling, target)?;
    let named = rec_of(granules, target, OperandConditions::TARGET)?;
    check_request(granules, &caller, &named, status)?;
    Ok(Completion {
        calling: caller.granule,
        request: caller.rec.psci,
        target: named.granule,
        on: named.rec.is_on(),
    })
}

// Performs RMI_PSCI_COMPLETE.
#[tactic(auto, unfolding(rmm_model::specs::Command::PsciComplete::psci_complete))]
pub fn psci_complete<S: PageStore>(
    granules: &mut Granules<S>,
    calling: u64,
    target: u64,
    status: u64,
) -> SmcResult
    ensures answer { result
        ≡ (outcome (command.psci_complete calling target status granules.old) granules.old).0 }
    ensures machine { granules.new
        ≡ (outcome (command.psci_complete calling target status granules.old) granules.old).1 }
{
    match find_request(granules, calling, target, status) {
        Ok(found) => {
            let on = found.on;
            let request = found.request;
            let answered = PsciRequest::Complete(psci_result(request, on, status));
            granules.edit_rec(found.calling, RecEdit::Psci(answered));
            if !on && status == PSCI_SUCCESS {
                begin_target(granules, found.target, request);
            }
            SmcResult::only(Word::Success)
        }
        Err(refusal) => refusal.into_answer(),
    }
}
