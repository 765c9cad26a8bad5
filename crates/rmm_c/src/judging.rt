//! Functions that find out why a call is refused, and whether an RMM may return a result word.
ghost use Rattle.std.specs.Prelude.{◌≡◌};
ghost use Rattle.std.specs.List.{list_any};
ghost use Rattle.rmi_abi.specs.Call.{call_in};
ghost use Rattle.rmm_model.specs.Allowed.{or_success};
ghost use Rattle.rmm_checks.specs.Evaluated.{failed_words, is_failure};
ghost use Rattle.rmm_c.specs.Judging as judging;

use crate::{PlainRmm, RmmHandle, SmcRegisters};
use rmi_abi::{Registers, decode_call};
use rmm_checks::{CheckOutcome, EvaluatedCheck, checks_of};
use rmm_model::FailedCondition;
use std::alloc::Global;

// The value of X0 after a call of a function that is not a command. SMCCC 1.2, NOT_SUPPORTED.
const NOT_SUPPORTED: u64 = 0xFFFF_FFFF_FFFF_FFFF;

// The number of the check by which a call is refused, or 0 if it is not refused.
fn check_number(refusal: Option<FailedCondition>) -> u64
    ensures { result ≡ judging.check_number refusal }
{
    match refusal {
        Some(refusal) => refusal.condition as u64 + 1,
        None => 0,
    }
}

// The number of the check that decides a call.
fn deciding_check(plain: &PlainRmm, registers: Registers) -> u64
    ensures { result ≡ judging.check_of_call (call_in registers) plain.now }
{
    match decode_call(registers) {
        Some(call) => check_number(checks_of(plain.rmm.granules(), call).deciding()),
        None => 0,
    }
}

// Whether a check was made and failed, and its answer has this X0.
fn refuses_with(outcome: &CheckOutcome, x0: u64) -> bool
    ensures { result ≡ judging.refuses_with x0 outcome.now }
{
    match outcome {
        CheckOutcome::Failed(answer) => x0 == answer.word.number(),
        _ => false,
    }
}

// Whether one of the checks was made and failed.
fn has_failed(rows: &[EvaluatedCheck]) -> bool
    ensures { result ≡ list_any (λ row. is_failure row.outcome) rows.now }
{
    rows.iter().any(|row| row.outcome.is_failure())
}

// Whether one of the checks was made and failed, and its answer has this X0.
fn has_word(rows: &[EvaluatedCheck], x0: u64) -> bool
    ensures { result ≡ list_any (λ row. judging.refuses_with x0 row.outcome) rows.now }
{
    rows.iter().any(|row| refuses_with(&row.outcome, x0))
}

// Whether evaluated checks allow this value of X0.
#[tactic(auto, using(crate::proofs::Allowed::failed_any, crate::proofs::Allowed::passed_any))]
fn allows(rows: &[EvaluatedCheck], x0: u64) -> bool
    ensures { result ≡ judging.is_among_words x0 (or_success (failed_words rows.now)) }
{
    if has_failed(rows) {
        has_word(rows, x0)
    } else {
        x0 == 0
    }
}

// Whether an RMM may answer a call with this value of X0.
fn is_allowed(plain: &PlainRmm, registers: Registers, x0: u64) -> bool
    ensures { result ≡ judging.is_answer_of_call (call_in registers) x0 plain.now }
{
    match decode_call(registers) {
        Some(call) => allows(checks_of(plain.rmm.granules(), call).rows(), x0),
        None => x0 == NOT_SUPPORTED,
    }
}

/// Returns the number of the failure condition for which a handle's RMM would now refuse the call with the given
/// registers. The call is not performed.
///
/// The number is 0 if no check fails, for a function that is not a command, and on a closed handle. The numbers are
/// those of the failure conditions in `rmm_model::Condition`, from 1 on.
#[unsafe(no_mangle)]
pub extern "C" fn rmm_deciding_check(
    alloc: Global,
    handle: &mut RmmHandle,
    registers: &SmcRegisters,
) -> u64
    ensures answer { result ≡ judging.deciding_check registers.now handle.old.held.machine }
    ensures same { handle.new.held.machine ≡ handle.old.held.machine }
{
    let asked = registers.call();
    let Some(plain) = handle.take(alloc) else {
        return 0;
    };
    let check = deciding_check(&plain, asked);
    handle.give(plain);
    check
}

/// Returns whether an RMM in the handle's current state may return `x0` in X0 for the call with the given registers.
/// The call is not performed.
///
/// X0 may be the word of each check that is made and fails, and RMI_SUCCESS if none does. For a function that is not a
/// command, and on a closed handle, it is NOT_SUPPORTED alone. RMM 1.0, failure conditions and their ordering.
#[unsafe(no_mangle)]
pub extern "C" fn rmm_is_allowed(
    alloc: Global,
    handle: &mut RmmHandle,
    registers: &SmcRegisters,
    x0: u64,
) -> bool
    ensures answer { result ≡ judging.may_answer registers.now x0 handle.old.held.machine }
    ensures same { handle.new.held.machine ≡ handle.old.held.machine }
{
    let asked = registers.call();
    let Some(plain) = handle.take(alloc) else {
        return x0 == NOT_SUPPORTED;
    };
    let allowed = is_allowed(&plain, asked, x0);
    handle.give(plain);
    allowed
}
