//! Functions that write the answer to an RMI call in a trace.
ghost use Rattle.std.specs.Prelude.{◌≡◌, ◌+◌, ◌<◌, ◌≤◌, length, Some};
ghost use Rattle.rmm_model.specs.Allowed.{condition_number};
ghost use Rattle.rmm_answers.specs.Call as calls;
ghost use Rattle.rmm_answers.specs.Replies.{no_answer};
ghost use Rattle.rmm_answers.specs.Rounds.{registers_in, asked};

use crate::exit::put_exit;
use crate::outputs::{command_place, put_outputs, put_registers, put_status};
use crate::put::{put, put_value};
use crate::reply::TraceReply;
use crate::rounds::LastCall;
use page_arena::PageStore;
use rmi_abi::{Registers, decode_call};
use rmm::Rmm;
use rmm_checks::{EvaluatedChecks, checks_of};
use rmm_model::Condition;
use rmm_trace::place::{AFTER, FIRST_CHECK, RMI_REC_ENTER};
use rmm_trace::{Atom, RUNS_ON, Sentence, TraceWord, call_registers};

// The registers with the given values of X0 to X6.
fn registers(x: [u64; 7]) -> Registers
    ensures { result ≡ registers_in (Some x) }
{
    Registers {
        x0: x[0],
        x1: x[1],
        x2: x[2],
        x3: x[3],
        x4: x[4],
        x5: x[5],
        x6: x[6],
    }
}

// The registers of a call in one repetition; zeros if the words encode no call.
#[tactic(auto, unfolding(crate::specs::Rounds::asked))]
pub(crate) fn registers_at(call: &[TraceWord], round: u64) -> Registers
    ensures { result ≡ asked call.now round }
{
    match call_registers(call, round) {
        Some(x) => registers(x),
        None => registers([0, 0, 0, 0, 0, 0, 0]),
    }
}

// Whether X0 reports a refused call, that is, it is neither RMI_SUCCESS nor the value for a REC that runs on.
pub(crate) fn is_refused(x0: u64) -> bool
    ensures { result ≡ calls.is_refused x0 }
{
    x0 != 0 && x0 != RUNS_ON
}

// The evaluated checks of a call on a machine; `None` if the registers encode no call.
#[tactic(auto, unfolding(crate::specs::Call::checks_at))]
pub(crate) fn checks_at<S: PageStore>(rmm: &Rmm<S>, asked: Registers) -> Option<EvaluatedChecks>
    ensures { result ≡ calls.checks_at asked rmm.now }
{
    Some(checks_of(rmm.granules(), decode_call(asked)?))
}

// The failure condition by which a machine refuses a call, if any.
#[tactic(auto, unfolding(crate::specs::Call::deciding))]
fn deciding<S: PageStore>(rmm: &Rmm<S>, asked: Registers) -> Option<Condition>
    ensures { result ≡ calls.deciding asked rmm.now }
{
    let call = decode_call(asked)?;
    let refusal = checks_of(rmm.granules(), call).deciding()?;
    Some(refusal.condition)
}

// The place of a check's name in the table of names.
fn check_place(condition: Condition) -> usize
    ensures { result ≡ 179 + condition_number condition }
{
    FIRST_CHECK + condition as usize
}

// Appends the name of the check by which a call is refused, if it is refused.
#[tactic(auto, unfolding(crate::specs::Call::put_check))]
fn put_check<S: PageStore>(answer: &mut Sentence, rmm: &Rmm<S>, asked: Registers, x0: u64)
    requires { length answer.old.items < 64 }
    ensures items { answer.new.items ≡ calls.put_check asked rmm.now x0 answer.old.items }
    ensures len { length answer.new.items ≤ length answer.old.items + 1 }
{
    if !is_refused(x0) {
        return;
    }
    if let Some(condition) = deciding(rmm, asked) {
        put(answer, Atom::Name(check_place(condition)));
    }
}

// Appends the number of earlier repetitions, if there were any and the last repetition did not return RMI_SUCCESS.
#[tactic(auto, unfolding(crate::specs::Call::put_after))]
fn put_after(answer: &mut Sentence, x0: u64, round: u64)
    requires { length answer.old.items ≤ 62 }
    ensures { answer.new.items ≡ calls.put_after x0 round answer.old.items }
{
    if x0 != 0 && round != 0 {
        put_value(answer, AFTER, Atom::Decimal(round));
    }
}

// The number of the last repetition, if it is refused.
fn refused_round(last: &LastCall) -> Option<u64>
    ensures { result ≡ calls.refused_round last.now }
{
    if is_refused(last.after.x0) {
        Some(last.round)
    } else {
        None
    }
}

// Appends the exit of a REC, if the call is an RMI_REC_ENTER that returned RMI_SUCCESS.
#[tactic(auto, unfolding(crate::specs::Call::put_exit_of))]
fn put_exit_of<S: PageStore>(answer: &mut Sentence, rmm: &Rmm<S>, place: usize, x0: u64, run: u64)
    requires { length answer.old.items ≤ 51 }
    ensures items { answer.new.items ≡ calls.put_exit_of place x0 run rmm.now answer.old.items }
    ensures len { length answer.new.items ≤ length answer.old.items + 13 }
{
    if place == RMI_REC_ENTER && x0 == 0 {
        put_exit(answer, rmm, run);
    }
}

// Answers a call by name with the result of its last repetition, in which outputs are named.
#[tactic(auto, unfolding(crate::specs::Call::call_reply))]
pub(crate) fn answer_call<S: PageStore>(
    reply: &mut TraceReply,
    rmm: &Rmm<S>,
    place: usize,
    asked: Registers,
    last: &LastCall,
)
    requires { reply.old ≡ no_answer }
    ensures { reply.new ≡ calls.call_reply place asked last.now rmm.now }
{
    let x0 = last.after.x0;
    put_status(&mut reply.words, x0);
    put_outputs(&mut reply.words, place, &last.after);
    put_exit_of(&mut reply.words, rmm, place, x0, asked.x2);
    put_check(&mut reply.words, rmm, asked, x0);
    put_after(&mut reply.words, x0, last.round);
    reply.refused = refused_round(last);
}

// Answers a raw call with X0 and its output registers.
#[tactic(auto, unfolding(crate::specs::Call::raw_reply))]
pub(crate) fn answer_raw(reply: &mut TraceReply, asked: Registers, last: &LastCall)
    requires { reply.old ≡ no_answer }
    ensures { reply.new ≡ calls.raw_reply asked last.now }
{
    put_registers(&mut reply.words, command_place(asked.x0), &last.after);
    reply.refused = refused_round(last);
}
