//! Functions that queue guest steps, interrupt RECs and report results, as a trace requests.
ghost use Rattle.std.specs.Prelude.{◌≡◌, ◌==◌, ◌+◌, ◌<◌, ◌≤◌, length, []};
ghost use Rattle.std.specs.List.{position_from};
ghost use Rattle.rmm_answers.specs.Guest as guests;
ghost use Rattle.rmm_answers.specs.Replies.{of_words, no_answer};

use crate::exit::put_exit;
use crate::outputs::put_status;
use crate::place::{
    ACCEPTED, DONE, FULL, IS_RUNNING, NO, NOT, NOTHING, PSCI_RESULT, QUEUED, REC_STATE, REJECTED,
    RETURNED, RSI_ERROR_INPUT, SEA,
};
use crate::put::{put, put_listed};
use crate::reply::TraceReply;
use crate::words::rest;
use page_arena::PageStore;
use rmm::Rmm;
use rmm_model::{Queued, RmmRec, StepWords};
use rmm_trace::place::{
    AFFINITY_INFO, CPU_OFF, CPU_ON, CPU_SUSPEND, FETCH, HOST_CALL, NONE, PSCI_DENIED, PSCI_SUCCESS,
    READ, SET_RIPAS, SPIN, SYSREG, SYSTEM_OFF, SYSTEM_RESET, WFE, WFI, WRITE,
};
use rmm_trace::{Atom, Sentence, TraceWord, operand};

/// The names of all kinds of guest steps, as indices into the table of names.
pub const STEPS: [usize; 15] = [
    WRITE,
    READ,
    HOST_CALL,
    SET_RIPAS,
    CPU_ON,
    AFFINITY_INFO,
    CPU_OFF,
    CPU_SUSPEND,
    SYSTEM_OFF,
    SYSTEM_RESET,
    WFI,
    WFE,
    SPIN,
    FETCH,
    SYSREG,
];

// The index of a step's name in a list of steps, if the name is there.
fn kind_in(steps: &[usize], name: usize) -> Option<usize>
    ensures { result ≡ position_from (λ step. step == name) 0 steps.now }
{
    for (kind, step) in steps.iter().enumerate() {
        if *step == name {
            return Some(kind);
        }
    }
    None
}

// The kind number of the step with this name; 15, which is no kind, if no step has the name.
#[tactic(auto, unfolding(crate::specs::Guest::step_kind))]
fn step_kind(name: usize) -> u64
    ensures { result ≡ guests.step_kind name }
{
    match kind_in(&STEPS, name) {
        Some(kind) => kind as u64,
        None => 15,
    }
}

// The fourth and last operand of a step. `destroyed` after a change of RIPAS is 1.
fn last_operand(name: usize, operands: &[TraceWord]) -> u64
    ensures { result ≡ guests.last_operand name operands.now }
{
    if name == SET_RIPAS {
        if operands.len() > 3 { 1 } else { 0 }
    } else {
        operand(operands, 3, 0)
    }
}

// The words of the step with a name and operands.
#[tactic(auto, unfolding(crate::specs::Guest::step_words))]
fn step_words(name: usize, operands: &[TraceWord]) -> StepWords
    ensures { result ≡ guests.step_words name operands.now }
{
    StepWords {
        kind: step_kind(name),
        a: operand(operands, 0, 0),
        b: operand(operands, 1, 0),
        c: operand(operands, 2, 0),
        d: last_operand(name, operands),
    }
}

// The step that the words of a question encode, if they encode one. A host call of a guest here has at most three
// registers.
fn step_in(words: &[TraceWord]) -> Option<StepWords>
    ensures { result ≡ guests.step_in words.now }
{
    let [first, operands @ ..] = words else {
        return None;
    };
    let Atom::Name(name) = first.value else {
        return None;
    };
    if operands.len() > 4 {
        return None;
    }
    Some(step_words(name, operands))
}

// Appends the outcome of queuing a guest's step.
fn put_queued(answer: &mut Sentence, queued: Queued)
    requires { answer.old.items ≡ [] }
    ensures { answer.new.items ≡ guests.queued_words queued }
{
    match queued {
        Queued::Queued => put(answer, Atom::Name(QUEUED)),
        Queued::Full => put(answer, Atom::Name(FULL)),
        Queued::NoRec => {
            put(answer, Atom::Name(NO));
            put(answer, Atom::Name(REC_STATE));
        }
    }
}

// Queues the step that a question gives a guest, and answers with the outcome.
#[tactic(auto, unfolding(crate::specs::Guest::guest_answered))]
pub(crate) fn answer_guest<S: PageStore>(
    reply: &mut TraceReply,
    rmm: &mut Rmm<S>,
    words: &[TraceWord],
)
    requires { reply.old ≡ no_answer }
    ensures { (reply.new, rmm.new) ≡ guests.guest_answered words.now rmm.old }
{
    let Some(step) = step_in(rest(words)) else {
        reply.no_command();
        return;
    };
    let queued = rmm.guest(operand(words, 0, 0), &step);
    put_queued(&mut reply.words, queued);
}

// ---- the end of a run

// The attributes of the REC at an address.
pub(crate) fn rec_at<S: PageStore>(rmm: &Rmm<S>, address: u64) -> Option<RmmRec>
    ensures { result ≡ guests.rec_named rmm.now address }
{
    rmm.state(address)?.rec()
}

// The address of the run page of the REC at an address; 0 if there is no REC.
fn run_of<S: PageStore>(rmm: &Rmm<S>, address: u64) -> u64
    ensures { result ≡ guests.run_of (guests.rec_named rmm.now address) }
{
    match rec_at(rmm, address) {
        Some(rec) => rec.run,
        None => 0,
    }
}

// Appends the result word of a REC's entry, and the exit if the word is RMI_SUCCESS.
fn put_left<S: PageStore>(answer: &mut Sentence, rmm: &Rmm<S>, x0: u64, run: u64)
    requires { answer.old.items ≡ [] }
    ensures { answer.new.items ≡ guests.left x0 run rmm.now }
{
    put_status(answer, x0);
    if x0 == 0 {
        put_exit(answer, rmm, run);
    }
}

// Interrupts the REC at an address, and answers with the result of its entry, or that the REC is not running.
#[tactic(auto, unfolding(crate::specs::Guest::interrupt_answered))]
pub(crate) fn answer_interrupt<S: PageStore>(answer: &mut Sentence, rmm: &mut Rmm<S>, address: u64)
    requires { answer.old.items ≡ [] }
    ensures { (of_words answer.new.items, rmm.new) ≡ guests.interrupt_answered address rmm.old }
{
    let run = run_of(rmm, address);
    match rmm.interrupt(address) {
        Some(word) => put_left(answer, rmm, word.number(), run),
        None => {
            put(answer, Atom::Name(NOT));
            put(answer, Atom::Name(IS_RUNNING));
        }
    }
}

// ---- results

// The name of a kind of result.
fn result_name(kind: u64) -> usize
    ensures { result ≡ guests.result_name kind }
{
    match kind {
        0 => DONE,
        1 => READ,
        2 => SEA,
        3 => ACCEPTED,
        4 => REJECTED,
        5 => RETURNED,
        6 => PSCI_RESULT,
        _ => RSI_ERROR_INPUT,
    }
}

// Whether a kind of result has a value.
fn has_value(kind: u64) -> bool
    ensures { result ≡ guests.has_value kind }
{
    kind == 1 || (3 <= kind && kind <= 6)
}

// The value of a result. A result of PSCI has its name if it is SUCCESS or DENIED.
fn result_atom(kind: u64, value: u64) -> Atom
    ensures { result ≡ guests.result_atom kind value }
{
    if kind == 6 && value == 0 {
        return Atom::Name(PSCI_SUCCESS);
    }
    if kind == 6 && value == 0xFFFF_FFFF_FFFF_FFFD {
        return Atom::Name(PSCI_DENIED);
    }
    Atom::Hexadecimal(value)
}

// Appends a result, with a comma before it if it is not the first.
#[tactic(auto, unfolding(crate::specs::Guest::put_result))]
fn put_result(answer: &mut Sentence, is_further: bool, kind: u64, value: u64)
    requires { length answer.old.items ≤ 62 }
    ensures items { answer.new.items ≡ guests.put_result is_further kind value answer.old.items }
    ensures len { length answer.new.items ≤ length answer.old.items + 2 }
{
    put_listed(answer, is_further, Atom::Name(result_name(kind)));
    if has_value(kind) {
        put(answer, result_atom(kind, value));
    }
}

// Appends result `k` of the REC at an address.
fn put_result_at<S: PageStore>(answer: &mut Sentence, rmm: &Rmm<S>, rec: u64, k: u16)
    requires few { k < 32 }
    requires room { length answer.old.items ≤ 62 }
    ensures items { answer.new.items ≡ guests.put_result_at rmm.now rec k answer.old.items }
    ensures len { length answer.new.items ≤ length answer.old.items + 2 }
{
    let kind = rmm.word(rec, 128 + 2 * k).unwrap_or(0);
    let value = rmm.word(rec, 128 + 2 * k + 1).unwrap_or(0);
    put_result(answer, k > 0, kind, value);
}

// Appends the first `count` results of the REC at an address.
fn put_results<S: PageStore>(answer: &mut Sentence, rmm: &Rmm<S>, rec: u64, count: u16)
    requires few { count < 32 }
    requires empty { answer.old.items ≡ [] }
    ensures { answer.new.items ≡ guests.results rmm.now rec count }
{
    for k in 0..count {
        put_result_at(answer, rmm, rec, k);
    }
}

// Answers with the results that a guest has seen since the last entry of its REC.
#[tactic(auto, unfolding(crate::specs::Guest::saw_words))]
pub(crate) fn answer_saw<S: PageStore>(answer: &mut Sentence, rmm: &Rmm<S>, address: u64)
    requires { answer.old.items ≡ [] }
    ensures { answer.new.items ≡ guests.saw_words rmm.now address (guests.rec_named rmm.now address) }
{
    match rec_at(rmm, address) {
        Some(rec) => {
            let count = u16::from(rec.result_count % 32);
            if count == 0 {
                put(answer, Atom::Name(NOTHING));
            } else {
                put_results(answer, rmm, address, count);
            }
        }
        None => put(answer, Atom::Name(NONE)),
    }
}
