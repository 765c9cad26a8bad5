//! Functions by which an RMM answers the questions of a trace.
ghost use Rattle.std.specs.Prelude.{◌≡◌, ◌-◌, []};
ghost use Rattle.rmm_trace.specs.Access.{operand_at};
ghost use Rattle.rmm_trace.specs.Compare.{rest_of};
ghost use Rattle.rmm_answers.specs.Answering as specs;
ghost use Rattle.rmm_answers.specs.Replies.{no_answer};
ghost use Rattle.rmm_answers.specs.Rounds.{performed_rounds};

use crate::call::{answer_call, answer_raw, checks_at, registers_at};
use crate::guest::{answer_guest, answer_interrupt, answer_saw};
use crate::memory::{put_access, put_load};
use crate::page::{write_realm_params, write_rec_params, write_rec_run};
use crate::put::{put, put_value};
use crate::reading::{answer_realm, answer_rec, answer_rim, state_atom, sum_atom};
use crate::reply::TraceReply;
use crate::rounds::{fill_rounds, perform_rounds};
use crate::words::{first_place, rest};
use page_arena::PageStore;
use rmm::Rmm;
use rmm_checks::EvaluatedChecks;
use rmm_trace::place::{
    AFTER, FILL, GUEST, INTERRUPT, LOAD, PLATFORM, REALM, REALM_PARAMS, REC, REC_PARAMS, REC_RUN,
    REPEAT, RIM, SAW, SMC, STATE, STORE, SUM,
};
use rmm_trace::{Atom, Sentence, TraceWord, operand};

// Appends whether the fills were done, and after a fault the number of earlier fills, if there were any.
fn put_fill(answer: &mut Sentence, round: u64, is_done: bool)
    requires { answer.old.items ≡ [] }
    ensures { answer.new.items ≡ specs.fill_words round is_done }
{
    put_access(answer, is_done);
    if !is_done && round != 0 {
        put_value(answer, AFTER, Atom::Decimal(round));
    }
}

// Answers a call or a fill that is performed once and repeated up to `more` times.
#[tactic(auto, unfolding(crate::specs::Answering::rounds_answered))]
fn answer_rounds<S: PageStore>(
    reply: &mut TraceReply,
    rmm: &mut Rmm<S>,
    call: &[TraceWord],
    more: u64,
)
    requires { reply.old ≡ no_answer }
    ensures { (reply.new, rmm.new) ≡ specs.rounds_answered call.now more rmm.old }
{
    let place = first_place(call);
    if place == FILL {
        let (round, is_done) = fill_rounds(rmm, rest(call), more);
        put_fill(&mut reply.words, round, is_done);
    } else if place < PLATFORM {
        let last = perform_rounds(rmm, call, more);
        let asked = registers_at(call, last.round);
        answer_call(reply, rmm, place, asked, &last);
    } else {
        reply.no_command();
    }
}

// Answers a reading of the machine's state.
#[tactic(auto, unfolding(crate::specs::Answering::reading_answered))]
fn answer_reading<S: PageStore>(
    reply: &mut TraceReply,
    rmm: &mut Rmm<S>,
    place: usize,
    words: &[TraceWord],
)
    requires { reply.old ≡ no_answer }
    ensures { (reply.new, rmm.new) ≡ specs.reading_answered place words.now rmm.old }
{
    let address = operand(words, 0, 0);
    if place == STATE {
        put(&mut reply.words, state_atom(rmm.state(address)));
    } else if place == SUM {
        put(&mut reply.words, sum_atom(rmm, address));
    } else if place == REALM {
        answer_realm(&mut reply.words, rmm, address);
    } else if place == RIM {
        answer_rim(reply, rmm, address);
    } else if place == REC {
        answer_rec(&mut reply.words, rmm, address);
    } else if place == SAW {
        answer_saw(&mut reply.words, rmm, address);
    } else {
        reply.no_command();
    }
}

// Answers a question that writes a parameter page or reads the machine's state.
#[tactic(auto, unfolding(crate::specs::Answering::page_answered))]
fn answer_page<S: PageStore>(
    reply: &mut TraceReply,
    rmm: &mut Rmm<S>,
    place: usize,
    words: &[TraceWord],
)
    requires { reply.old ≡ no_answer }
    ensures { (reply.new, rmm.new) ≡ specs.page_answered place words.now rmm.old }
{
    if place == REALM_PARAMS {
        let is_done = write_realm_params(rmm, words);
        put_access(&mut reply.words, is_done);
    } else if place == REC_PARAMS {
        let is_done = write_rec_params(rmm, words);
        put_access(&mut reply.words, is_done);
    } else if place == REC_RUN {
        let is_done = write_rec_run(rmm, words);
        put_access(&mut reply.words, is_done);
    } else {
        answer_reading(reply, rmm, place, words);
    }
}

// Answers a question that is neither a call nor a fill, given the words after its name.
#[tactic(auto, unfolding(crate::specs::Answering::other_answered))]
fn answer_other<S: PageStore>(
    reply: &mut TraceReply,
    rmm: &mut Rmm<S>,
    place: usize,
    words: &[TraceWord],
)
    requires { reply.old ≡ no_answer }
    ensures { (reply.new, rmm.new) ≡ specs.other_answered place words.now rmm.old }
{
    let address = operand(words, 0, 0);
    if place == STORE {
        let is_done = rmm.store(address, operand(words, 1, 0));
        put_access(&mut reply.words, is_done);
    } else if place == LOAD {
        put_load(&mut reply.words, rmm.load(address));
    } else if place == GUEST {
        answer_guest(reply, rmm, words);
    } else if place == INTERRUPT {
        answer_interrupt(&mut reply.words, rmm, address);
    } else {
        answer_page(reply, rmm, place, words);
    }
}

// Answers a raw call.
fn answer_smc<S: PageStore>(reply: &mut TraceReply, rmm: &mut Rmm<S>, call: &[TraceWord])
    requires { reply.old ≡ no_answer }
    ensures { (reply.new, rmm.new) ≡ specs.raw_reply_of call.now (performed_rounds 0 call.now rmm.old) }
{
    let last = perform_rounds(rmm, call, 0);
    answer_raw(reply, registers_at(call, 0), &last);
}

// Answers a repeated call or fill, given the words after `repeat`.
fn answer_repeat<S: PageStore>(reply: &mut TraceReply, rmm: &mut Rmm<S>, words: &[TraceWord])
    requires { reply.old ≡ no_answer }
    ensures { (reply.new, rmm.new)
        ≡ specs.rounds_answered (rest_of words.now) (operand_at words.now 0 0 - 1) rmm.old }
{
    let more = operand(words, 0, 0).saturating_sub(1);
    answer_rounds(reply, rmm, rest(words), more);
}

/// Performs what a trace's question asks of an RMM, and writes the answer to `reply`. A `platform` question gets the
/// answer `no command`.
#[tactic(auto, unfolding(crate::specs::Answering::answered_on))]
pub fn answer_on<S: PageStore>(rmm: &mut Rmm<S>, question: &[TraceWord], reply: &mut TraceReply)
    ensures { (reply.new, rmm.new) ≡ specs.answered_on question.now rmm.old }
{
    reply.clear();
    let place = first_place(question);
    if place == REPEAT {
        answer_repeat(reply, rmm, rest(question));
    } else if place == SMC {
        answer_smc(reply, rmm, question);
    } else if place < PLATFORM || place == FILL {
        answer_rounds(reply, rmm, question, 0);
    } else {
        answer_other(reply, rmm, place, rest(question));
    }
}

// The words of a question without a leading `repeat` and its count.
fn call_in(question: &[TraceWord]) -> &[TraceWord]
    ensures { result.now ≡ specs.unrepeated question.now }
{
    if first_place(question) == REPEAT {
        rest(rest(question))
    } else {
        question
    }
}

/// Evaluates the checks of an RMI command that an RMM has refused, or returns `None` if no command was refused. `reply`
/// is the reply to the call. The machine is still the one at the call, since a refusal changes nothing.
#[tactic(auto, unfolding(crate::specs::Answering::refused_checks))]
pub fn checks_on<S: PageStore>(
    rmm: &Rmm<S>,
    question: &[TraceWord],
    reply: &TraceReply,
) -> Option<EvaluatedChecks>
    ensures { result ≡ specs.refused_checks question.now reply.now rmm.now }
{
    let round = reply.refused?;
    checks_at(rmm, registers_at(call_in(question), round))
}
