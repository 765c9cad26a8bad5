//! A function that performs a line of a trace on a handle's RMM.
ghost use Rattle.std.specs.Prelude.{◌≡◌, ◌≢◌, None, Some, IfOk, OnOk, OnErr, option_map};
ghost use Rattle.rmm_answers.specs.Answering.{answered};
ghost use Rattle.rmm_answers.specs.Replies.{reply_text};
ghost use Rattle.rmm_c.specs.Lines as lines;

use crate::{PlainRmm, RmmHandle};
use rmm_answers::{TraceReply, answer_on, is_platform, open_platform};
use rmm_trace::{LineKind, RmmTraceLine, SentenceText, TraceWord};
use std::alloc::{AllocError, Global};

// The return value for a line that is not answered.
const NOT_ANSWERED: u64 = 0xFFFF_FFFF_FFFF_FFFF;

// ---- questions

// Answers a question on the RMM of an open handle. After an error nothing has changed.
#[tactic(auto, unfolding(rmm_answers::specs::Answering::answered))]
fn answer_here(
    alloc: Global,
    plain: &mut PlainRmm,
    question: &[TraceWord],
    reply: &mut TraceReply,
) -> Result<(), AllocError>
    ensures ok { OnOk result ((reply.new, Some plain.new) ≡ answered question.now (Some plain.old)) }
    ensures err { OnErr result (plain.new ≡ plain.old) }
{
    if !is_platform(question) {
        answer_on(&mut plain.rmm, question, reply);
        return Ok(());
    }
    match open_platform(alloc, question)? {
        Some(rmm) => {
            plain.rmm = rmm;
            reply.clear();
        }
        None => reply.no_command(),
    }
    Ok(())
}

// Answers a question on a closed handle, where a `platform` question opens an RMM.
#[tactic(auto, unfolding(rmm_answers::specs::Answering::answered))]
fn answer_closed(
    alloc: Global,
    question: &[TraceWord],
    reply: &mut TraceReply,
) -> Result<Option<Box<PlainRmm>>, AllocError>
    ensures { IfOk result (λ opened. (reply.new, option_map (λ rmm. rmm.value) opened) ≡ answered question.now None) }
{
    reply.no_command();
    if !is_platform(question) {
        return Ok(None);
    }
    match open_platform(alloc, question)? {
        Some(rmm) => {
            let opened = Box::new(alloc, PlainRmm { rmm })?;
            reply.clear();
            Ok(Some(opened))
        }
        None => Ok(None),
    }
}

// Answers a question on a handle. After an error nothing has changed.
fn answer_question(
    alloc: Global,
    handle: &mut RmmHandle,
    question: &[TraceWord],
    reply: &mut TraceReply,
) -> Result<(), AllocError>
    ensures ok { OnOk result ((reply.new, handle.new.held.machine) ≡ answered question.now handle.old.held.machine) }
    ensures err { OnErr result (handle.new.held.machine ≡ handle.old.held.machine) }
{
    let Some(mut plain) = handle.take(alloc) else {
        if let Some(opened) = answer_closed(alloc, question, reply)? {
            handle.give(opened);
        }
        return Ok(());
    };
    let answered = answer_here(alloc, &mut plain, question, reply);
    handle.give(plain);
    answered
}

// Performs a line of a trace on a handle, and returns the answer. After an error nothing has changed.
fn answer_line(alloc: Global, handle: &mut RmmHandle, line: &[u8]) -> Result<TraceReply, AllocError>
    ensures ok { IfOk result (λ reply. (reply, handle.new.held.machine) ≡ lines.on_line line.now handle.old.held.machine) }
    ensures err { OnErr result (handle.new.held.machine ≡ handle.old.held.machine) }
{
    let mut asked = RmmTraceLine::new();
    asked.parse(line);
    let mut reply = TraceReply::new();
    match asked.kind {
        LineKind::Remark => {}
        LineKind::Question => {
            answer_question(alloc, handle, asked.words.as_slice(), &mut reply)?
        }
        LineKind::Neither => reply.no_command(),
    }
    Ok(reply)
}

// ---- texts

// The text of an answer.
fn text_of(alloc: Global, reply: &TraceReply) -> Result<Vec<u8>, AllocError>
    ensures { IfOk result (λ text. text.items ≡ reply_text reply.now) }
{
    let mut text = Vec::new(alloc);
    match &reply.rim {
        Some(digest) => digest.push_digits(&mut text)?,
        None => {
            let words = format!(in alloc; "{}", SentenceText(reply.words.as_slice()))?;
            text.extend_from_slice(words.as_bytes())?;
        }
    }
    Ok(text)
}

// Copies as much of a text into a buffer as fits with a zero after it.
fn put_text(text: &[u8], buffer: &mut [u8])
    ensures { buffer.new ≡ lines.put_text text.now buffer.old }
{
    if buffer.is_empty() {
        return;
    }
    let kept = text.len().min(buffer.len() - 1);
    buffer[..kept].copy_from_slice(&text[..kept]);
    buffer[kept] = 0;
}

/// Performs a line of a trace on an RMM, and writes the answer to `answer`. The answer is the text that
/// `rmitrace answer` puts after ` = `.
///
/// A zero ends the text, and a text that does not fit is cut before it. Returns the length of the whole text, which is
/// 0 for a comment and for a platform. A platform gives the handle a fresh RMM, also a closed one.
///
/// Returns 2^64 - 1 if allocation failed. Then nothing is written, and the line was performed or nothing has changed.
#[unsafe(no_mangle)]
pub extern "C" fn rmm_line(
    alloc: Global,
    handle: &mut RmmHandle,
    line: &[u8],
    answer: &mut [u8],
) -> u64
    ensures answered { result ≢ NOT_ANSWERED → lines.IsLineAnswered line.now answer.old handle.old.held.machine
        result answer.new handle.new.held.machine }
    ensures lost { result ≡ NOT_ANSWERED → lines.IsLineLost line.now answer.old handle.old.held.machine
        answer.new handle.new.held.machine }
{
    let Ok(reply) = answer_line(alloc, handle, line) else {
        return NOT_ANSWERED;
    };
    let Ok(text) = text_of(alloc, &reply) else {
        return NOT_ANSWERED;
    };
    put_text(&text, answer);
    text.len() as u64
}
