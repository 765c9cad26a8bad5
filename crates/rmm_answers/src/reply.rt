//! The type for the RMM's reply to a question in a trace. A reply can be compared with a written answer.
ghost use Rattle.std.specs.Prelude.{◌≡◌, ◌++◌, OnErr, OnOk};
ghost use Rattle.std.specs.Str.{bytes_eq};
ghost use Rattle.rmm_answers.specs.Replies as replies;

use crate::outputs::command_place;
use crate::place::{COMMAND, NO};
use crate::put::put;
use crate::registers::registers_agree;
use crate::words::{first_place, rest};
use rmm_trace::place::SMC;
use rmm_trace::{Atom, Sentence, TraceWord, is_same, operand, read_into, sha256_text, sha512_text};
use std::alloc::AllocError;

/// A realm's initial measurement, as a SHA-256 or SHA-512 digest.
#[derive(Clone, Copy)]
pub enum Digest {
    Sha256([u8; 32]),
    Sha512([u8; 64]),
}

/// The reply to a question in a trace: words, or a measurement. The reply to a `platform` question that opens a machine
/// has neither.
#[derive(Drop)]
pub struct TraceReply {
    pub words: Sentence,
    pub rim: Option<Digest>,
    /// The number of the repetition in which a repeated call was refused, counted from 0. The number is 0 for a call
    /// without `repeat`, and `None` if no call was refused.
    pub refused: Option<u64>,
}

impl Digest {
    // Whether a text consists of the digest's digits.
    fn is_text(&self, text: &[u8]) -> bool
        ensures { result ≡ bytes_eq text.now (replies.digest_text self.now) }
    {
        match self {
            Digest::Sha256(bytes) => text == sha256_text(bytes).as_slice(),
            Digest::Sha512(bytes) => text == sha512_text(bytes).as_slice(),
        }
    }

    /// Appends the hexadecimal digits of a digest to a text. An `Err` leaves the text unchanged.
    pub fn push_digits(&self, text: &mut Vec<u8>) -> Result<(), AllocError>
        ensures ok { OnOk result (text.new.items ≡ text.old.items ++ replies.digest_text self.now) }
        ensures err { OnErr result (text.new.items ≡ text.old.items) }
    {
        match self {
            Digest::Sha256(bytes) => text.extend_from_slice(sha256_text(bytes).as_slice()),
            Digest::Sha512(bytes) => text.extend_from_slice(sha512_text(bytes).as_slice()),
        }
    }
}

// Whether a written answer to a question agrees with the model's. The answer to a raw call is compared by its
// registers.
fn is_same_answer(question: &[TraceWord], written: &[TraceWord], ours: &[TraceWord]) -> bool
    ensures { result ≡ replies.is_same_answer question.now written.now ours.now }
{
    if first_place(question) == SMC {
        registers_agree(command_place(operand(rest(question), 0, 0)), written, ours)
    } else {
        is_same(question, written, ours)
    }
}

// Whether the words of a text agree with the model's answer to a question. The words are read into `words`.
fn are_words(
    question: &[TraceWord],
    written: &[u8],
    ours: &[TraceWord],
    words: &mut Sentence,
) -> bool
    ensures { result ≡ replies.are_words question.now written.now ours.now }
{
    words.clear();
    if !read_into(written, words) {
        return false;
    }
    is_same_answer(question, words.as_slice(), ours)
}

impl TraceReply {
    /// Creates an empty reply, the reply to a `platform` question that opens a machine.
    pub fn new() -> TraceReply
        ensures { result ≡ replies.no_answer }
    {
        TraceReply {
            words: Sentence::new(),
            rim: None,
            refused: None,
        }
    }

    /// Resets the reply to an empty reply.
    pub fn clear(&mut self)
        ensures { self.new ≡ replies.no_answer }
    {
        self.words.clear();
        self.rim = None;
        self.refused = None;
    }

    /// Sets the reply to the words `no command`, the reply to a line that is not a command.
    #[tactic(auto, unfolding(crate::specs::Replies::no_command))]
    pub fn no_command(&mut self)
        ensures { self.new ≡ replies.no_command }
    {
        self.clear();
        put(&mut self.words, Atom::Name(NO));
        put(&mut self.words, Atom::Name(COMMAND));
    }

    /// Returns whether the reply has neither words nor a measurement. The line is then printed without an answer.
    pub fn is_empty(&self) -> bool
        ensures { result ≡ replies.is_unanswered self.now }
    {
        self.words.is_empty() && self.rim.is_none()
    }

    /// Returns whether an answer written in a trace agrees with this reply. The words of the written answer are read
    /// into `words`.
    #[tactic(auto, unfolding(crate::specs::Replies::is_written))]
    pub fn is_written(&self, question: &[TraceWord], written: &[u8], words: &mut Sentence) -> bool
        ensures { result ≡ replies.is_written question.now written.now self.now }
    {
        match &self.rim {
            Some(digest) => digest.is_text(written),
            None => are_words(question, written, self.words.as_slice(), words),
        }
    }
}
