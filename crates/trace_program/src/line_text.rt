//! The output text for trace lines and their answers.
ghost use Rattle.std.specs.Prelude.{◌≡◌, ◌++◌, [], ◌∷◌, OnOk};
ghost use Rattle.trace_program.specs.LineText.{answered_text, sign_and_answer, tail_of};
ghost use Rattle.rmm_answers.specs.Replies.{reply_text};
ghost use Rattle.rmm_trace.specs.Sentences.{sentence_text};

use rmm_answers::TraceReply;
use rmm_trace::{LineKind, RmmTraceLine, SentenceText, TraceWord, cut_line};
use std::alloc::{AllocError, Global};
use std::fmt::Write;
use std::marker::Model;

/// A buffer for the output text of a trace's lines. The view is the bytes of the text.
#[derive(Drop)]
pub struct LineTexts {
    bytes: Vec<u8>,
    // A buffer for the text of words before it is appended to `bytes`.
    words: String,
}

impl Model for LineTexts {
    ghost use Rattle.std.specs.Prelude.{List, ℕ};

    ghost Value = { List ℕ };

    ghost view = { λ t. t.bytes.items };
}

impl LineTexts {
    /// Creates an empty buffer for output text.
    pub fn new(alloc: Global) -> LineTexts
        ensures { result ≡ [] }
    {
        LineTexts {
            bytes: Vec::new(alloc),
            words: String::new(alloc),
        }
    }

    /// Returns the bytes of the output text.
    pub fn as_slice(&self) -> &[u8]
        ensures { result.now ≡ self.now }
    {
        &self.bytes
    }

    /// Removes all text from the buffer.
    pub fn clear(&mut self)
        ensures { self.new ≡ [] }
    {
        self.bytes.clear();
    }

    /// Appends bytes to the output text.
    pub fn push(&mut self, bytes: &[u8]) -> Result<(), AllocError>
        ensures { OnOk result (self.new ≡ self.old ++ bytes.now) }
    {
        self.bytes.extend_from_slice(bytes)
    }

    /// Appends the text of the given words of a trace line.
    pub fn push_words(&mut self, words: &[TraceWord]) -> Result<(), AllocError>
        ensures { OnOk result (self.new ≡ self.old ++ sentence_text words.now) }
    {
        self.words.clear();
        write!(self.words, "{}", SentenceText(words))?;
        self.bytes.extend_from_slice(self.words.as_bytes())
    }

    /// Appends the text of the answer that the model gives to a trace line.
    pub fn push_answer(&mut self, reply: &TraceReply) -> Result<(), AllocError>
        ensures { OnOk result (self.new ≡ self.old ++ reply_text reply.now) }
    {
        match &reply.rim {
            Some(digest) => digest.push_digits(&mut self.bytes),
            None => self.push_words(reply.words.as_slice()),
        }
    }

    // Appends the equals sign and an answer; nothing if there is no answer.
    fn push_reply(&mut self, reply: &TraceReply) -> Result<(), AllocError>
        ensures { OnOk result (self.new ≡ self.old ++ sign_and_answer reply.now) }
    {
        if reply.is_empty() {
            return Ok(());
        }
        self.push(b" = ")?;
        self.push_answer(reply)
    }

    /// Appends a line, and the line feed that ends it.
    pub fn push_line(&mut self, bytes: &[u8]) -> Result<(), AllocError>
        ensures { OnOk result (self.new ≡ self.old ++ (bytes.now ++ 10 ∷ [])) }
    {
        self.bytes.extend_from_slice(bytes)?;
        self.bytes.extend_from_slice(b"\n")
    }

    /// Appends a trace line with `reply` as its answer. A remark is appended as it is.
    #[tactic(auto, unfolding(crate::specs::LineText::answered_text))]
    pub fn push_answered(
        &mut self,
        bytes: &[u8],
        line: &RmmTraceLine,
        reply: &TraceReply,
    ) -> Result<(), AllocError>
        ensures { OnOk result (self.new ≡ self.old ++ answered_text bytes.now line.now reply.now) }
    {
        if let LineKind::Remark = line.kind {
            return self.push_line(bytes);
        }
        self.push(cut_line(bytes).0)?;
        self.push_reply(reply)?;
        self.push_line(tail(bytes))
    }
}

/// Returns the text that follows the question and the written answer of a trace line: blanks, and the comment if the
/// line has one.
#[tactic(auto, unfolding(crate::specs::LineText::tail_of))]
pub(crate) fn tail(bytes: &[u8]) -> &[u8]
    ensures { result.now ≡ tail_of bytes.now }
{
    let (question, written) = cut_line(bytes);
    let (_, rest) = bytes.split_at(question.len());
    match written {
        Some(answer) => {
            let (_, after_sign) = rest.split_at(3);
            let (_, after) = after_sign.split_at(answer.len());
            after
        }
        None => rest,
    }
}
