//! A session that processes the lines of a trace one after another.
ghost use Rattle.std.specs.Prelude.{◌≡◌, ◌++◌, ℕ, List, [], Err, IfOk, OnOk, string_bytes};
ghost use Rattle.trace_program.specs.declared.fault.TraceError.TheVariants.{Device, TooLong};
ghost use Rattle.rmm_trace.specs.declared.line.LineKind.TheVariants.{Remark};
ghost use Rattle.rmm_trace.specs.Lines.{without_words};
ghost use Rattle.trace_program.specs.LineText.{answered_text, trace_line_of};
ghost use Rattle.trace_program.specs.Session as specs;

use crate::judging::{is_no_command, line_verdict};
use crate::line_text::LineTexts;
use crate::naming::push_named;
use crate::reasons::{checks_text, heading, hint, note_on_difference};
use crate::{Counts, LineVerdict, TraceError};
use command_line::rmitrace::{Comparison, TraceSubcommand};
use rmm_answers::{TraceMachine, TraceReply};
use rmm_trace::{LineKind, RmmTraceLine, Sentence, TraceWord};
use std::alloc::{AllocError, Global};

/// Buffers for the words of a trace line and of its written answer. A session reuses both for each line, because a
/// sentence is large.
#[derive(Drop)]
pub struct LineWords {
    pub line: RmmTraceLine,
    pub written: Sentence,
}

impl LineWords {
    /// Creates an empty `LineWords`, into which the lines of a session are read.
    pub fn new() -> LineWords
        ensures line { result.line ≡ without_words Remark }
        ensures written { result.written.items ≡ [] }
    {
        LineWords {
            line: RmmTraceLine::new(),
            written: Sentence::new(),
        }
    }
}

/// The state of a session after some lines of a trace.
#[derive(Drop)]
pub struct Session {
    /// The RMM that the last `platform` line started, if there was one.
    pub machine: TraceMachine,
    /// The counts of the trace lines that were checked so far, by verdict.
    pub counts: Counts,
    /// The answer to the last trace line that was not a remark (`LineKind::Remark`).
    pub reply: TraceReply,
}

impl Session {
    /// Creates a session before the first line of a trace.
    pub fn new() -> Session
        ensures { result ≡ specs.fresh_session }
    {
        Session {
            machine: TraceMachine::new(),
            counts: Counts::NONE,
            reply: TraceReply::new(),
        }
    }

    // Performs the command of a line, and keeps the answer. A remark has no answer.
    fn perform(&mut self, alloc: Global, line: &RmmTraceLine) -> Result<(), AllocError>
        ensures { OnOk result (self.new ≡ specs.performed self.old line.now) }
    {
        match line.kind {
            LineKind::Remark => Ok(()),
            LineKind::Question => {
                self.machine
                    .answer(alloc, line.words.as_slice(), &mut self.reply)
            }
            LineKind::Neither => {
                self.reply.no_command();
                Ok(())
            }
        }
    }

    // Returns the lines that report the checks of a refused call; empty if no call is refused.
    fn refusal(&self, alloc: Global, question: &[TraceWord]) -> Result<String, AllocError>
        ensures { IfOk result (λ text. specs.IsRefusalText question.now self.now (string_bytes text)) }
    {
        match self.machine.checks(question, &self.reply) {
            Some(checks) => checks_text(alloc, question, &checks),
            None => Ok(String::new(alloc)),
        }
    }

    // Returns the lines to print below an answer: the checks of a refused call, or a suggested word.
    fn reasons(
        &self,
        alloc: Global,
        bytes: &[u8],
        line: &RmmTraceLine,
    ) -> Result<String, AllocError>
        ensures { IfOk result (λ text. specs.AreReasons line.now.kind line.now.words.items self.now (string_bytes text)) }
    {
        match line.kind {
            LineKind::Remark => Ok(String::new(alloc)),
            LineKind::Neither => hint(alloc, bytes, "    "),
            LineKind::Question => {
                if is_no_command(&self.reply) {
                    return hint(alloc, bytes, "    ");
                }
                self.refusal(alloc, line.words.as_slice())
            }
        }
    }

    // Returns the note on a line whose written answer is the same as the model's.
    fn same_note(
        &self,
        alloc: Global,
        asked: &Comparison,
        source: &str,
    ) -> Result<LineTexts, AllocError>
        ensures { IfOk result (λ text. specs.IsSameNote asked.now.is_each source.now self.now.counts.lines text) }
    {
        if !asked.is_each {
            return Ok(LineTexts::new(alloc));
        }
        let text = heading(alloc, source, self.counts.lines, "same")?;
        Ok(text)
    }

    // Returns the note on an allowed or wrong line.
    fn difference_note(
        &self,
        alloc: Global,
        source: &str,
        bytes: &[u8],
        verdict: &str,
    ) -> Result<LineTexts, AllocError>
        ensures { IfOk result (λ text. specs.IsHeaded source.now self.now.counts.lines verdict.now bytes.now self.now.reply text) }
    {
        let mut text = heading(alloc, source, self.counts.lines, verdict)?;
        let rest = note_on_difference(alloc, bytes, &self.reply)?;
        text.push(rest.as_slice())?;
        Ok(text)
    }

    // Returns the note on a judged line.
    fn note(
        &self,
        alloc: Global,
        asked: &Comparison,
        source: &str,
        bytes: &[u8],
        verdict: LineVerdict,
    ) -> Result<LineTexts, AllocError>
        ensures { IfOk result (λ text. specs.IsNote asked.now source.now bytes.now self.now verdict text) }
    {
        match verdict {
            LineVerdict::NotCompared => Ok(LineTexts::new(alloc)),
            LineVerdict::Same => self.same_note(alloc, asked, source),
            LineVerdict::Allowed => self.difference_note(alloc, source, bytes, "allowed"),
            LineVerdict::Wrong => self.difference_note(alloc, source, bytes, "wrong"),
        }
    }

    // Performs a line, and appends it with the model's answer.
    fn answer(
        &mut self,
        alloc: Global,
        bytes: &[u8],
        words: &mut LineWords,
        text: &mut LineTexts,
    ) -> Result<(), AllocError>
        ensures session { OnOk result (self.new ≡ specs.performed self.old (trace_line_of bytes.now)) }
        ensures text { OnOk result (text.new ≡ text.old ++ answered_text bytes.now (trace_line_of bytes.now) self.new.reply) }
    {
        words.line.parse(bytes);
        self.perform(alloc, &words.line)?;
        text.push_answered(bytes, &words.line, &self.reply)
    }

    // Performs a line, and appends it with the model's answer and the explanation below it.
    fn explain(
        &mut self,
        alloc: Global,
        bytes: &[u8],
        words: &mut LineWords,
        text: &mut LineTexts,
    ) -> Result<(), AllocError>
        ensures session { OnOk result (self.new ≡ specs.performed self.old (trace_line_of bytes.now)) }
        ensures text { OnOk result ((more : List ℕ) × specs.IsExplained bytes.now self.new more × (text.new ≡ text.old ++ more)) }
    {
        words.line.parse(bytes);
        self.perform(alloc, &words.line)?;
        text.push_answered(bytes, &words.line, &self.reply)?;
        let reasons = self.reasons(alloc, bytes, &words.line)?;
        text.push(reasons.as_bytes())
    }

    // Performs a line, and returns the verdict on its written answer.
    fn judge(
        &mut self,
        alloc: Global,
        asked: &Comparison,
        bytes: &[u8],
        words: &mut LineWords,
    ) -> Result<LineVerdict, TraceError>
        ensures verdict { IfOk result (λ it. it ≡ specs.verdict_on asked.now bytes.now (specs.performed self.old (trace_line_of bytes.now))) }
        ensures session { OnOk result (self.new ≡ specs.judged asked.now bytes.now (specs.performed self.old (trace_line_of bytes.now))) }
        ensures err { ¬ (result ≡ Err Device) }
        ensures long { result ≡ Err TooLong → specs.IsUncounted asked.now bytes.now (specs.performed self.old (trace_line_of bytes.now)) }
    {
        let written = words.line.parse(bytes);
        self.perform(alloc, &words.line)?;
        let verdict = line_verdict(
            asked,
            &self.machine,
            written,
            &words.line,
            &self.reply,
            &mut words.written,
        );
        self.counts = self.counts.with(verdict)?;
        Ok(verdict)
    }

    // Performs and judges a line, and appends the note on it.
    fn check(
        &mut self,
        alloc: Global,
        asked: &Comparison,
        source: &str,
        bytes: &[u8],
        words: &mut LineWords,
        text: &mut LineTexts,
    ) -> Result<(), TraceError>
        ensures session { OnOk result (self.new ≡ specs.judged asked.now bytes.now (specs.performed self.old (trace_line_of bytes.now))) }
        ensures text { OnOk result ((more : List ℕ)
            × specs.IsNote asked.now source.now bytes.now self.new (specs.verdict_on asked.now bytes.now (specs.performed self.old (trace_line_of bytes.now))) more
            × (text.new ≡ text.old ++ more)) }
        ensures err { ¬ (result ≡ Err Device) }
        ensures long { result ≡ Err TooLong → specs.IsUncounted asked.now bytes.now (specs.performed self.old (trace_line_of bytes.now)) }
    {
        let verdict = self.judge(alloc, asked, bytes, words)?;
        let note = self.note(alloc, asked, source, bytes, verdict)?;
        text.push(note.as_slice())?;
        Ok(())
    }

    /// Performs the requested subcommand on one trace line, and appends its output. The line is read into `words`.
    ///
    /// Errors. `Memory`: allocation failed. `TooLong`: a check has counted 2^64 - 1 lines.
    pub fn take_line(
        &mut self,
        alloc: Global,
        asked: &TraceSubcommand,
        source: &str,
        bytes: &[u8],
        words: &mut LineWords,
        text: &mut LineTexts,
    ) -> Result<(), TraceError>
        ensures ok { OnOk result (specs.TakesLine asked.now source.now bytes.now self.old self.new text.old text.new) }
        ensures err { ¬ (result ≡ Err Device) }
        ensures long { result ≡ Err TooLong → specs.IsTooMany asked.now bytes.now self.old }
    {
        match asked {
            TraceSubcommand::Answer => self.answer(alloc, bytes, words, text)?,
            TraceSubcommand::Names => {
                words.line.parse(bytes);
                push_named(text, bytes, &words.line)?;
            }
            TraceSubcommand::Why => self.explain(alloc, bytes, words, text)?,
            TraceSubcommand::Check(comparison) => {
                self.check(alloc, comparison, source, bytes, words, text)?
            }
        }
        Ok(())
    }

    /// Returns whether the check stops at its first wrong line, and has found one.
    pub fn is_done(&self, asked: &TraceSubcommand) -> bool
        ensures { result ≡ specs.is_check_done asked.now self.now }
    {
        match asked {
            TraceSubcommand::Check(comparison) => comparison.stops && self.counts.wrong > 0,
            _ => false,
        }
    }
}
