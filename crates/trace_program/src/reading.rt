//! The loop that reads a trace and writes the texts of its lines.
ghost use Rattle.std.specs.Prelude.{◌≡◌, ◌+◌, ◌-◌, ◌^◌, ◌≤◌, ◌++◌, ◌⊎◌, ◌↔◌, ℕ, List, [], Option, true, false, length, Err, IfOk, OnOk, OnErr};
ghost use Rattle.std.specs.Io.KnownBytes.{Appends, Consumes};
ghost use Rattle.checked_io.specs.Whole.{AppendsFront};
ghost use Rattle.trace_program.specs.declared.fault.TraceError.TheVariants.{Device, TooLong};
ghost use Rattle.trace_program.specs.Session.{IsTooMany, TakesLine, is_check_done};
ghost use Rattle.trace_program.specs.Reading as specs;

use crate::line_text::LineTexts;
use crate::{LineWords, Session, TraceError, TraceSubcommand, TraceVerdict};
use checked_io::Told;
use rmm_trace::{MOST_LINE, cut_at};
use std::alloc::{AllocError, Global};
use std::io::{Read, Write};

// The most bytes that are kept of a line: one more than a question may have.
const KEPT: usize = MOST_LINE + 1;

// Keeps a part of a line, up to `KEPT` bytes of the line in all.
fn keep(line: &mut Vec<u8>, part: &[u8]) -> Result<(), AllocError>
    ensures { OnOk result ((rest : List ℕ) → line.old.items ≡ specs.kept_of_line rest → line.new.items ≡ specs.kept_of_line (rest ++ part.now)) }
{
    let room = KEPT.saturating_sub(line.len());
    let (kept, _) = part.split_at(room.min(part.len()));
    line.extend_from_slice(kept)?;
    Ok(())
}

// The allocator of a run, its subcommand, and the name of its trace.
#[derive(Clone, Copy)]
struct RunParameters<'a> {
    alloc: Global,
    asked: &'a TraceSubcommand,
    source: &'a str,
}

// A trace that is being read: the session of its lines, the kept bytes of the next line, and the text not yet written.
// `words` is a buffer that is reused for each line.
struct Reading {
    session: Session,
    line: Vec<u8>,
    words: LineWords,
    text: LineTexts,
}

impl Drop for Reading {
    fn drop(self) {
        let Reading {
            session: _,
            line: _,
            words: _,
            text: _,
        } = self;
    }
}

impl Reading {
    // Ends the line, and appends its text.
    fn end_line(&mut self, request: RunParameters<'_>) -> Result<(), TraceError>
        ensures ok { OnOk result (TakesLine request.entry.asked.now request.entry.source.now self.old.line.items self.old.session self.new.session self.old.text self.new.text) }
        ensures empty { OnOk result (self.new.line.items ≡ []) }
        ensures err { ¬ (result ≡ Err Device) }
        ensures long { result ≡ Err TooLong → IsTooMany request.entry.asked.now self.old.line.items self.old.session }
    {
        self.session.take_line(
            request.alloc,
            request.asked,
            request.source,
            &self.line,
            &mut self.words,
            &mut self.text,
        )?;
        self.line.clear();
        Ok(())
    }

    // Takes bytes of the input, up to the line that ends the run.
    fn take_part(&mut self, request: RunParameters<'_>, part: &[u8]) -> Result<(), TraceError>
        requires { is_check_done request.asked.now self.old.session ≡ false }
        ensures ok { OnOk result ((read written : List ℕ) → specs.IsTraceLineTaken request.entry.asked.now request.entry.source.now read written self.old.session self.old.line.items self.old.text
            → specs.IsTraceLineTaken request.entry.asked.now request.entry.source.now (read ++ part.now) written self.new.session self.new.line.items self.new.text) }
        ensures err { ¬ (result ≡ Err Device) }
        ensures long { result ≡ Err TooLong → (read written : List ℕ) → specs.IsTraceLineTaken request.entry.asked.now request.entry.source.now read written self.old.session self.old.line.items self.old.text
            → 2 ^ 64 - 1 ≤ length (read ++ part.now) }
    {
        let mut rest = part;
        'lines: loop {
            let (front, after) = cut_at(rest, b'\n');
            keep(&mut self.line, front)?;
            let Some(after) = after else {
                return Ok(());
            };
            self.end_line(request)?;
            if self.session.is_done(request.asked) {
                return Ok(());
            }
            rest = after;
        }
    }

    // Ends the last line, which has no line feed, unless it is empty.
    fn end(&mut self, request: RunParameters<'_>) -> Result<(), TraceError>
        requires { is_check_done request.asked.now self.old.session ≡ false }
        ensures ok { OnOk result ((read written : List ℕ) → specs.IsTraceLineTaken request.entry.asked.now request.entry.source.now read written self.old.session self.old.line.items self.old.text
            → specs.AreTraceLinesTaken request.entry.asked.now request.entry.source.now read written self.new.session self.new.text) }
        ensures err { ¬ (result ≡ Err Device) }
        ensures long { result ≡ Err TooLong → (read written : List ℕ) → specs.IsTraceLineTaken request.entry.asked.now request.entry.source.now read written self.old.session self.old.line.items self.old.text
            → 2 ^ 64 - 1 ≤ length read }
    {
        if self.line.is_empty() {
            return Ok(());
        }
        self.end_line(request)
    }

    // Writes the text that is not yet written.
    fn write<W: Write>(&mut self, output: &mut Told<W>) -> Result<(), TraceError>
        requires { output.old.failed ≡ false }
        ensures session { self.new.session ≡ self.old.session }
        ensures line { self.new.line ≡ self.old.line }
        ensures ok { OnOk result (Appends (W.contents output.old.device) (W.contents output.new.device) self.old.text) }
        ensures empty { OnOk result (self.new.text ≡ []) }
        ensures err { OnErr result (AppendsFront (W.contents output.old.device) (W.contents output.new.device) self.old.text) }
        ensures told { (output.new.failed ≡ true) ↔ (result ≡ Err Device) }
        ensures fine { OnOk result (output.new.failed ≡ false) }
        ensures short { ¬ (result ≡ Err TooLong) }
    {
        let text = self.text.as_slice();
        if text.is_empty() {
            return Ok(());
        }
        output.write_whole(text)?;
        self.text.clear();
        Ok(())
    }

    // Reads once, and writes the text for the lines that were read. Returns whether there may be more.
    fn read_on<R: Read, W: Write>(
        &mut self,
        request: RunParameters<'_>,
        input: &mut Told<R>,
        buf: &mut [u8; 4096],
        output: &mut Told<W>,
    ) -> Result<bool, TraceError>
        requires readable { input.old.failed ≡ false }
        requires writable { output.old.failed ≡ false }
        requires empty { self.old.text ≡ [] }
        requires going { is_check_done request.asked.now self.old.session ≡ false }
        ensures ok { (begin start : Option (List ℕ)) → specs.IsUnderway request.entry.asked.now request.entry.source.now begin (R.remaining input.old.device) start (W.contents output.old.device) self.old.session self.old.line.items
            → IfOk result (λ more. specs.ReadsOn more request.entry.asked.now request.entry.source.now begin (R.remaining input.new.device) start (W.contents output.new.device) self.new.session self.new.line.items) }
        ensures empty { OnOk result (self.new.text ≡ []) }
        ensures err { (begin start : Option (List ℕ)) → specs.IsUnderway request.entry.asked.now request.entry.source.now begin (R.remaining input.old.device) start (W.contents output.old.device) self.old.session self.old.line.items
            → OnErr result (specs.IsCutShort request.entry.asked.now request.entry.source.now begin (R.remaining input.new.device) start (W.contents output.new.device)) }
        ensures told { ((input.new.failed ≡ true) ⊎ (output.new.failed ≡ true)) ↔ (result ≡ Err Device) }
        ensures fine { OnOk result ((input.new.failed ≡ false) × (output.new.failed ≡ false)) }
        ensures more { (count : ℕ) (begin : Option (List ℕ)) → specs.HasRead count begin (R.remaining input.old.device)
            → IfOk result (λ more. more ≡ true → specs.HasRead (count + 1) begin (R.remaining input.new.device)) }
        ensures part { (begin : Option (List ℕ)) (read : List ℕ) → Consumes begin (R.remaining input.old.device) read
            → OnOk result (specs.HasReadPart read begin (R.remaining input.new.device)) }
        ensures long { result ≡ Err TooLong → (begin start : Option (List ℕ)) → specs.IsUnderway request.entry.asked.now request.entry.source.now begin (R.remaining input.old.device) start (W.contents output.old.device) self.old.session self.old.line.items
            → specs.HasRead (2 ^ 64 - 1) begin (R.remaining input.new.device) }
    {
        let n = input.read(buf)?;
        if n == 0 {
            self.end(request)?;
            self.write(output)?;
            return Ok(false);
        }
        self.take_part(request, &buf[..n])?;
        self.write(output)?;
        Ok(!self.session.is_done(request.asked))
    }

    // Writes the counts if the run is a check, and returns the verdict.
    fn finish<W: Write>(
        &self,
        request: RunParameters<'_>,
        output: &mut Told<W>,
    ) -> Result<TraceVerdict, TraceError>
        requires { output.old.failed ≡ false }
        ensures verdict { IfOk result (λ it. it ≡ specs.verdict_asked request.entry.asked.now self.now.session) }
        ensures ok { OnOk result (Appends (W.contents output.old.device) (W.contents output.new.device) (specs.last_text request.entry.asked.now self.now.session)) }
        ensures err { OnErr result (AppendsFront (W.contents output.old.device) (W.contents output.new.device) (specs.last_text request.entry.asked.now self.now.session)) }
        ensures told { (output.new.failed ≡ true) ↔ (result ≡ Err Device) }
        ensures short { ¬ (result ≡ Err TooLong) }
    {
        let TraceSubcommand::Check(_) = request.asked else {
            return Ok(TraceVerdict::Agrees);
        };
        let counts = self.session.counts;
        let summary = format!(in request.alloc; "{counts}")?;
        output.write_whole(summary.as_bytes())?;
        Ok(counts.verdict())
    }
}

/// Reads a trace in parts, and writes the output text for its lines. The texts for a part are written before the next
/// part is read. A check ends with its counts.
///
/// Memory is taken for a fresh machine, for a line, and for the texts of the lines of one read. Of a line, no more than
/// 65,537 bytes are kept. Errors. `Memory`: allocation failed. `Device`: a read or a write failed. `TooLong`: the trace
/// goes on after 2^64 - 1 reads, or after 2^64 - 1 lines of a check. In each case a prefix of the texts was written.
pub fn run<R: Read, W: Write>(
    alloc: Global,
    asked: &TraceSubcommand,
    source: &str,
    input: &mut Told<R>,
    output: &mut Told<W>,
) -> Result<TraceVerdict, TraceError>
    requires readable { input.old.failed ≡ false }
    requires writable { output.old.failed ≡ false }
    ensures ok { IfOk result (specs.IsTraceRun asked.now source.now (R.remaining input.old.device) (R.remaining input.new.device)
        (W.contents output.old.device) (W.contents output.new.device)) }
    ensures err { OnErr result (specs.IsCutShort asked.now source.now (R.remaining input.old.device) (R.remaining input.new.device)
        (W.contents output.old.device) (W.contents output.new.device)) }
    ensures stop { OnOk result (specs.IsReadToStop asked.now source.now (R.remaining input.old.device) (R.remaining input.new.device)) }
    ensures device { ((input.new.failed ≡ true) ⊎ (output.new.failed ≡ true)) ↔ (result ≡ Err Device) }
    ensures long { result ≡ Err TooLong → specs.HasRead (2 ^ 64 - 1) (R.remaining input.old.device) (R.remaining input.new.device) }
{
    let request = RunParameters {
        alloc,
        asked,
        source,
    };
    let mut reading = Reading {
        session: Session::new(),
        line: Vec::new(alloc),
        words: LineWords::new(),
        text: LineTexts::new(alloc),
    };
    let mut buf = [0u8; 4096];
    'reads: for _ in 0..u64::MAX {
        if !reading.read_on(request, input, &mut buf, output)? {
            return reading.finish(request, output);
        }
    }
    Err(TraceError::TooLong)
}
