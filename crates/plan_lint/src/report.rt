//! The report on a document, which shows each finding with an excerpt of its line. For a plan, the report also has the
//! size of the plan. Tests compare reports with stored texts.
ghost use Rattle.std.specs.Prelude.{◌≡◌, ◌++◌, IfOk, OnOk, string_bytes};
ghost use Rattle.std.specs.List.{flat_map};
ghost use Rattle.plan_lint.specs.Shown.{plain_line};
ghost use Rattle.plan_lint.specs.Lines.{severity_word, head_line, plural, size_text, AppendsFinding, AppendsFindings};

use crate::excerpt::{Cursor, FIRST, excerpt_of, first_of, place_at, plain_text, push_line};
use crate::finding::{Finding, Severity};
use crate::judging::{Size, judge};
use std::alloc::{AllocError, Global};

/// The number of bytes that are searched for a line feed, from the position of a finding on.
const AHEAD: usize = 81;

/// The text of a report on a document, and whether the document is a plan.
#[derive(Drop)]
pub struct LintReport {
    pub text: String,
    /// Whether the document is a valid plan.
    pub is_plan: bool,
}

// The rest of a line from the byte `at` on, cut after `AHEAD` bytes.
fn back_of(bytes: &[u8], at: usize) -> &[u8] {
    let ahead = first_of(bytes.get(at..).unwrap_or(&[]), AHEAD);
    for (len, byte) in ahead.iter().enumerate() {
        if *byte == b'\n' {
            return first_of(ahead, len);
        }
    }
    ahead
}

fn severity_word(severity: Severity) -> &'static str
    ensures { result.now ≡ severity_word severity }
{
    match severity {
        Severity::Error(..) => "error",
        Severity::Warning => "warning",
    }
}

// Appends the first line of a finding: its position, severity and message.
fn push_head(
    alloc: Global,
    text: &mut String,
    source: &str,
    place: Cursor,
    finding: &Finding,
) -> Result<(), AllocError>
    ensures { OnOk result (string_bytes text.new ≡ string_bytes text.old ++ head_line source.now place.line place.column finding.now) }
{
    let kind = severity_word(finding.severity);
    let words = plain_text(alloc, finding.words.as_bytes())?;
    let line = place.line;
    let column = place.column;
    writeln!(text, "{source}:{line}:{column}: {kind}: {words}")
}

// Appends the notes of a finding, a line for each.
fn push_notes(alloc: Global, text: &mut String, notes: &[String]) -> Result<(), AllocError>
    ensures { OnOk result (string_bytes text.new ≡ string_bytes text.old ++ flat_map (λ note. plain_line (string_bytes note)) notes.now) }
{
    for note in notes {
        push_line(alloc, text, note.as_bytes())?;
    }
    Ok(())
}

// Appends a finding: its position, severity and message, an excerpt of its line, and its notes.
fn push_finding(
    alloc: Global,
    text: &mut String,
    source: &str,
    bytes: &[u8],
    place: Cursor,
    finding: &Finding,
) -> Result<(), AllocError>
    ensures { OnOk result (AppendsFinding source.now finding.now (string_bytes text.old) (string_bytes text.new)) }
{
    push_head(alloc, text, source, place, finding)?;
    let front = bytes.get(place.start..place.at).unwrap_or(&[]);
    let len = finding.span.end.saturating_sub(finding.span.start);
    let excerpt = excerpt_of(alloc, front, back_of(bytes, place.at), len)?;
    text.push_str(excerpt.as_str())?;
    push_notes(alloc, text, finding.notes.as_slice())
}

// Appends all findings. They are in the order of their positions, so the bytes are read through once.
fn push_findings(
    alloc: Global,
    text: &mut String,
    source: &str,
    bytes: &[u8],
    findings: &[Finding],
) -> Result<(), AllocError>
    ensures { OnOk result (AppendsFindings source.now findings.now (string_bytes text.old) (string_bytes text.new)) }
{
    let mut place = FIRST;
    for finding in findings {
        place = place_at(bytes, place, finding.span.start);
        push_finding(alloc, text, source, bytes, place, finding)?;
    }
    Ok(())
}

// The plural ending of a noun for a count.
fn plural(count: usize) -> &'static str
    ensures { result.now ≡ plural count }
{
    if count == 1 { "" } else { "s" }
}

// Appends the size of a plan, if there is one.
fn push_size(text: &mut String, source: &str, size: Option<Size>) -> Result<(), AllocError>
    ensures { OnOk result (string_bytes text.new ≡ string_bytes text.old ++ size_text source.now size) }
{
    let Some(
        Size {
            builds,
            steps,
            turns,
        },
    ) = size
    else {
        return Ok(());
    };
    let builds_end = plural(builds);
    let steps_end = plural(steps);
    let turns_end = plural(turns);
    writeln!(
        text,
        "{source}: {builds} build{builds_end}, {steps} step{steps_end}, {turns} turn{turns_end}"
    )
}

impl LintReport {
    ghost use Rattle.plan_lint.specs.Texts.{IsReport};

    /// Returns the report on bytes that were read from `source`. The whole report is built in memory, and the one error
    /// is that allocation failed.
    pub fn on(alloc: Global, source: &str, bytes: &[u8]) -> Result<LintReport, AllocError>
        ensures { IfOk result (IsReport source.now bytes.now) }
    {
        let judged = judge(alloc, bytes)?;
        let source = plain_text(alloc, source.as_bytes())?;
        let mut text = String::new(alloc);
        push_findings(
            alloc,
            &mut text,
            source.as_str(),
            bytes,
            judged.findings.as_slice(),
        )?;
        push_size(&mut text, source.as_str(), judged.size)?;
        let is_plan = judged.size.is_some();
        Ok(LintReport { text, is_plan })
    }
}
