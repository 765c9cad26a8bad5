//! The number of trace lines with each verdict, and the verdict on a whole trace.
ghost use Rattle.std.specs.Prelude.{◌≡◌, ◌+◌, ◌-◌, ◌^◌, ◌≤◌, IfErr, IfOk};
ghost use Rattle.trace_program.specs.declared.fault.TraceError.TheVariants.{TooLong};
ghost use Rattle.trace_program.specs.Counting.{IsCountFull, with_line_counted, trace_verdict};

use crate::TraceError;
use std::fmt;

/// The verdict on a trace line, by which the line is counted.
#[derive(Clone, Copy)]
pub enum LineVerdict {
    /// A trace line whose answer is not compared: a remark, a command without a written answer, or a line that the
    /// comparison leaves out.
    NotCompared,
    Same,
    Allowed,
    Wrong,
}

/// The verdict on a whole trace, from the counts of its lines.
#[derive(Clone, Copy)]
pub enum TraceVerdict {
    /// A trace with no wrong line, and with at least one line that has the model's answer.
    Agrees,
    /// A trace in which no line has the verdict `Wrong` or `Same`.
    NothingSame,
    /// A trace with a wrong line.
    Differs,
}

/// The number of all lines of a trace, and the numbers of lines with the verdicts `Same`, `Allowed` and `Wrong`.
#[derive(Clone, Copy)]
pub struct Counts {
    pub lines: u64,
    pub same: u64,
    pub allowed: u64,
    pub wrong: u64,
}

// Returns the count plus one, or `TooLong` if the sum is 2^64.
fn one_more(count: u64) -> Result<u64, TraceError>
    ensures ok { IfOk result (λ more. more ≡ count + 1) }
    ensures err { IfErr result (λ e. (e ≡ TooLong) × (2 ^ 64 - 1 ≤ count)) }
{
    count.checked_add(1).ok_or(TraceError::TooLong)
}

impl Counts {
    /// The counts before the first line of a trace, all 0.
    pub const NONE: Counts = Counts {
        lines: 0,
        same: 0,
        allowed: 0,
        wrong: 0,
    };

    /// Returns the counts after one more line with the given verdict. The error is `TooLong` if the count of all lines,
    /// or that of the verdict, is 2^64 - 1.
    pub fn with(self, verdict: LineVerdict) -> Result<Counts, TraceError>
        ensures ok { IfOk result (λ counts. counts ≡ with_line_counted self verdict) }
        ensures err { IfErr result (λ e. (e ≡ TooLong) × IsCountFull self verdict) }
    {
        let lines = one_more(self.lines)?;
        match verdict {
            LineVerdict::NotCompared => Ok(Counts { lines, ..self }),
            LineVerdict::Same => Ok(Counts {
                lines,
                same: one_more(self.same)?,
                ..self
            }),
            LineVerdict::Allowed => Ok(Counts {
                lines,
                allowed: one_more(self.allowed)?,
                ..self
            }),
            LineVerdict::Wrong => Ok(Counts {
                lines,
                wrong: one_more(self.wrong)?,
                ..self
            }),
        }
    }

    /// Returns the verdict on a trace with these counts.
    pub fn verdict(self) -> TraceVerdict
        ensures { result ≡ trace_verdict self }
    {
        if self.wrong > 0 {
            return TraceVerdict::Differs;
        }
        if self.same > 0 {
            TraceVerdict::Agrees
        } else {
            TraceVerdict::NothingSame
        }
    }
}

/// The counts as a line of text, such as `3 same, 1 allowed, 0 wrong`.
impl fmt::Display for Counts {
    ghost use Rattle.std.specs.Prelude.{Some};
    ghost use Rattle.trace_program.specs.Counting.{summary_text};

    ghost output = { λ c. Some (summary_text c) };

    fn fmt<W: fmt::Write>(&self, f: &mut fmt::Formatter<W>) -> fmt::Result {
        write!(
            f,
            "{} same, {} allowed, {} wrong\n",
            self.same, self.allowed, self.wrong
        )
    }
}
