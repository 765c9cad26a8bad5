//! Functions that read the lines of a history and apply them to a host.
ghost use Rattle.std.specs.Prelude.{◌≡◌, ◌↔◌, ◌+◌, true, false, length, Err, IfOk, IfErr, OnOk};
ghost use Rattle.std.specs.Io.KnownBytes.{prepend_known};
ghost use Rattle.checked_io.specs.Lines.{IsLine};
ghost use Rattle.history_text.specs.Histories.{IsOpeningText};
ghost use Rattle.view_program.specs.Applied.{IsLineTaken, IsNoHistoryIn};
ghost use Rattle.view_program.specs.Taking.{AreLinesTaken, IsUntaken, AreNotTaken};
ghost use Rattle.view_program.specs.declared.fault.ViewError.TheVariants.{Device};

use crate::fault::ViewError;
use checked_io::{Lines, Next, Told};
use explain::event_words;
use history_text::{MOST_LINE, Opening, parse_event, parse_opening};
use page_arena::PageStore;
use realm_host::{Event, Host, WhyNot};
use std::alloc::Global;
use std::io::Read;

// The line number of the next event. The first line is the opening.
fn next_number<S: PageStore>(host: &Host<S>) -> usize
    ensures { result ≡ length host.now.history + 2 }
{
    host.history().len() + 2
}

// The words for a refused event: the check that refuses it, or else the text of the reason.
fn words_for<S: PageStore>(alloc: Global, host: &Host<S>, event: &Event, why: WhyNot) -> String {
    let words = event_words(alloc, host, event).unwrap_or(String::new(alloc));
    if !words.is_empty() {
        return words;
    }
    why.to_string(alloc).unwrap_or(String::new(alloc))
}

// Applies the event in a line to a host.
fn take_line<S: PageStore>(alloc: Global, host: &mut Host<S>, line: &[u8]) -> Result<(), ViewError>
    ensures ok { OnOk result (IsLineTaken host.old line.now host.new) }
    ensures err { IfErr result (IsUntaken host.old line.now) }
{
    let Some(event) = parse_event(line) else {
        return Err(ViewError::NoEvent(next_number(host)));
    };
    if host.apply_recorded(&event) {
        Ok(())
    } else {
        let why = host.why_not(&event);
        let words = words_for(alloc, host, &event, why);
        Err(ViewError::Refused(next_number(host), why, words))
    }
}

/// Applies the events in the remaining lines of a history to a host, in sequence. Stops at the first line that is not
/// an event, or whose event cannot be applied.
pub fn take_lines<R: Read, S: PageStore>(
    alloc: Global,
    lines: &mut Lines,
    input: &mut Told<R>,
    line: &mut Vec<u8>,
    host: &mut Host<S>,
) -> Result<(), ViewError>
    requires { input.old.failed ≡ false }
    ensures told { (input.new.failed ≡ true) ↔ (result ≡ Err Device) }
    ensures ok { OnOk result (AreLinesTaken (prepend_known lines.old (R.remaining input.old.device)) host.old host.new) }
    ensures err { IfErr result (AreNotTaken (prepend_known lines.old (R.remaining input.old.device)) host.old) }
{
    for _ in 0..u64::MAX {
        match lines.next_line(input, MOST_LINE, line)? {
            Next::Line => take_line(alloc, host, line)?,
            Next::TooLong => return Err(ViewError::NoEvent(next_number(host))),
            Next::End => return Ok(()),
        }
    }
    let _count = host.history().len();
    unreachable!()
}

/// Reads the first line of a history, which describes the machine.
pub fn opening_in<R: Read>(
    lines: &mut Lines,
    input: &mut Told<R>,
    line: &mut Vec<u8>,
) -> Result<Opening, ViewError>
    requires { input.old.failed ≡ false }
    ensures told { (input.new.failed ≡ true) ↔ (result ≡ Err Device) }
    ensures ok { IfOk result (λ opening. IsOpeningText line.new.items opening) }
    ensures line { OnOk result (IsLine (prepend_known lines.old (R.remaining input.old.device)) line.new.items (prepend_known lines.new (R.remaining input.new.device))) }
    ensures err { IfErr result (IsNoHistoryIn (prepend_known lines.old (R.remaining input.old.device))) }
{
    match lines.next_line(input, MOST_LINE, line)? {
        Next::Line => match parse_opening(line) {
            Some(opening) => Ok(opening),
            None => Err(ViewError::NoOpening),
        },
        Next::TooLong => Err(ViewError::NoOpening),
        Next::End => Err(ViewError::NoOpening),
    }
}
