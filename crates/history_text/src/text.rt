//! The function that writes a history as text.
ghost use Rattle.std.specs.Prelude.{◌≡◌, ◌++◌, OnOk, string_bytes};
ghost use Rattle.history_text.specs.Histories.{history_text, shown};

use crate::event::EventText;
use crate::opening::Opening;
use granule_addr::BuildId;
use realm_model::Event;
use std::alloc::AllocError;

/// Appends the text of a history to a string. That text has the opening, and a line for each event. Events of the build
/// `erase` are left out. An `Err` means that allocation failed; `text` may then have a part of the history.
pub fn push_history(
    text: &mut String,
    opening: &Opening,
    events: &[Event],
    erase: Option<BuildId>,
) -> Result<(), AllocError>
    ensures { OnOk result (string_bytes text.new ≡ string_bytes text.old ++ history_text opening.now (shown erase events.now)) }
{
    writeln!(text, "{opening}")?;
    for event in events {
        if erase == Some(event.build) {
            continue;
        }
        writeln!(text, "{}", EventText(event))?;
    }
    Ok(())
}
