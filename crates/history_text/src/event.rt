//! The text of an event in a history. It is the event's line, without the line feed.
ghost use Rattle.std.specs.Prelude.{◌≡◌, ◌≢◌, ℕ, ◌<◌, [], ◌∷◌, IfSome, IfNone};
ghost use Rattle.std.specs.Fmt.{decimal};
ghost use Rattle.realm_model.specs.declared.act.Event.{Event};
ghost use Rattle.history_text.specs.Events.{IsEventText};

use crate::act::act_from_text;
use crate::spelling::{numbers_of, word_of};
use decimal_text::SpelledText;
use granule_addr::BuildId;
use realm_model::Event;
use std::fmt;

/// A wrapper that displays an event as its line in a history.
#[derive(Clone, Copy)]
pub struct EventText<'a>(pub &'a Event);

impl fmt::Display for EventText<'_> {
    ghost use Rattle.std.specs.Prelude.{Some};
    ghost use Rattle.history_text.specs.Events.{event_text};

    ghost output = { λ e. Some (event_text e.0.now) };

    fn fmt<W: fmt::Write>(&self, f: &mut fmt::Formatter<W>) -> fmt::Result {
        let build = self.0.build.number();
        let numbers = numbers_of(&self.0.act);
        let act = SpelledText(word_of(&self.0.act), numbers.as_slice());
        write!(f, "{build} {act}")
    }
}

// The build whose number is the ASCII digit, if there is one.
fn build_of(digit: u8) -> Option<BuildId>
    ensures found { IfSome result (λ build. (build < 8) × (decimal build ≡ digit ∷ [])) }
    ensures none { IfNone result ((build : ℕ) → build < 8 → decimal build ≢ digit ∷ []) }
{
    if digit < b'0' {
        return None;
    }
    BuildId::new(digit - b'0')
}

/// Parses a line of a history as an event. Returns `None` if the line spells no event. No memory is taken.
pub fn parse_event(line: &[u8]) -> Option<Event>
    // The event that is returned has this text.
    ensures found { IfSome result (λ event. IsEventText line.now event) }
    // `None` is returned only if no event has this text.
    ensures none { IfNone result ((event : Event) → IsEventText line.now event → ⊥) }
{
    let Some((digit, rest)) = line.split_first() else {
        return None;
    };
    let Some(act) = rest.strip_prefix(b" ") else {
        return None;
    };
    let build = build_of(*digit)?;
    let Ok(text) = str::from_utf8(act) else {
        return None;
    };
    let act = act_from_text(text)?;
    Some(Event { build, act })
}
