//! Theorems about the lines of a history: different events have different texts, and no line is longer than 256 bytes.
ghost use Rattle.std.specs.Prelude.{◌≡◌, ℕ, ◌≤◌, List, length, replicate};
ghost use Rattle.decimal_text.specs.Ranges.{AreAtMost};
ghost use Rattle.realm_model.specs.declared.act.Event.{Event};
ghost use Rattle.history_text.specs.declared.opening.Opening.{Opening};
ghost use Rattle.history_text.specs.Written.{granule, IsActInRange};
ghost use Rattle.history_text.specs.Events.{event_text, IsEventText};
ghost use Rattle.history_text.specs.Histories.{IsOpeningText};

use granule_addr::{Gran, RecNo, Root, Vmid};
use realm_model::{Act, Event};

/// The maximum number of bytes in a line of a history. The line feed is not counted.
pub const MOST_LINE: u16 = 256;

/// Proves that different events have different texts.
pub fn event_texts_are_injective()
    ensures { (text : List ℕ) (a b : Event) → IsEventText text a → IsEventText text b → a ≡ b }
{}

/// Proves that each line of a history has at most 256 bytes.
pub fn lines_are_short()
    ensures events { (text : List ℕ) (event : Event) → IsEventText text event → length text ≤ 256 }
    ensures openings { (text : List ℕ) (opening : Opening) → IsOpeningText text opening → length text ≤ 256 }
{}

// Shows that granules have numbers below 4,096.
fn granules_in_range(granules: &[Gran])
    ensures { AreAtMost granules.now (replicate (length granules.now) granule) }
{
    for granule in granules {
        let _number = granule.number();
    }
}

// Reads numbers, which shows the prover the ranges of their types.
fn read<T: Copy>(_numbers: T) {}

fn act_in_range(act: &Act)
    ensures { IsActInRange act.now }
{
    match act {
        Act::Take { order, first } | Act::UnTake { order, first } => {
            read((order.number(), first.number()))
        }
        Act::Fill { granule, value } => read((granule.number(), *value)),
        Act::Peek {
            granule,
            offset,
            byte,
        } => read((granule.number(), offset.number(), *byte)),
        Act::Delegate { granule } | Act::Undelegate { granule } => read(granule.number()),
        Act::Realm { rd, root, vmid } | Act::UnRealm { rd, root, vmid } => {
            read((rd.number(), root.first.number()));
            read((root.width.number(), vmid.number()))
        }
        Act::Activate => {}
        Act::Rtt {
            granule,
            ipa,
            level,
        }
        | Act::UnRtt {
            granule,
            ipa,
            level,
        } => read((granule.number(), ipa.number(), level.number())),
        Act::Ripas { ipa, count } => read((ipa.number(), *count)),
        Act::Data {
            granule,
            ipa,
            source,
        } => read((granule.number(), ipa.number(), source.number())),
        Act::Unknown { granule, ipa } | Act::UnData { granule, ipa } => {
            read((granule.number(), ipa.number()))
        }
        Act::Rec {
            granule,
            auxiliaries,
            number,
        }
        | Act::UnRec {
            granule,
            auxiliaries,
            number,
        } => {
            read((granule.number(), number.number()));
            granules_in_range(auxiliaries.as_slice())
        }
        Act::Enter { number } | Act::Exit { number } => read(number.number()),
        Act::Poke {
            number,
            ipa,
            offset,
            value,
        } => read((number.number(), ipa.number(), offset.number(), *value)),
    }
}

/// Proves that the text of each event is a valid line of a history. The numbers of each event are in their ranges.
pub fn events_have_texts(event: &Event)
    ensures { IsEventText (event_text event.now) event.now }
{
    let _build = event.build.number();
    act_in_range(&event.act);
}
