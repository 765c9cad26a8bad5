//! The text of a history: a line for the machine's size, and one for each event.
//!
//! A line is an event exactly when it is the event's own text (`specs/Events.antt`): the build, a word and its numbers,
//! with nothing before or after. No two events have the same text, and the text of an event is read as the event.
//! Whether a history is legal is for a host to say. Memory is taken only to write a text.
#![tactic(auto)]

mod act;
mod event;
mod granules;
mod law;
mod opening;
mod spelling;
mod text;

pub use event::{EventText, parse_event};
pub use law::{MOST_LINE, event_texts_are_injective, events_have_texts, lines_are_short};
pub use opening::{Opening, parse_opening};
pub use text::push_history;
