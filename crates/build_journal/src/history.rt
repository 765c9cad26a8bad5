//! A function that appends an event to the history of a host.
ghost use Rattle.std.specs.Prelude.{◌≡◌, ◌<◌, ◌∷◌, ◌++◌, [], vec_len, vec_capacity};

use realm_model::Event;

/// Appends an event to a history that has capacity for it. All earlier events stay.
pub fn append_event(history: &mut Vec<Event>, event: Event)
    requires { vec_len history.old < vec_capacity history.old }
    ensures items { history.new.items ≡ history.old.items ++ event ∷ [] }
    ensures capacity { vec_capacity history.new ≡ vec_capacity history.old }
{
    history.push_reserved(event);
}
