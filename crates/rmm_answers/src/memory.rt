//! Functions that append the result of a host's memory access to an answer in a trace.
ghost use Rattle.std.specs.Prelude.{◌≡◌, ◌+◌, ◌<◌, length};
ghost use Rattle.rmm_answers.specs.Memory as memory;
ghost use Rattle.rmm_answers.specs.Put.{put_word};

use crate::place::{DONE, FAULT};
use crate::put::put;
use rmm_trace::{Atom, Sentence};

// Appends `done` or `fault` for an access by the host.
pub(crate) fn put_access(answer: &mut Sentence, is_done: bool)
    requires { length answer.old.items < 64 }
    ensures items { answer.new.items ≡ put_word (memory.access_atom is_done) answer.old.items }
    ensures len { length answer.new.items ≡ length answer.old.items + 1 }
{
    put(answer, Atom::Name(if is_done { DONE } else { FAULT }));
}

// Appends the word that a load returned, or `fault`.
pub(crate) fn put_load(answer: &mut Sentence, loaded: Option<u64>)
    requires { length answer.old.items < 64 }
    ensures { answer.new.items ≡ put_word (memory.load_atom loaded) answer.old.items }
{
    match loaded {
        Some(word) => put(answer, Atom::Hexadecimal(word)),
        None => put(answer, Atom::Name(FAULT)),
    }
}
