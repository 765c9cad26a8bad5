//! Functions that append words to an answer in a trace.
ghost use Rattle.std.specs.Prelude.{◌≡◌, ◌+◌, ◌<◌, ◌≤◌, length};
ghost use Rattle.rmm_trace.specs.Answers.{listed};
ghost use Rattle.rmm_answers.specs.Put as words;

use rmm_trace::{Atom, Sentence, output_atom, plain, push_word};

// Appends a word, with a comma before it if it begins a further part.
pub(crate) fn put_listed(answer: &mut Sentence, is_part: bool, atom: Atom)
    requires { length answer.old.items < 64 }
    ensures items { answer.new.items ≡ words.put_word atom (listed is_part answer.old.items) }
    ensures len { length answer.new.items ≡ length answer.old.items + 1 }
{
    push_word(answer, plain(atom), is_part);
}

// Appends a word.
pub(crate) fn put(answer: &mut Sentence, atom: Atom)
    requires { length answer.old.items < 64 }
    ensures items { answer.new.items ≡ words.put_word atom answer.old.items }
    ensures len { length answer.new.items ≡ length answer.old.items + 1 }
{
    put_listed(answer, false, atom);
}

// Appends the first word of a further part.
pub(crate) fn put_part(answer: &mut Sentence, atom: Atom)
    requires { length answer.old.items < 64 }
    ensures items { answer.new.items ≡ words.put_part atom answer.old.items }
    ensures len { length answer.new.items ≡ length answer.old.items + 1 }
{
    put_listed(answer, true, atom);
}

// Appends a part that is a name.
pub(crate) fn put_flag(answer: &mut Sentence, name: usize)
    requires { length answer.old.items < 64 }
    ensures items { answer.new.items ≡ words.put_flag name answer.old.items }
    ensures len { length answer.new.items ≡ length answer.old.items + 1 }
{
    put_part(answer, Atom::Name(name));
}

// Appends a part that is a name with a value.
#[tactic(auto, unfolding(crate::specs::Put::put_value))]
pub(crate) fn put_value(answer: &mut Sentence, name: usize, value: Atom)
    requires { length answer.old.items ≤ 62 }
    ensures items { answer.new.items ≡ words.put_value name value answer.old.items }
    ensures len { length answer.new.items ≡ length answer.old.items + 2 }
{
    put_part(answer, Atom::Name(name));
    put(answer, value);
}

// Appends the name and the value of an output.
pub(crate) fn put_output(answer: &mut Sentence, name: usize, value: u64)
    requires { length answer.old.items ≤ 62 }
    ensures items { answer.new.items ≡ words.put_output name value answer.old.items }
    ensures len { length answer.new.items ≡ length answer.old.items + 2 }
{
    put_value(answer, name, output_atom(name, value));
}
