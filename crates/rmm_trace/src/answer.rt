//! Functions that make the words of a trace's answers from X0 and output values.
ghost use Rattle.std.specs.Prelude.{◌≡◌, ◌<◌, ◌≤◌, ◌++◌, [], ◌∷◌, length};
ghost use Rattle.rmm_trace.specs.Answers.{plain, status_of, index_of, output_atom, with_comma, listed};

use crate::place::{
    AFTER, COUNT, EMPTY, EXIT, LEVEL, RIPAS_OUTPUT, RMI_SUCCESS, RUNNING, STATE, SYNC, UNASSIGNED,
};
use crate::sentence::Sentence;
use crate::word::{Atom, TraceWord};

/// The value of X0 if the guest of an entered REC keeps running.
pub const RUNS_ON: u64 = 0xFFFF_FFFF_FFFF_FFFE;

/// Creates a trace word that is only a name or a number, without a mask, a step or a comma.
pub fn plain(value: Atom) -> TraceWord
    ensures { result ≡ plain value }
{
    TraceWord {
        value,
        mask: None,
        step: None,
        is_listed: false,
    }
}

/// Returns the name of the status in X0, as an atom. If no name fits, the atom is X0 in hexadecimal.
pub fn status_of(x0: u64) -> Atom
    ensures { result ≡ status_of x0 }
{
    if x0 == RUNS_ON {
        return Atom::Name(RUNNING);
    }
    if x0 >= 0x1_0000 || x0 % 256 > 4 {
        return Atom::Hexadecimal(x0);
    }
    Atom::Name(RMI_SUCCESS + (x0 % 256) as usize)
}

/// Returns the index field of the RMI result in X0. Returns `None` if X0 is no result, or if the index is 0 and the
/// status is not RMI_ERROR_RTT.
pub fn index_of(x0: u64) -> Option<Atom>
    ensures { result ≡ index_of x0 }
{
    if x0 >= 0x1_0000 || x0 % 256 > 4 {
        return None;
    }
    if x0 / 256 == 0 && x0 % 256 != 4 {
        return None;
    }
    Some(Atom::Decimal(x0 / 256))
}

/// Returns the name or number that an answer shows for an output value. Levels and counts are in decimal. Known states,
/// RIPAS and exit reasons are names, and other values are in hexadecimal.
pub fn output_atom(name: usize, value: u64) -> Atom
    ensures { result ≡ output_atom name value }
{
    if name == LEVEL || name == COUNT || name == AFTER {
        return Atom::Decimal(value);
    }
    if name == STATE && value < 3 {
        return Atom::Name(UNASSIGNED + value as usize);
    }
    if name == RIPAS_OUTPUT && value < 3 {
        return Atom::Name(EMPTY + value as usize);
    }
    if name == EXIT && value < 7 {
        return Atom::Name(SYNC + value as usize);
    }
    Atom::Hexadecimal(value)
}

// Puts a comma after the last word.
fn put_comma_after_last(answer: &mut Sentence)
    requires { length answer.old.items ≤ 64 }
    ensures items { answer.new.items ≡ with_comma answer.old.items }
    ensures len { length answer.new.items ≡ length answer.old.items }
{
    let Some(last) = answer.pop() else {
        return;
    };
    answer.push(TraceWord {
        is_listed: true,
        ..last
    });
}

/// Appends a word to the answer of a trace line. If the word begins another part, a comma comes before it.
pub fn push_word(answer: &mut Sentence, word: TraceWord, is_part: bool)
    requires { length answer.old.items < 64 }
    ensures { answer.new.items ≡ listed is_part answer.old.items ++ word ∷ [] }
{
    if is_part {
        put_comma_after_last(answer);
    }
    answer.push(word);
}
