//! Functions that read the words of a question in a trace.
ghost use Rattle.std.specs.Prelude.{◌≡◌};
ghost use Rattle.rmm_trace.specs.Compare.{rest_of};
ghost use Rattle.rmm_answers.specs.Words as specs;

use rmm_trace::place::DASH;
use rmm_trace::{Atom, TraceWord};

// The place of the name that a question begins with; the place of `-` if it does not begin with a name.
pub(crate) fn first_place(words: &[TraceWord]) -> usize
    ensures { result ≡ specs.first_place words.now }
{
    match words {
        [] => DASH,
        [first, ..] => match first.value {
            Atom::Name(place) => place,
            Atom::Decimal(_) => DASH,
            Atom::Hexadecimal(_) => DASH,
        },
    }
}

// The words after the first one.
pub(crate) fn rest(words: &[TraceWord]) -> &[TraceWord]
    ensures { result.now ≡ rest_of words.now }
{
    match words {
        [] => words,
        [_, rest @ ..] => rest,
    }
}
