//! Words of a trace line. A word is a name or a number, with an optional mask, step and comma.
ghost use Rattle.std.specs.Prelude.{◌≡◌};
ghost use Rattle.std.specs.Option.{option_copied};
ghost use Rattle.rmm_trace.specs.Words.{number_in, atom_in, tail_in, comma_in, word_in};

use crate::cut::cut_at;
use crate::name::{find_name, name_text};
use crate::number::plain_value;
use std::fmt;

/// A name or a number in a word of a trace.
#[derive(Clone, Copy)]
pub enum Atom {
    /// A name, given by its index in the table of names.
    Name(usize),
    Decimal(u64),
    /// A hexadecimal number, which is written after `0x`.
    Hexadecimal(u64),
}

/// A word of a trace line: a value, with an optional mask after `/`, an optional step after `+`, and an optional comma.
#[derive(Clone, Copy)]
pub struct TraceWord {
    pub value: Atom,
    pub mask: Option<Atom>,
    pub step: Option<Atom>,
    pub is_listed: bool,
}

impl Default for TraceWord {
    ghost use Rattle.rmm_trace.specs.Compare.{zero_word};

    ghost is_default = { λ word. word ≡ zero_word };

    fn default() -> TraceWord {
        TraceWord {
            value: Atom::Decimal(0),
            mask: None,
            step: None,
            is_listed: false,
        }
    }
}

// ---- read

// The number that a text spells, if it spells one.
fn read_number(text: &[u8]) -> Option<Atom>
    ensures { result ≡ number_in text.now }
{
    match text.strip_prefix(b"0x") {
        Some(digits) => plain_value(16, digits).map(Atom::Hexadecimal),
        None => plain_value(10, text).map(Atom::Decimal),
    }
}

// The number or the name that a text spells, if it spells one.
fn read_atom(text: &[u8]) -> Option<Atom>
    ensures { result ≡ atom_in text.now }
{
    match read_number(text) {
        Some(atom) => Some(atom),
        None => find_name(text).map(Atom::Name),
    }
}

// The name or number after a mark; `Some(None)` if the mark is missing, and `None` if what follows it is neither.
fn read_tail(text: Option<&[u8]>) -> Option<Option<Atom>>
    ensures { result ≡ tail_in (option_copied text.entry) }
{
    match text {
        Some(text) => read_atom(text).map(Some),
        None => Some(None),
    }
}

// Whether a word has a comma, or `None` if something follows the comma.
fn read_comma(text: Option<&[u8]>) -> Option<bool>
    ensures { result ≡ comma_in (option_copied text.entry) }
{
    match text {
        Some([]) => Some(true),
        Some(_) => None,
        None => Some(false),
    }
}

/// Returns the word that a text spells, if any.
pub(crate) fn read_word(text: &[u8]) -> Option<TraceWord>
    ensures { result ≡ word_in text.now }
{
    let (text, end) = cut_at(text, b',');
    let (text, step) = cut_at(text, b'+');
    let (text, mask) = cut_at(text, b'/');
    Some(TraceWord {
        value: read_atom(text)?,
        mask: read_tail(mask)?,
        step: read_tail(step)?,
        is_listed: read_comma(end)?,
    })
}

// ---- printed

impl fmt::Display for Atom {
    ghost use Rattle.std.specs.Prelude.{Some};
    ghost use Rattle.rmm_trace.specs.Words.{atom_text};

    ghost output = { λ a. Some (atom_text a) };

    fn fmt<W: fmt::Write>(&self, f: &mut fmt::Formatter<W>) -> fmt::Result {
        match self {
            Atom::Name(place) => write!(f, "{}", name_text(*place)),
            Atom::Decimal(number) => write!(f, "{number}"),
            Atom::Hexadecimal(number) => write!(f, "0x{number:x}"),
        }
    }
}

// The text of a mark and of the name or number after it, which is empty if there is none.
#[derive(Clone, Copy)]
struct TailText<'a>(&'a str, Option<Atom>);

impl fmt::Display for TailText<'_> {
    ghost use Rattle.std.specs.Prelude.{Some};
    ghost use Rattle.rmm_trace.specs.Words.{tail_text};

    ghost output = { λ t. Some (tail_text t.0.now t.1) };

    fn fmt<W: fmt::Write>(&self, f: &mut fmt::Formatter<W>) -> fmt::Result {
        match self.1 {
            Some(atom) => write!(f, "{}{atom}", self.0),
            None => Ok(()),
        }
    }
}

impl fmt::Display for TraceWord {
    ghost use Rattle.std.specs.Prelude.{Some};
    ghost use Rattle.rmm_trace.specs.Words.{word_text};

    ghost output = { λ w. Some (word_text w) };

    fn fmt<W: fmt::Write>(&self, f: &mut fmt::Formatter<W>) -> fmt::Result {
        let end = if self.is_listed { "," } else { "" };
        write!(
            f,
            "{}{}{}{end}",
            self.value,
            TailText("/", self.mask),
            TailText("+", self.step)
        )
    }
}
