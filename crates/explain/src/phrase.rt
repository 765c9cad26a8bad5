//! Phrases: message texts with gaps, and the values that fill the gaps.
//!
//! A function that chooses words returns a phrase, and `Phrase::push` writes it. So the choice is an expression over
//! the numbers of a check, and cannot fail.
ghost use Rattle.std.specs.Prelude.{OnOk, string_bytes};
ghost use Rattle.explain.specs.Words.{AppendsWords};

use crate::names::{entry_state, granule_state, realm_state, rec_state};
use crate::roles::Role;
use granule_addr::BuildId;
use page_arena::PageStore;
use realm_host::{EntryState, GranuleState, Host, RealmState, RecState};
use std::alloc::AllocError;

/// A letter that a message has in place of a page's number, if the message cannot give the number.
#[derive(Clone, Copy)]
pub(crate) enum Letter {
    P,
    Q,
    R,
}

impl Letter {
    fn word(self) -> &'static str {
        match self {
            Letter::P => "P",
            Letter::Q => "Q",
            Letter::R => "R",
        }
    }
}

/// A value that fills a gap in a phrase.
#[derive(Clone, Copy)]
pub(crate) enum Value {
    Number(u64),
    /// A placeholder letter for the number of a page.
    Letter(Letter),
    /// The state of a granule, or `None` if the granule is missing. The next three kinds of value are the same for the
    /// state of a realm, a REC and a table entry.
    GranuleState(Option<GranuleState>),
    RealmState(Option<RealmState>),
    RecState(Option<RecState>),
    EntryState(Option<EntryState>),
    /// A page of a build, such as `data page 5`, by its role and its number.
    Page(Role, u16),
    /// A granule, such as `data granule 5`, by its role and its number.
    Granule(Role, u16),
}

/// A message text with gaps, and a value for each of them. A gap `{}` is replaced by the value. A gap with two nouns,
/// such as `{ page| pages}`, is replaced by a number and the noun that fits it: `1 page` or `3 pages`.
#[derive(Clone, Copy)]
pub(crate) struct Phrase {
    words: &'static str,
    values: [Value; 4],
}

pub(crate) fn four_values(words: &'static str, a: Value, b: Value, c: Value, d: Value) -> Phrase {
    Phrase {
        words,
        values: [a, b, c, d],
    }
}

pub(crate) fn three_values(words: &'static str, a: Value, b: Value, c: Value) -> Phrase {
    four_values(words, a, b, c, Value::Number(0))
}

pub(crate) fn two_values(words: &'static str, a: Value, b: Value) -> Phrase {
    three_values(words, a, b, Value::Number(0))
}

pub(crate) fn one_value(words: &'static str, a: Value) -> Phrase {
    two_values(words, a, Value::Number(0))
}

/// Returns a phrase whose values are four numbers. The next functions take three, two, one or no numbers, and the other
/// values are 0.
pub(crate) fn four(words: &'static str, a: u64, b: u64, c: u64, d: u64) -> Phrase {
    Phrase {
        words,
        values: [
            Value::Number(a),
            Value::Number(b),
            Value::Number(c),
            Value::Number(d),
        ],
    }
}

pub(crate) fn three(words: &'static str, a: u64, b: u64, c: u64) -> Phrase {
    four(words, a, b, c, 0)
}

pub(crate) fn two(words: &'static str, a: u64, b: u64) -> Phrase {
    four(words, a, b, 0, 0)
}

pub(crate) fn one(words: &'static str, a: u64) -> Phrase {
    four(words, a, 0, 0, 0)
}

pub(crate) fn plain(words: &'static str) -> Phrase {
    four(words, 0, 0, 0, 0)
}

/// Returns the value for a page's number, or for a placeholder letter if there is no page.
pub(crate) fn page_or(page: Option<u16>, letter: Letter) -> Value {
    match page {
        Some(page) => Value::Number(page as u64),
        None => Value::Letter(letter),
    }
}

fn push_number(text: &mut String, number: u64) -> Result<(), AllocError>
    ensures { OnOk result (AppendsWords (string_bytes text.old) (string_bytes text.new)) }
{
    write!(text, "{number}")
}

// The noun that fits a number, of the two in `nouns`. It is empty if there are none.
fn noun_of(nouns: &str, number: u64) -> &str {
    match nouns.split_once("|") {
        Some((noun, _)) if number == 1 => noun,
        Some((_, nouns)) => nouns,
        None => "",
    }
}

// Appends a number and the noun that fits it.
fn push_count(text: &mut String, number: u64, nouns: &str) -> Result<(), AllocError>
    ensures { OnOk result (AppendsWords (string_bytes text.old) (string_bytes text.new)) }
{
    push_number(text, number)?;
    text.push_str(noun_of(nouns, number))
}

// Appends a role, a noun (`page` or `granule`) and a number.
fn push_named(text: &mut String, role: Role, noun: &str, number: u16) -> Result<(), AllocError>
    ensures { OnOk result (AppendsWords (string_bytes text.old) (string_bytes text.new)) }
{
    text.push_str(role.words())?;
    text.push_str(noun)?;
    push_number(text, number as u64)
}

impl Value {
    /// Converts the value to a granule if it is a page of the build. Any other value is returned unchanged.
    pub(crate) fn in_granules<S: PageStore>(self, host: &Host<S>, build: BuildId) -> Value {
        let Value::Page(role, page) = self else {
            return self;
        };
        match host.page_granule(build, page) {
            Some(granule) => Value::Granule(role, granule.number()),
            None => self,
        }
    }

    // The word for a letter or a state. It is empty for any other value.
    fn word(self) -> &'static str {
        match self {
            Value::Letter(letter) => letter.word(),
            Value::GranuleState(state) => granule_state(state),
            Value::RealmState(state) => realm_state(state),
            Value::RecState(state) => rec_state(state),
            Value::EntryState(state) => entry_state(state),
            Value::Number(_) | Value::Page(..) | Value::Granule(..) => "",
        }
    }

    // Appends the value. `nouns` are those of its gap.
    fn push(self, text: &mut String, nouns: &str) -> Result<(), AllocError>
        ensures { OnOk result (AppendsWords (string_bytes text.old) (string_bytes text.new)) }
    {
        match self {
            Value::Number(number) => push_count(text, number, nouns),
            Value::Page(role, page) => push_named(text, role, "page ", page),
            Value::Granule(role, granule) => push_named(text, role, "granule ", granule),
            _ => text.push_str(self.word()),
        }
    }
}

// Appends words, with each gap filled by the next value.
fn fill(text: &mut String, words: &str, values: &[Value]) -> Result<(), AllocError>
    ensures { OnOk result (AppendsWords (string_bytes text.old) (string_bytes text.new)) }
{
    let mut rest = words;
    for value in values {
        let Some((part, others)) = rest.split_once("{") else {
            break;
        };
        let Some((nouns, others)) = others.split_once("}") else {
            break;
        };
        text.push_str(part)?;
        value.push(text, nouns)?;
        rest = others;
    }
    text.push_str(rest)
}

impl Phrase {
    /// Replaces each page of the build in the phrase by its granule.
    pub(crate) fn in_granules<S: PageStore>(self, host: &Host<S>, build: BuildId) -> Phrase {
        let [a, b, c, d] = self.values;
        four_values(
            self.words,
            a.in_granules(host, build),
            b.in_granules(host, build),
            c.in_granules(host, build),
            d.in_granules(host, build),
        )
    }

    /// Appends the phrase, with its values filled in, to a text.
    pub(crate) fn push(self, text: &mut String) -> Result<(), AllocError>
        ensures { OnOk result (AppendsWords (string_bytes text.old) (string_bytes text.new)) }
    {
        fill(text, self.words, &self.values)
    }
}
