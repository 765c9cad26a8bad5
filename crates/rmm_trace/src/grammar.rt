//! The grammar of a trace line's question, which is its part before ` = `. This file has the types for the table of
//! word groups, and the check that words form a question.
ghost use Rattle.std.specs.Prelude.{◌≡◌, Some};
ghost use Rattle.std.specs.Option.{option_copied};
ghost use Rattle.rmm_trace.specs.Grammar.{is_number_of, is_of_kind, kind_at, row_of};
ghost use Rattle.rmm_trace.specs.Grammar.{if_place, enter, opened, next, is_complete, accepts};

use crate::word::{Atom, TraceWord};

/// A kind of value in a trace line: the numbers and the names that it allows.
///
/// A number is in the range, and a multiple of the unit. Unless `multiple` is 0, the number is also a divisor of it, or
/// 0. A name is one of `name_count` names of the table, from `first_name` on.
#[derive(Clone, Copy)]
pub struct ValueKind {
    pub least: u64,
    pub most: u64,
    pub unit: u64,
    pub multiple: u64,
    pub first_name: usize,
    pub name_count: usize,
}

/// A grammar rule for a group of words in a trace line: a name and its values. The rule says how many values of which
/// kinds follow the name, and which groups may come next.
#[derive(Clone, Copy)]
pub struct Group {
    /// The contexts of the grammar in which the group may occur. Each context has one bit.
    pub contexts: u64,
    pub name: usize,
    pub least: usize,
    pub most: usize,
    pub first: ValueKind,
    pub second: ValueKind,
    pub third: ValueKind,
    pub others: ValueKind,
    /// The context of the group that follows, or 0 if none may follow.
    pub opens: u64,
    /// Whether a trace line's question, its part before ` = `, may end with this group.
    pub is_last: bool,
    /// The bit of this group in `excludes` and in `Place::seen`, or 0 if the group has none.
    pub bit: u64,
    /// The bits of the groups that may not precede this group.
    pub excludes: u64,
}

/// The position in the grammar after some words of a trace line, with the current group and the number of its values so
/// far.
#[derive(Clone, Copy)]
pub struct Place {
    pub group: Group,
    pub context: u64,
    pub count: usize,
    /// The bits of all groups of words found so far in the line.
    pub seen: u64,
}

/// The grammar context of the call or the `fill` that a `repeat` line of a trace repeats. Operands may have a step in
/// this context.
pub const REPEATED: u64 = 2;

fn is_number_of(kind: &ValueKind, number: u64) -> bool
    ensures { result ≡ is_number_of kind.now number }
{
    if number < kind.least || kind.most < number {
        return false;
    }
    if kind.unit == 0 || number % kind.unit != 0 {
        return false;
    }
    number == 0 || kind.multiple % number == 0
}

/// Returns whether a name or number is a value of the given kind.
pub fn is_of_kind(kind: &ValueKind, atom: Atom) -> bool
    ensures { result ≡ is_of_kind kind.now atom }
{
    match atom {
        Atom::Name(name) => { kind.first_name <= name && name - kind.first_name < kind.name_count }
        Atom::Decimal(number) => is_number_of(kind, number),
        Atom::Hexadecimal(number) => is_number_of(kind, number),
    }
}

// The kind of a value, by the number of values before it.
fn kind_at(group: &Group, count: usize) -> &ValueKind
    ensures { result.now ≡ kind_at group.now count }
{
    match count {
        0 => &group.first,
        1 => &group.second,
        2 => &group.third,
        _ => &group.others,
    }
}

// The first group that has this name and may occur in this context.
fn row_of(groups: &[Group], context: u64, name: usize) -> Option<&Group>
    ensures { option_copied result ≡ row_of context name groups.now }
{
    for group in groups {
        if group.name == name && group.contexts & context != 0 {
            return Some(group);
        }
    }
    None
}

impl Place {
    // Enters a group, unless the group excludes one that was entered before, and returns whether the group was entered.
    fn enter(&mut self, group: &Group) -> bool
        ensures { if_place result self.new ≡ enter self.old group.now }
    {
        if self.seen & group.excludes != 0 {
            return false;
        }
        self.context = self.group.opens;
        self.group = *group;
        self.count = 0;
        self.seen |= group.bit;
        true
    }

    // Enters the group that a name begins, and returns whether such a group may follow.
    fn open(&mut self, groups: &[Group], atom: Atom) -> bool
        ensures { if_place result self.new ≡ opened groups.now self.old atom }
    {
        let Atom::Name(name) = atom else {
            return false;
        };
        match row_of(groups, self.group.opens, name) {
            Some(group) => self.enter(group),
            None => false,
        }
    }

    // Advances by a word, and returns whether a question may have that word here.
    fn advance(&mut self, groups: &[Group], word: &TraceWord) -> bool
        ensures { if_place result self.new ≡ next groups.now self.old word.now }
    {
        if word.is_listed || word.mask.is_some() {
            return false;
        }
        if word.step.is_some() && self.context != REPEATED {
            return false;
        }
        if self.count < self.group.most
            && is_of_kind(kind_at(&self.group, self.count), word.value)
        {
            self.count += 1;
            return true;
        }
        if word.step.is_some() || self.count < self.group.least {
            return false;
        }
        self.open(groups, word.value)
    }

    // Whether a question may end here.
    fn is_complete(&self) -> bool
        ensures { result ≡ is_complete self.now }
    {
        self.group.is_last && self.group.least <= self.count
    }
}

/// Returns whether the grammar accepts a list of words, from a given position on. Each word updates one `Place`.
pub fn accepts(groups: &[Group], start: Place, words: &[TraceWord]) -> bool
    ensures { result ≡ accepts groups.now (Some start) words.now }
{
    let mut it = start;
    for word in words {
        if !it.advance(groups, word) {
            return false;
        }
    }
    it.is_complete()
}
