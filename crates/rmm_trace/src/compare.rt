//! The comparison of answers in a trace with the answers of the RMM model. Parts that a call's answer in the trace
//! omits are not compared.
ghost use Rattle.std.specs.Prelude.{◌≡◌, ◌<◌, ◌∷◌, length};
ghost use Rattle.std.specs.List.{list_any};
ghost use Rattle.rmm_trace.specs.Compare.{is_name_among, ordinal, atom_number, mask_of, is_same_number, is_same_atom};
ghost use Rattle.rmm_trace.specs.Compare.{is_dash, is_same_value, is_check, starts_check, ends_part, missing_values_are_zeros};
ghost use Rattle.rmm_trace.specs.Compare.{first_of, rest_of, are_values, parts, is_same_name, is_same_part, has_part};
ghost use Rattle.rmm_trace.specs.Compare.{are_parts, are_first, is_pair, check_in, is_unsure, place_of, command_in};
ghost use Rattle.rmm_trace.specs.Compare.{is_register, is_same_register, is_same_by, is_same};

use crate::place::{
    CHECK_AUX_BOUND, CHECK_BASE_ALIGN, CHECK_BASE_BOUND, CHECK_BASE_GRAN_ALIGN, CHECK_DESC_BOUND,
    CHECK_FLAGS_VALID, CHECK_NO_PROGRESS, CHECK_NUM_RECS, CHECK_PARAMS_VALID, CHECK_RTT_BLOCK,
    CHECK_RTT_HOMO, CHECK_RTTE_RIPAS, CHECK_RTTE_STATE, CHECK_SIZE, CHECK_STATUS,
    CHECK_TOP_GRAN_ALIGN, CHECK_VERSION, DASH, EMPTY, FILL, FIRST_CHECK, GPRS, INTERRUPT, PLATFORM,
    PSCI_DENIED, PSCI_SUCCESS, REPEAT, RMI_DATA_CREATE, RMI_PSCI_COMPLETE, RMI_REC_CREATE,
    RMI_RTT_FOLD, RMI_RTT_INIT_RIPAS, RMI_RTT_MAP_UNPROTECTED, RMI_RTT_SET_RIPAS, RMI_SUCCESS,
    RMI_VERSION, SYNC, UNASSIGNED,
};
use crate::word::{Atom, TraceWord};

// ---- values

// Whether an index is one of the `count` indices from `first` on.
fn is_name_among(first: usize, count: usize, place: usize) -> bool
    ensures { result ≡ is_name_among first count place }
{
    first <= place && place - first < count
}

// The number that the name of a state, a RIPAS, an exit reason or a PSCI status means.
fn ordinal(place: usize) -> Option<u64>
    ensures { result ≡ ordinal place }
{
    if is_name_among(UNASSIGNED, 3, place) {
        return Some((place - UNASSIGNED) as u64);
    }
    if is_name_among(EMPTY, 3, place) {
        return Some((place - EMPTY) as u64);
    }
    if is_name_among(SYNC, 7, place) {
        return Some((place - SYNC) as u64);
    }
    if place == PSCI_SUCCESS {
        return Some(0);
    }
    if place == PSCI_DENIED {
        return Some(0xFFFF_FFFF_FFFF_FFFD);
    }
    None
}

/// Returns the number that an atom of a trace line represents, or `None` for a name without a number.
pub fn atom_number(atom: Atom) -> Option<u64>
    ensures { result ≡ atom_number atom }
{
    match atom {
        Atom::Name(place) => ordinal(place),
        Atom::Decimal(number) => Some(number),
        Atom::Hexadecimal(number) => Some(number),
    }
}

// The mask of the bits that are compared: all bits if a word has no mask.
fn mask_of(mask: Option<Atom>) -> u64
    ensures { result ≡ mask_of mask }
{
    match mask {
        Some(Atom::Decimal(bits)) => bits,
        Some(Atom::Hexadecimal(bits)) => bits,
        Some(Atom::Name(_)) => u64::MAX,
        None => u64::MAX,
    }
}

fn is_same_number(mask: u64, written: Option<u64>, ours: Option<u64>) -> bool
    ensures { result ≡ is_same_number mask written ours }
{
    match (written, ours) {
        (Some(a), Some(b)) => a & mask == b & mask,
        _ => false,
    }
}

fn is_same_atom(mask: u64, written: Atom, ours: Atom) -> bool
    ensures { result ≡ is_same_atom mask written ours }
{
    match (written, ours) {
        (Atom::Name(place), Atom::Name(other)) => place == other,
        _ => is_same_number(mask, atom_number(written), atom_number(ours)),
    }
}

fn is_dash(atom: Atom) -> bool
    ensures { result ≡ is_dash atom }
{
    match atom {
        Atom::Name(place) => place == DASH,
        _ => false,
    }
}

// Whether a written value agrees with the model's: `-` agrees with any value, and a mask restricts the comparison to
// its bits.
fn is_same_value(written: TraceWord, ours: TraceWord) -> bool
    ensures { result ≡ is_same_value written ours }
{
    is_dash(written.value) || is_same_atom(mask_of(written.mask), written.value, ours.value)
}

/// Returns whether a word of a trace can be the value of a register. Such a word represents a number or is `-`,
/// and has no comma after it.
pub fn is_register(word: TraceWord) -> bool
    ensures { result ≡ is_register word }
{
    !word.is_listed && (is_dash(word.value) || atom_number(word.value).is_some())
}

/// Returns whether a register value written in a trace agrees with the model's value.
pub fn is_same_register(written: TraceWord, ours: TraceWord) -> bool
    ensures { result ≡ is_same_register written ours }
{
    is_register(written) && is_same_value(written, ours)
}

const ZERO: TraceWord = TraceWord {
    value: Atom::Decimal(0),
    mask: None,
    step: None,
    is_listed: false,
};

/// Splits a list of words into the first word and the rest. For an empty list, the results are the number 0 and an
/// empty list.
pub fn split_word(words: &[TraceWord]) -> (TraceWord, &[TraceWord])
    ensures first { result.0 ≡ first_of words.now }
    ensures rest { result.1.now ≡ rest_of words.now }
{
    match words {
        [] => (ZERO, words),
        [first, rest @ ..] => (*first, rest),
    }
}

// Whether the written values agree with the model's, if zeros follow the shorter list.
fn are_values(written: &[TraceWord], ours: &[TraceWord]) -> bool
    ensures { result ≡ are_values written.now ours.now }
{
    let mut left = written;
    let mut right = ours;
    'values: while left.len().max(right.len()) > 0 {
        let (a, after_a) = split_word(left);
        let (b, after_b) = split_word(right);
        if !is_same_value(a, b) {
            return false;
        }
        left = after_a;
        right = after_b;
    }
    true
}

// ---- parts

fn is_check(atom: Atom) -> bool
    ensures { result ≡ is_check atom }
{
    match atom {
        Atom::Name(place) => FIRST_CHECK <= place,
        Atom::Decimal(_) => false,
        Atom::Hexadecimal(_) => false,
    }
}

fn starts_check(words: &[TraceWord]) -> bool
    ensures { result ≡ starts_check words.now }
{
    match words {
        [] => false,
        [first, ..] => is_check(first.value),
    }
}

// Whether a word is the last of its part: the word has a comma, or a check follows.
fn ends_part(word: TraceWord, rest: &[TraceWord]) -> bool
    ensures { result ≡ ends_part word rest.now }
{
    word.is_listed || starts_check(rest)
}

// The first part of an answer, and the rest of the answer.
fn split_part(words: &[TraceWord]) -> (&[TraceWord], &[TraceWord])
    ensures parts { 0 < length words.now → parts words.now ≡ result.0.now ∷ parts result.1.now }
    ensures smaller { 0 < length words.now → length result.1.now < length words.now }
{
    let mut end = 0;
    let mut left = words;
    'part: while left.len() > 0 {
        let (first, rest) = split_word(left);
        end += 1;
        if ends_part(first, rest) {
            return (&words[..end], rest);
        }
        left = rest;
    }
    (words, left)
}

// Whether missing values count as zeros in a part that begins with this atom: a status, or `gprs`.
fn missing_values_are_zeros(atom: Atom) -> bool
    ensures { result ≡ missing_values_are_zeros atom }
{
    match atom {
        Atom::Name(place) => place == GPRS || is_name_among(RMI_SUCCESS, 5, place),
        Atom::Decimal(_) => false,
        Atom::Hexadecimal(_) => false,
    }
}

// Whether the first words of two parts are the same. Any two checks are, if checks are not compared.
fn is_same_name(are_checks_compared: bool, written: TraceWord, ours: TraceWord) -> bool
    ensures { result ≡ is_same_name are_checks_compared written ours }
{
    if !are_checks_compared && is_check(written.value) && is_check(ours.value) {
        return true;
    }
    is_same_value(written, ours)
}

fn is_same_part(are_checks_compared: bool, written: &[TraceWord], ours: &[TraceWord]) -> bool
    ensures { result ≡ is_same_part are_checks_compared written.now ours.now }
{
    let [a, left @ ..] = written else {
        return false;
    };
    let [b, right @ ..] = ours else {
        return false;
    };
    if !is_same_name(are_checks_compared, *a, *b) {
        return false;
    }
    if left.len() != right.len() && !missing_values_are_zeros(a.value) {
        return false;
    }
    are_values(left, right)
}

// Whether the model's answer has a part that agrees with a written one.
fn has_part(are_checks_compared: bool, part: &[TraceWord], ours: &[TraceWord]) -> bool
    ensures { result ≡ has_part are_checks_compared ours.now part.now }
{
    let mut left = ours;
    'parts: while !left.is_empty() {
        let (ours, rest) = split_part(left);
        if is_same_part(are_checks_compared, part, ours) {
            return true;
        }
        left = rest;
    }
    false
}

// Whether the model's answer has each part of a written answer.
fn are_parts(are_checks_compared: bool, written: &[TraceWord], ours: &[TraceWord]) -> bool
    ensures { result ≡ are_parts are_checks_compared written.now ours.now }
{
    let mut left = written;
    'parts: while !left.is_empty() {
        let (part, rest) = split_part(left);
        if !has_part(are_checks_compared, part, ours) {
            return false;
        }
        left = rest;
    }
    true
}

// Whether the model's answer begins with the words of a written answer.
fn are_first(written: &[TraceWord], ours: &[TraceWord]) -> bool
    ensures { result ≡ are_first written.now ours.now }
{
    let mut left = written;
    let mut right = ours;
    'words: while let [a, after_a @ ..] = left {
        let [b, after_b @ ..] = right else {
            return false;
        };
        if a.is_listed != b.is_listed || !is_same_value(*a, *b) {
            return false;
        }
        left = after_a;
        right = after_b;
    }
    true
}

// ---- checks

/// The checks whose names are not compared, each in a pair after its command. Each check is uncertain, or not in the
/// standard.
pub const UNSURE: [(usize, usize); 20] = [
    (RMI_VERSION, CHECK_VERSION),
    (RMI_DATA_CREATE, CHECK_FLAGS_VALID),
    (RMI_DATA_CREATE, CHECK_RTTE_RIPAS),
    (RMI_REC_CREATE, CHECK_AUX_BOUND),
    (RMI_REC_CREATE, CHECK_PARAMS_VALID),
    (RMI_REC_CREATE, CHECK_NUM_RECS),
    (RMI_RTT_MAP_UNPROTECTED, CHECK_DESC_BOUND),
    (RMI_RTT_FOLD, CHECK_RTT_HOMO),
    (RMI_RTT_FOLD, CHECK_RTT_BLOCK),
    (RMI_RTT_INIT_RIPAS, CHECK_SIZE),
    (RMI_RTT_INIT_RIPAS, CHECK_BASE_GRAN_ALIGN),
    (RMI_RTT_INIT_RIPAS, CHECK_BASE_BOUND),
    (RMI_RTT_INIT_RIPAS, CHECK_TOP_GRAN_ALIGN),
    (RMI_RTT_INIT_RIPAS, CHECK_NO_PROGRESS),
    (RMI_RTT_SET_RIPAS, CHECK_SIZE),
    (RMI_RTT_SET_RIPAS, CHECK_TOP_GRAN_ALIGN),
    (RMI_RTT_SET_RIPAS, CHECK_BASE_ALIGN),
    (RMI_RTT_SET_RIPAS, CHECK_RTTE_STATE),
    (RMI_RTT_SET_RIPAS, CHECK_NO_PROGRESS),
    (RMI_PSCI_COMPLETE, CHECK_STATUS),
];

fn has_pair(pairs: &[(usize, usize)], command: usize, check: usize) -> bool
    ensures { result ≡ list_any (is_pair command check) pairs.now }
{
    for pair in pairs {
        if pair.0 == command && pair.1 == check {
            return true;
        }
    }
    false
}

// The first check of an answer.
fn check_in(words: &[TraceWord]) -> Option<usize>
    ensures { result ≡ check_in words.now }
{
    let mut left = words;
    'words: while let [first, rest @ ..] = left {
        if let Atom::Name(place) = first.value {
            if FIRST_CHECK <= place {
                return Some(place);
            }
        }
        left = rest;
    }
    None
}

// Whether the name of an answer's check is unsure.
fn is_unsure(pairs: &[(usize, usize)], command: usize, words: &[TraceWord]) -> bool
    ensures { result ≡ is_unsure pairs.now command words.now }
{
    match check_in(words) {
        Some(check) => has_pair(pairs, command, check),
        None => false,
    }
}

// ---- answers

fn place_of(atom: Atom) -> usize
    ensures { result ≡ place_of atom }
{
    match atom {
        Atom::Name(place) => place,
        Atom::Decimal(_) => DASH,
        Atom::Hexadecimal(_) => DASH,
    }
}

// The name of a question, or of the call that it repeats.
fn command_in(question: &[TraceWord]) -> usize
    ensures { result ≡ command_in question.now }
{
    match question {
        [] => DASH,
        [first, _, call, ..] => {
            if place_of(first.value) == REPEAT {
                place_of(call.value)
            } else {
                place_of(first.value)
            }
        }
        [first, ..] => place_of(first.value),
    }
}

// Whether a written answer agrees with the model's, for a question whose name has the index `kind`.
fn is_same_by(
    kind: usize,
    are_checks_compared: bool,
    written: &[TraceWord],
    ours: &[TraceWord],
) -> bool
    ensures { result ≡ is_same_by kind are_checks_compared written.now ours.now }
{
    if kind < PLATFORM || kind == INTERRUPT || kind == FILL {
        return are_parts(are_checks_compared, written, ours);
    }
    written.len() == ours.len() && are_first(written, ours)
}

fn is_same_with(
    pairs: &[(usize, usize)],
    question: &[TraceWord],
    written: &[TraceWord],
    ours: &[TraceWord],
) -> bool
    ensures { result ≡ is_same pairs.now question.now written.now ours.now }
{
    let command = command_in(question);
    let has_unsure = is_unsure(pairs, command, written) || is_unsure(pairs, command, ours);
    is_same_by(command, !has_unsure, written, ours)
}

/// Returns whether an answer in a trace agrees with the model's answer. Answers to raw calls are compared by registers
/// instead.
///
/// Calls, interrupts and fills are compared by their parts, and others word by word. A name of a check that is unsure
/// is not compared.
pub fn is_same(question: &[TraceWord], written: &[TraceWord], ours: &[TraceWord]) -> bool
    ensures { result ≡ is_same UNSURE question.now written.now ours.now }
{
    is_same_with(&UNSURE, question, written, ours)
}
