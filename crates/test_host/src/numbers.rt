//! Tests of IPA widths, of the RTT entry that covers an IPA granule, and of the words that encode results and RTT
//! entries. The expected values are worked out by hand.
use crate::expected::{equal, holds_at};
use crate::names::granule;
use granule_addr::{IpaGran, IpaWidth, Level, index_at, is_protected, start_table};
use realm_model::{Ripas, Rmi, Status};
use rtt::Entry;

// Rows, each with an IPA granule, its width, its starting table, a level, and the index of its entry at that level.
//
// 788,999 is 3 * 2^18 + 5 * 2^9 + 7. The second starting table begins at 2^27.
const ENTRIES: [(u32, u8, u16, u8, u16); 7] = [
    (788_999, 39, 0, 1, 3),
    (788_999, 39, 0, 2, 5),
    (788_999, 39, 0, 3, 7),
    (134_217_727, 43, 0, 1, 511),
    (134_217_728, 43, 1, 1, 0),
    (268_435_455, 43, 1, 1, 511),
    (2_147_483_647, 43, 15, 1, 511),
];

fn is_covered(number: u32, width: u8, table: u16, level: u8, entry: u16) -> bool {
    match (IpaGran::new(number, width), Level::new(level)) {
        (Some(ipa), Some(level)) => start_table(ipa) == table && index_at(ipa, level) == entry,
        _ => false,
    }
}

#[test]
fn entries_and_starting_tables(rt: HostRuntime) {
    let mut place = 0;
    for (number, width, table, level, entry) in ENTRIES {
        let is_so = is_covered(number, width, table, level, entry);
        holds_at(&rt, "an IPA granule", place, is_so);
        place = place.saturating_add(1);
    }
}

// Rows, each with an IPA width, its number of starting tables, and its first unprotected IPA granule.
const WIDTHS: [(u8, u16, u32); 5] = [
    (39, 1, 67_108_864),
    (40, 2, 134_217_728),
    (41, 4, 268_435_456),
    (42, 8, 536_870_912),
    (43, 16, 1_073_741_824),
];

fn is_width(number: u8, tables: u16, unprotected: u32) -> bool {
    let Some(width) = IpaWidth::new(number) else {
        return false;
    };
    let last = IpaGran::new(unprotected.saturating_sub(1), number);
    match (last, IpaGran::new(unprotected, number)) {
        (Some(last), Some(first)) => {
            width.start_count() == tables
                && is_protected(last, width)
                && !is_protected(first, width)
        }
        _ => false,
    }
}

#[test]
fn widths(rt: HostRuntime) {
    for (number, tables, unprotected) in WIDTHS {
        let is_so = is_width(number, tables, unprotected);
        holds_at(&rt, "a width", number as usize, is_so);
    }
}

// Bits 0 to 7 of a result word are the status, and bits 8 to 15 the index.
#[test]
fn result_words(rt: HostRuntime) {
    for (status, index, word) in [
        (Status::Input, 0, 1),
        (Status::Realm, 0, 2),
        (Status::Rec, 0, 3),
        (Status::Rtt, 0, 4),
        (Status::Rtt, 3, 772),
        (Status::Rtt, 255, 65_284),
    ] {
        equal(&rt, "a result", Rmi { status, index }.word(), word);
    }
}

// Whether an entry is encoded as a word, and the word is decoded as the entry.
fn is_word_of(entry: Entry, word: u64) -> bool {
    entry.to_word() == word && Entry::from_word(word) == entry
}

// Bits 0 and 1 of an entry's word are the state, bits 2 and 3 the RIPAS, and the bits from 12 on the granule.
#[test]
fn entry_words(rt: HostRuntime) {
    let mut place = 0;
    for (entry, word) in [
        (Entry::unassigned(Ripas::Empty), 0),
        (Entry::unassigned(Ripas::Destroyed), 8),
        (Entry::assigned(Ripas::Ram, granule(5)), 20_485),
        (Entry::table(granule(3)), 12_290),
        (Entry::assigned(Ripas::Empty, granule(4095)), 16_773_121),
    ] {
        holds_at(&rt, "an entry", place, is_word_of(entry, word));
        place = place.saturating_add(1);
    }
}
