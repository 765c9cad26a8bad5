//! Functions that write the host's parameter pages field by field. RMM 1.0, RmiRealmParams, RmiRecParams and
//! RmiRecEnter.
ghost use Rattle.std.specs.Prelude.{◌≡◌};
ghost use Rattle.rmm_model.specs.Host.{can_fill};
ghost use Rattle.rmm_trace.specs.Access.{operand_at};
ghost use Rattle.rmm_answers.specs.Page as pages;

use crate::words::rest;
use page_arena::PageStore;
use rmm::Rmm;
use rmm_trace::place::{
    AUX, FLAGS, GICV3_HCR, GICV3_LRS, GPRS, HASH_ALGO, MPIDR, NUM_BPS, NUM_WPS, PC, PMU_NUM_CTRS,
    RPV, RTT_BASE, RTT_LEVEL_START, RTT_NUM_START, S2SZ, SVE_VL, VMID,
};
use rmm_trace::{Atom, TraceWord, after_name, operand};

/// The fields of RmiRealmParams, each with the index of its name in the table of names and its byte offset in the page.
pub const REALM_FIELDS: [(usize, u64); 12] = [
    (FLAGS, 0x0),
    (S2SZ, 0x8),
    (SVE_VL, 0x10),
    (NUM_BPS, 0x18),
    (NUM_WPS, 0x20),
    (PMU_NUM_CTRS, 0x28),
    (HASH_ALGO, 0x30),
    (RPV, 0x400),
    (VMID, 0x800),
    (RTT_BASE, 0x808),
    (RTT_LEVEL_START, 0x810),
    (RTT_NUM_START, 0x818),
];

/// The fields of RmiRecParams except NUM_AUX, each with the index of its name in the table of names and its byte offset
/// in the page. NUM_AUX is the number of values of `aux`.
pub const REC_FIELDS: [(usize, u64); 5] = [
    (FLAGS, 0x0),
    (MPIDR, 0x100),
    (PC, 0x200),
    (GPRS, 0x300),
    (AUX, 0x808),
];

/// The fields of RmiRecEnter, each with the index of its name in the table of names and its byte offset in the page.
pub const RUN_FIELDS: [(usize, u64); 4] = [
    (FLAGS, 0x0),
    (GPRS, 0x200),
    (GICV3_HCR, 0x300),
    (GICV3_LRS, 0x308),
];

// The offset of NUM_AUX in RmiRecParams.
pub const NUM_AUX: u64 = 0x800;

// The offset of the field with a name; 0 if there is no such field.
fn offset_in(fields: &[(usize, u64)], name: usize) -> u64
    ensures { result ≡ pages.offset_in name fields.now }
{
    for field in fields {
        if field.0 == name {
            return field.1;
        }
    }
    0
}

// The offset for the value that follows a word: the field's offset if the word names a field, and otherwise eight bytes
// further.
fn next_offset(fields: &[(usize, u64)], at: u64, atom: Atom) -> u64
    ensures { result ≡ pages.next_offset fields.now at atom }
{
    match atom {
        Atom::Name(name) => offset_in(fields, name),
        Atom::Decimal(_) => at.wrapping_add(8),
        Atom::Hexadecimal(_) => at.wrapping_add(8),
    }
}

// Stores a value at an address; a name is not stored.
fn store_value<S: PageStore>(rmm: &mut Rmm<S>, address: u64, atom: Atom)
    ensures { rmm.new ≡ pages.with_stored rmm.old address atom }
{
    match atom {
        Atom::Name(_) => {}
        Atom::Decimal(number) => {
            rmm.store(address, number);
        }
        Atom::Hexadecimal(number) => {
            rmm.store(address, number);
        }
    }
}

// Stores fields of a page. A name moves to the field's offset, and the values after it are stored from there on, one
// after another.
#[tactic(auto, unfolding(crate::specs::Page::with_fields))]
fn store_fields<S: PageStore>(
    rmm: &mut Rmm<S>,
    fields: &[(usize, u64)],
    address: u64,
    words: &[TraceWord],
)
    ensures { rmm.new ≡ pages.with_fields fields.now address 0 words.now rmm.old }
{
    let mut at: u64 = 0;
    let mut left = words;
    'words: while let [first, rest @ ..] = left {
        store_value(rmm, address.wrapping_add(at), first.value);
        at = next_offset(fields, at, first.value);
        left = rest;
    }
}

// Writes a page with these fields, and zeros in all other bytes. Returns whether the host may write the page.
#[tactic(auto, unfolding(crate::specs::Page::after_page))]
fn write_page<S: PageStore>(rmm: &mut Rmm<S>, fields: &[(usize, u64)], words: &[TraceWord]) -> bool
    ensures answer { result ≡ can_fill rmm.old (operand_at words.now 0 0) }
    ensures machine { rmm.new ≡ pages.after_page fields.now words.now rmm.old }
{
    let address = operand(words, 0, 0);
    if !rmm.fill(address, 0) {
        return false;
    }
    store_fields(rmm, fields, address, rest(words));
    true
}

// Writes an RmiRealmParams.
pub(crate) fn write_realm_params<S: PageStore>(rmm: &mut Rmm<S>, words: &[TraceWord]) -> bool
    ensures answer { result ≡ can_fill rmm.old (operand_at words.now 0 0) }
    ensures machine { rmm.new ≡ pages.after_page REALM_FIELDS words.now rmm.old }
{
    write_page(rmm, &REALM_FIELDS, words)
}

// Writes an RmiRecParams. NUM_AUX is the number of values of `aux`.
#[tactic(auto, unfolding(crate::specs::Page::after_rec_params, crate::specs::Page::after_page))]
pub(crate) fn write_rec_params<S: PageStore>(rmm: &mut Rmm<S>, words: &[TraceWord]) -> bool
    ensures answer { result ≡ can_fill rmm.old (operand_at words.now 0 0) }
    ensures machine { rmm.new ≡ pages.after_rec_params words.now rmm.old }
{
    let is_done = write_page(rmm, &REC_FIELDS, words);
    if is_done {
        let num_aux = after_name(words, AUX).len() as u64;
        rmm.store(operand(words, 0, 0).wrapping_add(NUM_AUX), num_aux);
    }
    is_done
}

// Writes an RmiRecEnter.
pub(crate) fn write_rec_run<S: PageStore>(rmm: &mut Rmm<S>, words: &[TraceWord]) -> bool
    ensures answer { result ≡ can_fill rmm.old (operand_at words.now 0 0) }
    ensures machine { rmm.new ≡ pages.after_page RUN_FIELDS words.now rmm.old }
{
    write_page(rmm, &RUN_FIELDS, words)
}
