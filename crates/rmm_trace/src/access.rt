//! Functions that read the registers of calls, and other values, from the lines of a trace.
ghost use Rattle.std.specs.Prelude.{◌≡◌};
ghost use Rattle.rmm_trace.specs.Access.{number_or_zero, number_at, operand_at, after_name, call_registers};

use crate::compare::atom_number;
use crate::place::{PLATFORM, SMC};
use crate::word::{Atom, TraceWord};

/// The function identifier of each RMI command, at the index of the command's name. RMM 1.0, RMI commands.
pub const FUNCTIONS: [u64; 23] = [
    // rmi_version to rmi_granule_undelegate
    0xC400_0150,
    0xC400_0165,
    0xC400_0151,
    0xC400_0152,
    // rmi_realm_create to rmi_realm_destroy
    0xC400_0158,
    0xC400_0157,
    0xC400_0159,
    // rmi_rec_create to rmi_rec_aux_count
    0xC400_015A,
    0xC400_015B,
    0xC400_015C,
    0xC400_0167,
    // rmi_rtt_create to rmi_rtt_unmap_unprotected
    0xC400_015D,
    0xC400_015E,
    0xC400_0166,
    0xC400_0168,
    0xC400_0169,
    0xC400_0161,
    0xC400_015F,
    0xC400_0162,
    // rmi_data_create to rmi_data_destroy, rmi_psci_complete
    0xC400_0153,
    0xC400_0154,
    0xC400_0155,
    0xC400_0164,
];

pub(crate) fn number_or_zero(atom: Option<Atom>) -> u64
    ensures { result ≡ number_or_zero atom }
{
    match atom {
        Some(atom) => atom_number(atom).unwrap_or(0),
        None => 0,
    }
}

// The number of a word in a round of a `repeat`: each round adds the step. The first round is 0.
pub(crate) fn number_at(word: TraceWord, round: u64) -> u64
    ensures { result ≡ number_at word round }
{
    number_or_zero(Some(word.value)).wrapping_add(number_or_zero(word.step).wrapping_mul(round))
}

/// Returns the value of an operand in a given round of a `repeat` line; any other line has only round 0. The operand is
/// the word at the index `place`. The value is 0 if there is no such word. A name without a number counts as 0.
pub fn operand(words: &[TraceWord], place: usize, round: u64) -> u64
    ensures { result ≡ operand_at words.now place round }
{
    match words.get(place) {
        Some(word) => number_at(*word, round),
        None => 0,
    }
}

/// Returns the words after the first occurrence of a name, or no words if the name does not occur.
pub fn after_name(words: &[TraceWord], name: usize) -> &[TraceWord]
    ensures { result.now ≡ after_name name words.now }
{
    let mut left = words;
    'words: while let [first, rest @ ..] = left {
        if let Atom::Name(place) = first.value {
            if place == name {
                return rest;
            }
        }
        left = rest;
    }
    left
}

/// Returns the registers X0 to X6 of a call in a given round of a `repeat`. The call begins with the name of a command,
/// or with `smc`; the result is `None` for other words.
pub fn call_registers(call: &[TraceWord], round: u64) -> Option<[u64; 7]>
    ensures { result ≡ call_registers call.now round }
{
    let [first, rest @ ..] = call else {
        return None;
    };
    let Atom::Name(place) = first.value else {
        return None;
    };
    if place < PLATFORM {
        return Some([
            FUNCTIONS[place],
            operand(rest, 0, round),
            operand(rest, 1, round),
            operand(rest, 2, round),
            operand(rest, 3, round),
            operand(rest, 4, round),
            operand(rest, 5, round),
        ]);
    }
    if place != SMC {
        return None;
    }
    Some([
        operand(rest, 0, round),
        operand(rest, 1, round),
        operand(rest, 2, round),
        operand(rest, 3, round),
        operand(rest, 4, round),
        operand(rest, 5, round),
        operand(rest, 6, round),
    ])
}
