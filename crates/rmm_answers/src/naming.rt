//! Functions that rewrite raw `smc` calls and their answers with names.
ghost use Rattle.std.specs.Prelude.{◌≡◌, ◌+◌, ◌<◌, ◌≤◌, length, slice_index_or, option_map};
ghost use Rattle.rmm_answers.specs.Naming as naming;

use crate::outputs::{command_place, outputs_of, put_returned, put_status};
use crate::put::put;
use crate::words::rest;
use rmm_trace::place::{PLATFORM, PSCI_DENIED, PSCI_SUCCESS};
use rmm_trace::{Atom, Sentence, TraceWord, atom_number, operand};

/// The notation of an operand: none, decimal, hexadecimal, or a PSCI status.
#[derive(Clone, Copy)]
pub enum OperandForm {
    Absent,
    Decimal,
    Hexadecimal,
    Psci,
}

use self::OperandForm::{Absent, Decimal, Hexadecimal, Psci};

/// The notation of each RMI command's operands X1 to X5. The index of a command is the place of its name in the table
/// of names. RMM 1.0, RMI commands.
pub const OPERANDS: [[OperandForm; 5]; 23] = [
    // rmi_version to rmi_granule_undelegate
    [Hexadecimal, Absent, Absent, Absent, Absent],
    [Decimal, Absent, Absent, Absent, Absent],
    [Hexadecimal, Absent, Absent, Absent, Absent],
    [Hexadecimal, Absent, Absent, Absent, Absent],
    // rmi_realm_create to rmi_realm_destroy
    [Hexadecimal, Hexadecimal, Absent, Absent, Absent],
    [Hexadecimal, Absent, Absent, Absent, Absent],
    [Hexadecimal, Absent, Absent, Absent, Absent],
    // rmi_rec_create to rmi_rec_aux_count
    [Hexadecimal, Hexadecimal, Hexadecimal, Absent, Absent],
    [Hexadecimal, Absent, Absent, Absent, Absent],
    [Hexadecimal, Hexadecimal, Absent, Absent, Absent],
    [Hexadecimal, Absent, Absent, Absent, Absent],
    // rmi_rtt_create to rmi_rtt_unmap_unprotected
    [Hexadecimal, Hexadecimal, Hexadecimal, Decimal, Absent],
    [Hexadecimal, Hexadecimal, Decimal, Absent, Absent],
    [Hexadecimal, Hexadecimal, Decimal, Absent, Absent],
    [Hexadecimal, Hexadecimal, Hexadecimal, Absent, Absent],
    [Hexadecimal, Hexadecimal, Hexadecimal, Hexadecimal, Absent],
    [Hexadecimal, Hexadecimal, Decimal, Absent, Absent],
    [Hexadecimal, Hexadecimal, Decimal, Hexadecimal, Absent],
    [Hexadecimal, Hexadecimal, Decimal, Absent, Absent],
    // rmi_data_create to rmi_data_destroy, rmi_psci_complete
    [
        Hexadecimal,
        Hexadecimal,
        Hexadecimal,
        Hexadecimal,
        Hexadecimal,
    ],
    [Hexadecimal, Hexadecimal, Hexadecimal, Absent, Absent],
    [Hexadecimal, Hexadecimal, Absent, Absent, Absent],
    [Hexadecimal, Hexadecimal, Psci, Absent, Absent],
];

// The atom for a PSCI status: a name for SUCCESS or DENIED, and a number for any other status.
fn psci_atom(status: u64) -> Atom
    ensures { result ≡ naming.psci_atom status }
{
    if status == 0 {
        return Atom::Name(PSCI_SUCCESS);
    }
    if status == 0xFFFF_FFFF_FFFF_FFFD {
        return Atom::Name(PSCI_DENIED);
    }
    Atom::Hexadecimal(status)
}

// Appends an operand in its form.
#[tactic(auto, unfolding(crate::specs::Naming::put_operand))]
fn put_operand(call: &mut Sentence, form: OperandForm, number: u64)
    requires { length call.old.items < 64 }
    ensures items { call.new.items ≡ naming.put_operand form number call.old.items }
    ensures len { length call.new.items ≤ length call.old.items + 1 }
{
    match form {
        Absent => {}
        Decimal => put(call, Atom::Decimal(number)),
        Hexadecimal => put(call, Atom::Hexadecimal(number)),
        Psci => put(call, psci_atom(number)),
    }
}

/// The operand notations of a command without operands: all absent.
pub const NO_OPERANDS: [OperandForm; 5] = [Absent, Absent, Absent, Absent, Absent];

// The operand forms in row `place`; `NO_OPERANDS` past the last row.
fn row_at(rows: &[[OperandForm; 5]], place: usize) -> [OperandForm; 5]
    ensures { result ≡ slice_index_or rows.now place NO_OPERANDS }
{
    if place < rows.len() {
        rows[place]
    } else {
        NO_OPERANDS
    }
}

// The call of a command by name, given the words after `smc`: the function identifier and the operands.
#[tactic(auto, unfolding(crate::specs::Naming::named_call))]
fn named_call(place: usize, words: &[TraceWord]) -> Sentence
    ensures { result.items ≡ naming.named_call place words.now }
{
    let forms = row_at(&OPERANDS, place);
    let mut call = Sentence::new();
    put(&mut call, Atom::Name(place));
    put_operand(&mut call, forms[0], operand(words, 1, 0));
    put_operand(&mut call, forms[1], operand(words, 2, 0));
    put_operand(&mut call, forms[2], operand(words, 3, 0));
    put_operand(&mut call, forms[3], operand(words, 4, 0));
    put_operand(&mut call, forms[4], operand(words, 5, 0));
    call
}

/// Rewrites a raw call `smc FID X1 ..` as a call by the command's name. Returns `None` if the function is not a
/// command.
#[tactic(auto, unfolding(crate::specs::Naming::named_question))]
pub fn named_question(question: &[TraceWord]) -> Option<Sentence>
    ensures { option_map (λ call. call.items) result ≡ naming.named_question question.now }
{
    let words = rest(question);
    let place = command_place(operand(words, 0, 0));
    if place < PLATFORM {
        Some(named_call(place, words))
    } else {
        None
    }
}

// ---- answers

// The number written for register `k` in a raw answer; `None` if the register is missing, or is `-`.
fn written_number(words: &[TraceWord], k: usize) -> Option<u64>
    ensures { result ≡ naming.written_number words.now k }
{
    match words.get(k) {
        Some(word) => atom_number(word.value),
        None => None,
    }
}

// Appends an output, if it is written and the command returns it.
#[tactic(auto, unfolding(crate::specs::Naming::put_written))]
fn put_written(answer: &mut Sentence, place: usize, x0: u64, name: usize, number: Option<u64>)
    requires { length answer.old.items ≤ 62 }
    ensures items { answer.new.items ≡ naming.put_written place x0 name number answer.old.items }
    ensures len { length answer.new.items ≤ length answer.old.items + 2 }
{
    if let Some(number) = number {
        put_returned(answer, place, x0, name, number);
    }
}

// The answer of a command with names, from X0 and the registers that answer a raw `smc` call.
#[tactic(auto, unfolding(crate::specs::Naming::answer_by))]
fn answer_by(place: usize, x0: u64, written: &[TraceWord]) -> Sentence
    ensures { result.items ≡ naming.answer_by place x0 written.now }
{
    let names = outputs_of(place);
    let mut answer = Sentence::new();
    put_status(&mut answer, x0);
    put_written(&mut answer, place, x0, names[0], written_number(written, 1));
    put_written(&mut answer, place, x0, names[1], written_number(written, 2));
    put_written(&mut answer, place, x0, names[2], written_number(written, 3));
    put_written(&mut answer, place, x0, names[3], written_number(written, 4));
    answer
}

/// Rewrites the answer to a raw `smc` call with names, or returns `None` if the answer has no value for X0. The answer
/// has the words `X0 X1 ..`, and `question` is the call. Outputs that are not written are left out.
#[tactic(auto, unfolding(crate::specs::Naming::named_answer))]
pub fn named_answer(question: &[TraceWord], written: &[TraceWord]) -> Option<Sentence>
    ensures { option_map (λ answer. answer.items) result ≡ naming.named_answer question.now written.now }
{
    let place = command_place(operand(rest(question), 0, 0));
    match written_number(written, 0) {
        Some(x0) => Some(answer_by(place, x0, written)),
        None => None,
    }
}
