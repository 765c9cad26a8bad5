//! Functions that compare a trace's answer to a raw `smc` call with the model's answer, register by register.
ghost use Rattle.std.specs.Prelude.{◌≡◌};
ghost use Rattle.rmm_answers.specs.Registers as specs;

use crate::outputs::{NO_OUTPUT, is_returned, outputs_of};
use rmm_trace::{TraceWord, is_register, is_same_register, operand, split_word};

// The name of the first output, and the names of the other outputs; `NO_OUTPUT` if there is no first output.
fn split_name(names: &[usize]) -> (usize, &[usize])
    ensures first { result.0 ≡ specs.first_name names.now }
    ensures rest { result.1.now ≡ specs.names_after names.now }
{
    match names {
        [] => (NO_OUTPUT, names),
        [first, rest @ ..] => (*first, rest),
    }
}

// Whether a written register agrees with the model's. If the call does not return it, any register agrees.
fn is_same_output(is_output: bool, written: TraceWord, ours: TraceWord) -> bool
    ensures { result ≡ specs.is_same_output is_output written ours }
{
    if is_output {
        is_same_register(written, ours)
    } else {
        is_register(written)
    }
}

// Whether the written registers from X1 on agree with the model's. `names` has the names of the outputs in these
// registers.
fn are_outputs_same(
    place: usize,
    x0: u64,
    names: &[usize],
    written: &[TraceWord],
    ours: &[TraceWord],
) -> bool
    ensures { result ≡ specs.are_outputs_same place x0 names.now written.now ours.now }
{
    let mut left_names = names;
    let mut left = written;
    let mut right = ours;
    'registers: while let [word, after @ ..] = left {
        let (name, names_after) = split_name(left_names);
        let (register, registers_after) = split_word(right);
        if !is_same_output(is_returned(place, x0, name), *word, register) {
            return false;
        }
        left_names = names_after;
        left = after;
        right = registers_after;
    }
    true
}

// Whether the written registers of a command's answer agree with the model's.
pub(crate) fn registers_agree(place: usize, written: &[TraceWord], ours: &[TraceWord]) -> bool
    ensures { result ≡ specs.registers_agree place written.now ours.now }
{
    let [first, after @ ..] = written else {
        return true;
    };
    let (x0, outputs) = split_word(ours);
    is_same_register(*first, x0)
        && are_outputs_same(
            place,
            operand(ours, 0, 0),
            outputs_of(place).as_slice(),
            after,
            outputs,
        )
}
