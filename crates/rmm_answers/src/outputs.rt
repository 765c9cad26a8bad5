//! The names of RMI commands' outputs, and functions that append outputs to an answer.
ghost use Rattle.std.specs.Prelude.{◌≡◌, ◌==◌, ◌+◌, ◌<◌, ◌≤◌, length, slice_index_or};
ghost use Rattle.std.specs.List.{position_from};
ghost use Rattle.rmm_answers.specs.Outputs as specs;

use crate::place::{DATA, DESC, HIGHER, LOWER, RTT, TOP, VALUE};
use crate::put::{put, put_output};
use rmi_abi::Registers;
use rmm_trace::place::{
    COUNT, LEVEL, PLATFORM, RIPAS_OUTPUT, RMI_DATA_DESTROY, RMI_RTT_DESTROY,
    RMI_RTT_UNMAP_UNPROTECTED, RMI_VERSION, STATE,
};
use rmm_trace::{Atom, FUNCTIONS, Sentence, index_of, status_of};

// The place that means no output. No output has the name at this place.
pub const NO_OUTPUT: usize = 0;

/// The names of each command's outputs X1 to X4, as indices into the table of names. Index 0 means no output. The index
/// of a command is the place of the command's own name. RMM 1.0, RMI commands.
pub const OUTPUTS: [[usize; 4]; 23] = [
    // rmi_version to rmi_granule_undelegate
    [LOWER, HIGHER, 0, 0],
    [VALUE, 0, 0, 0],
    [0, 0, 0, 0],
    [0, 0, 0, 0],
    // rmi_realm_create to rmi_realm_destroy
    [0, 0, 0, 0],
    [0, 0, 0, 0],
    [0, 0, 0, 0],
    // rmi_rec_create to rmi_rec_aux_count
    [0, 0, 0, 0],
    [0, 0, 0, 0],
    [0, 0, 0, 0],
    [COUNT, 0, 0, 0],
    // rmi_rtt_create to rmi_rtt_unmap_unprotected
    [0, 0, 0, 0],
    [RTT, TOP, 0, 0],
    [RTT, 0, 0, 0],
    [TOP, 0, 0, 0],
    [TOP, 0, 0, 0],
    [LEVEL, STATE, DESC, RIPAS_OUTPUT],
    [0, 0, 0, 0],
    [TOP, 0, 0, 0],
    // rmi_data_create to rmi_data_destroy, rmi_psci_complete
    [0, 0, 0, 0],
    [0, 0, 0, 0],
    [DATA, TOP, 0, 0],
    [0, 0, 0, 0],
];

// The output names of a command without outputs.
pub const NO_OUTPUTS: [usize; 4] = [0, 0, 0, 0];

// The output names in row `place`; `NO_OUTPUTS` past the last row.
fn row_at(rows: &[[usize; 4]], place: usize) -> [usize; 4]
    ensures { result ≡ slice_index_or rows.now place NO_OUTPUTS }
{
    if place < rows.len() {
        rows[place]
    } else {
        NO_OUTPUTS
    }
}

// The output names of a command; `NO_OUTPUTS` if no command has its name at this place.
#[tactic(auto, unfolding(crate::specs::Outputs::outputs_of))]
pub(crate) fn outputs_of(place: usize) -> [usize; 4]
    ensures { result ≡ specs.outputs_of place }
{
    row_at(&OUTPUTS, place)
}

// The index of a function identifier in a list, if the list has it.
fn place_in(functions: &[u64], function: u64) -> Option<usize>
    ensures { result ≡ position_from (λ f. f == function) 0 functions.now }
{
    for (place, it) in functions.iter().enumerate() {
        if *it == function {
            return Some(place);
        }
    }
    None
}

// The place of the command with this function identifier; for any other number, the place after the last command.
#[tactic(auto, unfolding(crate::specs::Outputs::command_place))]
pub(crate) fn command_place(function: u64) -> usize
    ensures { result ≡ specs.command_place function }
{
    place_in(&FUNCTIONS, function).unwrap_or(PLATFORM)
}

// Whether a command returns `top` together with RMI_ERROR_RTT.
fn has_top(place: usize) -> bool
    ensures { result ≡ specs.has_top place }
{
    place == RMI_RTT_DESTROY || place == RMI_DATA_DESTROY || place == RMI_RTT_UNMAP_UNPROTECTED
}

// Whether a command that returns this X0 also returns the output with this name.
#[tactic(auto, unfolding(crate::specs::Outputs::is_returned))]
pub(crate) fn is_returned(place: usize, x0: u64, name: usize) -> bool
    ensures { result ≡ specs.is_returned place x0 name }
{
    if name == NO_OUTPUT {
        return false;
    }
    x0 == 0 || place == RMI_VERSION || (x0 % 256 == 4 && name == TOP && has_top(place))
}

// Appends an output, if the command returns it.
#[tactic(auto, unfolding(crate::specs::Outputs::put_returned))]
pub(crate) fn put_returned(answer: &mut Sentence, place: usize, x0: u64, name: usize, value: u64)
    requires { length answer.old.items ≤ 62 }
    ensures items { answer.new.items ≡ specs.put_returned place x0 name value answer.old.items }
    ensures len { length answer.new.items ≤ length answer.old.items + 2 }
{
    if is_returned(place, x0, name) {
        put_output(answer, name, value);
    }
}

// Appends the status in X0, and its index if an index is shown.
#[tactic(auto, unfolding(crate::specs::Outputs::put_status))]
pub(crate) fn put_status(answer: &mut Sentence, x0: u64)
    requires { length answer.old.items ≤ 62 }
    ensures items { answer.new.items ≡ specs.put_status x0 answer.old.items }
    ensures len { length answer.new.items ≤ length answer.old.items + 2 }
{
    put(answer, status_of(x0));
    if let Some(index) = index_of(x0) {
        put(answer, index);
    }
}

// Appends the outputs that a command returns.
#[tactic(auto, unfolding(crate::specs::Outputs::put_outputs))]
pub(crate) fn put_outputs(answer: &mut Sentence, place: usize, after: &Registers)
    requires { length answer.old.items ≤ 56 }
    ensures items { answer.new.items ≡ specs.put_outputs place after.now answer.old.items }
    ensures len { length answer.new.items ≤ length answer.old.items + 8 }
{
    let names = outputs_of(place);
    put_returned(answer, place, after.x0, names[0], after.x1);
    put_returned(answer, place, after.x0, names[1], after.x2);
    put_returned(answer, place, after.x0, names[2], after.x3);
    put_returned(answer, place, after.x0, names[3], after.x4);
}

// Appends a register, if the command has an output in it.
#[tactic(auto, unfolding(crate::specs::Outputs::put_register))]
fn put_register(answer: &mut Sentence, name: usize, value: u64)
    requires { length answer.old.items < 64 }
    ensures items { answer.new.items ≡ specs.put_register name value answer.old.items }
    ensures len { length answer.new.items ≤ length answer.old.items + 1 }
{
    if name != NO_OUTPUT {
        put(answer, Atom::Hexadecimal(value));
    }
}

// Appends X0 and the output registers of a raw call.
#[tactic(auto, unfolding(crate::specs::Outputs::put_registers))]
pub(crate) fn put_registers(answer: &mut Sentence, place: usize, after: &Registers)
    requires { length answer.old.items ≤ 56 }
    ensures items { answer.new.items ≡ specs.put_registers place after.now answer.old.items }
{
    let names = outputs_of(place);
    put(answer, Atom::Hexadecimal(after.x0));
    put_register(answer, names[0], after.x1);
    put_register(answer, names[1], after.x2);
    put_register(answer, names[2], after.x3);
    put_register(answer, names[3], after.x4);
}
