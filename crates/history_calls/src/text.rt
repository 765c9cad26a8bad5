//! Functions that write host actions, such as RMM calls, and their answers as lines of a trace.
ghost use Rattle.std.specs.Prelude.{◌≡◌, ◌++◌, Some, OnOk, string_bytes};
ghost use Rattle.rmi_abi.specs.Call.{registers_of};
ghost use Rattle.history_calls.specs.declared.action.HostAction.TheVariants.{RealmParams, RecParams};
ghost use Rattle.history_calls.specs.Lines as lines;

use self::Number::{Absent, Decimal, Hexadecimal};
use crate::{Frame, HostAction};
use arrayvec::ArrayVec;
use realm_model::{Rmi, Status};
use rmi_abi::{Call, encode_call};
use std::alloc::AllocError;
use std::fmt;

// A number in a line, written with a space before it. An absent number is not written.
#[derive(Clone, Copy)]
enum Number {
    Absent,
    Decimal(u64),
    Hexadecimal(u64),
}

impl fmt::Display for Number {
    ghost use Rattle.std.specs.Prelude.{Some};
    ghost use Rattle.history_calls.specs.Lines.{number_text};

    ghost output = { λ number. Some (number_text number) };

    fn fmt<W: fmt::Write>(&self, f: &mut fmt::Formatter<W>) -> fmt::Result {
        match *self {
            Absent => Ok(()),
            Decimal(number) => write!(f, " {number}"),
            Hexadecimal(number) => write!(f, " 0x{number:x}"),
        }
    }
}

// Addresses in hexadecimal, each with a space before it.
#[derive(Clone, Copy)]
struct AddressesText<'a>(&'a [u64]);

impl fmt::Display for AddressesText<'_> {
    ghost use Rattle.std.specs.Prelude.{Some};
    ghost use Rattle.std.specs.List.{flat_map};
    ghost use Rattle.history_calls.specs.Lines.{then_hex};

    ghost output = { λ addresses. Some (flat_map then_hex addresses.0.now) };

    fn fmt<W: fmt::Write>(&self, f: &mut fmt::Formatter<W>) -> fmt::Result {
        for address in self.0 {
            write!(f, "{}", Hexadecimal(*address))?;
        }
        Ok(())
    }
}

// The field of a REC's auxiliary granules in a line, which is left out if there are none.
#[derive(Clone, Copy)]
struct AuxField<'a>(&'a [u64]);

impl fmt::Display for AuxField<'_> {
    ghost use Rattle.std.specs.Prelude.{Some};
    ghost use Rattle.history_calls.specs.Lines.{aux_field};

    ghost output = { λ auxiliaries. Some (aux_field auxiliaries.0.now) };

    fn fmt<W: fmt::Write>(&self, f: &mut fmt::Formatter<W>) -> fmt::Result {
        match self.0.split_first() {
            Some((first, more)) => {
                write!(f, " aux{}{}", Hexadecimal(*first), AddressesText(more))
            }
            None => Ok(()),
        }
    }
}

// The form of a command's calls: its name, the number of operands, and which operand is in decimal, or 0 if none is.
fn form_of(call: Call) -> (&'static str, u8, u8)
    ensures { lines.form_text result.0.now result.1 result.2 (registers_of call) ≡ lines.call_text call }
{
    match call {
        Call::Version { .. } => ("rmi_version", 1, 0),
        Call::GranuleDelegate { .. } => ("rmi_granule_delegate", 1, 0),
        Call::GranuleUndelegate { .. } => ("rmi_granule_undelegate", 1, 0),
        Call::DataCreate { .. } => ("rmi_data_create", 5, 0),
        Call::DataCreateUnknown { .. } => ("rmi_data_create_unknown", 3, 0),
        Call::DataDestroy { .. } => ("rmi_data_destroy", 2, 0),
        Call::RealmActivate { .. } => ("rmi_realm_activate", 1, 0),
        Call::RealmCreate { .. } => ("rmi_realm_create", 2, 0),
        Call::RealmDestroy { .. } => ("rmi_realm_destroy", 1, 0),
        Call::RecCreate { .. } => ("rmi_rec_create", 3, 0),
        Call::RecDestroy { .. } => ("rmi_rec_destroy", 1, 0),
        Call::RecEnter { .. } => ("rmi_rec_enter", 2, 0),
        Call::RttCreate { .. } => ("rmi_rtt_create", 4, 4),
        Call::RttDestroy { .. } => ("rmi_rtt_destroy", 3, 3),
        Call::RttMapUnprotected { .. } => ("rmi_rtt_map_unprotected", 4, 3),
        Call::RttReadEntry { .. } => ("rmi_rtt_read_entry", 3, 3),
        Call::RttUnmapUnprotected { .. } => ("rmi_rtt_unmap_unprotected", 3, 3),
        Call::PsciComplete { .. } => ("rmi_psci_complete", 3, 0),
        Call::Features { .. } => ("rmi_features", 1, 1),
        Call::RttFold { .. } => ("rmi_rtt_fold", 3, 3),
        Call::RecAuxCount { .. } => ("rmi_rec_aux_count", 1, 0),
        Call::RttInitRipas { .. } => ("rmi_rtt_init_ripas", 3, 0),
        Call::RttSetRipas { .. } => ("rmi_rtt_set_ripas", 4, 0),
    }
}

// The number of operand `place` in a call with `count` operands. Operand `in_decimal` is in decimal.
fn operand(count: u8, in_decimal: u8, place: u8, number: u64) -> Number
    ensures { result ≡ lines.operand_number count in_decimal place number }
{
    if count < place {
        Absent
    } else if place == in_decimal {
        Decimal(number)
    } else {
        Hexadecimal(number)
    }
}

// Appends a call, without its answer.
fn push_call(text: &mut String, call: Call) -> Result<(), AllocError>
    ensures { OnOk result (string_bytes text.new ≡ string_bytes text.old ++ lines.call_text call) }
{
    let (name, count, in_decimal) = form_of(call);
    let registers = encode_call(call);
    let x1 = operand(count, in_decimal, 1, registers.x1);
    let x2 = operand(count, in_decimal, 2, registers.x2);
    let x3 = operand(count, in_decimal, 3, registers.x3);
    let x4 = operand(count, in_decimal, 4, registers.x4);
    let x5 = operand(count, in_decimal, 5, registers.x5);
    write!(text, "{name}{x1}{x2}{x3}{x4}{x5}")
}

// Appends a word and a number in hexadecimal.
fn push_at(text: &mut String, word: &str, address: u64) -> Result<(), AllocError>
    ensures { OnOk result (string_bytes text.new ≡ string_bytes text.old ++ (word.now ++ lines.then_hex address)) }
{
    write!(text, "{word}{}", Hexadecimal(address))
}

// Appends the action that fills granules.
fn push_fill(text: &mut String, address: u64, granules: u16, value: u8) -> Result<(), AllocError>
    ensures { OnOk result (string_bytes text.new ≡ string_bytes text.old ++ lines.fill_text address granules value) }
{
    let address = Hexadecimal(address);
    if granules == 1 {
        write!(text, "fill{address} {value}")
    } else {
        write!(text, "repeat {granules} fill{address}+0x1000 {value}")
    }
}

// Appends the action that writes a realm's parameters.
fn push_realm_params(
    text: &mut String,
    page: u64,
    width: u8,
    vmid: u8,
    tables: u64,
    count: u16,
) -> Result<(), AllocError>
    ensures { OnOk result (string_bytes text.new ≡ string_bytes text.old ++ lines.question_text (RealmParams page width vmid tables count)) }
{
    let (page, tables) = (Hexadecimal(page), Hexadecimal(tables));
    write!(
        text,
        "realm_params{page} s2sz {width} vmid {vmid} rtt_base{tables} rtt_level_start 1 rtt_num_start {count}"
    )
}

// Appends the action that writes a REC's parameters.
fn push_rec_params(
    text: &mut String,
    page: u64,
    mpidr: u64,
    auxiliaries: &ArrayVec<u64, 16>,
) -> Result<(), AllocError>
    ensures { OnOk result (string_bytes text.new ≡ string_bytes text.old ++ lines.question_text (RecParams page mpidr auxiliaries.now)) }
{
    let (page, mpidr) = (Hexadecimal(page), Hexadecimal(mpidr));
    let auxiliaries = AuxField(auxiliaries.as_slice());
    write!(text, "rec_params{page} flags 0x1 mpidr{mpidr}{auxiliaries}")
}

// Appends an action, without its answer.
fn push_question(text: &mut String, action: &HostAction) -> Result<(), AllocError>
    ensures { OnOk result (string_bytes text.new ≡ string_bytes text.old ++ lines.question_text action.now) }
{
    match action {
        HostAction::Fill {
            address,
            granules,
            value,
        } => push_fill(text, *address, *granules, *value),
        HostAction::Load { address, .. } => push_at(text, "load", *address),
        HostAction::RealmParams {
            page,
            width,
            vmid,
            tables,
            count,
        } => push_realm_params(text, *page, *width, *vmid, *tables, *count),
        HostAction::RecParams {
            page,
            mpidr,
            auxiliaries,
        } => push_rec_params(text, *page, *mpidr, auxiliaries),
        HostAction::Call { call, .. } => push_call(text, *call),
        HostAction::Enter { rec, run } => {
            let (rec, run) = (*rec, *run);
            push_call(text, Call::RecEnter { rec, run })
        }
        HostAction::Interrupt { rec } => push_at(text, "interrupt", *rec),
        HostAction::Write { rec, ipa, value } => {
            let (ipa, value) = (Hexadecimal(*ipa), Hexadecimal(*value as u64));
            write!(text, "guest{} write{ipa}{value}", Hexadecimal(*rec))
        }
        HostAction::Spin { rec } => write!(text, "guest{} spin", Hexadecimal(*rec)),
        HostAction::Saw { rec } => push_at(text, "saw", *rec),
    }
}

// The answer to a call that succeeds with `x1` in X1, as words and a number. Most commands have no output there.
fn success_with_x1(call: Call, x1: u64) -> (&'static str, Number)
    ensures { result.0.now ++ lines.number_text result.1 ≡ lines.success_text call (Some x1) }
{
    match call {
        Call::Version { .. } => (" = RMI_SUCCESS, lower", Hexadecimal(x1)),
        Call::DataDestroy { .. } => (" = RMI_SUCCESS, data", Hexadecimal(x1)),
        Call::RttDestroy { .. } => (" = RMI_SUCCESS, rtt", Hexadecimal(x1)),
        Call::RttReadEntry { .. } => (" = RMI_SUCCESS, level", Decimal(x1)),
        Call::RttUnmapUnprotected { .. } => (" = RMI_SUCCESS, top", Hexadecimal(x1)),
        Call::Features { .. } => (" = RMI_SUCCESS, value", Hexadecimal(x1)),
        Call::RttFold { .. } => (" = RMI_SUCCESS, rtt", Hexadecimal(x1)),
        Call::RecAuxCount { .. } => (" = RMI_SUCCESS, count", Decimal(x1)),
        Call::RttInitRipas { .. } => (" = RMI_SUCCESS, top", Hexadecimal(x1)),
        Call::RttSetRipas { .. } => (" = RMI_SUCCESS, top", Hexadecimal(x1)),
        _ => (" = RMI_SUCCESS", Absent),
    }
}

// The answer to an action that is done, as words and a number.
fn done(action: &HostAction) -> (&'static str, Number)
    ensures { result.0.now ++ lines.number_text result.1 ≡ lines.done_text action.now }
{
    match action {
        HostAction::Load { byte, .. } => (" =", Hexadecimal(*byte as u64 * 0x0101_0101_0101_0101)),
        HostAction::Call { call, x1 } => match *x1 {
            Some(x1) => success_with_x1(*call, x1),
            None => (" = RMI_SUCCESS", Absent),
        },
        HostAction::Enter { .. } => (" = RUNNING", Absent),
        HostAction::Interrupt { .. } => (" = RMI_SUCCESS, exit IRQ", Absent),
        HostAction::Write { .. } | HostAction::Spin { .. } => (" = queued", Absent),
        HostAction::Fill { .. }
        | HostAction::RealmParams { .. }
        | HostAction::RecParams { .. }
        | HostAction::Saw { .. } => (" = done", Absent),
    }
}

// The answer to a call that is refused, as words and a number.
fn refused(rmi: Rmi) -> (&'static str, Number)
    ensures { result.0.now ++ lines.number_text result.1 ≡ lines.refused_text rmi }
{
    match rmi.status {
        Status::Input => (" = RMI_ERROR_INPUT", Absent),
        Status::Realm => (" = RMI_ERROR_REALM", Absent),
        Status::Rec => (" = RMI_ERROR_REC", Absent),
        Status::Rtt => (" = RMI_ERROR_RTT", Decimal(rmi.index as u64)),
    }
}

// Whether an action is a call of the RMM, which may be refused.
fn is_call(action: &HostAction) -> bool
    ensures { result ≡ lines.is_call action.now }
{
    matches!(action, HostAction::Call { .. } | HostAction::Enter { .. })
}

// The answer to an action, as words and a number. A call is refused if there is a refusal.
fn answer_to(action: &HostAction, refusal: Option<Rmi>) -> (&'static str, Number)
    ensures { result.0.now ++ lines.number_text result.1 ≡ lines.answer_to action.now refusal }
{
    match refusal {
        Some(rmi) if is_call(action) => refused(rmi),
        _ => done(action),
    }
}

// Whether an action is a step of a guest whose REC is not entered.
fn is_step_left_out(action: &HostAction, refusal: Option<Rmi>) -> bool
    ensures { result ≡ lines.is_step_left_out action.now refusal }
{
    matches!((action, refusal), (HostAction::Spin { .. }, Some(_)))
}

/// Appends a trace line for a host action, such as an RMM call, and its answer. If there is a refusal, a call is
/// answered with it, and the `spin` step of a guest whose REC is not entered gets no line.
///
/// `AllocError`: the text may have a part of the line.
pub fn push_action(
    text: &mut String,
    action: &HostAction,
    refusal: Option<Rmi>,
) -> Result<(), AllocError>
    ensures { OnOk result (string_bytes text.new ≡ string_bytes text.old ++ lines.action_line action.now refusal) }
{
    if is_step_left_out(action, refusal) {
        return Ok(());
    }
    push_question(text, action)?;
    let (words, number) = answer_to(action, refusal);
    writeln!(text, "{words}{number}")
}

/// Appends the `platform` line of a trace, with the base address and the number of granules, including the host's. All
/// granules are UNDELEGATED, and the host's granules follow those of the history's machine.
pub fn push_platform(text: &mut String, frame: Frame, auxiliaries: u8) -> Result<(), AllocError>
    ensures { OnOk result (string_bytes text.new ≡ string_bytes text.old ++ lines.platform_line frame auxiliaries) }
{
    let (base, granules) = (Hexadecimal(frame.base()), frame.granules());
    writeln!(
        text,
        "platform{base} {granules} aux {auxiliaries} vmid_bits 8 s2sz 43 max_recs_order 15"
    )
}
