//! The actions of a host on an RMM, as rows of a C table. `examples/c/table.h` has the form of a row, and
//! `examples/c/table.c` runs the rows.
use history_calls::{Frame, HostAction};
use realm_model::Rmi;
use rmi_abi::{Call, encode_call};
use std::alloc::AllocError;

// The X0 after the entry of a REC whose guest keeps running.
const RUNNING: u64 = 0xFFFF_FFFF_FFFF_FFFE;

// The codes of a guest's steps in the rows of kind GUEST.
const WRITE: u64 = 0;

const SPIN: u64 = 12;

/// A piece of the text of a row in a C table.
#[derive(Clone, Copy)]
enum Piece<'a> {
    Text(&'a str),
    /// A number in decimal.
    Decimal(u64),
    /// A number in hexadecimal.
    Number(u64),
    /// Numbers in hexadecimal, with commas between them.
    Numbers(&'a [u64]),
}

// Appends a number in hexadecimal.
fn push_number(text: &mut String, number: u64) -> Result<(), AllocError> {
    write!(text, "{number:#x}")
}

// Appends numbers in hexadecimal, with commas between them.
fn push_numbers(text: &mut String, numbers: &[u64]) -> Result<(), AllocError> {
    for place in 0..numbers.len() {
        if place > 0 {
            text.push_str(", ")?;
        }
        push_number(text, numbers[place])?;
    }
    Ok(())
}

// Appends a piece of a row's text.
fn push_piece(text: &mut String, piece: Piece) -> Result<(), AllocError> {
    match piece {
        Piece::Text(words) => text.push_str(words),
        Piece::Decimal(number) => write!(text, "{number}"),
        Piece::Number(number) => push_number(text, number),
        Piece::Numbers(numbers) => push_numbers(text, numbers),
    }
}

// Appends the pieces of a row's text.
fn push_pieces(text: &mut String, pieces: &[Piece]) -> Result<(), AllocError> {
    for piece in pieces {
        push_piece(text, *piece)?;
    }
    Ok(())
}

// The mask of the expected outputs that are compared, which are all of them.
fn compared(count: usize) -> &'static str {
    match count {
        0 => "0x0",
        1 => "0x1",
        _ => "0x3",
    }
}

// Appends the head of a row: its kind, its inputs, and its expected outputs. All of the outputs are compared.
fn push_head<'a>(
    text: &mut String,
    kind: &'a str,
    given: &'a [u64],
    out: &'a [u64],
) -> Result<(), AllocError> {
    let outputs = if out.is_empty() {
        Piece::Text("0")
    } else {
        Piece::Numbers(out)
    };
    push_pieces(
        text,
        &[
            Piece::Text("{.kind = "),
            Piece::Text(kind),
            Piece::Text(", .in = {"),
            Piece::Numbers(given),
            Piece::Text("}, .out = {"),
            outputs,
            Piece::Text("}, .compared = "),
            Piece::Text(compared(out.len())),
        ],
    )
}

// Appends a row that consists of its head and of these pieces.
fn push_row_with(
    text: &mut String,
    kind: &str,
    given: &[u64],
    out: &[u64],
    more: &[Piece],
) -> Result<(), AllocError> {
    push_head(text, kind, given, out)?;
    push_pieces(text, more)
}

// Appends a row that consists of its head alone.
fn push_row(text: &mut String, kind: &str, given: &[u64], out: &[u64]) -> Result<(), AllocError> {
    push_head(text, kind, given, out)?;
    text.push_str("},\n")
}

// The number of result registers, from X0 on, that RMM 1.0 specifies for a command.
fn result_count(call: Call) -> u64 {
    match call {
        Call::RttDestroy { .. } | Call::DataDestroy { .. } => 3,
        Call::RttInitRipas { .. } => 2,
        _ => 1,
    }
}

// Appends the row of a call in these registers, with the expected X0, and the expected X1 if it is known. RMM 1.0
// specifies `results` result registers for the call.
fn push_registers(
    text: &mut String,
    given: &[u64],
    results: u64,
    x0: u64,
    x1: Option<u64>,
) -> Result<(), AllocError> {
    let more = [
        Piece::Text(", .results = "),
        Piece::Decimal(results),
        Piece::Text("},\n"),
    ];
    match x1 {
        Some(x1) => push_row_with(text, "SMC", given, &[x0, x1], &more),
        None => push_row_with(text, "SMC", given, &[x0], &more),
    }
}

// Appends the row of a call, with the expected X0, and the expected X1 if it is known.
fn push_smc(text: &mut String, call: Call, x0: u64, x1: Option<u64>) -> Result<(), AllocError> {
    let it = encode_call(call);
    let given = [it.x0, it.x1, it.x2, it.x3, it.x4, it.x5, it.x6];
    push_registers(text, &given, result_count(call), x0, x1)
}

// Appends the rows that fill granules.
fn push_fill(text: &mut String, address: u64, granules: u16, value: u8) -> Result<(), AllocError> {
    for granule in 0..granules {
        let at = address.wrapping_add(4096 * u64::from(granule));
        push_row(text, "FILL", &[at, u64::from(value)], &[])?;
    }
    Ok(())
}

// Appends the row that stores a word in a page of zeros, unless the word is 0.
fn push_store(text: &mut String, page: u64, offset: u64, word: u64) -> Result<(), AllocError> {
    if word == 0 {
        return Ok(());
    }
    push_row(text, "STORE", &[page.wrapping_add(offset), word], &[])
}

// Appends the rows that fill a page with zeros, and store words in it. Each word has its offset before it.
fn push_page(text: &mut String, page: u64, words: &[(u64, u64)]) -> Result<(), AllocError> {
    push_fill(text, page, 1, 0)?;
    for (offset, word) in words {
        push_store(text, page, *offset, *word)?;
    }
    Ok(())
}

// Appends the rows that write a realm's parameters. RMM 1.0, RmiRealmParams.
fn push_realm_params(
    text: &mut String,
    page: u64,
    width: u8,
    vmid: u8,
    tables: u64,
    count: u16,
) -> Result<(), AllocError> {
    let words = [
        (0x008, u64::from(width)),
        (0x800, u64::from(vmid)),
        (0x808, tables),
        (0x810, 1),
        (0x818, u64::from(count)),
    ];
    push_page(text, page, &words)
}

// Appends the rows that store the addresses of a REC's auxiliary granules in the page of its parameters.
fn push_auxiliaries(text: &mut String, page: u64, auxiliaries: &[u64]) -> Result<(), AllocError> {
    let mut offset: u64 = 0x808;
    for address in auxiliaries {
        push_store(text, page, offset, *address)?;
        offset = offset.wrapping_add(8);
    }
    Ok(())
}

// Appends the rows that write a REC's parameters. RMM 1.0, RmiRecParams.
fn push_rec_params(
    text: &mut String,
    page: u64,
    mpidr: u64,
    auxiliaries: &[u64],
) -> Result<(), AllocError> {
    let words = [
        (0x000, 1),
        (0x100, mpidr),
        (0x800, auxiliaries.len() as u64),
    ];
    push_page(text, page, &words)?;
    push_auxiliaries(text, page, auxiliaries)
}

// Appends the row of a guest's write.
fn push_write(text: &mut String, rec: u64, ipa: u64, value: u64) -> Result<(), AllocError> {
    let more = [
        Piece::Text(", .text = \"write "),
        Piece::Number(ipa),
        Piece::Text(" "),
        Piece::Number(value),
        Piece::Text("\"},\n"),
    ];
    push_row_with(text, "GUEST", &[rec, WRITE, ipa, value, 1], &[0], &more)
}

// Appends the row of a step of a REC's guest.
fn push_step(text: &mut String, action: &HostAction) -> Result<(), AllocError> {
    match action {
        HostAction::Write { rec, ipa, value } => push_write(text, *rec, *ipa, u64::from(*value)),
        HostAction::Spin { rec } => {
            let more = [Piece::Text(", .text = \"spin\"},\n")];
            push_row_with(text, "GUEST", &[*rec, SPIN], &[0], &more)
        }
        _ => Ok(()),
    }
}

// Appends the rows of an accepted action. `Saw`, the completion of a guest's write, has no row.
fn push_done(text: &mut String, action: &HostAction) -> Result<(), AllocError> {
    match action {
        HostAction::Fill {
            address,
            granules,
            value,
        } => push_fill(text, *address, *granules, *value),
        HostAction::Load { address, byte } => {
            let word = u64::from(*byte) * 0x0101_0101_0101_0101;
            push_row(text, "LOAD", &[*address, 8], &[word])
        }
        HostAction::RealmParams {
            page,
            width,
            vmid,
            tables,
            count,
        } => push_realm_params(text, *page, *width, *vmid, *tables, *count),
        HostAction::RecParams {
            page,
            mpidr,
            auxiliaries,
        } => push_rec_params(text, *page, *mpidr, auxiliaries.as_slice()),
        HostAction::Call { call, x1 } => push_smc(text, *call, 0, *x1),
        HostAction::Enter { rec, run } => {
            let (rec, run) = (*rec, *run);
            push_smc(text, Call::RecEnter { rec, run }, RUNNING, None)
        }
        HostAction::Interrupt { rec } => push_row(text, "INTERRUPT", &[*rec], &[0]),
        _ => push_step(text, action),
    }
}

/// Appends the rows of a host's action to the text of a C table. `push_action` appends the trace line of the action.
///
/// `AllocError`: the text may have a part of the rows.
pub(crate) fn push_action_rows(
    text: &mut String,
    action: &HostAction,
    refusal: Option<Rmi>,
) -> Result<(), AllocError> {
    match (action, refusal) {
        (HostAction::Spin { .. }, Some(_)) => Ok(()),
        (HostAction::Call { call, .. }, Some(rmi)) => push_smc(text, *call, rmi.word(), None),
        (HostAction::Enter { rec, run }, Some(rmi)) => {
            let (rec, run) = (*rec, *run);
            push_smc(text, Call::RecEnter { rec, run }, rmi.word(), None)
        }
        _ => push_done(text, action),
    }
}

/// Appends the row that describes the machine to the text of a C table. `push_platform` appends the trace line that
/// describes the machine.
pub(crate) fn push_platform_row(
    text: &mut String,
    frame: Frame,
    auxiliaries: u8,
) -> Result<(), AllocError> {
    let (base, granules) = (frame.base(), u64::from(frame.granules()));
    let auxiliaries = u64::from(auxiliaries);
    let more = [
        Piece::Text(", .text = \"platform "),
        Piece::Number(base),
        Piece::Text(" "),
        Piece::Decimal(granules),
        Piece::Text(" aux "),
        Piece::Decimal(auxiliaries),
        Piece::Text(" vmid_bits 8 s2sz 43 max_recs_order 15\", "),
        Piece::Text(".settings = &(const struct table_settings){.aux = "),
        Piece::Number(auxiliaries),
        Piece::Text(
            ", .vmid_bits = 0x8, .s2sz = 0x2b, .max_recs_order = 0xf, .block_level = 0x2}},\n",
        ),
    ];
    push_row_with(text, "PLATFORM", &[base, granules], &[], &more)
}
