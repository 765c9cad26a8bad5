//! C structs for the operations that a host performs on an RMM.
ghost use Rattle.std.specs.Prelude.{◌≡◌, slice_index_or};
ghost use Rattle.rhm_c.specs.Action as shown;

use history_calls::HostAction;
use rmi_abi::{Call, Registers, encode_call};

/// An operation of a host on an RMM, as a C struct. It has a kind, the registers if it is a call, and operands. Fields
/// that the kind does not use are 0.
#[repr(C)]
#[derive(Clone, Copy)]
pub struct RawAction {
    pub kind: u64,
    pub x0: u64,
    pub x1: u64,
    pub x2: u64,
    pub x3: u64,
    pub x4: u64,
    pub x5: u64,
    pub x6: u64,
    pub address: u64,
    pub count: u64,
    pub value: u64,
    pub ipa: u64,
    pub vmid: u64,
    pub tables: u64,
    pub output: u64,
    pub has_output: u64,
    pub aux: [u64; 16],
}

/// The operations that a host performs on its RMM for one command or undo. There are at most 5 of them. `expected` is
/// the model's X0: 0 if the model performs the call, or else the word of the refusal.
#[repr(C)]
#[derive(Clone, Copy)]
pub struct RawActions {
    pub count: u64,
    pub expected: u64,
    pub actions: [RawAction; 5],
}

// An operation of the given kind, with the registers of a call and without operands.
fn with_registers(kind: u64, r: Registers) -> RawAction
    ensures { result ≡ shown.with_registers kind r }
{
    RawAction {
        kind,
        x0: r.x0,
        x1: r.x1,
        x2: r.x2,
        x3: r.x3,
        x4: r.x4,
        x5: r.x5,
        x6: r.x6,
        address: 0,
        count: 0,
        value: 0,
        ipa: 0,
        vmid: 0,
        tables: 0,
        output: 0,
        has_output: 0,
        aux: [0; 16],
    }
}

// An operation of the given kind on an address.
fn plain(kind: u64, address: u64) -> RawAction
    ensures { result ≡ shown.plain_action kind address }
{
    let none = Registers {
        x0: 0,
        x1: 0,
        x2: 0,
        x3: 0,
        x4: 0,
        x5: 0,
        x6: 0,
    };
    RawAction {
        address,
        ..with_registers(kind, none)
    }
}

// The address of the auxiliary granule at an index; 0 if there is none.
fn address_at(auxiliaries: &[u64], place: usize) -> u64
    ensures { result ≡ slice_index_or auxiliaries.now place 0 }
{
    match auxiliaries.get(place) {
        Some(address) => *address,
        None => 0,
    }
}

/// Returns the first 16 addresses of auxiliary granules, padded with zeros if there are fewer.
pub(crate) fn padded(auxiliaries: &[u64]) -> [u64; 16]
    ensures { result ≡ shown.padded auxiliaries.now }
{
    let mut aux = [0; 16];
    'places: for place in 0..16usize {
        aux[place] = address_at(auxiliaries, place);
    }
    aux
}

// The C form of a call, with the call's output in X1 if the output is known.
fn call_action(call: Call, x1: Option<u64>) -> RawAction
    ensures { result ≡ shown.call_action call x1 }
{
    let action = with_registers(5, encode_call(call));
    match x1 {
        Some(x1) => RawAction {
            output: x1,
            has_output: 1,
            ..action
        },
        None => action,
    }
}

// The C form of an operation.
fn raw_action(action: &HostAction) -> RawAction
    ensures { result ≡ shown.raw_action action.now }
{
    match action {
        HostAction::Fill {
            address,
            granules,
            value,
        } => RawAction {
            count: u64::from(*granules),
            value: u64::from(*value),
            ..plain(1, *address)
        },
        HostAction::Load { address, .. } => plain(2, *address),
        HostAction::RealmParams {
            page,
            width,
            vmid,
            tables,
            count,
        } => RawAction {
            count: u64::from(*count),
            value: u64::from(*width),
            vmid: u64::from(*vmid),
            tables: *tables,
            ..plain(3, *page)
        },
        HostAction::RecParams {
            page,
            mpidr,
            auxiliaries,
        } => RawAction {
            count: auxiliaries.len() as u64,
            value: *mpidr,
            aux: padded(auxiliaries.as_slice()),
            ..plain(4, *page)
        },
        HostAction::Call { call, x1 } => call_action(*call, *x1),
        HostAction::Enter { .. }
        | HostAction::Interrupt { .. }
        | HostAction::Write { .. }
        | HostAction::Spin { .. }
        | HostAction::Saw { .. } => rec_action(action),
    }
}

// The C form of an operation on a REC; an operation of kind 0 for any other operation.
fn rec_action(action: &HostAction) -> RawAction
    ensures { result ≡ shown.rec_action action.now }
{
    match action {
        HostAction::Enter { rec, run } => {
            let (rec, run) = (*rec, *run);
            RawAction {
                address: rec,
                ..with_registers(6, encode_call(Call::RecEnter { rec, run }))
            }
        }
        HostAction::Interrupt { rec } => plain(7, *rec),
        HostAction::Write { rec, ipa, value } => RawAction {
            ipa: *ipa,
            value: u64::from(*value),
            ..plain(8, *rec)
        },
        HostAction::Spin { rec } => plain(9, *rec),
        HostAction::Saw { rec } => plain(10, *rec),
        _ => plain(0, 0),
    }
}

// The C form of the operation at an index; an operation of kind 0 if there is none.
fn raw_at(actions: &[HostAction], place: usize) -> RawAction
    ensures { result ≡ shown.raw_at actions.now place }
{
    match actions.get(place) {
        Some(action) => raw_action(action),
        None => plain(0, 0),
    }
}

/// Converts a list of a host's operations on an RMM to a C struct. `expected` is the model's X0.
pub(crate) fn raw_actions(actions: &[HostAction], expected: u64) -> RawActions
    ensures { result ≡ shown.raw_actions expected actions.now }
{
    RawActions {
        count: actions.len() as u64,
        expected,
        actions: [
            raw_at(actions, 0),
            raw_at(actions, 1),
            raw_at(actions, 2),
            raw_at(actions, 3),
            raw_at(actions, 4),
        ],
    }
}
