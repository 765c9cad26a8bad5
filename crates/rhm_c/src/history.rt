//! Functions of the C interface that read a host's history event by event.
ghost use Rattle.std.specs.Prelude.{◌≡◌, map};
ghost use Rattle.history_calls.specs.Frame as frames;
ghost use Rattle.rhm_c.specs.History as histories;
ghost use Rattle.rhm_c.specs.Reading.{IsRead, of_handle};

use crate::HostHandle;
use crate::action::padded;
use crate::placed_host::PlainHost;
use crate::reading::report;
use arrayvec::ArrayVec;
use granule_addr::{Gran, RecNo, Root, Vmid};
use history_calls::Frame;
use realm_model::{Act, Event};
use std::alloc::Global;

/// An event of a host's history, as a C struct. It has a build, a kind and operands. Operands that the kind does not
/// have are 0.
///
/// `granule` is the address of the granule that the operation names first, and `second` that of the first starting
/// table or of the source. `count` is a number of granules or of IPA granules. `aux` has the addresses of a REC's
/// auxiliaries.
#[repr(C)]
#[derive(Clone, Copy)]
pub struct RawEvent {
    pub build: u64,
    pub kind: u64,
    pub granule: u64,
    pub second: u64,
    pub ipa: u64,
    pub level: u64,
    pub count: u64,
    pub width: u64,
    pub rec: u64,
    pub offset: u64,
    pub value: u64,
    pub vmid: u64,
    pub aux: [u64; 16],
}

// An event of the given kind, without build and operands.
fn plain(kind: u64) -> RawEvent
    ensures { result ≡ histories.plain_event kind }
{
    RawEvent {
        build: 0,
        kind,
        granule: 0,
        second: 0,
        ipa: 0,
        level: 0,
        count: 0,
        width: 0,
        rec: 0,
        offset: 0,
        value: 0,
        vmid: 0,
        aux: [0; 16],
    }
}

// An event of the given kind on a granule.
fn on_granule(frame: Frame, kind: u64, granule: Gran) -> RawEvent
    ensures { result ≡ histories.on_granule frame kind granule }
{
    RawEvent {
        granule: frame.address(granule),
        ..plain(kind)
    }
}

// The event by which a realm is created or destroyed.
fn on_realm(frame: Frame, kind: u64, rd: Gran, root: Root, vmid: Vmid) -> RawEvent
    ensures { result ≡ histories.realm_event frame kind rd root vmid }
{
    RawEvent {
        second: frame.address(root.first),
        width: u64::from(root.width.number()),
        vmid: u64::from(vmid.number()),
        ..on_granule(frame, kind, rd)
    }
}

// The addresses of granules.
fn addresses(frame: Frame, granules: &ArrayVec<Gran, 16>) -> ArrayVec<u64, 16>
    ensures { result.items ≡ map (frames.address frame) granules.now.items }
{
    let mut addresses = ArrayVec::new();
    for granule in granules.as_slice() {
        addresses.push(frame.address(*granule));
    }
    addresses
}

// The event by which a REC is created or destroyed.
fn on_rec(
    frame: Frame,
    kind: u64,
    granule: Gran,
    auxiliaries: &ArrayVec<Gran, 16>,
    number: RecNo,
) -> RawEvent
    ensures { result ≡ histories.rec_change frame kind granule auxiliaries.now.items number }
{
    RawEvent {
        rec: u64::from(number.number()),
        count: auxiliaries.len() as u64,
        aux: padded(addresses(frame, auxiliaries).as_slice()),
        ..on_granule(frame, kind, granule)
    }
}

// The event of an operation on pages or on a realm's descriptor.
fn page_event(frame: Frame, act: &Act) -> RawEvent
    ensures { result ≡ histories.page_event frame act.now }
{
    match act {
        Act::Take { order, first } => RawEvent {
            count: u64::from(order.size()),
            ..on_granule(frame, 0, *first)
        },
        Act::UnTake { order, first } => RawEvent {
            count: u64::from(order.size()),
            ..on_granule(frame, 1, *first)
        },
        Act::Fill { granule, value } => RawEvent {
            value: u64::from(*value),
            ..on_granule(frame, 2, *granule)
        },
        Act::Peek {
            granule,
            offset,
            byte,
        } => RawEvent {
            offset: u64::from(offset.number()),
            value: u64::from(*byte),
            ..on_granule(frame, 3, *granule)
        },
        Act::Delegate { granule } => on_granule(frame, 4, *granule),
        Act::Undelegate { granule } => on_granule(frame, 5, *granule),
        Act::Realm { rd, root, vmid } => on_realm(frame, 6, *rd, *root, *vmid),
        Act::UnRealm { rd, root, vmid } => on_realm(frame, 7, *rd, *root, *vmid),
        _ => plain(8),
    }
}

// The event of an operation on a realm's tables or memory; the `page_event` of any other operation.
fn table_event(frame: Frame, act: &Act) -> RawEvent
    ensures { result ≡ histories.table_event frame act.now }
{
    match act {
        Act::Rtt {
            granule,
            ipa,
            level,
        } => RawEvent {
            ipa: u64::from(ipa.number()),
            level: u64::from(level.number()),
            ..on_granule(frame, 9, *granule)
        },
        Act::UnRtt {
            granule,
            ipa,
            level,
        } => RawEvent {
            ipa: u64::from(ipa.number()),
            level: u64::from(level.number()),
            ..on_granule(frame, 10, *granule)
        },
        Act::Ripas { ipa, count } => RawEvent {
            ipa: u64::from(ipa.number()),
            count: u64::from(*count),
            ..plain(11)
        },
        Act::Data {
            granule,
            ipa,
            source,
        } => RawEvent {
            ipa: u64::from(ipa.number()),
            second: frame.address(*source),
            ..on_granule(frame, 12, *granule)
        },
        Act::Unknown { granule, ipa } => RawEvent {
            ipa: u64::from(ipa.number()),
            ..on_granule(frame, 13, *granule)
        },
        Act::UnData { granule, ipa } => RawEvent {
            ipa: u64::from(ipa.number()),
            ..on_granule(frame, 14, *granule)
        },
        _ => page_event(frame, act),
    }
}

// The event of an operation, with the build still to be set.
fn act_event(frame: Frame, act: &Act) -> RawEvent
    ensures { result ≡ histories.act_event frame act.now }
{
    match act {
        Act::Rec {
            granule,
            auxiliaries,
            number,
        } => on_rec(frame, 15, *granule, auxiliaries, *number),
        Act::UnRec {
            granule,
            auxiliaries,
            number,
        } => on_rec(frame, 16, *granule, auxiliaries, *number),
        Act::Enter { number } => RawEvent {
            rec: u64::from(number.number()),
            ..plain(17)
        },
        Act::Exit { number } => RawEvent {
            rec: u64::from(number.number()),
            ..plain(18)
        },
        Act::Poke {
            number,
            ipa,
            offset,
            value,
        } => RawEvent {
            rec: u64::from(number.number()),
            ipa: u64::from(ipa.number()),
            offset: u64::from(offset.number()),
            value: u64::from(*value),
            ..plain(19)
        },
        _ => table_event(frame, act),
    }
}

// The C form of an event.
fn raw_event(frame: Frame, event: &Event) -> RawEvent
    ensures { result ≡ histories.raw_event frame event.now }
{
    RawEvent {
        build: u64::from(event.build.number()),
        ..act_event(frame, &event.act)
    }
}

// The C form of the event at an index of the history.
fn event_at(frame: Frame, host: &PlainHost, number: u64) -> Option<RawEvent>
    ensures { result ≡ histories.event_reading number frame host.now }
{
    let event = host.history().get(number as usize)?;
    Some(raw_event(frame, event))
}

/// Returns the number of events in a host's history; 0 for a closed handle.
#[unsafe(no_mangle)]
pub extern "C" fn rhm_event_count(alloc: Global, handle: &mut HostHandle) -> u64
    ensures count { result ≡ histories.event_count handle.old.held.host }
    ensures same { handle.new.held.host ≡ handle.old.held.host }
{
    let Some(placed) = handle.take(alloc) else {
        return 0;
    };
    let count = placed.host.history().len() as u64;
    handle.give(placed);
    count
}

/// Writes event `number` of a host's history to `reading`. `number` is the event's index, counted from 0. Returns
/// false, and writes nothing, if there is no such event, and for a closed handle.
#[unsafe(no_mangle)]
pub extern "C" fn rhm_read_event(
    alloc: Global,
    handle: &mut HostHandle,
    number: u64,
    reading: &mut RawEvent,
) -> bool
    ensures read { IsRead (of_handle (histories.event_reading number) handle.old.held.host) reading.old result reading.new }
    ensures same { handle.new.held.host ≡ handle.old.held.host }
{
    let Some(placed) = handle.take(alloc) else {
        return false;
    };
    let found = event_at(placed.frame, &placed.host, number);
    handle.give(placed);
    report(found, reading)
}
