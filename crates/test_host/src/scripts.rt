//! Tests that run scripts of host calls, with both `PlainStore` and `BuddyArena`. The scripts have calls that no plan
//! makes, or whose answers no plan prints.
use crate::calls::{AcceptedAnswer, Call, Command, Script, Which, over_both};
use crate::lines::No;
use realm_host::{GranuleState, Kind, RealmState};

const FIRST_PAGE: Result<AcceptedAnswer, No> = Ok(AcceptedAnswer::FirstPage(0));

// A script in which a build that is aborting is refused everything but undos.
const ABORTS: Script = &[
    (1, Call::Ask(Command::Take(0), Err(No::Build))),
    (0, Call::Ask(Command::Fill(0, 1), Err(No::Page(0)))),
    (0, Call::Ask(Command::Take(0), FIRST_PAGE)),
    (0, Call::BeginAbort(Ok(1))),
    (0, Call::Ask(Command::Fill(0, 1), Err(No::Aborting))),
    (0, Call::BeginAbort(Err(No::Aborting))),
    (0, Call::Undo(Ok((Kind::Take, 0)))),
    (0, Call::Ask(Command::Take(0), FIRST_PAGE)),
    (0, Call::Abort(Ok(1))),
    (0, Call::BeginAbort(Ok(0))),
    (0, Call::Ask(Command::Take(0), FIRST_PAGE)),
];

// A script in which a build goes back to a mark, but not after an undo of an operation that was open at the mark.
const MARKS: Script = &[
    (0, Call::Ask(Command::Take(2), FIRST_PAGE)),
    (0, Call::Ask(Command::Delegate(0), Ok(AcceptedAnswer::Done))),
    (0, Call::Mark(Ok(2))),
    (0, Call::Ask(Command::Delegate(1), Ok(AcceptedAnswer::Done))),
    (0, Call::Ask(Command::Fill(2, 5), Ok(AcceptedAnswer::Done))),
    (0, Call::Ask(Command::Delegate(2), Ok(AcceptedAnswer::Done))),
    (0, Call::CheckBack(Which::Newest, Ok(2))),
    (0, Call::Undo(Ok((Kind::Delegate, 3)))),
    (0, Call::GoBack(Which::Newest, Ok(1))),
    (0, Call::GoBack(Which::Newest, Ok(0))),
    (0, Call::Undo(Ok((Kind::Delegate, 1)))),
    (0, Call::GoBack(Which::Newest, Err(No::NothingToUndo))),
    (0, Call::Page(0, GranuleState::Undelegated, 0)),
    (0, Call::Page(1, GranuleState::Undelegated, 0)),
    (0, Call::Page(2, GranuleState::Undelegated, 0)),
    (0, Call::Page(3, GranuleState::Undelegated, 0)),
    (0, Call::Pages(0, 4, 4)),
];

// A script in which a build can go back only to its own newest mark, and not while it is aborting.
const REFUSED_MARKS: Script = &[
    (0, Call::Mark(Ok(0))),
    (0, Call::Ask(Command::Take(2), FIRST_PAGE)),
    (0, Call::Mark(Ok(1))),
    (0, Call::GoBack(Which::Older, Err(No::NothingToUndo))),
    (1, Call::Mark(Err(No::Build))),
    (1, Call::GoBack(Which::Newest, Err(No::Build))),
    (0, Call::BeginAbort(Ok(1))),
    (0, Call::Mark(Err(No::Aborting))),
    (0, Call::GoBack(Which::Newest, Err(No::Aborting))),
];

// The digests below are computed by Python's hashlib, from bytes that are written out by hand.

// The SHA-256 digest of 37 bytes: 32 zero bytes, and then 03 00 00 00 00.
const AFTER_REC_0: [u8; 32] = [
    0x1c, 0x49, 0x0e, 0xd8, 0x91, 0xe5, 0xed, 0x4a, 0x59, 0xf5, 0x54, 0x93, 0xa3, 0x79, 0x7e, 0xa2,
    0xf7, 0x9c, 0x54, 0x63, 0xb8, 0x02, 0x7a, 0xfc, 0x24, 0x80, 0xc7, 0x5b, 0xa2, 0x59, 0x83, 0x3b,
];

// The SHA-256 digest of 37 bytes: those of AFTER_REC_0, and then 03 00 00 00 01.
const AFTER_REC_1: [u8; 32] = [
    0x52, 0x40, 0x6e, 0x2e, 0xf2, 0xe5, 0xfd, 0xc7, 0x01, 0xf6, 0x4e, 0xe4, 0x40, 0xef, 0xf9, 0x01,
    0xc8, 0x69, 0x36, 0xf5, 0x54, 0x8a, 0x22, 0x82, 0xdc, 0x5d, 0xd6, 0xf5, 0x8a, 0x3c, 0x8c, 0xcd,
];

// A script in which a realm's measurement does not change when the creation of a REC is undone.
const MEASUREMENT: Script = &[
    (0, Call::Pages(4, 4, 0)),
    (0, Call::Realm(None)),
    (0, Call::Measurement(None)),
    (0, Call::Ask(Command::Take(2), FIRST_PAGE)),
    (0, Call::Ask(Command::Delegate(0), Ok(AcceptedAnswer::Done))),
    (0, Call::Ask(Command::Delegate(1), Ok(AcceptedAnswer::Done))),
    (0, Call::Ask(Command::Delegate(2), Ok(AcceptedAnswer::Done))),
    (0, Call::Ask(Command::Realm, Ok(AcceptedAnswer::Vmid(1)))),
    (0, Call::Realm(Some((RealmState::New, 1)))),
    (0, Call::Measurement(Some([0; 32]))),
    (0, Call::Ask(Command::Rec, Ok(AcceptedAnswer::Number(0)))),
    (0, Call::Measurement(Some(AFTER_REC_0))),
    (0, Call::Undo(Ok((Kind::Rec, 5)))),
    (0, Call::Measurement(Some(AFTER_REC_0))),
    (0, Call::Ask(Command::Rec, Ok(AcceptedAnswer::Number(1)))),
    (0, Call::Measurement(Some(AFTER_REC_1))),
];

// Calls, which no plan can make, of a build that the host does not have.
const NO_BUILD: Script = &[
    (2, Call::Ask(Command::Take(10), Err(No::Build))),
    (2, Call::Undo(Err(No::Build))),
];

// Each script, and the numbers of pages and of builds of its host.
const SCRIPTS: &[(&str, u16, u8, Script)] = &[
    ("aborts", 1, 1, ABORTS),
    ("marks", 4, 1, MARKS),
    ("refused marks", 4, 1, REFUSED_MARKS),
    ("a measurement", 4, 1, MEASUREMENT),
    ("no build", 1, 2, NO_BUILD),
];

#[test]
fn scripts_over_both_stores(rt: HostRuntime) {
    for (name, pages, builds, script) in SCRIPTS {
        over_both(&rt, rt.alloc(), name, *pages, *builds, script);
    }
}
