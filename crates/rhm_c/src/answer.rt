//! Answers to a C program's calls, each with a status and a value.
ghost use Rattle.std.specs.Prelude.{◌≡◌};
ghost use Rattle.rhm_c.specs.Answer as answers;

use host_commands::{Refusal, Reply};

/// The answer to a C program's call, with a status and a value. The value is 0 if the status has none.
#[derive(Clone, Copy)]
pub(crate) struct CallAnswer {
    pub(crate) status: u64,
    pub(crate) value: u64,
}

/// The status of a call on a build that does not exist.
pub(crate) const NO_BUILD: u64 = 1;

/// The status of a call on a closed handle.
pub(crate) const CLOSED: u64 = 14;

/// Returns the answer to a call on a closed handle.
pub(crate) fn closed() -> CallAnswer
    ensures { result ≡ answers.closed }
{
    only(CLOSED)
}

/// Returns an answer with the given status and the value 0.
pub(crate) fn only(status: u64) -> CallAnswer
    ensures { result ≡ answers.only status }
{
    CallAnswer { status, value: 0 }
}

/// Returns the answer to a successful call. It has status 0 and the given value.
pub(crate) fn done(value: u64) -> CallAnswer
    ensures { result ≡ answers.done value }
{
    CallAnswer { status: 0, value }
}

// The number that a reply carries; 0 for `Done`.
pub(crate) fn reply_value(reply: Reply) -> u64
    ensures { result ≡ answers.reply_value reply }
{
    match reply {
        Reply::Done => 0,
        Reply::FirstPage(page) => u64::from(page),
        Reply::Byte(byte) => u64::from(byte),
        Reply::Vmid(vmid) => u64::from(vmid.number()),
        Reply::Number(number) => u64::from(number.number()),
    }
}

// The number of a refusal.
pub(crate) fn refusal_status(refusal: &Refusal) -> u64
    ensures { result ≡ answers.refusal_status refusal.now }
{
    match refusal {
        Refusal::NoBuild => 1,
        Refusal::Aborting => 2,
        Refusal::BadOrder => 3,
        Refusal::NotLeased(_) => 4,
        Refusal::RealmThere => 5,
        Refusal::NoRealm => 6,
        Refusal::NothingToUndo => 7,
        Refusal::RecRunning => 8,
        Refusal::JournalFull => 9,
        Refusal::HistoryFull => 10,
        Refusal::NoBlock(_) => 11,
        Refusal::NoVmid => 12,
        Refusal::Rmi(_) => 13,
    }
}

// The value that goes with a refusal: its page, its order or its result word, or else 0.
pub(crate) fn refusal_value(refusal: &Refusal) -> u64
    ensures { result ≡ answers.refusal_value refusal.now }
{
    match refusal {
        Refusal::NotLeased(page) => u64::from(*page),
        Refusal::NoBlock(order) => u64::from(order.number()),
        Refusal::Rmi(rmi) => rmi.word(),
        _ => 0,
    }
}

/// Converts a host's refusal to a status number and a value for C.
pub(crate) fn refused(refusal: &Refusal) -> CallAnswer
    ensures { result ≡ answers.refused_as refusal.now }
{
    CallAnswer {
        status: refusal_status(refusal),
        value: refusal_value(refusal),
    }
}

/// Converts a count or a host's refusal to a status and a value for C.
pub(crate) fn counted(count: &Result<u16, Refusal>) -> CallAnswer
    ensures { result ≡ answers.counted_as count.now }
{
    match count {
        Ok(count) => done(u64::from(*count)),
        Err(refusal) => refused(refusal),
    }
}
