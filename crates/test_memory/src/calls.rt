//! The calls to a host that are tested not to allocate memory.
use crate::boot::booted;
use crate::{Fault, tell};
use arrayvec::ArrayVec;
use buddy::BuddyArena;
use granule_addr::{BuildId, PageOff, RecNo};
use realm_host::{Cmd, Host, Mark, Refusal};
use std::alloc::Global;

/// The numbers of accepted and of refused calls.
#[derive(Drop)]
pub(crate) struct Tally {
    accepted: u32,
    refused: u32,
}

impl Tally {
    pub(crate) fn new() -> Tally {
        Tally {
            accepted: 0,
            refused: 0,
        }
    }

    /// Counts a call to the host as accepted or refused, by its result.
    pub(crate) fn count<T>(&mut self, answer: &Result<T, Refusal>) {
        if answer.is_ok() {
            self.accepted = self.accepted.saturating_add(1);
        } else {
            self.refused = self.refused.saturating_add(1);
        }
    }

    pub(crate) fn tell(&self, rt: &impl Print) {
        let _told = println!(rt; "{} accepted, {} refused", self.accepted, self.refused);
    }
}

/// Returns command number `turn` of the test's sequence of commands. The sequence makes a realm, enters its REC, and
/// uses every kind of command.
pub(crate) fn command(turn: u8) -> Cmd {
    let offset = PageOff::new(4095).unwrap();
    match turn {
        0 => Cmd::Take { order: 3 },
        1 => Cmd::Fill { page: 5, value: 7 },
        2 => Cmd::Peek { page: 5, offset },
        3..=7 => Cmd::Delegate {
            page: turn as u16 - 3,
        },
        _ => realm_command(turn, offset),
    }
}

fn realm_command(turn: u8, offset: PageOff) -> Cmd {
    match turn {
        8 => Cmd::Realm {
            rd: 0,
            root: 1,
            width: 39,
        },
        9 => Cmd::Rtt {
            page: 2,
            ipa: 0,
            level: 2,
        },
        10 => Cmd::Rtt {
            page: 3,
            ipa: 0,
            level: 3,
        },
        11 => Cmd::Ripas { ipa: 1, count: 511 },
        12 => Cmd::Data {
            page: 4,
            ipa: 0,
            source: 5,
        },
        13 => Cmd::Delegate { page: 6 },
        14 => Cmd::Rec {
            page: 6,
            auxiliaries: ArrayVec::new(),
        },
        15 => Cmd::Activate,
        16 => Cmd::Enter {
            number: RecNo::new(0),
        },
        17 => Cmd::Poke {
            number: RecNo::new(0),
            ipa: 0,
            offset,
            value: 9,
        },
        18 => Cmd::Delegate { page: 7 },
        19 => Cmd::Unknown { page: 7, ipa: 1 },
        20 => Cmd::Exit {
            number: RecNo::new(0),
        },
        // A page that the build does not have.
        _ => Cmd::Fill { page: 8, value: 0 },
    }
}

/// The number of commands in the sequence that the function `command` returns one by one.
pub(crate) const TURNS: u8 = 22;

// Asks for the number of open operations above a mark, and then rolls the build back to the mark.
fn go_back(host: &mut Host<BuddyArena>, build: BuildId, mark: &Mark, tally: &mut Tally) {
    tally.count(&host.check_back(build, *mark));
    tally.count(&host.rollback_to(build, *mark));
}

// Performs all commands, and then the other calls that a build can make, such as undo and mark. The answers are
// counted.
fn ask_all(host: &mut Host<BuddyArena>, build: BuildId, tally: &mut Tally) {
    for turn in 0..TURNS {
        let answer = host.command(build, command(turn));
        tally.count(&answer);
        // The newest operation created the REC that runs, so this undo is refused.
        if turn == 17 {
            tally.count(&host.undo(build));
        }
    }
    tally.count(&host.undo(build));
    let mark = host.mark(build);
    tally.count(&mark);
    let Ok(mark) = mark else {
        return;
    };
    tally.count(&host.command(build, command(19)));
    go_back(host, build, &mark, tally);
}

// Reads what a host reports of its free pages and of a build's pages and realm, and returns a sum of the results.
fn read_all(host: &Host<BuddyArena>, build: BuildId) -> u32 {
    let mut seen = host.free_count() as u32;
    for page in 0..host.page_count(build) {
        let is_there = host.page_state(build, page).is_some()
            && host.page_sum(build, page).is_some();
        seen = seen.saturating_add(u32::from(is_there));
    }
    let has_realm = host.realm_view(build).is_some() && host.measurement(build).is_some();
    seen.saturating_add(u32::from(has_realm))
}

// Makes the test's calls for the two builds of a host, and counts the answers. Returns what `read_all` does.
fn ask_both(host: &mut Host<BuddyArena>, tally: &mut Tally) -> u32 {
    let first = BuildId::new(0).unwrap();
    let second = BuildId::new(1).unwrap();
    ask_all(host, first, tally);
    ask_all(host, second, tally);
    let seen = read_all(host, first);
    tally.count(&host.begin_abort(second));
    tally.count(&host.command(second, command(0)));
    tally.count(&host.undo(second));
    tally.count(&host.abort(second));
    seen
}

/// Boots a host, and makes the test's calls for the host's two builds. The abort of the second build begins with one
/// undo, and ends with a call that undoes the rest. The first build stays.
pub(crate) fn all_calls(rt: &impl Print, alloc: Global) -> Result<Host<BuddyArena>, Fault> {
    let mut host = booted(rt, alloc)?;
    let mut tally = Tally::new();
    tell(rt, "quiet");
    let seen = ask_both(&mut host, &mut tally);
    tally.tell(rt);
    let _told = println!(rt; "{seen} seen");
    Ok(host)
}
