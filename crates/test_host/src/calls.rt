//! The calls to a host in a test script, with the expected answers. A script has calls of the host's builds, and
//! readings of the host's state.
use crate::expected::holds_at;
use crate::hosts::{booted, over_arena};
use crate::lines::No;
use crate::readings::is_read;
use arrayvec::ArrayVec;
use granule_addr::{BuildId, RecNo, Vmid};
use page_arena::PageStore;
use realm_host::{Cmd, GranuleState, Host, Kind, Mark, RealmState, Refusal, Reply, Undone};
use std::alloc::Global;
use std::process::Abort;

/// A sequence of calls to a host in a test, each with the number of its build.
pub(crate) type Script = &'static [(u8, Call)];

/// A command in a test script, which a build gives the host.
pub(crate) enum Command {
    /// Leases a block of 2^order pages.
    Take(u8),
    /// Sets every byte of a page to a value.
    Fill(u16, u8),
    Delegate(u16),
    /// Turns pages 0 and 1 into the RD and the starting table of a realm.
    Realm,
    /// Turns page 2 into a REC.
    Rec,
}

/// The expected reply to an accepted command of a test script.
pub(crate) enum AcceptedAnswer {
    Done,
    FirstPage(u16),
    Vmid(u8),
    Number(u16),
}

/// One of the last two marks (rollback points) that a script has set.
pub(crate) enum Which {
    Newest,
    /// The rollback mark that was set before the newest one.
    Older,
}

/// A call to a host, with the expected answer. Some calls only read the host's state.
pub(crate) enum Call {
    Ask(Command, Result<AcceptedAnswer, No>),
    /// An undo of the build's newest open operation, with its expected answer. The answer is the kind of the undone
    /// operation, and the number of operations left open.
    Undo(Result<(Kind, u16), No>),
    BeginAbort(Result<u16, No>),
    Abort(Result<u16, No>),
    /// A request for a mark to which the build can be rolled back, with its expected answer. The answer is the number
    /// of operations open at the mark.
    Mark(Result<u16, No>),
    CheckBack(Which, Result<u16, No>),
    /// Checks whether the build can be rolled back to a mark, and rolls it back. Both calls have the same expected
    /// answer.
    GoBack(Which, Result<u16, No>),
    /// Checks the numbers of free pages, of all pages, and of the build's pages.
    Pages(u16, u16, u16),
    /// Checks the state of a build's page and the sum of its bytes.
    Page(u16, GranuleState, u32),
    /// Checks the state and the VMID of the build's realm, or that the build has no realm.
    Realm(Option<(RealmState, u8)>),
    Measurement(Option<[u8; 32]>),
}

impl Command {
    fn of_host(&self) -> Cmd {
        match *self {
            Command::Take(order) => Cmd::Take { order },
            Command::Fill(page, value) => Cmd::Fill { page, value },
            Command::Delegate(page) => Cmd::Delegate { page },
            Command::Realm => Cmd::Realm {
                rd: 0,
                root: 1,
                width: 39,
            },
            Command::Rec => Cmd::Rec {
                page: 2,
                auxiliaries: ArrayVec::new(),
            },
        }
    }
}

// The VMID with that number, or VMID 1 for the number 0.
fn vmid(number: u8) -> Vmid {
    Vmid::new(number.max(1)).unwrap()
}

fn reply(want: &Result<AcceptedAnswer, No>) -> Result<Reply, Refusal> {
    match want {
        Ok(AcceptedAnswer::Done) => Ok(Reply::Done),
        Ok(AcceptedAnswer::FirstPage(page)) => Ok(Reply::FirstPage(*page)),
        Ok(AcceptedAnswer::Vmid(number)) => Ok(Reply::Vmid(vmid(*number))),
        Ok(AcceptedAnswer::Number(number)) => Ok(Reply::Number(RecNo::new(*number))),
        Err(no) => Err(no.of_host()),
    }
}

fn undone(want: &Result<(Kind, u16), No>) -> Result<Undone, Refusal> {
    match want {
        Ok((kind, left)) => {
            let (kind, left) = (*kind, *left);
            Ok(Undone { kind, left })
        }
        Err(no) => Err(no.of_host()),
    }
}

fn count(want: &Result<u16, No>) -> Result<u16, Refusal> {
    match want {
        Ok(count) => Ok(*count),
        Err(no) => Err(no.of_host()),
    }
}

// The last two marks of a script.
#[derive(Drop)]
struct Marks {
    newest: Option<Mark>,
    older: Option<Mark>,
}

impl Marks {
    // Keeps a mark, and returns how many operations were open then.
    fn keep(&mut self, mark: Result<Mark, Refusal>) -> Result<u16, Refusal> {
        let mark = mark?;
        self.older = self.newest;
        self.newest = Some(mark);
        Ok(mark.length())
    }

    fn get(&self, which: &Which) -> &Option<Mark> {
        match which {
            Which::Newest => &self.newest,
            Which::Older => &self.older,
        }
    }
}

fn checks_back<S: PageStore>(
    host: &Host<S>,
    build: BuildId,
    mark: &Option<Mark>,
    want: &Result<u16, No>,
) -> bool {
    match mark {
        Some(mark) => host.check_back(build, *mark) == count(want),
        None => false,
    }
}

fn goes_back<S: PageStore>(
    host: &mut Host<S>,
    build: BuildId,
    mark: &Option<Mark>,
    want: &Result<u16, No>,
) -> bool {
    match mark {
        Some(mark) => host.rollback_to(build, *mark) == count(want),
        None => false,
    }
}

// Whether a call has the expected answer.
fn is_answered<S: PageStore>(
    host: &mut Host<S>,
    marks: &mut Marks,
    build: BuildId,
    call: &Call,
) -> bool {
    match call {
        Call::Ask(command, want) => host.command(build, command.of_host()) == reply(want),
        Call::Undo(want) => host.undo(build) == undone(want),
        Call::BeginAbort(want) => host.begin_abort(build) == count(want),
        Call::Abort(want) => host.abort(build) == count(want),
        Call::Mark(want) => marks.keep(host.mark(build)) == count(want),
        Call::CheckBack(which, want) => checks_back(host, build, marks.get(which), want),
        Call::GoBack(which, want) => {
            let mark = marks.get(which);
            checks_back(host, build, mark, want) && goes_back(host, build, mark, want)
        }
        _ => is_read(host, build, call),
    }
}

// Runs a script on a host on which no build has done anything.
fn run<S: PageStore + Drop>(rt: &impl Abort, name: &str, mut host: Host<S>, script: Script) {
    let mut marks = Marks {
        newest: None,
        older: None,
    };
    let mut place = 0;
    for (number, call) in script {
        let build = BuildId::new(*number).expect(rt, "a build");
        let is_so = is_answered(&mut host, &mut marks, build, call);
        holds_at(rt, name, place, is_so);
        place = place.saturating_add(1);
    }
}

/// Runs a script on two new hosts, one over a `PlainStore` and one over a `BuddyArena`. Each host has the given numbers
/// of pages and builds.
pub(crate) fn over_both(
    rt: &impl Abort,
    alloc: Global,
    name: &str,
    pages: u16,
    builds: u8,
    script: Script,
) {
    run(rt, name, booted(rt, alloc, pages, 0, builds), script);
    run(rt, name, over_arena(rt, alloc, pages, builds), script);
}
