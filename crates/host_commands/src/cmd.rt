//! The data types for the commands and other steps of builds.
ghost use Rattle.std.specs.Prelude.{◌≡◌};

use arrayvec::ArrayVec;
use granule_addr::{PageOff, RecNo};

/// A command that a build asks the host to carry out.
///
/// Pages are named by the build's own numbers, from 0 in the order of taking. IPA granules and levels are numbers as
/// they were written: the RMM refuses one that no realm has.
pub enum Cmd {
    /// Leases a block of 2^order pages.
    Take {
        order: u8,
    },
    /// Sets every byte of a page to `value`.
    Fill {
        page: u16,
        value: u8,
    },
    /// Reads a byte of a page.
    Peek {
        page: u16,
        offset: PageOff,
    },
    /// Changes a page from undelegated to delegated. RMI_GRANULE_DELEGATE
    Delegate {
        page: u16,
    },
    /// Creates the build's realm, with its starting tables. The tables are the pages from `root` on, as many as the
    /// width needs. RMI_REALM_CREATE
    Realm {
        rd: u16,
        root: u16,
        width: u8,
    },
    /// Turns a page into a translation table of the build's realm. RMI_RTT_CREATE
    Rtt {
        page: u16,
        ipa: u32,
        level: u8,
    },
    /// Sets the RIPAS of a range of IPA granules to RAM. The range has `count` granules, from `ipa` on.
    /// RMI_RTT_INIT_RIPAS
    Ripas {
        ipa: u32,
        count: u16,
    },
    /// Turns a page into realm memory, with the bytes of the page `source`. RMI_DATA_CREATE
    Data {
        page: u16,
        ipa: u32,
        source: u16,
    },
    /// Turns a page into zeroed memory of the realm. RMI_DATA_CREATE_UNKNOWN
    Unknown {
        page: u16,
        ipa: u32,
    },
    /// Turns pages into a REC and its auxiliary granules. RMI_REC_CREATE
    Rec {
        page: u16,
        auxiliaries: ArrayVec<u16, 16>,
    },
    /// Changes the build's realm from new to active. RMI_REALM_ACTIVATE
    Activate,
    /// Enters a REC, which then runs. RMI_REC_ENTER
    Enter {
        number: RecNo,
    },
    /// Makes a running REC exit to the host.
    Exit {
        number: RecNo,
    },
    /// Lets a running REC write a byte to the realm's memory.
    Poke {
        number: RecNo,
        ipa: u32,
        offset: PageOff,
        value: u8,
    },
}

impl Drop for Cmd {
    fn drop(self) {
        match self {
            Cmd::Take { order: _ }
            | Cmd::Fill { page: _, value: _ }
            | Cmd::Peek { page: _, offset: _ }
            | Cmd::Delegate { page: _ }
            | Cmd::Realm {
                rd: _,
                root: _,
                width: _,
            }
            | Cmd::Rtt {
                page: _,
                ipa: _,
                level: _,
            }
            | Cmd::Ripas { ipa: _, count: _ }
            | Cmd::Data {
                page: _,
                ipa: _,
                source: _,
            }
            | Cmd::Unknown { page: _, ipa: _ }
            | Cmd::Rec {
                page: _,
                auxiliaries: _,
            }
            | Cmd::Activate
            | Cmd::Enter { number: _ }
            | Cmd::Exit { number: _ }
            | Cmd::Poke {
                number: _,
                ipa: _,
                offset: _,
                value: _,
            } => {}
        }
    }
}

/// A step of a build: a command, undo, abort, mark or rollback to a mark.
#[derive(Drop)]
pub enum Step {
    Ask(Cmd),
    /// Reverses the build's newest reversible operation that is not undone yet.
    Undo,
    /// Reverses all reversible operations of the build that are not undone yet, the newest first.
    Abort,
    /// Sets the build's mark, to which the build can go back.
    Mark,
    /// Rolls the build back to the last mark that it set. This reverses the operations opened since the mark, the
    /// newest first.
    Back,
}

// A copy of a list of page numbers.
fn clone_pages(pages: &ArrayVec<u16, 16>) -> ArrayVec<u16, 16>
    ensures { result ≡ pages.now }
{
    let mut clone = ArrayVec::new();
    for page in pages.as_slice() {
        clone.push(*page);
    }
    clone
}

impl Cmd {
    /// Returns a copy of the command without allocating memory.
    pub fn clone(&self) -> Cmd
        ensures { result ≡ self.now }
    {
        match *self {
            Cmd::Take { order } => Cmd::Take { order },
            Cmd::Fill { page, value } => Cmd::Fill { page, value },
            Cmd::Peek { page, offset } => Cmd::Peek { page, offset },
            Cmd::Delegate { page } => Cmd::Delegate { page },
            Cmd::Realm { rd, root, width } => Cmd::Realm { rd, root, width },
            Cmd::Rtt { page, ipa, level } => Cmd::Rtt { page, ipa, level },
            Cmd::Ripas { ipa, count } => Cmd::Ripas { ipa, count },
            Cmd::Data { page, ipa, source } => Cmd::Data { page, ipa, source },
            Cmd::Unknown { page, ipa } => Cmd::Unknown { page, ipa },
            Cmd::Rec {
                page,
                ref auxiliaries,
            } => Cmd::Rec {
                page,
                auxiliaries: clone_pages(auxiliaries),
            },
            Cmd::Activate => Cmd::Activate,
            Cmd::Enter { number } => Cmd::Enter { number },
            Cmd::Exit { number } => Cmd::Exit { number },
            Cmd::Poke {
                number,
                ipa,
                offset,
                value,
            } => Cmd::Poke {
                number,
                ipa,
                offset,
                value,
            },
        }
    }
}
