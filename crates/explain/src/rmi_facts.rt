//! Facts that the RMM requires of operands, realms, RECs and walks. RMM 1.0, RMI command conditions.
use granule_addr::{Gran, RecNo};
use realm_model::{EntryState, GranuleState, RealmState, RecState};

/// A required fact about an operand of a command: a page, an IPA granule, a level or a number of pages.
#[derive(Clone, Copy)]
pub enum InputFact {
    /// Requires that the granule of a build's page is in a given state.
    Page {
        page: u16,
        required: GranuleState,
        found: Option<GranuleState>,
    },
    /// Requires that an IPA granule is in the protected half of an address space of the given IPA width.
    Protected {
        ipa: u32,
        width: u8,
    },
    /// Requires that the level of a new table is 2 or 3. The value is the level.
    Level(u8),
    /// Requires that the first IPA granule of a table is aligned for the level of the table.
    Start {
        ipa: u32,
        level: u8,
    },
    /// Requires that a `ripas` step sets the RIPAS of 1 to 512 pages to RAM. The value is the number of pages.
    Count(u16),
    /// Requires that one table of level 3 covers the `count` IPA granules from `ipa` on.
    OneTable {
        ipa: u32,
        count: u16,
    },
}

/// A required fact about a realm or its creation. RMM 1.0, RMI_REALM_CREATE, Realm attributes.
#[derive(Clone, Copy)]
pub enum RealmFact {
    /// Requires that the IPA width is allowed for a realm.
    Width(u8),
    /// Requires that the granules of the starting tables have consecutive numbers, in the sequence of the tables.
    Adjacent,
    /// Requires that the granule number of the first starting table is a multiple of the number of starting tables. The
    /// value is the number of starting tables.
    Multiple(usize),
    /// Requires that the RD is not one of the starting tables.
    Apart,
    /// Requires that the realm is in a given state.
    State {
        required: RealmState,
        found: Option<RealmState>,
    },
}

/// A required fact about a REC or its creation. RMM 1.0, RMI_REC_CREATE, REC attributes.
#[derive(Clone, Copy)]
pub enum RecFact {
    /// Requires that the granules named by the command are distinct.
    Distinct,
    /// Requires that the command names as many auxiliary granules as a REC needs. The fields are the number that is
    /// named and the number that is needed.
    Auxiliaries {
        named: usize,
        needed: u8,
    },
    /// Requires that the realm has a REC with a given number.
    There(RecNo),
    /// Requires that the REC is in a given state.
    State {
        number: RecNo,
        required: RecState,
        found: Option<RecState>,
    },
}

/// A required fact about the end of a table walk. RMM 1.0, RTT walk, RTT entry.
#[derive(Clone, Copy)]
pub enum WalkFact {
    /// Requires that the walk for an IPA granule ends at the level `required`. The walk ended at level `ended`.
    Walk {
        ipa: u32,
        required: u8,
        ended: u8,
    },
    /// Requires that the last entry of the walk is in a given state. The entry is at level `level`.
    Entry {
        level: u8,
        required: EntryState,
        found: Option<EntryState>,
    },
    /// Requires that the last entry of the walk is not TABLE. The entry is at level `level`.
    NoTable {
        level: u8,
        found: Option<EntryState>,
    },
    /// Requires that the last entry of the walk leads to a granule. The value is the found granule, if any.
    Leads(Option<Gran>),
    /// Requires that the `count` level 3 entries from IPA granule `ipa` on are UNASSIGNED.
    Free {
        ipa: u32,
        count: u16,
    },
}
