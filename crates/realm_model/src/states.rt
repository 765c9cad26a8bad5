//! States of granules, realms, RECs, table entries and IPAs.

/// The state of a granule. RMM 1.0, Granule state.
#[derive(Clone, Copy, PartialEq, Eq)]
pub enum GranuleState {
    Undelegated,
    Delegated,
    Rd,
    Rec,
    RecAux,
    Data,
    Rtt,
}

/// The state of a realm. RMM 1.0, Realm state, without SYSTEM_OFF.
#[derive(Clone, Copy)]
pub enum RealmState {
    New,
    Active,
}

/// The state of a REC. RMM 1.0, REC state.
#[derive(Clone, Copy)]
pub enum RecState {
    Ready,
    Running,
}

/// The state of an RTT entry. The entry leads to nothing, to a page or to a table. RMM 1.0, RTT entry state.
///
/// UNASSIGNED and ASSIGNED are also the HIPAS of what the entry maps; TABLE is not a HIPAS.
#[derive(Clone, Copy, PartialEq, Eq)]
pub enum EntryState {
    Unassigned,
    Assigned,
    Table,
}

/// The state of an IPA as its realm sees it. RMM 1.0, RIPAS.
#[derive(Clone, Copy, PartialEq, Eq)]
pub enum Ripas {
    Empty,
    Ram,
    Destroyed,
}
