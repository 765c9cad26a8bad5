//! The words and numbers that represent the host's values in JSON. RMM 1.0, REC state, RTT entry state, RIPAS.
use granule_addr::{BuildId, Gran};
use realm_model::{EntryState, RecState, Ripas};
use serde::{Described, Serialize, Serializer};
use std::fmt;

/// Returns the JSON word for a REC's state.
pub fn rec_state_word(state: RecState) -> &'static str {
    match state {
        RecState::Ready => "READY",
        RecState::Running => "RUNNING",
    }
}

/// Returns the JSON word for the state of a translation table entry.
pub fn entry_state_word(state: EntryState) -> &'static str {
    match state {
        EntryState::Unassigned => "UNASSIGNED",
        EntryState::Assigned => "ASSIGNED",
        EntryState::Table => "TABLE",
    }
}

/// Returns the JSON word for the RIPAS of a translation table entry.
pub fn ripas_word(ripas: Ripas) -> &'static str {
    match ripas {
        Ripas::Empty => "EMPTY",
        Ripas::Ram => "RAM",
        Ripas::Destroyed => "DESTROYED",
    }
}

/// Converts an optional build ID to an optional number.
pub fn build_number(build: Option<BuildId>) -> Option<u8> {
    match build {
        Some(build) => Some(build.number()),
        None => None,
    }
}

/// Converts an optional granule to an optional granule number.
pub fn granule_number(granule: Option<Gran>) -> Option<u16> {
    match granule {
        Some(granule) => Some(granule.number()),
        None => None,
    }
}

/// Granules that are written in JSON as a list of their numbers.
#[derive(Clone, Copy)]
pub struct GranuleNumbers<'a>(pub &'a [Gran]);

impl Described for GranuleNumbers<'_> {}

impl Serialize for GranuleNumbers<'_> {
    fn serialize<W: Serializer>(&self, out: &mut W) -> Result<(), W::Error> {
        out.begin_seq(Some(self.0.len()))?;
        for granule in self.0 {
            granule.number().serialize(out)?;
        }
        out.end_seq()
    }
}

/// Bytes as hexadecimal digits, two for each byte.
#[derive(Clone, Copy)]
pub struct HexDigits<'a>(pub &'a [u8]);

impl fmt::Display for HexDigits<'_> {
    fn fmt<W: fmt::Write>(&self, f: &mut fmt::Formatter<W>) -> fmt::Result {
        for byte in self.0 {
            write!(f, "{:02x}", *byte)?;
        }
        Ok(())
    }
}
