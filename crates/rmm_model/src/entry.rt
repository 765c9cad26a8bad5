//! Entries of translation tables, and the words that encode them.
ghost use Rattle.std.specs.Prelude.{◌≡◌, ◌<◌, ◌≤◌, ◌^◌};
ghost use Rattle.rmm_model.specs.Entry as entries;

use crate::entry_size;

/// The RIPAS of an IPA: EMPTY, RAM or DESTROYED. RMM 1.0, RmmRipas.
#[derive(Clone, Copy)]
pub enum RmmRipas {
    Empty,
    Ram,
    Destroyed,
}

/// An entry of a translation table. RMM 1.0, RTT entry.
///
/// An ASSIGNED entry has the address of a page or block, a TABLE that of a table, an ASSIGNED_NS the descriptor that
/// the host gave.
#[derive(Clone, Copy)]
pub enum RmmRttEntry {
    Unassigned(RmmRipas),
    Assigned(RmmRipas, u64),
    Table(u64),
    UnassignedNs,
    AssignedNs(u64),
}

/// The kinds of translation table entries whose RIPAS a command changes. UNASSIGNED entries are always among them, but
/// those with RIPAS DESTROYED only if `destroyed` is set.
#[derive(Clone, Copy)]
pub struct Changeable {
    /// Set if a command changes the RIPAS of ASSIGNED entries.
    pub assigned: bool,
    /// Set if a command changes entries whose RIPAS is DESTROYED.
    pub destroyed: bool,
}

// A word whose bytes are all 1.
const REPEATED: u64 = 0x0101_0101_0101_0101;

const KIND: u64 = 0x100_0000_0000_0000;

// The smallest word that encodes a live entry.
pub(crate) const LEAST_LIVE: u64 = 4 * KIND;

pub(crate) const ADDRESSES: u64 = 0x1_0000_0000_0000;

/// Returns the translation table entry that a word encodes. Each word encodes some entry.
#[tactic(auto, unfolding(crate::specs::Entry::entry_of))]
pub fn entry_from_word(word: u64) -> RmmRttEntry
    ensures value { result ≡ entries.entry_of word }
    ensures fits { entries.descriptor_of result < 2 ^ 48 }
{
    let descriptor = word % ADDRESSES;
    match word / KIND {
        1 => RmmRttEntry::Unassigned(RmmRipas::Ram),
        2 => RmmRttEntry::Unassigned(RmmRipas::Destroyed),
        3 => RmmRttEntry::UnassignedNs,
        4 => RmmRttEntry::Table(descriptor),
        5 => RmmRttEntry::AssignedNs(descriptor),
        6 => RmmRttEntry::Assigned(RmmRipas::Empty, descriptor),
        7 => RmmRttEntry::Assigned(RmmRipas::Ram, descriptor),
        8 => RmmRttEntry::Assigned(RmmRipas::Destroyed, descriptor),
        _ => RmmRttEntry::Unassigned(RmmRipas::Empty),
    }
}

impl RmmRipas {
    /// Returns the encoding of the RIPAS as an RmiRipas.
    pub fn code(self) -> u8
        ensures value { result ≡ entries.ripas_code self }
        ensures below { result ≤ 2 }
    {
        match self {
            RmmRipas::Empty => 0,
            RmmRipas::Ram => 1,
            RmmRipas::Destroyed => 2,
        }
    }

    pub fn is_ram(self) -> bool
        ensures { result ≡ entries.is_ram self }
    {
        matches!(self, RmmRipas::Ram)
    }

    pub fn is_destroyed(self) -> bool
        ensures { result ≡ entries.is_destroyed self }
    {
        matches!(self, RmmRipas::Destroyed)
    }
}

impl RmmRttEntry {
    /// Returns the word that encodes the entry's kind and RIPAS, without the descriptor. The descriptor is added to
    /// this word. Bits 63:56 have the kind and the RIPAS of the entry. The bytes of an entry that is not live are all
    /// the same, so that a page of such entries is written as one byte.
    pub fn kind_word(self) -> u64
        ensures value { result ≡ entries.kind_word self }
        ensures most { result ≤ 2 ^ 60 }
    {
        match self {
            RmmRttEntry::Unassigned(ripas) => ripas.code() as u64 * REPEATED,
            RmmRttEntry::UnassignedNs => 3 * REPEATED,
            RmmRttEntry::Table(_) => 4 * KIND,
            RmmRttEntry::AssignedNs(_) => 5 * KIND,
            RmmRttEntry::Assigned(ripas, _) => (6 + ripas.code() as u64) * KIND,
        }
    }

    /// Returns the word that encodes the entry, with the descriptor of a live entry in bits 47:0.
    #[tactic(auto, unfolding(crate::specs::Entry::entry_word))]
    pub fn word(self) -> u64
        ensures { result ≡ entries.entry_word self }
    {
        self.kind_word() + self.descriptor() % ADDRESSES
    }

    /// Returns whether the entry leads to a page, a block or a table.
    pub fn is_live(self) -> bool
        ensures { result ≡ entries.is_live self }
    {
        match self {
            RmmRttEntry::Unassigned(_) => false,
            RmmRttEntry::UnassignedNs => false,
            _ => true,
        }
    }

    pub fn is_unassigned(self) -> bool
        ensures { result ≡ entries.is_unassigned self }
    {
        matches!(self, RmmRttEntry::Unassigned(_))
    }

    pub fn is_unassigned_ns(self) -> bool
        ensures { result ≡ entries.is_unassigned_ns self }
    {
        matches!(self, RmmRttEntry::UnassignedNs)
    }

    pub fn is_assigned_ns(self) -> bool
        ensures { result ≡ entries.is_assigned_ns self }
    {
        matches!(self, RmmRttEntry::AssignedNs(_))
    }

    pub fn is_table(self) -> bool
        ensures { result ≡ entries.is_table self }
    {
        matches!(self, RmmRttEntry::Table(_))
    }

    /// Returns whether the entry leads to a page or a block.
    pub fn is_mapping(self) -> bool
        ensures { result ≡ entries.is_mapping self }
    {
        match self {
            RmmRttEntry::Assigned(_, _) => true,
            RmmRttEntry::AssignedNs(_) => true,
            _ => false,
        }
    }

    /// Returns the address or descriptor of a live entry, or 0 for any other entry.
    pub fn descriptor(self) -> u64
        ensures { result ≡ entries.descriptor_of self }
    {
        match self {
            RmmRttEntry::Assigned(_, address) => address,
            RmmRttEntry::Table(address) => address,
            RmmRttEntry::AssignedNs(descriptor) => descriptor,
            _ => 0,
        }
    }

    /// Returns the RIPAS of an UNASSIGNED or ASSIGNED entry, or EMPTY for any other entry.
    pub fn ripas(self) -> RmmRipas
        ensures { result ≡ entries.ripas_in self }
    {
        match self {
            RmmRttEntry::Unassigned(ripas) => ripas,
            RmmRttEntry::Assigned(ripas, _) => ripas,
            _ => RmmRipas::Empty,
        }
    }

    /// Returns whether a command that changes the RIPAS of `changeable` entries changes this entry.
    pub fn can_change(self, changeable: Changeable) -> bool
        ensures { result ≡ entries.can_change changeable self }
    {
        match self {
            RmmRttEntry::Unassigned(ripas) => changeable.destroyed || !ripas.is_destroyed(),
            RmmRttEntry::Assigned(ripas, _) => {
                changeable.assigned && (changeable.destroyed || !ripas.is_destroyed())
            }
            _ => false,
        }
    }

    /// Returns the entry with its RIPAS replaced by `ripas`. An entry that is neither UNASSIGNED nor ASSIGNED is
    /// returned unchanged.
    pub fn with_ripas(self, ripas: RmmRipas) -> RmmRttEntry
        ensures { result ≡ entries.entry_with_ripas ripas self }
    {
        match self {
            RmmRttEntry::Unassigned(_) => RmmRttEntry::Unassigned(ripas),
            RmmRttEntry::Assigned(_, address) => RmmRttEntry::Assigned(ripas, address),
            _ => self,
        }
    }

    /// Returns the encoding of the entry's state as an RmiRttEntryState.
    pub fn state_code(self) -> u64
        ensures { result ≡ entries.state_code self }
    {
        match self {
            RmmRttEntry::Unassigned(_) => 0,
            RmmRttEntry::UnassignedNs => 0,
            RmmRttEntry::Assigned(_, _) => 1,
            RmmRttEntry::AssignedNs(_) => 1,
            RmmRttEntry::Table(_) => 2,
        }
    }

    /// Returns the entry's RIPAS, encoded as an RmiRipas, or 0 for an entry that is neither UNASSIGNED nor ASSIGNED.
    pub fn ripas_code(self) -> u64
        ensures { result ≡ entries.shown_ripas self }
    {
        match self {
            RmmRttEntry::Unassigned(ripas) => ripas.code() as u64,
            RmmRttEntry::Assigned(ripas, _) => ripas.code() as u64,
            _ => 0,
        }
    }

    /// Returns the difference between the descriptors of adjacent children of this entry. The children are in a table
    /// at the given level. The difference is 0 if the entry is not a mapping.
    pub fn child_step(self, level: u8) -> u64
        ensures value { result ≡ entries.child_step self level }
        ensures most { result ≤ 2 ^ 39 }
    {
        match self {
            RmmRttEntry::Assigned(_, _) => entry_size(level),
            RmmRttEntry::AssignedNs(_) => entry_size(level),
            _ => 0,
        }
    }

    /// Returns the byte that fills a new table below the entry, or `None` for a live entry.
    pub fn repeated_byte(self) -> Option<u8>
        ensures { result ≡ entries.repeated_byte self }
    {
        match self {
            RmmRttEntry::Unassigned(ripas) => Some(ripas.code()),
            RmmRttEntry::UnassignedNs => Some(3),
            _ => None,
        }
    }
}
