//! Entries of translation tables, and their encoding as 64-bit words.
ghost use Rattle.std.specs.Prelude.{◌≡◌};
ghost use Rattle.realm_model.specs.Rows as rows;
ghost use Rattle.rtt.specs.Word.{entry_word, entry_of};

use granule_addr::Gran;
use realm_model::{EntryState, Ripas};
use std::marker::Model;

/// An entry of a realm's translation table (RTT). UNASSIGNED entries lead to nothing, ASSIGNED ones to a page of data,
/// and TABLE ones to a table. TABLE entries have no RIPAS of their own. RMM 1.0, RTT entry.
#[derive(Clone, Copy, PartialEq, Eq)]
pub struct Entry {
    pub state: EntryState,
    pub ripas: Ripas,
    /// The granule that the entry leads to, if any.
    pub granule: Option<Gran>,
}

impl Model for Entry {
    ghost use Rattle.realm_model.specs.Rows.{Row};
    ghost use Rattle.realm_model.specs.Codes.{row_code};
    ghost use Rattle.rtt.specs.Word.{IsEncodable};

    ghost Value = { Row };

    ghost coded = { row_code };

    ghost view = { λ e. record { state = e.state; ripas = e.ripas; granule = e.granule } };

    ghost invariant = { λ e. IsEncodable e.state e.ripas e.granule };

    ghost inverse = { λ row. record { state = row.state; ripas = row.ripas; granule = row.granule } };
}

impl Entry {
    /// Creates an UNASSIGNED entry with the given RIPAS. The entry leads to nothing.
    pub fn unassigned(ripas: Ripas) -> Entry
        ensures { result ≡ rows.unassigned ripas }
    {
        Entry {
            state: EntryState::Unassigned,
            ripas,
            granule: None,
        }
    }

    /// Creates an ASSIGNED entry, which leads to a page of data.
    pub fn assigned(ripas: Ripas, page: Gran) -> Entry
        ensures { result ≡ rows.assigned ripas page }
    {
        Entry {
            state: EntryState::Assigned,
            ripas,
            granule: Some(page),
        }
    }

    /// Creates a TABLE entry, which leads to another translation table.
    pub fn table(table: Gran) -> Entry
        ensures { result ≡ rows.table table }
    {
        Entry {
            state: EntryState::Table,
            ripas: Ripas::Empty,
            granule: Some(table),
        }
    }

    pub(crate) fn is_unassigned(self) -> bool
        ensures { result ≡ rows.is_unassigned self }
    {
        matches!(self.state, EntryState::Unassigned)
    }

    pub(crate) fn is_assigned(self) -> bool
        ensures { result ≡ rows.is_assigned self }
    {
        matches!(self.state, EntryState::Assigned)
    }

    /// Returns the granule of an ASSIGNED entry's page of data. It is `None` for any other entry.
    pub fn page(self) -> Option<Gran>
        ensures { result ≡ rows.data_of self }
    {
        match self.state {
            EntryState::Assigned => self.granule,
            _ => None,
        }
    }

    pub(crate) fn is_table(self) -> bool
        ensures { result ≡ rows.is_table self }
    {
        matches!(self.state, EntryState::Table)
    }

    /// Returns the granule of the table that a TABLE entry leads to. It is `None` for any other entry.
    pub(crate) fn child(self) -> Option<Gran>
        ensures { result ≡ rows.table_of self }
    {
        match self.state {
            EntryState::Table => self.granule,
            _ => None,
        }
    }

    /// Returns the 64-bit word that encodes the table entry. Bits 0 and 1 are the kind, bits 2 and 3 the RIPAS, and
    /// bits 12 to 47 the address of the granule.
    pub fn to_word(self) -> u64
        ensures { result ≡ entry_word self }
    {
        let kind = match self.state {
            EntryState::Unassigned => 0,
            EntryState::Assigned => 1,
            EntryState::Table => 2,
        };
        let ripas = match self.ripas {
            Ripas::Empty => 0,
            Ripas::Ram => 1,
            Ripas::Destroyed => 2,
        };
        let address = match self.granule {
            Some(granule) => granule.number() as u64 * 4096,
            None => 0,
        };
        kind + ripas * 4 + address
    }

    /// Decodes a translation table entry from a 64-bit word. Each word is decoded to an entry.
    pub fn from_word(word: u64) -> Entry
        ensures { result ≡ entry_of word }
    {
        let ripas = match word / 4 % 4 {
            1 => Ripas::Ram,
            2 => Ripas::Destroyed,
            _ => Ripas::Empty,
        };
        let granule = Gran::from_number((word / 4096 % 4096) as u16);
        match word % 4 {
            1 => Entry::assigned(ripas, granule),
            2 => Entry::table(granule),
            _ => Entry::unassigned(ripas),
        }
    }
}
