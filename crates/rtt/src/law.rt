//! Theorems about the translation tables of realms. They are in terms of a machine's pages and the states of its
//! granules.
ghost use Rattle.std.specs.Prelude.{◌≡◌, ℕ, List, Some};
ghost use Rattle.granule_addr.specs.declared.width.Root.{Root};
ghost use Rattle.rtt.specs.declared.granule.Granule.{Granule};
ghost use Rattle.realm_model.specs.Rows.{Row, row_at};
ghost use Rattle.rtt.specs.Word.{IsEntry};
ghost use Rattle.rtt.specs.Tables.{rows};
ghost use Rattle.rtt.specs.Realm.{HasTables, LeavesAlone};
ghost use Rattle.rtt.specs.RowWords.{AreRowWords};

/// Proves that the page of a translation table holds the words that encode its entries. RMM 1.0, RTT entry.
pub fn tables_are_words()
    ensures { (pages : List (List ℕ)) (granules : List Granule) (rd : ℕ) (root : Root) → HasTables pages granules rd root → AreRowWords pages root }
{}

/// Proves that each row of a realm's translation is a valid combination of state, RIPAS and granule. An UNASSIGNED row
/// leads to nothing, any other row leads to a granule, and a TABLE row has RIPAS EMPTY.
pub fn rows_are_entries()
    ensures { (pages : List (List ℕ)) (root : Root) (level ipa : ℕ) (row : Row) → row_at (rows pages root) level ipa ≡ Some row → IsEntry row }
{}

/// Proves that a realm's translation tables keep their entries if its RTT granules stay its RTT granules with the same
/// bytes, and its DATA granules stay its DATA granules. The tables keep their invariant too.
pub fn tables_left_alone_stay()
    ensures { (rd : ℕ) (root : Root) (pages : List (List ℕ)) (granules : List Granule) (new_pages : List (List ℕ)) (new_granules : List Granule)
        → HasTables pages granules rd root → LeavesAlone rd pages granules new_pages new_granules
        → (rows new_pages root ≡ rows pages root) × HasTables new_pages new_granules rd root }
{}
