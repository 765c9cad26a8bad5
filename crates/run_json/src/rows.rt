//! The rows of a realm's translation tables, by ascending address.
//!
//! A walk to level 3 ends at a row that is not TABLE. The first walk is that of IPA granule 0. Each next walk is that
//! of the first IPA granule after the previous row. `specs/Rows.antt` says which rows these are.
ghost use Rattle.std.specs.Prelude.{◌≡◌, ◌+◌, ◌↔◌, false, IsTrue, IfOk, OnOk, IfSome, IfNone, ◌++◌};
ghost use Rattle.granule_addr.specs.Ipa.{covered_count, first_covered};
ghost use Rattle.realm_model.specs.Rows.{is_table_place};
ghost use Rattle.host_ledger.specs.View.{world_of};
ghost use Rattle.run_json.specs.Rows.{first_after, RunGoesOn, IsRowRun, beginning_at, rows_above, AreRowsOf};

use crate::items::RowItem;
use granule_addr::{BuildId, IpaGran, Level};
use page_arena::PageStore;
use realm_host::{Host, RowView};
use std::alloc::{AllocError, Global};

// Whether a row is the first row of a table below the starting tables.
fn begins_table(row: &RowView) -> bool
    ensures { result ≡ is_table_place row.now.first row.now.level }
{
    let first = row.first.number();
    match row.level.number() {
        1 => false,
        2 => first % 262_144 == 0,
        _ => first % 512 == 0,
    }
}

// Whether a row is in the same table as the row before it, and has the same entry.
fn says_the_same(row: &RowView, before: &RowView) -> bool
    ensures { IsTrue result ↔ ((row.now.level ≡ before.now.level) × (row.now.entry ≡ before.now.entry) × (is_table_place row.now.first row.now.level ≡ false)) }
{
    row.level == before.level && row.entry == before.entry && !begins_table(row)
}

// Appends a row as an item, if there is a row and its first IPA granule is `ipa`.
fn push_beginning(
    items: &mut Vec<RowItem>,
    row: Option<RowView>,
    ipa: IpaGran,
) -> Result<(), AllocError>
    ensures { OnOk result (items.new.items ≡ items.old.items ++ beginning_at ipa row) }
{
    match row {
        Some(row) if row.first == ipa => items.push(RowItem { row, count: 1 })?,
        _ => {}
    }
    Ok(())
}

// Appends, for each level above a row's, the TABLE row that begins at the row's first IPA granule, if there is one.
fn push_rows_above<S: PageStore>(
    items: &mut Vec<RowItem>,
    host: &Host<S>,
    build: BuildId,
    row: &RowView,
) -> Result<(), AllocError>
    ensures { OnOk result (items.new.items ≡ items.old.items ++ rows_above (world_of host.now) build row.now) }
{
    for number in 1..row.level.number() {
        let level = Level::new(number).unwrap();
        let above = host.row(build, row.first.number(), level);
        push_beginning(items, above, row.first)?;
    }
    Ok(())
}

// The first IPA granule after the row at `ipa`, if that row continues the run of `row`. A row of the level of `row` has
// to begin at `ipa`.
fn goes_on<S: PageStore>(host: &Host<S>, build: BuildId, row: &RowView, ipa: u32) -> Option<u32>
    requires { first_covered row.now.level ipa ≡ ipa }
    ensures goes_on { IfSome result (λ next. RunGoesOn (world_of host.now) build row.now ipa) }
    ensures next { IfSome result (λ next. next ≡ ipa + covered_count row.now.level) }
    ensures ends { IfNone result (¬ RunGoesOn (world_of host.now) build row.now ipa) }
{
    let other = host.row(build, ipa, Level::last())?;
    if says_the_same(&other, row) {
        Some(other.next())
    } else {
        None
    }
}

// The length of the run of equal rows of one table that begins with `row`, and the first IPA granule after the run.
fn count_same<S: PageStore>(host: &Host<S>, build: BuildId, row: &RowView) -> (u32, u32)
    requires { first_covered row.now.level row.now.first ≡ row.now.first }
    ensures run { IsRowRun (world_of host.now) build row.now result.0 }
    ensures next { result.1 ≡ first_after row.now result.0 }
{
    let mut count = 1;
    let mut next = row.next();
    while let Some(after) = goes_on(host, build, row, next) {
        count += 1;
        next = after;
    }
    (count, next)
}

/// Returns the translation table rows of a build's realm, by ascending address. Each TABLE row comes before the rows of
/// its table. Successive rows of one table with the same entry are one item.
pub fn rows_of<S: PageStore>(
    alloc: Global,
    host: &Host<S>,
    build: BuildId,
) -> Result<Vec<RowItem>, AllocError>
    ensures { IfOk result (λ items. AreRowsOf (world_of host.now) build items.items) }
{
    let mut items = Vec::new(alloc);
    let mut next = 0;
    while let Some(row) = host.row(build, next, Level::last()) {
        push_rows_above(&mut items, host, build, &row)?;
        let (count, after) = count_same(host, build, &row);
        items.push(RowItem { row, count })?;
        next = after;
    }
    Ok(items)
}
