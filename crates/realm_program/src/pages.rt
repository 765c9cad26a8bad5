//! Functions that find the granule for each page number of a build. The granules are computed from the build's open
//! operations.
ghost use Rattle.std.specs.Prelude.{◌≡◌, ◌↔◌, ◌+◌, ◌<◌, ◌≤◌, length, IsTrue, IfSome, IfNone};
ghost use Rattle.std.specs.List.{flat_map, range_with_len};
ghost use Rattle.host_commands.specs.Needs.{operands};
ghost use Rattle.realm_model.specs.History.{pages_held};
ghost use Rattle.realm_program.specs.Fitting.{granule_of_number, AreGranules, ArePushed, HaveNoGranules};

use arrayvec::ArrayVec;
use granule_addr::{Gran, MOST_PAGES};
use host_commands::{Cmd, tables_named};
use realm_model::Act;

// The number of pages that an open operation holds.
fn held_count(act: &Act) -> u16
    ensures value { result ≡ length (pages_held act.now) }
    ensures few { result ≤ 512 }
{
    match act {
        Act::Take { order, .. } => order.size(),
        _ => 0,
    }
}

// The granule of one of the pages that an open operation holds.
fn held_granule(act: &Act, place: u16) -> Option<Gran>
    requires there { place < length (pages_held act.now) }
    requires few { place < 512 }
    ensures { result ≡ granule_of_number (pages_held act.now) place }
{
    match act {
        Act::Take { first, .. } => Gran::new(first.number() + place, MOST_PAGES),
        _ => None,
    }
}

// The granule of a page of a build whose open operations are `opened`.
fn granule_at(opened: &[Act], page: usize) -> Option<Gran>
    ensures { result ≡ granule_of_number (flat_map pages_held opened.now) page }
{
    let mut left = page;
    for act in opened {
        let count = held_count(act) as usize;
        if left < count {
            return held_granule(act, left as u16);
        }
        left -= count;
    }
    None
}

/// Returns whether a build has exactly `count` pages. The build's open operations are `opened`.
pub(crate) fn has_pages(opened: &[Act], count: u16) -> bool
    ensures { IsTrue result ↔ (length (flat_map pages_held opened.now) ≡ count) }
{
    let mut left = count;
    for act in opened {
        let held = held_count(act);
        if left < held {
            return false;
        }
        left -= held;
    }
    left == 0
}

// Appends the granules of pages. Returns `None` if the build lacks a page, or if a page is not a granule of a machine.
fn push_granules(granules: &mut ArrayVec<Gran, 17>, opened: &[Act], pages: &[u16]) -> Option<()>
    requires room { length granules.old.items + length pages.now ≤ 17 }
    ensures some { IfSome result (λ _. ArePushed (flat_map pages_held opened.now) pages.now granules.old.items granules.new.items) }
    ensures none { IfNone result (HaveNoGranules (flat_map pages_held opened.now) pages.now) }
{
    for page in pages {
        granules.push(granule_at(opened, *page as usize)?);
    }
    Some(())
}

// Appends the granules of `count` pages from `first` on. Returns `None` if the build lacks one of the pages, or if one
// is not a granule of a machine.
fn push_run(granules: &mut ArrayVec<Gran, 17>, opened: &[Act], first: u16, count: u16) -> Option<()>
    requires room { length granules.old.items + count ≤ 17 }
    ensures some { IfSome result (λ _. ArePushed (flat_map pages_held opened.now) (range_with_len first count) granules.old.items granules.new.items) }
    ensures none { IfNone result (HaveNoGranules (flat_map pages_held opened.now) (range_with_len first count)) }
{
    for place in 0..count {
        granules.push(granule_at(opened, first as usize + place as usize)?);
    }
    Some(())
}

/// Returns the granules of the pages that a command names. The build's open operations are `opened`. Returns `None` if
/// the build lacks one of the pages, or if one is not a granule of a machine.
#[tactic(auto, unfolding(host_commands::specs::Needs::operands))]
pub(crate) fn granules_of(opened: &[Act], cmd: &Cmd) -> Option<ArrayVec<Gran, 17>>
    ensures some { IfSome result (λ granules. AreGranules (flat_map pages_held opened.now) (operands cmd.now) granules.items) }
    ensures none { IfNone result (HaveNoGranules (flat_map pages_held opened.now) (operands cmd.now)) }
{
    let mut granules = ArrayVec::new();
    match cmd {
        Cmd::Fill { page, .. }
        | Cmd::Peek { page, .. }
        | Cmd::Delegate { page }
        | Cmd::Rtt { page, .. }
        | Cmd::Unknown { page, .. } => push_granules(&mut granules, opened, &[*page])?,
        Cmd::Data { page, source, .. } => push_granules(&mut granules, opened, &[*page, *source])?,
        Cmd::Realm { rd, root, width } => {
            push_granules(&mut granules, opened, &[*rd])?;
            push_run(&mut granules, opened, *root, tables_named(*width))?;
        }
        Cmd::Rec { page, auxiliaries } => {
            push_granules(&mut granules, opened, &[*page])?;
            push_granules(&mut granules, opened, auxiliaries.as_slice())?;
        }
        _ => {}
    }
    Some(granules)
}
