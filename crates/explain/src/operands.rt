//! The pages that a command names, and their granules.
ghost use Rattle.std.specs.Prelude.{◌≡◌, ◌++◌, ◌+◌, ◌<◌, ◌≤◌, [], length};
ghost use Rattle.std.specs.List.{filter_map, cons_option, range_with_len};
ghost use Rattle.host_ledger.specs.View.{granule_of_page};
ghost use Rattle.explain.specs.Pages.{tables_within, pages_named};

use arrayvec::ArrayVec;
use granule_addr::{BuildId, Gran};
use host_commands::tables_named;
use page_arena::PageStore;
use realm_host::{Cmd, Host};

// The number of starting tables of a `realm` command; 1 if the last table would have a page number above 65,535.
fn tables_within(root: u16, width: u8) -> u16
    ensures value { result ≡ tables_within root width }
    ensures few { result ≤ 16 }
    ensures inside { root + result ≤ 65536 }
{
    let count = tables_named(width);
    if root as u32 + count as u32 <= 65_536 {
        count
    } else {
        1
    }
}

// Adds `count` pages with numbers from `first` on.
fn push_run(pages: &mut ArrayVec<u16, 17>, first: u16, count: u16)
    requires room { length pages.old.items + count ≤ 17 }
    requires inside { first + count ≤ 65536 }
    ensures items { pages.new.items ≡ pages.old.items ++ range_with_len first count }
    ensures long { length pages.new.items ≡ length pages.old.items + count }
{
    for number in 0..count {
        pages.push(first + number);
    }
}

// Adds the pages of a list.
fn push_all(pages: &mut ArrayVec<u16, 17>, more: &[u16])
    requires { length pages.old.items + length more.now ≤ 17 }
    ensures { pages.new.items ≡ pages.old.items ++ more.now }
{
    for page in more {
        pages.push(*page);
    }
}

/// Returns the pages that a command names, in the sequence of its operands.
#[tactic(auto, unfolding(host_commands::specs::Needs::operands))]
pub(crate) fn pages_named(cmd: &Cmd) -> ArrayVec<u16, 17>
    ensures value { result.items ≡ pages_named cmd.now }
    ensures few { length result.items ≤ 17 }
{
    let mut pages = ArrayVec::new();
    match cmd {
        Cmd::Fill { page, .. }
        | Cmd::Peek { page, .. }
        | Cmd::Delegate { page }
        | Cmd::Rtt { page, .. }
        | Cmd::Unknown { page, .. } => pages.push(*page),
        Cmd::Data { page, source, .. } => {
            pages.push(*page);
            pages.push(*source);
        }
        Cmd::Realm { rd, root, width } => {
            pages.push(*rd);
            push_run(&mut pages, *root, tables_within(*root, *width));
        }
        Cmd::Rec { page, auxiliaries } => {
            pages.push(*page);
            push_all(&mut pages, auxiliaries.as_slice());
        }
        _ => {}
    }
    pages
}

// Adds a granule, unless it is `None`.
fn push_found(granules: &mut ArrayVec<Gran, 17>, found: Option<Gran>)
    requires { length granules.old.items < 17 }
    ensures { granules.new.items ≡ granules.old.items ++ cons_option found [] }
{
    if let Some(granule) = found {
        granules.push(granule);
    }
}

/// Returns the granules of the given pages, in the sequence of the pages. Pages that the build does not have are left
/// out.
pub(crate) fn granules_of<S: PageStore>(
    host: &Host<S>,
    build: BuildId,
    pages: &[u16],
) -> ArrayVec<Gran, 17>
    requires { length pages.now ≤ 17 }
    ensures { result.items ≡ filter_map (granule_of_page host.now build) pages.now }
{
    let mut granules = ArrayVec::new();
    for page in pages {
        push_found(&mut granules, host.page_granule(build, *page));
    }
    granules
}
