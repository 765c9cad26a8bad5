//! Functions that find the granules of the pages that a command names.
ghost use Rattle.std.specs.Prelude.{◌≡◌, ◌+◌, ◌<◌, ◌≤◌, ℕ, List, [], ◌∷◌, length, IsOk, Some, IfOk, IfErr};
ghost use Rattle.std.specs.List.{range_with_len};
ghost use Rattle.host_commands.specs.Needs.{operands};
ghost use Rattle.host_commands.specs.Checks.{AreFound, page_checks, first_that_holds};
ghost use Rattle.host_commands.specs.PageLookup.{AreFoundNext};

use crate::needs::tables_named;
use crate::{BuildsView, Cmd, Refusal};
use arrayvec::ArrayVec;
use granule_addr::{BuildId, Gran};

// Appends the granule of one page to `found`, or returns the refusal `NotLeased`.
fn find<D: BuildsView>(
    view: &D,
    build: BuildId,
    page: u16,
    found: &mut ArrayVec<Gran, 17>,
) -> Result<(), Refusal>
    requires there { build < (D.seen view.now).builds }
    requires room { length found.old.items < 17 }
    ensures next { AreFoundNext (D.seen view.now) build (page ∷ []) found.old.items result found.new.items }
    ensures few { IsOk result → page < 4096 }
{
    let Some(granule) = view.page(build, page) else {
        return Err(Refusal::NotLeased(page));
    };
    found.push(granule);
    Ok(())
}

// Appends the granules of a list of pages to `found`.
fn find_all<D: BuildsView>(
    view: &D,
    build: BuildId,
    pages: &[u16],
    found: &mut ArrayVec<Gran, 17>,
) -> Result<(), Refusal>
    requires there { build < (D.seen view.now).builds }
    requires room { length found.old.items + length pages.now ≤ 17 }
    ensures { AreFoundNext (D.seen view.now) build pages.now found.old.items result found.new.items }
{
    'pages: for page in pages {
        find(view, build, *page, found)?;
    }
    Ok(())
}

// Appends the granules of `count` pages, from page `first` on, to `found`.
fn find_run<D: BuildsView>(
    view: &D,
    build: BuildId,
    first: u16,
    count: u16,
    found: &mut ArrayVec<Gran, 17>,
) -> Result<(), Refusal>
    requires there { build < (D.seen view.now).builds }
    requires room { length found.old.items + count ≤ 17 }
    ensures { AreFoundNext (D.seen view.now) build (range_with_len first count) found.old.items result found.new.items }
{
    let mut page = first;
    'run: for _ in 0..count {
        find(view, build, page, found)?;
        page += 1;
    }
    Ok(())
}

// Appends the granules of the pages that a command names.
#[tactic(auto, unfolding(crate::specs::Needs::operands))]
fn find_operands<D: BuildsView>(
    view: &D,
    build: BuildId,
    cmd: &Cmd,
    found: &mut ArrayVec<Gran, 17>,
) -> Result<(), Refusal>
    requires there { build < (D.seen view.now).builds }
    requires none { found.old.items ≡ [] }
    ensures { AreFoundNext (D.seen view.now) build (operands cmd.now) found.old.items result found.new.items }
{
    match cmd {
        Cmd::Fill { page, .. }
        | Cmd::Peek { page, .. }
        | Cmd::Delegate { page }
        | Cmd::Rtt { page, .. }
        | Cmd::Unknown { page, .. } => find(view, build, *page, found),
        Cmd::Data { page, source, .. } => {
            find(view, build, *page, found)?;
            find(view, build, *source, found)
        }
        Cmd::Realm { rd, root, width } => {
            find(view, build, *rd, found)?;
            find_run(view, build, *root, tables_named(*width), found)
        }
        Cmd::Rec { page, auxiliaries } => {
            find(view, build, *page, found)?;
            find_all(view, build, auxiliaries.as_slice(), found)
        }
        _ => Ok(()),
    }
}

// Returns the granules of the pages that a command names, or the refusal of the first page that the build does not
// have.
pub(crate) fn granules_of<D: BuildsView>(
    view: &D,
    build: BuildId,
    cmd: &Cmd,
) -> Result<ArrayVec<Gran, 17>, Refusal>
    requires { build < (D.seen view.now).builds }
    ensures ok { IfOk result (λ granules. AreFound (D.seen view.now) build cmd.now granules.items) }
    ensures err { IfErr result (λ refusal. first_that_holds (page_checks (D.seen view.now) build (operands cmd.now)) ≡ Some refusal) }
{
    let mut granules = ArrayVec::new();
    find_operands(view, build, cmd, &mut granules)?;
    Ok(granules)
}
