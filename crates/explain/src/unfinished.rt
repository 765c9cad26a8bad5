//! Unfinished aborts at the end of a plan's run, and the lines that report them.
ghost use Rattle.std.specs.Prelude.{◌≡◌, ◌++◌, [], IfOk, OnOk, string_bytes};
ghost use Rattle.std.specs.List.{cons_option, filter_map, flat_map, range_with_len};
ghost use Rattle.explain.specs.Unfinished.{unfinished_abort, turns_noun, abort_lines};

use granule_addr::BuildId;
use page_arena::PageStore;
use realm_host::Host;
use std::alloc::{AllocError, Global};

/// An unfinished abort of a build, with the number of schedule turns that it still needs. Each open operation needs one
/// turn.
#[derive(Clone, Copy)]
pub struct UnfinishedAbort {
    pub build: BuildId,
    pub turns: usize,
}

// The unfinished abort of a build, if the build is aborting.
fn unfinished_abort<S: PageStore>(host: &Host<S>, build: BuildId) -> Option<UnfinishedAbort>
    ensures { result ≡ unfinished_abort host.now build }
{
    if !host.is_aborting(build) {
        return None;
    }
    Some(UnfinishedAbort {
        build,
        turns: host.open_acts(build).len(),
    })
}

// Appends an abort to a list of aborts, unless the abort is `None`.
fn add_if(
    aborts: &mut Vec<UnfinishedAbort>,
    abort: Option<UnfinishedAbort>,
) -> Result<(), AllocError>
    ensures { OnOk result (aborts.new.items ≡ aborts.old.items ++ cons_option abort []) }
{
    match abort {
        Some(abort) => aborts.push(abort)?,
        None => {}
    }
    Ok(())
}

/// Returns the unfinished aborts of a host, in ascending order of their build numbers.
pub fn unfinished_aborts<S: PageStore>(
    alloc: Global,
    host: &Host<S>,
) -> Result<Vec<UnfinishedAbort>, AllocError>
    ensures { IfOk result (λ aborts. aborts.items ≡ filter_map (unfinished_abort host.now) (range_with_len 0 8)) }
{
    let mut aborts = Vec::new(alloc);
    for place in 0..8 {
        add_if(&mut aborts, unfinished_abort(host, BuildId::at(place)))?;
    }
    Ok(aborts)
}

// The noun for a number of turns that an abort lacks.
fn turns_noun(turns: usize) -> &'static str
    ensures { result.now ≡ turns_noun turns }
{
    if turns == 1 {
        "more turn"
    } else {
        "more turns"
    }
}

// Appends the error line and the help line of an unfinished abort.
fn push_abort(text: &mut String, abort: UnfinishedAbort) -> Result<(), AllocError>
    ensures { OnOk result (string_bytes text.new ≡ string_bytes text.old ++ abort_lines abort) }
{
    let build = abort.build.number();
    let turns = abort.turns;
    let noun = turns_noun(turns);
    writeln!(
        text,
        "    error: the abort of build {build} needs {turns} {noun} in `order`"
    )?;
    writeln!(
        text,
        "    help: add {turns} {noun} of build {build} to `order`; `realmview order` does it"
    )
}

/// Returns an error line and a help line for each unfinished abort. The lines say how many turns the abort lacks in the
/// plan's `order`, and how to add them.
pub fn unfinished_lines(alloc: Global, aborts: &[UnfinishedAbort]) -> Result<String, AllocError>
    ensures { IfOk result (λ text. string_bytes text ≡ flat_map abort_lines aborts.now) }
{
    let mut text = String::new(alloc);
    for abort in aborts {
        push_abort(&mut text, *abort)?;
    }
    Ok(text)
}
