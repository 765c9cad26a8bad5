//! The help for a refused step, with proposed steps in the notation of plans.
use crate::check::Fact;
use crate::help_host::{build_help, room_help, undo_help};
use crate::help_input::input_help;
use crate::help_realm::{realm_help, rec_help, walk_help};
use crate::phrase::Value::{self, Number};
use crate::phrase::{Letter, Phrase, one, one_value, page_or, plain, two_values};
use crate::readings::{Recs, has_rec, named_pages, next_rec, other_pages};
use granule_addr::BuildId;
use host_commands::Step;
use page_arena::PageStore;
use realm_host::{GranuleState, Host};
use std::alloc::AllocError;

/// The help message for a failed check of a step, with proposed steps, and words before and after the steps. Without
/// steps and words there is no help.
#[derive(Clone, Copy)]
pub(crate) struct Help {
    before: Phrase,
    steps: Steps,
    after: Phrase,
}

/// The steps that a help message proposes.
#[derive(Clone, Copy)]
enum Steps {
    Nothing,
    /// An `exit` step for each RUNNING REC, then this number of undos.
    Undo(usize),
    /// An `exit` step for each RUNNING REC.
    Exit,
    /// A `rec` step with all the pages that a REC needs.
    Rec,
    /// An `unknown` step with this page and this IPA granule.
    Unknown(Value, u32),
}

impl Help {
    /// Creates an empty help message, without words or steps.
    pub(crate) fn nothing() -> Self {
        Help::say(plain(""))
    }

    pub(crate) fn say(words: Phrase) -> Self {
        Help::both(words, plain(""))
    }

    /// Creates help that consists of two phrases.
    pub(crate) fn both(before: Phrase, after: Phrase) -> Self {
        Help {
            before,
            steps: Steps::Nothing,
            after,
        }
    }

    /// Creates help that proposes to undo `count` operations. An `exit` step for each RUNNING REC comes before the
    /// undos.
    pub(crate) fn undo(before: Phrase, count: usize, after: &'static str) -> Self {
        Help {
            before,
            steps: Steps::Undo(count),
            after: plain(after),
        }
    }

    /// Creates help that proposes an `exit` step for each RUNNING REC.
    pub(crate) fn exit() -> Self {
        Help {
            before: plain(""),
            steps: Steps::Exit,
            after: plain(" first"),
        }
    }

    /// Creates help that proposes a `rec` step with all the pages that a REC needs. `words` are the text before the
    /// step.
    pub(crate) fn rec(words: &'static str) -> Self {
        Help {
            before: plain(words),
            steps: Steps::Rec,
            after: plain(""),
        }
    }

    /// Creates help that proposes an `unknown` step.
    pub(crate) fn unknown(before: Phrase, page: Value, ipa: u32, after: &'static str) -> Self {
        Help {
            before,
            steps: Steps::Unknown(page, ipa),
            after: plain(after),
        }
    }
}

fn help_of<S: PageStore>(host: &Host<S>, build: BuildId, step: &Step, fact: Fact) -> Help {
    match fact {
        Fact::Build(fact) => build_help(host, build, step, fact),
        Fact::Room(fact) => Help::say(room_help(host, fact)),
        Fact::Undo(fact) => undo_help(host, build, fact),
        Fact::Input(fact) => input_help(host, build, step, fact),
        Fact::Realm(fact) => realm_help(host, build, step, fact),
        Fact::Rec(fact) => rec_help(host, build, step, fact),
        Fact::Walk(fact) => walk_help(host, build, step, fact),
    }
}

/// Appends the help for a failed check of a step. Appends nothing if the check has no help.
pub(crate) fn push_help<S: PageStore>(
    text: &mut String,
    host: &Host<S>,
    build: BuildId,
    step: &Step,
    fact: Fact,
) -> Result<(), AllocError> {
    let help = help_of(host, build, step, fact);
    help.before.push(text)?;
    push_steps(text, host, build, step, help.steps)?;
    help.after.push(text)
}

// Appends the steps that a help message proposes.
fn push_steps<S: PageStore>(
    text: &mut String,
    host: &Host<S>,
    build: BuildId,
    step: &Step,
    steps: Steps,
) -> Result<(), AllocError> {
    match steps {
        Steps::Nothing => Ok(()),
        Steps::Undo(count) => push_undos(text, host, build, count),
        Steps::Exit => push_exits(text, host, build, "`exit {}`", ", `exit {}`"),
        Steps::Rec => push_rec(text, host, build, step),
        Steps::Unknown(page, ipa) => two_values("`unknown {} {}`", page, Number(ipa as u64)).push(
            text,
        ),
    }
}

// Appends an `exit` step for each RUNNING REC of a build, in the words `first` for the first one and `next` for any
// other.
fn push_exits<S: PageStore>(
    text: &mut String,
    host: &Host<S>,
    build: BuildId,
    first: &'static str,
    next: &'static str,
) -> Result<(), AllocError> {
    let mut words = first;
    for number in 0..next_rec(host, build) {
        if has_rec(host, build, number, Recs::Running) {
            one(words, number as u64).push(text)?;
            words = next;
        }
    }
    Ok(())
}

// Appends an `exit` step for each RUNNING REC of a build, then `count` undos. The creation of a REC that runs cannot be
// undone.
fn push_undos<S: PageStore>(
    text: &mut String,
    host: &Host<S>,
    build: BuildId,
    count: usize,
) -> Result<(), AllocError> {
    push_exits(text, host, build, "`exit {}`, then ", "`exit {}`, then ")?;
    match count {
        1 => text.push_str("`undo`"),
        count => one("`undo` {} times", count as u64).push(text),
    }
}

// Appends a proposed `rec` step with the pages that a step names and other DELEGATED pages.
fn push_rec<S: PageStore>(
    text: &mut String,
    host: &Host<S>,
    build: BuildId,
    step: &Step,
) -> Result<(), AllocError> {
    let named = named_pages(step);
    let others = other_pages(host, build, step, GranuleState::Delegated);
    let wanted = host.rec_aux_count() as usize + 1;
    push_rec_pages(text, wanted, named.as_slice(), others.as_slice())
}

// Appends a proposed `rec` step of `wanted` pages: the named pages, then the others, then `P` for each missing page.
fn push_rec_pages(
    text: &mut String,
    wanted: usize,
    named: &[u16],
    others: &[u16],
) -> Result<(), AllocError> {
    text.push_str("`rec")?;
    for place in 0..wanted {
        let page = match place.checked_sub(named.len()) {
            Some(more) => others.get(more),
            None => named.get(place),
        };
        one_value(" {}", page_or(page.copied(), Letter::P)).push(text)?;
    }
    text.push_str(if named.len() + others.len() < wanted {
        "`, with a DELEGATED page for each P"
    } else {
        "`"
    })
}
