//! The help for failed checks on operands: pages, IPA granules, levels and numbers of pages.
use crate::error::protected_end;
use crate::help::Help;
use crate::help_host::take_of;
use crate::phrase::Value::Number;
use crate::phrase::{Letter, Phrase, four, four_values, one, page_or, plain, two};
use crate::readings::{first_other, first_served, undos_of_delegation};
use crate::rmi_facts::InputFact;
use granule_addr::BuildId;
use host_commands::{Cmd, Step};
use page_arena::PageStore;
use realm_host::{GranuleState, Host};

// ---- pages

/// Proposes another page of the build, either a DELEGATED page or, if there is none, a page to delegate first. Pages
/// that the refused step names are left out. The phrase is empty if no page remains.
pub(crate) fn other_page<S: PageStore>(host: &Host<S>, build: BuildId, step: &Step) -> Phrase {
    if let Some(page) = first_other(host, build, step, GranuleState::Delegated) {
        return one("use another page: page {} is DELEGATED", page as u64);
    }
    match first_other(host, build, step, GranuleState::Undelegated) {
        Some(page) => two(
            "use another page: `delegate {}`, then page {}",
            page as u64,
            page as u64,
        ),
        None => plain(""),
    }
}

// Whether a page is the source of a `data` step, which has to be UNDELEGATED.
fn is_source(step: &Step, page: u16) -> bool {
    matches!(step, Step::Ask(Cmd::Data { source, .. }) if *source == page)
}

// The help for a page that has to be DELEGATED.
fn delegated_help<S: PageStore>(
    host: &Host<S>,
    build: BuildId,
    step: &Step,
    page: u16,
    found: Option<GranuleState>,
) -> Phrase {
    match found {
        Some(GranuleState::Undelegated) if !is_source(step, page) => {
            one("`delegate {}` first", page as u64)
        }
        _ => other_page(host, build, step),
    }
}

// The help `words`, followed by the undos that make a page UNDELEGATED again.
fn undelegating_help<S: PageStore>(
    host: &Host<S>,
    build: BuildId,
    page: u16,
    words: Phrase,
) -> Help {
    match undos_of_delegation(host, build, page) {
        Some(count) => Help::undo(words, count, " undelegates it"),
        None => Help::say(words),
    }
}

// The help that proposes another source page: one of the build, or one that a `take` gives.
fn other_source<S: PageStore>(host: &Host<S>, build: BuildId, step: &Step) -> Help {
    if let Some(page) = first_other(host, build, step, GranuleState::Undelegated) {
        return Help::say(one(
            "take the bytes from an UNDELEGATED page: page {}",
            page as u64,
        ));
    }
    match take_of(host, build, 1) {
        Some(take) => Help::both(plain("take the bytes from an UNDELEGATED page: "), take),
        None => Help::nothing(),
    }
}

// The help for a `delegate` of a page that is not UNDELEGATED.
fn other_delegate<S: PageStore>(
    host: &Host<S>,
    build: BuildId,
    step: &Step,
    found: Option<GranuleState>,
) -> Phrase {
    if let Some(GranuleState::Delegated) = found {
        return plain("leave this step out: the page is DELEGATED already");
    }
    match first_other(host, build, step, GranuleState::Undelegated) {
        Some(page) => one("delegate another page: `delegate {}`", page as u64),
        None => plain(""),
    }
}

// The help for a page that has to be UNDELEGATED.
fn undelegated_help<S: PageStore>(
    host: &Host<S>,
    build: BuildId,
    step: &Step,
    page: u16,
    found: Option<GranuleState>,
) -> Help {
    match step {
        Step::Ask(Cmd::Delegate { .. }) => Help::say(other_delegate(host, build, step, found)),
        Step::Ask(Cmd::Fill { .. }) => {
            let words = one("fill the page before `delegate {}`; ", page as u64);
            undelegating_help(host, build, page, words)
        }
        Step::Ask(Cmd::Peek { .. }) => {
            let words = plain("the host reads a page before `delegate` or after its undo; ");
            undelegating_help(host, build, page, words)
        }
        _ => other_source(host, build, step),
    }
}

// ---- numbers

// The help for an unprotected IPA granule: the operand divided by 4096 if it can be an address, or else a larger IPA
// width.
fn protected_help(ipa: u32, width: u8) -> Phrase {
    if ipa % 4096 == 0 && ((ipa / 4096) as u64) < protected_end(width) {
        return one(
            "an IPA granule is an address divided by 4096: {}",
            (ipa / 4096) as u64,
        );
    }
    for wider in 40..44 {
        if wider > width && (ipa as u64) < protected_end(wider) {
            return two(
                "a realm of IPA width {} has it: `realm RD RTT {}`",
                wider as u64,
                wider as u64,
            );
        }
    }
    plain("")
}

// The help for pages that lie in two tables: two `ripas` steps.
fn two_runs(ipa: u32, count: u16) -> Phrase {
    let next = (ipa as u64 / 512 + 1) * 512;
    let before = next.saturating_sub(ipa as u64);
    let after = (count as u64).saturating_sub(before);
    four(
        "use two steps: `ripas {} {}`, then `ripas {} {}`",
        ipa as u64,
        before,
        next,
        after,
    )
}

// The `rtt` step for the table that covers an IPA granule.
fn covering_table(step: &Step, ipa: u32, level: u8) -> Phrase {
    let page = match step {
        Step::Ask(Cmd::Rtt { page, .. }) => Some(*page),
        _ => None,
    };
    four_values(
        "`rtt {} {} {}` covers IPA granule {}",
        page_or(page, Letter::P),
        Number(first_served(ipa, level) as u64),
        Number(level as u64),
        Number(ipa as u64),
    )
}

// The help for an IPA granule, a level or a number of pages.
fn number_help(step: &Step, fact: InputFact) -> Phrase {
    match fact {
        InputFact::Protected { ipa, width } => protected_help(ipa, width),
        InputFact::Level(1) => plain(
            "tables of level 1 are the starting tables, which `realm` creates",
        ),
        InputFact::Start { ipa, level } => covering_table(step, ipa, level),
        InputFact::Count(count) if count > 0 => plain("use a `ripas` for each table of 512 pages"),
        InputFact::OneTable { ipa, count } => two_runs(ipa, count),
        _ => plain(""),
    }
}

/// Returns the help for a failed check on an operand: a page, an IPA granule, a level or a number of pages.
pub(crate) fn input_help<S: PageStore>(
    host: &Host<S>,
    build: BuildId,
    step: &Step,
    fact: InputFact,
) -> Help {
    match fact {
        InputFact::Page {
            page,
            required: GranuleState::Undelegated,
            found,
        } => undelegated_help(host, build, step, page, found),
        InputFact::Page { page, found, .. } => {
            Help::say(delegated_help(host, build, step, page, found))
        }
        _ => Help::say(number_help(step, fact)),
    }
}
