//! The help for failed checks on realms, RECs and walks of translation tables.
use crate::help::Help;
use crate::help_host::{take_of, undoing_realm};
use crate::help_input::other_page;
use crate::phrase::Value::{self, Number};
use crate::phrase::{
    Letter, Phrase, four, four_values, one, page_or, plain, three, two, two_values,
};
use crate::readings::{first_entry, first_of_tables, first_served, ipa_of, next_rec, other_pages};
use crate::rmi_facts::{RealmFact, RecFact, WalkFact};
use granule_addr::BuildId;
use host_commands::{Cmd, Step};
use page_arena::PageStore;
use realm_host::{EntryState, GranuleState, Host, RealmState, RecState};

// ---- realms

// The help for unsuitable starting tables: suitable pages of the build, or else a `take` of a block.
fn other_tables<S: PageStore>(host: &Host<S>, build: BuildId, rd: u16, width: u8) -> Help {
    let count = host_commands::tables_named(width);
    match first_of_tables(host, build, rd, count) {
        Some(first) => tables_from(rd, first, count, width),
        None => tables_of_block(host, build, count),
    }
}

// The help that proposes the `count` pages from `first` on as starting tables.
fn tables_from(rd: u16, first: u16, count: u16, width: u8) -> Help {
    let last = first.saturating_add(count.saturating_sub(1));
    let (rd, first) = (rd as u64, first as u64);
    Help::both(
        two(
            "pages {} to {} are adjacent and aligned: ",
            first,
            last as u64,
        ),
        three("`realm {} {} {}`", rd, first, width as u64),
    )
}

// The help that proposes the pages of a block as `count` starting tables.
fn tables_of_block<S: PageStore>(host: &Host<S>, build: BuildId, count: u16) -> Help {
    match take_of(host, build, count) {
        Some(take) => Help::both(
            plain("the pages of one block are adjacent and aligned: "),
            take,
        ),
        None => Help::say(plain("the pages of one block are adjacent and aligned")),
    }
}

// The help for an IPA width that realms cannot have: a `realm` step with another width.
fn other_width(rd: u16, root: u16, width: u8) -> Phrase {
    let words = if width < 39 {
        "leave the width out for 39: `realm {} {}`"
    } else {
        "`realm {} {} 43` is the widest, with 16 starting tables"
    };
    two(words, rd as u64, root as u64)
}

// The help for a realm that is not in the required state.
fn state_help<S: PageStore>(
    host: &Host<S>,
    build: BuildId,
    step: &Step,
    required: RealmState,
) -> Help {
    match (required, step) {
        (RealmState::Active, _) => Help::say(plain("`activate` first")),
        (RealmState::New, Step::Ask(Cmd::Activate)) => {
            Help::say(plain("leave this step out: the realm is ACTIVE already"))
        }
        (RealmState::New, _) => undoing_realm(
            host,
            build,
            "put this step before `activate`; an ACTIVE realm becomes NEW only by undoing it: ",
            "put this step before `activate`; an ACTIVE realm becomes NEW only by undoing it",
        ),
    }
}

// The help for unsuitable operands of a `realm` step.
fn create_help<S: PageStore>(host: &Host<S>, build: BuildId, step: &Step, fact: RealmFact) -> Help {
    let Step::Ask(Cmd::Realm { rd, root, width }) = step else {
        return Help::nothing();
    };
    match fact {
        RealmFact::Width(width) => Help::say(other_width(*rd, *root, width)),
        _ => other_tables(host, build, *rd, *width),
    }
}

/// Returns the help for a failed check on a realm's state, or on the operands of the realm's creation.
pub(crate) fn realm_help<S: PageStore>(
    host: &Host<S>,
    build: BuildId,
    step: &Step,
    fact: RealmFact,
) -> Help {
    match fact {
        RealmFact::State { required, .. } => state_help(host, build, step, required),
        RealmFact::Apart => Help::say(other_page(host, build, step)),
        _ => create_help(host, build, step, fact),
    }
}

// ---- RECs

// The help for a REC that a NEW realm does not have.
fn missing_rec<S: PageStore>(host: &Host<S>, build: BuildId, number: u16) -> Help {
    let next = next_rec(host, build);
    if number > next {
        return Help::say(one(
            "RECs are numbered in order of their creation: the next is REC {}",
            next as u64,
        ));
    }
    Help::rec("create it first: ")
}

// The help for a REC that is not in the required state, in a realm that is NEW if `is_new` is set.
fn rec_state_help(number: u16, required: RecState, is_new: bool) -> Phrase {
    let words = match required {
        RecState::Ready => "`exit {}` first",
        RecState::Running if is_new => "`activate`, then `enter {}` first",
        RecState::Running => "`enter {}` first",
    };
    one(words, number as u64)
}

/// Returns the help for a failed check on a REC: on its existence, its state, or the pages of its creation.
pub(crate) fn rec_help<S: PageStore>(
    host: &Host<S>,
    build: BuildId,
    step: &Step,
    fact: RecFact,
) -> Help {
    let is_new = matches!(host.realm_view(build), Some((RealmState::New, _)));
    match fact {
        RecFact::Distinct => Help::say(other_page(host, build, step)),
        RecFact::Auxiliaries { .. } => Help::rec(""),
        RecFact::There(number) if is_new => missing_rec(host, build, number.number()),
        RecFact::There(_) => Help::say(plain(
            "RECs are created before `activate`, and numbered from 0",
        )),
        RecFact::State {
            number,
            required,
            ..
        } => Help::say(rec_state_help(number.number(), required, is_new)),
    }
}

// ---- translations

// A page of a proposed step: one of `others`, or a letter if `others` has fewer pages than needed.
fn page_at(others: &[u16], needed: usize, place: usize) -> Value {
    let letter = match place {
        0 => Letter::P,
        1 => Letter::Q,
        _ => Letter::R,
    };
    match others.get(place) {
        Some(page) if others.len() >= needed => page_or(Some(*page), letter),
        _ => page_or(None, letter),
    }
}

// The words that explain the letters of a proposed step; empty if the step has none.
fn letters(others: &[u16], needed: usize) -> &'static str {
    match needed {
        _ if others.len() >= needed => "",
        1 => ", with a DELEGATED page P",
        2 => ", with DELEGATED pages P and Q",
        _ => ", with DELEGATED pages P, Q and R",
    }
}

// The help for a walk that ends above the required level: the steps that create the missing tables.
fn missing_tables<S: PageStore>(
    host: &Host<S>,
    build: BuildId,
    step: &Step,
    ipa: u32,
    required: u8,
    ended: u8,
) -> Help {
    let needed = required.saturating_sub(ended) as usize;
    let others = other_pages(host, build, step, GranuleState::Delegated);
    let others = others.as_slice();
    let first = page_at(others, needed, 0);
    let level_2 = Number(first_served(ipa, 2) as u64);
    let level_3 = Number(first_served(ipa, 3) as u64);
    let words = match (ended, required) {
        (0 | 1, 0..=2) => two_values(
            "create the missing table first: `rtt {} {} 2`",
            first,
            level_2,
        ),
        (0 | 1, _) => four_values(
            "create the missing tables first: `rtt {} {} 2`, then `rtt {} {} 3`",
            first,
            level_2,
            page_at(others, needed, 1),
            level_3,
        ),
        _ => two_values(
            "create the missing table first: `rtt {} {} 3`",
            first,
            level_3,
        ),
    };
    Help::both(words, plain(letters(others, needed)))
}

// The help for a guest's write to an IPA granule that no page is mapped at: the steps that map one.
fn mapping<S: PageStore>(host: &Host<S>, build: BuildId, step: &Step, ipa: u32, ended: u8) -> Help {
    let needed = 4usize.saturating_sub(ended as usize);
    let others = other_pages(host, build, step, GranuleState::Delegated);
    let others = others.as_slice();
    let first = page_at(others, needed, 0);
    let level_2 = Number(first_served(ipa, 2) as u64);
    let level_3 = Number(first_served(ipa, 3) as u64);
    let (tables, page) = match ended {
        0 | 1 => {
            let words = "map a page there first: `rtt {} {} 2`, then `rtt {} {} 3`, then ";
            let second = page_at(others, needed, 1);
            let tables = four_values(words, first, level_2, second, level_3);
            (tables, page_at(others, needed, 2))
        }
        2 => {
            let words = "map a page there first: `rtt {} {} 3`, then ";
            (
                two_values(words, first, level_3),
                page_at(others, needed, 1),
            )
        }
        _ => (plain("map a page there first: "), first),
    };
    Help::unknown(tables, page, ipa, letters(others, needed))
}

// The help that proposes another IPA granule for a page, one whose entry is UNASSIGNED.
fn other_entry<S: PageStore>(host: &Host<S>, build: BuildId, step: &Step, ipa: u32) -> Phrase {
    let Some(other) = first_entry(host, build, ipa, true) else {
        return plain("");
    };
    let other = other as u64;
    match step {
        Step::Ask(Cmd::Data { page, source, .. }) => four(
            "IPA granule {} is UNASSIGNED: `data {} {} {}`",
            other,
            *page as u64,
            other,
            *source as u64,
        ),
        Step::Ask(Cmd::Unknown { page, .. }) => three(
            "IPA granule {} is UNASSIGNED: `unknown {} {}`",
            other,
            *page as u64,
            other,
        ),
        _ => plain(""),
    }
}

// The help for entries that are not all UNASSIGNED: the first IPA granule from `ipa` on that a page is mapped at.
fn before_mapping<S: PageStore>(host: &Host<S>, build: BuildId, ipa: u32) -> Phrase {
    match first_entry(host, build, ipa, false) {
        Some(taken) => one(
            "put this step before the one that maps IPA granule {}",
            taken as u64,
        ),
        None => plain(""),
    }
}

/// Returns the help for a failed check on the level or the entry at which a walk of translation tables ends.
pub(crate) fn walk_help<S: PageStore>(
    host: &Host<S>,
    build: BuildId,
    step: &Step,
    fact: WalkFact,
) -> Help {
    match fact {
        WalkFact::Walk {
            ipa,
            required,
            ended,
        } => missing_tables(host, build, step, ipa, required, ended),
        WalkFact::Entry {
            required: EntryState::Unassigned,
            ..
        } => Help::say(other_entry(host, build, step, ipa_of(step))),
        WalkFact::Entry { level, .. } => mapping(host, build, step, ipa_of(step), level),
        WalkFact::NoTable { .. } => {
            Help::say(plain("leave this step out: the table is there already"))
        }
        WalkFact::Leads(_) => Help::nothing(),
        WalkFact::Free { ipa, .. } => Help::say(before_mapping(host, build, ipa)),
    }
}
