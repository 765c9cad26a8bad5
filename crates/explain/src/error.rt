//! The error message of a refused step: what the failed check requires, what it found, and the name of the refusal.
use crate::check::{Check, Fact};
use crate::host_facts::{BuildFact, RoomFact, UndoFact};
use crate::names::refusal_name;
use crate::phrase::Value::{self, Number, Page};
use crate::phrase::{
    Phrase, four_values, one, one_value, plain, three, three_values, two, two_values,
};
use crate::readings::{
    Recs, count_of_recs, first_entry, ipa_of, newest_rec, page_of, served, size_of_order,
};
use crate::rmi_facts::{InputFact, RealmFact, RecFact, WalkFact};
use crate::roles::{Role, role_by_state, role_of};
use granule_addr::{BuildId, Gran};
use host_commands::{Cmd, Step};
use page_arena::PageStore;
use realm_host::{GranuleState, Host};
use std::alloc::AllocError;

// The name of a failed check's refusal. For a `fill` or `peek` of a page in another state it is the hardware's fault,
// since these are no RMI commands: the hardware refuses the access.
fn failure_name(step: &Step, check: &Check) -> Phrase {
    match check.fact {
        Fact::Input(InputFact::Page { .. }) if is_access(step) => {
            plain("on hardware: a granule protection fault")
        }
        _ => refusal_name(check.refusal),
    }
}

/// Appends the error message for a failed check, which ends with the name of the refusal in parentheses. For a `fill`
/// or `peek` of a page in another state, the hardware's fault takes the name's place.
pub(crate) fn push_error(
    text: &mut String,
    words: Phrase,
    step: &Step,
    check: &Check,
) -> Result<(), AllocError> {
    words.push(text)?;
    text.push_str(" (")?;
    failure_name(step, check).push(text)?;
    text.push_str(")")
}

/// Returns the phrase that says what a step's failed check requires, and what it found.
pub(crate) fn error_of<S: PageStore>(
    host: &Host<S>,
    build: BuildId,
    step: &Step,
    fact: Fact,
) -> Phrase {
    match fact {
        Fact::Build(fact) => of_build(host, build, step, fact),
        Fact::Room(fact) => of_room(host.pages(), fact),
        Fact::Undo(fact) => of_undo(host, build, fact),
        Fact::Input(fact) => of_input(step, fact),
        Fact::Realm(fact) => of_realm(host, build, step, fact),
        Fact::Rec(fact) => of_rec(host, build, step, fact),
        Fact::Walk(fact) => of_walk(host, build, ipa_of(step), fact),
    }
}

// ---- what the host checks

// The error for a build that does not exist, on a host of `count` builds.
fn no_build(build: u8, count: u8) -> Phrase {
    let words = if count == 1 {
        "build {} does not exist; builds are numbered from 0 and there is {}"
    } else {
        "build {} does not exist; builds are numbered from 0 and there are {}"
    };
    two(words, build as u64, count as u64)
}

// The error for a page that the build does not have.
fn missing_page(step: &Step, page: u16, count: u16) -> Phrase {
    let role = role_of(step, page);
    let words = match role {
        Role::NoRole => "the build has no {}; it has { page| pages}",
        _ => "{} does not exist; the build has { page| pages}",
    };
    two_values(words, Page(role, page), Number(count as u64))
}

// The error for a build that has a realm already, with the page of the realm's RD.
fn second_realm<S: PageStore>(host: &Host<S>, build: BuildId, rd: Option<Gran>) -> Phrase {
    if let Some(rd) = rd {
        if let Some(page) = page_of(host, build, rd) {
            return one_value(
                "the build must have no realm; it has one, with its RD in {}",
                Page(Role::NoRole, page),
            );
        }
    }
    plain("the build must have no realm; it has one")
}

fn of_build<S: PageStore>(host: &Host<S>, build: BuildId, step: &Step, fact: BuildFact) -> Phrase {
    match fact {
        BuildFact::There(count) => no_build(build.number(), count),
        BuildFact::NotAborting => plain("the build must not be in abort; it is"),
        BuildFact::Order(order) => one(
            "the order of a block must be at most 9; it is {}",
            order as u64,
        ),
        BuildFact::Page { page, count, .. } => missing_page(step, page, count),
        BuildFact::Realm(_) => plain("the build must have a realm; it has none"),
        BuildFact::NoRealm(rd) => second_realm(host, build, rd),
    }
}

// The error for a `take` when no block of its order is free, on a machine of `machine` pages.
fn block_error(machine: u16, order: u8, free: u16) -> Phrase {
    let size = size_of_order(order);
    let wanted = size as u64;
    match free {
        _ if size == 1 => plain("a page must be free; none is"),
        _ if size > machine => two(
            "an aligned block of {} pages must be free; the machine has { page| pages}",
            wanted,
            machine as u64,
        ),
        0 => one(
            "an aligned block of {} pages must be free; no page is",
            wanted,
        ),
        _ if free < size => two(
            "an aligned block of {} pages must be free; { page is| pages are} free",
            wanted,
            free as u64,
        ),
        _ => two(
            "an aligned block of {} pages must be free; {} pages are, but not in one block",
            wanted,
            free as u64,
        ),
    }
}

fn of_room(machine: u16, fact: RoomFact) -> Phrase {
    match fact {
        RoomFact::Journal(open) => one(
            "fewer than 512 operations of the build must be open; {} are",
            open as u64,
        ),
        RoomFact::History { left, needed } => two(
            "the build's history must have room for { more event| more events}; it has room for {}",
            needed as u64,
            left as u64,
        ),
        RoomFact::Vmid(_) => plain("a VMID must be free; all are in use"),
        RoomFact::Block { order, free } => block_error(machine, order, free),
    }
}

/// Returns the message that the newest operation created REC `number`, which is RUNNING but must be READY.
pub(crate) fn newest_error(number: u16) -> Phrase {
    one(
        "REC {}, the newest operation's, must be READY; it is RUNNING",
        number as u64,
    )
}

// The error for a build with RUNNING RECs, in the words `of_one` for one such REC and `of_many` for more.
fn running_error<S: PageStore>(
    host: &Host<S>,
    build: BuildId,
    of_one: &'static str,
    of_many: &'static str,
) -> Phrase {
    match count_of_recs(host, build, Recs::Running) {
        (1, only) => one(of_one, only as u64),
        (count, _) => one(of_many, count as u64),
    }
}

fn of_undo<S: PageStore>(host: &Host<S>, build: BuildId, fact: UndoFact) -> Phrase {
    match fact {
        UndoFact::Open(_) => plain("the build must have an operation to undo; it has none"),
        UndoFact::NewestIsNotRunning => match newest_rec(host, build) {
            Some(number) => newest_error(number),
            None => plain("the newest operation's REC must be READY; it is RUNNING"),
        },
        UndoFact::AllAreReady(_) => running_error(
            host,
            build,
            "each REC of the build must be READY; REC {} is RUNNING",
            "each REC of the build must be READY; {} RECs are RUNNING",
        ),
        UndoFact::Mark => plain("the build must have a mark to go back to; it has none"),
        UndoFact::NoneRunsAboveMark => running_error(
            host,
            build,
            "each REC created since the mark must be READY; REC {} is RUNNING",
            "each REC created since the mark must be READY; {} RECs are RUNNING",
        ),
    }
}

// ---- what the RMM checks

// Whether a step is a `fill` or a `peek`.
fn is_access(step: &Step) -> bool {
    matches!(step, Step::Ask(Cmd::Fill { .. } | Cmd::Peek { .. }))
}

// The words of the error for a page that is not in the required state.
fn page_words(step: &Step) -> &'static str {
    match step {
        Step::Ask(Cmd::Fill { .. }) => "{} must be {} to be written; it is {}",
        Step::Ask(Cmd::Peek { .. }) => "{} must be {} to be read; it is {}",
        _ => "{} must be {}; it is {}",
    }
}

fn of_input(step: &Step, fact: InputFact) -> Phrase {
    match fact {
        InputFact::Page {
            page,
            required,
            found,
        } => {
            let page = Page(role_by_state(step, page, required), page);
            let (required, found) = (
                Value::GranuleState(Some(required)),
                Value::GranuleState(found),
            );
            three_values(page_words(step), page, required, found)
        }
        InputFact::Protected { ipa, width } => three(
            "IPA granule {} must be below {}, in the protected half at IPA width {}",
            ipa as u64,
            protected_end(width),
            width as u64,
        ),
        InputFact::Level(level) => one(
            "the level of a table must be 2 or 3; it is {}",
            level as u64,
        ),
        InputFact::Start { ipa, level } => three(
            "a table of level {} must start at a multiple of {}; IPA granule {} is none",
            level as u64,
            served(level) as u64,
            ipa as u64,
        ),
        InputFact::Count(count) => one(
            "the count of pages must be 1 to 512; it is {}",
            count as u64,
        ),
        InputFact::OneTable { ipa, count } => three(
            "{} pages from IPA granule {} must lie in one table of level 3; the next begins at {}",
            count as u64,
            ipa as u64,
            (ipa as u64 / 512 + 1) * 512,
        ),
    }
}

/// Returns the first IPA granule above the protected half of an address space of `width` bits.
pub(crate) fn protected_end(width: u8) -> u64 {
    1 << width.saturating_sub(13).min(32)
}

// The RD page of a `realm` step, the page of its first starting table, and the number of its starting tables. All three
// are 0 for any other step.
fn realm_pages(step: &Step) -> (u16, u16, u16) {
    match step {
        Step::Ask(Cmd::Realm { rd, root, width }) => {
            (*rd, *root, host_commands::tables_named(*width))
        }
        _ => (0, 0, 0),
    }
}

fn of_realm<S: PageStore>(host: &Host<S>, build: BuildId, step: &Step, fact: RealmFact) -> Phrase {
    let (rd, root, count) = realm_pages(step);
    match fact {
        RealmFact::Width(width) => one("the IPA width must be 39 to 43; it is {}", width as u64),
        RealmFact::Adjacent => two_values(
            "the {} starting tables from {} on must be adjacent granules; they are not",
            Number(count as u64),
            Page(Role::NoRole, root),
        ),
        RealmFact::Multiple(count) => three_values(
            "the first starting table, {}, must be at a multiple of {} granules; it is {}",
            Page(Role::NoRole, root),
            Number(count as u64),
            Page(Role::NoRole, root).in_granules(host, build),
        ),
        RealmFact::Apart => one_value(
            "the RD must not be a starting table; {} is both",
            Page(Role::NoRole, rd),
        ),
        RealmFact::State { required, found } => two_values(
            "the realm must be {}; it is {}",
            Value::RealmState(Some(required)),
            Value::RealmState(found),
        ),
    }
}

// The page that a `rec` step names twice, if any.
fn repeated_page(step: &Step) -> Option<u16> {
    let Step::Ask(Cmd::Rec { page, auxiliaries }) = step else {
        return None;
    };
    if auxiliaries.as_slice().contains(page) {
        return Some(*page);
    }
    let mut rest = auxiliaries.as_slice();
    'pages: while let Some((page, others)) = rest.split_first() {
        if others.contains(page) {
            return Some(*page);
        }
        rest = others;
    }
    None
}

fn distinct_error(step: &Step) -> Phrase {
    match repeated_page(step) {
        Some(page) => one_value(
            "the REC and its auxiliaries must differ; {} is named twice",
            Page(Role::NoRole, page),
        ),
        None => plain("the REC and its auxiliaries must differ"),
    }
}

// The error for a REC that the realm lacks, with the realm's only REC or the number of its RECs.
fn no_rec_error<S: PageStore>(host: &Host<S>, build: BuildId, number: u16) -> Phrase {
    let number = number as u64;
    match count_of_recs(host, build, Recs::All) {
        (0, _) => one("the realm must have REC {}; it has none", number),
        (1, only) => two(
            "the realm must have REC {}; it has only REC {}",
            number,
            only as u64,
        ),
        (count, _) => two(
            "the realm must have REC {}; it has {} others",
            number,
            count as u64,
        ),
    }
}

fn of_rec<S: PageStore>(host: &Host<S>, build: BuildId, step: &Step, fact: RecFact) -> Phrase {
    match fact {
        RecFact::Distinct => distinct_error(step),
        RecFact::There(number) => no_rec_error(host, build, number.number()),
        RecFact::Auxiliaries { named, needed } => two(
            "a REC must have { auxiliary page| auxiliary pages}; { is| are} named",
            needed as u64,
            named as u64,
        ),
        RecFact::State {
            number,
            required,
            found,
        } => three_values(
            "REC {} must be {}; it is {}",
            Number(number.number() as u64),
            Value::RecState(Some(required)),
            Value::RecState(found),
        ),
    }
}

// The error for entries that are not all UNASSIGNED.
fn free_error<S: PageStore>(host: &Host<S>, build: BuildId, ipa: u32, count: u16) -> Phrase {
    let (first, count) = (ipa as u64, count as u64);
    match first_entry(host, build, ipa, false) {
        _ if count == 1 => one(
            "the entry of IPA granule {} must be UNASSIGNED; it is ASSIGNED",
            first,
        ),
        Some(taken) => three(
            "the {} entries from IPA granule {} on must be UNASSIGNED; that of IPA granule {} is ASSIGNED",
            count,
            first,
            taken as u64,
        ),
        None => two(
            "the {} entries from IPA granule {} on must be UNASSIGNED",
            count,
            first,
        ),
    }
}

fn of_walk<S: PageStore>(host: &Host<S>, build: BuildId, ipa: u32, fact: WalkFact) -> Phrase {
    match fact {
        WalkFact::Walk {
            ipa,
            required,
            ended,
        } => three(
            "the walk of IPA granule {} must end at level {}; it ends at level {}",
            ipa as u64,
            required as u64,
            ended as u64,
        ),
        WalkFact::Entry {
            level,
            required,
            found,
        } => four_values(
            "the entry of IPA granule {} at level {} must be {}; it is {}",
            Number(ipa as u64),
            Number(level as u64),
            Value::EntryState(Some(required)),
            Value::EntryState(found),
        ),
        WalkFact::NoTable { level, .. } => three(
            "IPA granule {} must have no table below level {} yet; its entry at level {} is TABLE",
            ipa as u64,
            level as u64,
            level as u64,
        ),
        WalkFact::Leads(_) => one(
            "the entry of IPA granule {} must lead to a page; it leads to none",
            ipa as u64,
        ),
        WalkFact::Free { ipa, count } => free_error(host, build, ipa, count),
    }
}
