//! The phrases that describe the passed checks of a step.
use crate::check::Fact;
use crate::host_facts::{BuildFact, RoomFact, UndoFact};
use crate::phrase::Value::{self, Number, Page};
use crate::phrase::{Phrase, one, one_value, plain, two, two_values};
use crate::rmi_facts::{InputFact, RealmFact, RecFact, WalkFact};
use crate::roles::{role_by_state, role_of};
use host_commands::Step;

/// Returns the phrase that describes a passed check of a step.
pub(crate) fn passed(step: &Step, fact: Fact) -> Phrase {
    match fact {
        Fact::Build(fact) => of_build(step, fact),
        Fact::Room(fact) => of_room(fact),
        Fact::Undo(fact) => of_undo(fact),
        Fact::Input(fact) => of_input(step, fact),
        Fact::Realm(fact) => of_realm(fact),
        Fact::Rec(fact) => of_rec(fact),
        Fact::Walk(fact) => of_walk(fact),
    }
}

fn of_build(step: &Step, fact: BuildFact) -> Phrase {
    match fact {
        BuildFact::There(1) => plain("the build is the only one"),
        BuildFact::There(builds) => one("the build is one of {}", builds as u64),
        BuildFact::NotAborting => plain("the build is not in abort"),
        BuildFact::Order(order) => one("the order is {}, at most 9", order as u64),
        BuildFact::Page {
            page,
            granule: Some(granule),
            ..
        } => two_values(
            "{} is granule {}",
            Page(role_of(step, page), page),
            Number(granule.number() as u64),
        ),
        BuildFact::Page { page, .. } => one("page {} is there", page as u64),
        BuildFact::Realm(Some(rd)) => one(
            "the build has a realm, with its RD in granule {}",
            rd.number() as u64,
        ),
        BuildFact::Realm(None) => plain("the build has a realm"),
        BuildFact::NoRealm(_) => plain("the build has no realm"),
    }
}

fn of_room(fact: RoomFact) -> Phrase {
    match fact {
        RoomFact::Journal(open) => one(
            "{ operation is| operations are} open, fewer than 512",
            open as u64,
        ),
        RoomFact::History { left, needed } => two(
            "the history has room for { more event| more events}; {} needed",
            left as u64,
            needed as u64,
        ),
        RoomFact::Vmid(Some(lowest)) => one("VMID {} is free", lowest.number() as u64),
        RoomFact::Vmid(None) => plain("a VMID is free"),
        RoomFact::Block { order, .. } => one("an aligned block of order {} is free", order as u64),
    }
}

fn of_undo(fact: UndoFact) -> Phrase {
    match fact {
        UndoFact::Open(open) => one("{ operation is| operations are} open", open as u64),
        UndoFact::NewestIsNotRunning => plain(
            "the newest operation's REC is READY, or it created none",
        ),
        UndoFact::AllAreReady(_) => plain("each REC of the build is READY"),
        UndoFact::Mark => plain("the build has a mark"),
        UndoFact::NoneRunsAboveMark => plain("each REC created since the mark is READY"),
    }
}

fn of_input(step: &Step, fact: InputFact) -> Phrase {
    match fact {
        InputFact::Page { page, required, .. } => two_values(
            "{} is {}",
            Page(role_by_state(step, page, required), page),
            Value::GranuleState(Some(required)),
        ),
        InputFact::Protected { ipa, width } => two(
            "IPA granule {} is in the protected half at IPA width {}",
            ipa as u64,
            width as u64,
        ),
        InputFact::Level(level) => one("the level of the table is {}", level as u64),
        InputFact::Start { ipa, level } => two(
            "a table of level {} can start at IPA granule {}",
            level as u64,
            ipa as u64,
        ),
        InputFact::Count(count) => one("the count of pages is {}, 1 to 512", count as u64),
        InputFact::OneTable { ipa, count } => two(
            "{ page| pages} from IPA granule {} on: one table of level 3",
            count as u64,
            ipa as u64,
        ),
    }
}

fn of_realm(fact: RealmFact) -> Phrase {
    match fact {
        RealmFact::Width(width) => one("the IPA width is {}, 39 to 43", width as u64),
        RealmFact::Adjacent => plain("the starting tables are adjacent granules"),
        RealmFact::Multiple(count) => one(
            "the first starting table is at a multiple of { granule| granules}",
            count as u64,
        ),
        RealmFact::Apart => plain("the RD page is not a starting table"),
        RealmFact::State { required, .. } => one_value(
            "the realm is {}",
            Value::RealmState(Some(required)),
        ),
    }
}

fn of_rec(fact: RecFact) -> Phrase {
    match fact {
        RecFact::Distinct => plain("no page is named twice"),
        RecFact::Auxiliaries { named, .. } => one(
            "{ auxiliary page is| auxiliary pages are} named, as many as a REC has",
            named as u64,
        ),
        RecFact::There(number) => one("the realm has REC {}", number.number() as u64),
        RecFact::State {
            number,
            required,
            ..
        } => two_values(
            "REC {} is {}",
            Number(number.number() as u64),
            Value::RecState(Some(required)),
        ),
    }
}

fn of_walk(fact: WalkFact) -> Phrase {
    match fact {
        WalkFact::Walk { ipa, required, .. } => two(
            "the walk of IPA granule {} ends at level {}",
            ipa as u64,
            required as u64,
        ),
        WalkFact::Entry {
            level,
            required,
            ..
        } => two_values(
            "the entry at level {} is {}",
            Number(level as u64),
            Value::EntryState(Some(required)),
        ),
        WalkFact::NoTable { level, .. } => one("the entry at level {} is not TABLE", level as u64),
        WalkFact::Leads(Some(granule)) => one(
            "the entry leads to granule {}",
            granule.number() as u64,
        ),
        WalkFact::Leads(None) => plain("the entry leads to a page"),
        WalkFact::Free { ipa, count } => two(
            "{ entry| entries} from IPA granule {} on: UNASSIGNED",
            count as u64,
            ipa as u64,
        ),
    }
}
