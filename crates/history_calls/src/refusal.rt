//! Functions that compute the refusal, if any, that a host would give to a command. The model's checks find it, and the
//! command is not performed.
ghost use Rattle.std.specs.Prelude.{◌≡◌, ◌+◌, ◌≤◌, None};
ghost use Rattle.std.specs.List.{list_all};
ghost use Rattle.realm_model.specs.Command.Check.{error_rtt, are_distinct};
ghost use Rattle.realm_model.specs.Rows.{is_table_place, is_page_run};
ghost use Rattle.host_commands.specs.Checks.{checks_of, first_that_holds};
ghost use Rattle.host_ledger.specs.Summary.{summary_of};
ghost use Rattle.host_ledger.specs.View.{world_of};
ghost use Rattle.realm_host.specs.Call.{Ask};
ghost use Rattle.realm_host.specs.Readings.{row_of};
ghost use Rattle.realm_host.specs.Refusals.{refusal_of};
ghost use Rattle.history_calls.specs.Refused as refused;

use crate::prepared::{allocated, refused_before};
use granule_addr::{BuildId, Gran, IpaGran, Level, RecNo, Root, is_protected};
use host_commands::{Cmd, Refusal, act_of, check_needs};
use page_arena::PageStore;
use realm_host::{EntryState, GranuleState, Host, RealmDesc};
use realm_model::{Act, Rmi, Status};

// RMI_ERROR_RTT with a level.
fn rtt_error(level: Level) -> Rmi
    ensures { result ≡ error_rtt level }
{
    Rmi {
        status: Status::Rtt,
        index: level.number(),
    }
}

// The refusal if a walk reaches no entry. A walk in a realm always reaches one.
const NO_END: Rmi = Rmi {
    status: Status::Rtt,
    index: 0,
};

// ---- granules

// Whether a granule is DELEGATED.
fn is_delegated<S: PageStore>(host: &Host<S>, granule: Gran) -> bool
    ensures { result ≡ refused.is_delegated_in (world_of host.now) granule }
{
    match host.granule_view(granule) {
        Some(view) => matches!(view.state, GranuleState::Delegated),
        None => false,
    }
}

// Whether the host's page that a command names is UNDELEGATED; `true` if the command names none.
fn is_host_page_undelegated<S: PageStore>(host: &Host<S>, build: BuildId, cmd: &Cmd) -> bool
    ensures { result ≡ refused.is_host_page_undelegated host.now build cmd.now }
{
    match cmd {
        Cmd::Delegate { page } | Cmd::Data { source: page, .. } => {
            matches!(
                host.page_state(build, *page),
                Some(GranuleState::Undelegated)
            )
        }
        _ => true,
    }
}

// Whether no granule occurs twice in a list.
fn are_distinct(granules: &[Gran]) -> bool
    ensures { result ≡ are_distinct granules.now }
{
    let mut rest = granules;
    'granules: while let Some((granule, others)) = rest.split_first() {
        if others.contains(granule) {
            return false;
        }
        rest = others;
    }
    true
}

// Whether granules can be the starting tables of a realm with the given RD.
fn can_all_start<S: PageStore>(host: &Host<S>, rd: Gran, tables: &[Gran]) -> bool
    ensures { result ≡ list_all (refused.can_start (world_of host.now) rd) tables.now }
{
    tables
        .iter()
        .all(|table| is_delegated(host, *table) && !(*table == rd))
}

// Whether all of the granules are DELEGATED.
fn are_delegated<S: PageStore>(host: &Host<S>, granules: &[Gran]) -> bool
    ensures { result ≡ list_all (refused.is_delegated_in (world_of host.now)) granules.now }
{
    granules.iter().all(|granule| is_delegated(host, *granule))
}

// The refusal of RMI_REALM_CREATE for an RD and its starting tables.
fn realm_refusal<S: PageStore>(host: &Host<S>, root: Root, granules: &[Gran]) -> Option<Rmi>
    ensures { result ≡ refused.realm_refusal host.now root granules.now }
{
    let Some((rd, tables)) = granules.split_first() else {
        return Some(Rmi::INPUT);
    };
    if root.first.number() % root.width.start_count() == 0
        && is_delegated(host, *rd)
        && can_all_start(host, *rd, tables)
        && host.ledger().lowest_vmid().is_some()
    {
        None
    } else {
        Some(Rmi::INPUT)
    }
}

// The refusal of RMI_REC_CREATE for a REC and its auxiliary granules.
fn rec_refusal<S: PageStore>(host: &Host<S>, realm: &RealmDesc, granules: &[Gran]) -> Option<Rmi>
    ensures { result ≡ refused.rec_refusal host.now realm.now granules.now }
{
    let Some((_rec, auxiliaries)) = granules.split_first() else {
        return Some(Rmi::INPUT);
    };
    if !(are_delegated(host, granules)
        && are_distinct(granules)
        && auxiliaries.len() == host.rec_aux_count() as usize)
    {
        return Some(Rmi::INPUT);
    }
    state_refusal(realm)
}

// The refusal of a command on a realm that has to be NEW.
fn state_refusal(realm: &RealmDesc) -> Option<Rmi>
    ensures { result ≡ refused.state_refusal realm.now }
{
    if realm.is_new() {
        None
    } else {
        Some(Rmi::REALM)
    }
}

// ---- walks

// Whether a table of a level may begin at an IPA granule.
fn is_table_place(ipa: IpaGran, level: Level) -> bool
    ensures { result ≡ is_table_place ipa level }
{
    match level.number() {
        2 => ipa.number() % 262_144 == 0,
        3 => ipa.number() % 512 == 0,
        _ => false,
    }
}

// Whether one command can make RAM of the `count` IPA granules from `ipa` on.
fn is_page_run(ipa: IpaGran, count: u16) -> bool
    ensures { result ≡ is_page_run ipa count }
{
    let first = ipa.number();
    1 <= count && count <= 512 && first / 512 == (first + count as u32 - 1) / 512
}

// The refusal of a new table, according to the level at which the walk to its parent ends.
fn new_table_refusal<S: PageStore>(
    host: &Host<S>,
    build: BuildId,
    ipa: IpaGran,
    above: Level,
) -> Option<Rmi>
    ensures { result ≡ refused.new_table_refusal above (refused.end_in (row_of (world_of host.now) build) ipa above) }
{
    match host.row(build, ipa.number(), above) {
        Some(row) => {
            if row.level.number() == above.number()
                && !matches!(row.entry.state, EntryState::Table)
            {
                None
            } else {
                Some(rtt_error(row.level))
            }
        }
        None => Some(NO_END),
    }
}

// Whether an IPA granule has an entry of level 3, and the entry is UNASSIGNED.
fn is_free<S: PageStore>(host: &Host<S>, build: BuildId, ipa: u32) -> bool
    ensures { result ≡ refused.is_free_row (refused.end_in (row_of (world_of host.now) build) ipa 3) }
{
    match host.row(build, ipa, Level::last()) {
        Some(row) => {
            row.level.number() == 3 && matches!(row.entry.state, EntryState::Unassigned)
        }
        None => false,
    }
}

// Whether `count` IPA granules from `first` on have entries of level 3 that are all UNASSIGNED.
fn are_free<S: PageStore>(host: &Host<S>, build: BuildId, first: u32, count: u16) -> bool
    requires { first + count ≤ 4294967296 }
    ensures { result ≡ refused.are_free_rows (row_of (world_of host.now) build) first count }
{
    for number in 0..count {
        if !is_free(host, build, first + number as u32) {
            return false;
        }
    }
    true
}

// The refusal of a command on the entries of `count` IPA granules, which have to be UNASSIGNED.
fn run_refusal<S: PageStore>(
    host: &Host<S>,
    build: BuildId,
    ipa: IpaGran,
    count: u16,
) -> Option<Rmi>
    ensures { result ≡ refused.run_refusal (refused.are_free_rows (row_of (world_of host.now) build) ipa count) (refused.end_in (row_of (world_of host.now) build) ipa 3) }
{
    match host.row(build, ipa.number(), Level::last()) {
        Some(row) => {
            if row.level.number() == 3 && are_free(host, build, ipa.number(), count) {
                None
            } else {
                Some(rtt_error(row.level))
            }
        }
        None => Some(NO_END),
    }
}

// ---- RECs

// The refusal of RMI_REC_ENTER.
fn enter_refusal<S: PageStore>(
    host: &Host<S>,
    build: BuildId,
    realm: &RealmDesc,
    number: RecNo,
) -> Option<Rmi>
    ensures { result ≡ refused.enter_refusal realm.now (refused.rec_of_number (row_of (world_of host.now) build) number) }
{
    let Some((_granule, rec)) = host.rec(build, number) else {
        return Some(Rmi::INPUT);
    };
    if realm.is_new() {
        return Some(Rmi::REALM);
    }
    if rec.is_ready() { None } else { Some(Rmi::REC) }
}

// The refusal of a guest's write to an IPA granule, which has to be protected.
fn poke_refusal<S: PageStore>(
    host: &Host<S>,
    build: BuildId,
    number: RecNo,
    protected: bool,
    ipa: IpaGran,
) -> Option<Rmi>
    ensures { result ≡ refused.poke_refusal protected (refused.end_in (row_of (world_of host.now) build) ipa 3) (refused.rec_of_number (row_of (world_of host.now) build) number) }
{
    let Some((_granule, rec)) = host.rec(build, number) else {
        return Some(Rmi::INPUT);
    };
    if !protected {
        return Some(Rmi::INPUT);
    }
    if rec.is_ready() {
        return Some(Rmi::REC);
    }
    match host.row(build, ipa.number(), Level::last()) {
        Some(row) => match row.entry.state {
            EntryState::Assigned => match row.entry.granule {
                Some(_page) => None,
                None => Some(Rmi::INPUT),
            },
            _ => Some(rtt_error(row.level)),
        },
        None => Some(NO_END),
    }
}

// ---- operations

// The refusal of the operation `act` on a realm's tables or memory.
fn refusal_in_memory<S: PageStore>(
    host: &Host<S>,
    build: BuildId,
    ready: bool,
    realm: &RealmDesc,
    act: &Act,
) -> Option<Rmi>
    ensures { result ≡ refused.refusal_in_memory (world_of host.now) (row_of (world_of host.now) build) ready realm.now act.now }
{
    let width = realm.root().width;
    match act {
        Act::Rtt {
            granule,
            ipa,
            level,
        } => {
            if !(is_delegated(host, *granule)
                && is_table_place(*ipa, *level)
                && is_protected(*ipa, width))
            {
                return Some(Rmi::INPUT);
            }
            new_table_refusal(host, build, *ipa, level.above())
        }
        Act::Ripas { ipa, count } => {
            if !(is_page_run(*ipa, *count) && is_protected(*ipa, width)) {
                return Some(Rmi::INPUT);
            }
            if !realm.is_new() {
                return Some(Rmi::REALM);
            }
            run_refusal(host, build, *ipa, *count)
        }
        Act::Data { granule, ipa, .. } => {
            if !(is_delegated(host, *granule) && ready && is_protected(*ipa, width)) {
                return Some(Rmi::INPUT);
            }
            if !realm.is_new() {
                return Some(Rmi::REALM);
            }
            run_refusal(host, build, *ipa, 1)
        }
        Act::Unknown { granule, ipa } => {
            if !(is_delegated(host, *granule) && is_protected(*ipa, width)) {
                return Some(Rmi::INPUT);
            }
            run_refusal(host, build, *ipa, 1)
        }
        _ => None,
    }
}

// The refusal of the operation `act` on a realm, with the granules that the command names.
fn refusal_in_realm<S: PageStore>(
    host: &Host<S>,
    build: BuildId,
    granules: &[Gran],
    ready: bool,
    realm: &RealmDesc,
    act: &Act,
) -> Option<Rmi>
    ensures { result ≡ refused.refusal_in_realm host.now (row_of (world_of host.now) build) granules.now ready realm.now act.now }
{
    match act {
        Act::Rec { .. } => rec_refusal(host, realm, granules),
        Act::Activate => state_refusal(realm),
        Act::Enter { number } => enter_refusal(host, build, realm, *number),
        Act::Poke { number, ipa, .. } => {
            let protected = is_protected(*ipa, realm.root().width);
            poke_refusal(host, build, *number, protected, *ipa)
        }
        _ => refusal_in_memory(host, build, ready, realm, act),
    }
}

// The RMM's refusal of the call for the operation `act`, with the granules that the command names.
fn call_refusal<S: PageStore>(
    host: &Host<S>,
    build: BuildId,
    granules: &[Gran],
    ready: bool,
    act: &Act,
) -> Option<Rmi>
    ensures { result ≡ refused.call_refusal host.now (row_of (world_of host.now) build) granules.now ready act.now }
{
    match act {
        Act::Fill { .. } | Act::Peek { .. } | Act::Exit { .. } => None,
        Act::Delegate { .. } => if ready { None } else { Some(Rmi::INPUT) },
        Act::Realm { root, .. } => realm_refusal(host, *root, granules),
        _ => match host.realm(build) {
            Some(realm) => refusal_in_realm(host, build, granules, ready, realm, act),
            None => Some(Rmi::INPUT),
        },
    }
}

// ---- commands

// The model's refusal of a command whose operation is `act`.
fn model_refusal<S: PageStore>(
    host: &Host<S>,
    build: BuildId,
    granules: &[Gran],
    cmd: &Cmd,
    act: Option<Act>,
) -> Option<Refusal>
    requires { first_that_holds (checks_of (summary_of host.now) build cmd.now) ≡ None }
    ensures { result ≡ refused.model_refusal host.now build granules.now cmd.now act }
{
    if let Some(refusal) = refused_before(host, build, cmd) {
        return Some(refusal);
    }
    let rmi = match act {
        Some(act) => call_refusal(
            host,
            build,
            granules,
            is_host_page_undelegated(host, build, cmd),
            &act,
        )?,
        None => match cmd {
            Cmd::Take { .. } => return None,
            _ => Rmi::INPUT,
        },
    };
    Some(Refusal::Rmi(rmi))
}

/// Returns the refusal, if any, that the host would give to a command. The command is not performed.
pub fn refusal_of_command<S: PageStore>(
    host: &Host<S>,
    build: BuildId,
    cmd: &Cmd,
) -> Option<Refusal>
    ensures { result ≡ refusal_of host.now build (Ask cmd.now) }
{
    // (the contract of `history` says that the history is legal, so each realm has a width that realms may have)
    let _history = host.history();
    let granules = match check_needs(host.ledger(), build, cmd) {
        Ok(granules) => granules,
        Err(refusal) => return Some(refusal),
    };
    let act = act_of(cmd, &granules, allocated(host, build));
    model_refusal(host, build, granules.as_slice(), cmd, act)
}
