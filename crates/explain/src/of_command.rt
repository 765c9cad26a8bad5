//! The checks that the host, the page store and the RMM perform on each command, in sequence. RMM 1.0, RMI commands.
ghost use Rattle.std.specs.Prelude.{◌≡◌, ◌++◌, ◌≤◌, OnOk, length};
ghost use Rattle.explain.specs.Commands.{above_of, take_checks, rtt_create_checks, init_ripas_checks, data_create_checks, unknown_checks};
ghost use Rattle.explain.specs.Commands.{guest_write_checks, enter_checks, recs_checks, tables_checks, monitor_checks, command_checks};

use crate::check::{Check, add, add_all};
use crate::of_block::block_check;
use crate::of_build::add_needs;
use crate::of_input::{
    one_table, page_delegated, page_undelegated, protected, run_count, table_level, table_start,
};
use crate::of_realm::{add_realm_create, realm_active, realm_new};
use crate::of_rec::{add_rec_create, rec_is_running, rec_ready, rec_there};
use crate::of_walk::{
    entries_free, entry_assigned, entry_leads, entry_no_table, entry_unassigned, walk_ends,
};
use crate::operands::{granules_of, pages_named};
use granule_addr::{BuildId, Gran, Level, Order, RecNo};
use page_arena::PageStore;
use realm_host::{Cmd, Host};
use std::alloc::AllocError;

// Adds the check that a block of the order is free, unless the order is above 9.
fn add_take<S: PageStore>(
    host: &Host<S>,
    order: u8,
    checks: &mut Vec<Check>,
) -> Result<(), AllocError>
    ensures { OnOk result (checks.new.items ≡ checks.old.items ++ take_checks host.now order) }
{
    match Order::new(order) {
        Some(order) => add(checks, block_check(host, order)),
        None => Ok(()),
    }
}

// The checks of a write that the guest on a REC makes. RMM 1.0 has no such command.
fn guest_write<S: PageStore>(host: &Host<S>, build: BuildId, rec: RecNo, ipa: u32) -> [Check; 5]
    ensures { result ≡ guest_write_checks host.now build rec ipa }
{
    [
        rec_there(host, build, rec),
        protected(host, build, ipa),
        rec_is_running(host, build, rec),
        entry_assigned(host, build, ipa),
        entry_leads(host, build, ipa),
    ]
}

// The checks of RMI_REC_ENTER.
fn enter<S: PageStore>(host: &Host<S>, build: BuildId, number: RecNo) -> [Check; 3]
    ensures { result ≡ enter_checks host.now build number }
{
    [
        rec_there(host, build, number),
        realm_active(host, build),
        rec_ready(host, build, number),
    ]
}

// The level above a table's level: 2 for a table of level 3, or else the level of the starting tables.
fn above_of(level: u8) -> Level
    ensures { result ≡ above_of level }
{
    if level == 3 {
        Level::new(2).unwrap()
    } else {
        Level::start()
    }
}

// The checks of RMI_RTT_CREATE.
fn rtt_create<S: PageStore>(
    host: &Host<S>,
    build: BuildId,
    page: u16,
    ipa: u32,
    level: u8,
) -> [Check; 6]
    ensures { result ≡ rtt_create_checks host.now build page ipa level }
{
    let above = above_of(level);
    [
        page_delegated(host, build, page),
        table_level(level),
        table_start(ipa, level),
        protected(host, build, ipa),
        walk_ends(host, build, ipa, above),
        entry_no_table(host, build, ipa, above),
    ]
}

// The checks of RMI_RTT_INIT_RIPAS.
fn init_ripas<S: PageStore>(host: &Host<S>, build: BuildId, ipa: u32, count: u16) -> [Check; 6]
    ensures { result ≡ init_ripas_checks host.now build ipa count }
{
    [
        run_count(count),
        one_table(ipa, count),
        protected(host, build, ipa),
        realm_new(host, build),
        walk_ends(host, build, ipa, Level::last()),
        entries_free(host, build, ipa, count),
    ]
}

// The checks of RMI_DATA_CREATE.
fn data_create<S: PageStore>(
    host: &Host<S>,
    build: BuildId,
    page: u16,
    ipa: u32,
    source: u16,
) -> [Check; 6]
    ensures { result ≡ data_create_checks host.now build page ipa source }
{
    [
        page_delegated(host, build, page),
        page_undelegated(host, build, source),
        protected(host, build, ipa),
        realm_new(host, build),
        walk_ends(host, build, ipa, Level::last()),
        entry_unassigned(host, build, ipa),
    ]
}

// The checks of RMI_DATA_CREATE_UNKNOWN.
fn unknown<S: PageStore>(host: &Host<S>, build: BuildId, page: u16, ipa: u32) -> [Check; 4]
    ensures { result ≡ unknown_checks host.now build page ipa }
{
    [
        page_delegated(host, build, page),
        protected(host, build, ipa),
        walk_ends(host, build, ipa, Level::last()),
        entry_unassigned(host, build, ipa),
    ]
}

// Adds the checks of a command on an existing REC.
fn add_recs<S: PageStore>(
    host: &Host<S>,
    build: BuildId,
    cmd: &Cmd,
    checks: &mut Vec<Check>,
) -> Result<(), AllocError>
    ensures { OnOk result (checks.new.items ≡ checks.old.items ++ recs_checks host.now build cmd.now) }
{
    match cmd {
        Cmd::Enter { number } => add_all(checks, &enter(host, build, *number)),
        Cmd::Exit { number } => add_all(
            checks,
            &[
                rec_there(host, build, *number),
                rec_is_running(host, build, *number),
            ],
        ),
        Cmd::Poke { number, ipa, .. } => {
            add_all(checks, &guest_write(host, build, *number, *ipa))
        }
        _ => Ok(()),
    }
}

// Adds the checks of a command on an existing realm: on its tables, its pages, its state or its RECs.
fn add_there<S: PageStore>(
    host: &Host<S>,
    build: BuildId,
    cmd: &Cmd,
    checks: &mut Vec<Check>,
) -> Result<(), AllocError>
    ensures { OnOk result (checks.new.items ≡ checks.old.items ++ tables_checks host.now build cmd.now) }
{
    match cmd {
        Cmd::Rtt { page, ipa, level } => {
            add_all(checks, &rtt_create(host, build, *page, *ipa, *level))
        }
        Cmd::Ripas { ipa, count } => { add_all(checks, &init_ripas(host, build, *ipa, *count)) }
        Cmd::Data { page, ipa, source } => {
            add_all(checks, &data_create(host, build, *page, *ipa, *source))
        }
        Cmd::Unknown { page, ipa } => add_all(checks, &unknown(host, build, *page, *ipa)),
        Cmd::Activate => add(checks, realm_new(host, build)),
        _ => add_recs(host, build, cmd, checks),
    }
}

// Adds the checks of a command that the store or the RMM makes.
fn add_monitor<S: PageStore>(
    host: &Host<S>,
    build: BuildId,
    cmd: &Cmd,
    pages: &[u16],
    granules: &[Gran],
    checks: &mut Vec<Check>,
) -> Result<(), AllocError>
    ensures { OnOk result (checks.new.items ≡ checks.old.items ++ monitor_checks host.now build cmd.now pages.now granules.now) }
{
    match cmd {
        Cmd::Take { order } => add_take(host, *order, checks),
        Cmd::Fill { page, .. } | Cmd::Peek { page, .. } | Cmd::Delegate { page } => {
            add(checks, page_undelegated(host, build, *page))
        }
        Cmd::Realm { width, .. } => {
            add_realm_create(host, build, *width, pages, granules, checks)
        }
        Cmd::Rec { .. } => add_rec_create(host, build, pages, granules, checks),
        _ => add_there(host, build, cmd, checks),
    }
}

/// Appends the checks of a command to a list: first the host's own checks, then those of the page store or the RMM.
#[tactic(auto, unfolding(crate::specs::Commands::command_checks))]
pub(crate) fn add_command<S: PageStore>(
    host: &Host<S>,
    build: BuildId,
    cmd: &Cmd,
    checks: &mut Vec<Check>,
) -> Result<(), AllocError>
    ensures { OnOk result (checks.new.items ≡ checks.old.items ++ command_checks host.now build cmd.now) }
{
    let pages = pages_named(cmd);
    let granules = granules_of(host, build, pages.as_slice());
    add_needs(host, build, cmd, pages.as_slice(), checks)?;
    add_monitor(
        host,
        build,
        cmd,
        pages.as_slice(),
        granules.as_slice(),
        checks,
    )
}
