//! The subcommand `apply`, which applies a history's events to a host and writes the host's map.
ghost use Rattle.std.specs.Prelude.{◌≡◌, ◌<◌, ◌↔◌, ◌⊎◌, false, true, Err, IfOk, IfErr, string_bytes};
ghost use Rattle.realm_host.specs.Recorded.{fresh_like};
ghost use Rattle.history_text.specs.Histories.{IsSize};
ghost use Rattle.view_program.specs.Applied.{host_of_opening, IsHistoryIn, IsNoHistoryIn, IsMap, HasNoMap};
ghost use Rattle.view_program.specs.Printed.{IsApplyEnd};
ghost use Rattle.view_program.specs.declared.fault.ViewError.TheVariants.{Device};

use crate::fault::ViewError;
use crate::history_lines::{opening_in, take_lines};
use crate::machine::boot;
use buddy::BuddyArena;
use checked_io::{Lines, Told};
use granule_addr::BuildId;
use history_text::Opening;
use plan_replay::map_text;
use realm_host::{Host, apply_without};
use std::alloc::{AllocError, Global};
use std::io::{Read, Write};

// Reads the history in the input, and returns its opening and the host that it leads to.
fn host_in<R: Read>(
    alloc: Global,
    input: &mut Told<R>,
) -> Result<(Opening, Host<BuddyArena>), ViewError>
    requires { input.old.failed ≡ false }
    ensures told { (input.new.failed ≡ true) ↔ (result ≡ Err Device) }
    ensures ok { IfOk result (λ it. IsHistoryIn (R.remaining input.old.device) it.0 it.1) }
    ensures err { IfErr result (IsNoHistoryIn (R.remaining input.old.device)) }
{
    let mut lines = Lines::new();
    let mut line = Vec::new(alloc);
    let opening = opening_in(&mut lines, input, &mut line)?;
    let mut host = boot(alloc, &opening)?;
    take_lines(alloc, &mut lines, input, &mut line, &mut host)?;
    Ok((opening, host))
}

// The map of a fresh host after the history of `host` without a build's events.
fn map_without(
    alloc: Global,
    opening: &Opening,
    host: &Host<BuddyArena>,
    build: BuildId,
) -> Result<String, AllocError>
    requires size { IsSize opening.now }
    requires build { build < opening.now.builds }
    requires machine { fresh_like host.now ≡ host_of_opening opening.now }
    ensures { IfOk result (λ text. IsMap (Some build) opening.now host.now (string_bytes text)) }
{
    let mut fresh = boot(alloc, opening)?;
    apply_without(host.ledger(), build, &mut fresh);
    map_text(alloc, &fresh)
}

// The map of a host, or, if the build `erase` is given, of a host with the same history without that build.
fn asked_map(
    alloc: Global,
    opening: &Opening,
    host: &Host<BuddyArena>,
    erase: Option<BuildId>,
) -> Result<String, ViewError>
    requires size { IsSize opening.now }
    requires machine { fresh_like host.now ≡ host_of_opening opening.now }
    ensures ok { IfOk result (λ text. IsMap erase opening.now host.now (string_bytes text)) }
    ensures err { IfErr result (HasNoMap erase opening.now) }
{
    let Some(build) = erase else {
        return Ok(map_text(alloc, host)?);
    };
    if build.number() >= opening.builds {
        return Err(ViewError::EraseNamesNoBuild);
    }
    Ok(map_without(alloc, opening, host, build)?)
}

/// Applies a history to a fresh host, and writes the map of the host's pages and realms. If a build is to be left out,
/// writes the map of the history without the build's events.
///
/// The map is complete before any of it is written. The input is read line by line, and of a line no more than 256
/// bytes are kept.
///
/// Errors. `NoOpening`: the first line does not describe a machine, or there is none. `NoEvent` with the first line
/// that is not an event, or `Refused` with the first event that cannot be applied, whichever comes first.
/// `EraseNamesNoBuild`: all is a history and the build to be left out is not one of the machine's. `Memory`: allocation
/// failed. `Device`: a read failed and nothing is written, or a write failed and a prefix of the map is written.
pub fn apply<R: Read, W: Write>(
    alloc: Global,
    input: &mut Told<R>,
    output: &mut Told<W>,
    erase: Option<BuildId>,
) -> Result<(), ViewError>
    requires readable { input.old.failed ≡ false }
    requires writable { output.old.failed ≡ false }
    ensures end { IsApplyEnd erase input.new.failed (R.remaining input.old.device) (W.contents output.old.device) (W.contents output.new.device) result }
    ensures device { ((input.new.failed ≡ true) ⊎ (output.new.failed ≡ true)) ↔ (result ≡ Err Device) }
{
    let (opening, host) = host_in(alloc, input)?;
    let text = asked_map(alloc, &opening, &host, erase)?;
    output.write_whole(text.as_bytes())?;
    Ok(())
}
