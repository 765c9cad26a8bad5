//! An example that applies a recorded history of builds to a new host. The history comes from standard input. The lines
//! after the first are applied, up to one that is not an event or whose event is refused. Then the example prints the
//! host's map.
use anyhow::{Context, Result};
use history_text::{Opening, parse_event, parse_opening};
use plan_replay::map_text;
use realm_host::{Host, PlainStore, Settings};
use std::alloc::Global;
use std::io;

// Boots a host of the size that the opening of a history gives.
fn opened(alloc: Global, opening: &Opening) -> Result<Host<PlainStore>> {
    let settings = Settings::new(
        opening.vmids,
        opening.aux,
        opening.history,
        opening.builds,
    ).context("the opening has no settings")?;
    let store = PlainStore::build(alloc, opening.pages)?;
    Ok(Host::boot(alloc, settings, store).map_err(|(error, _store)| error)?)
}

// Applies the event in a line.
fn apply(host: &mut Host<PlainStore>, line: &str) -> Result<()> {
    let event = parse_event(line.as_bytes()).context("it is no event")?;
    if !host.apply_recorded(&event) {
        return Err(host.why_not(&event).into());
    }
    Ok(())
}

// Applies and prints each line after the first, up to a line that cannot be applied.
fn apply_all(rt: &impl Print, host: &mut Host<PlainStore>, text: &str) -> io::Result<()> {
    for line in text.lines().skip(1) {
        if let Err(error) = apply(host, line) {
            return println!(rt; "{line}: {error}");
        }
        println!(rt; "{line}")?;
    }
    Ok(())
}

// Applies a history, and prints the map.
fn show(rt: &impl Print, alloc: Global, host: &mut Host<PlainStore>, text: &str) -> Result<()> {
    apply_all(rt, host, text)?;
    print!(rt; "{}", map_text(alloc, host)?)?;
    Ok(())
}

/// Reads a history of builds from standard input, and applies the history to a new host. Then the host's map of pages
/// and realms is printed. If standard input is empty, nothing is printed.
pub(crate) fn run(rt: &HostRuntime) -> Result<()> {
    let alloc = rt.alloc();
    let text = io::read_to_string(alloc, rt.stdin())?;
    let Some(first) = text.lines().next() else {
        return Ok(());
    };
    let opening = parse_opening(first.as_bytes()).context("the first line is no opening")?;
    let mut host = opened(alloc, &opening)?;
    show(rt, alloc, &mut host, text.as_str())
}
