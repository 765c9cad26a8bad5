//! An example program that performs one realm build, two builds in threads, and the builds of a recorded history. The
//! one build has commands, a refusal that is matched on, an undo and an abort; its history is printed. The two builds
//! have a thread each. The recorded history is read from standard input.
#![tactic(auto)]

mod history;
mod threads;

use anyhow::Result;
use history_text::EventText;
use realm_host::{BuildId, Cmd, Host, PlainStore, Refusal, Rmi, Settings, Status};
use std::alloc::Global;
use std::io;

// Boots a host of 8 pages for one build.
fn booted(alloc: Global) -> Result<Host<PlainStore>> {
    let settings = Settings::new(8, 0, 64, 1).unwrap();
    let store = PlainStore::build(alloc, 8)?;
    match Host::boot(alloc, settings, store) {
        Ok(host) => Ok(host),
        Err((error, _store)) => Err(error.into()),
    }
}

// Asks for a command, and prints the answer.
fn ask(rt: &impl Print, host: &mut Host<PlainStore>, build: BuildId, cmd: Cmd) -> io::Result<()> {
    match host.command(build, cmd) {
        Ok(reply) => println!(rt; "{reply:?}"),
        Err(
            Refusal::Rmi(
                Rmi {
                    status: Status::Input,
                    ..
                },
            ),
        ) => println!(rt; "RMI_ERROR_INPUT"),
        Err(refusal) => println!(rt; "refused: {refusal}"),
    }
}

// Asks for five commands, of which the last two are refused, then for an undo and an abort.
fn build(rt: &impl Print, host: &mut Host<PlainStore>, build: BuildId) -> io::Result<()> {
    ask(rt, host, build, Cmd::Take { order: 1 })?;
    ask(rt, host, build, Cmd::Fill { page: 1, value: 7 })?;
    ask(rt, host, build, Cmd::Delegate { page: 0 })?;
    ask(rt, host, build, Cmd::Delegate { page: 0 })?;
    ask(rt, host, build, Cmd::Delegate { page: 2 })?;
    println!(rt; "{:?}", host.undo(build))?;
    println!(rt; "{:?}", host.abort(build))
}

// Prints the answers to a build's commands, the host's history, and the number of free pages.
fn show(rt: &impl Print, host: &mut Host<PlainStore>) -> io::Result<()> {
    build(rt, host, BuildId::new(0).unwrap())?;
    for event in host.history() {
        println!(rt; "{}", EventText(event))?;
    }
    println!(rt; "{} of {} pages are free", host.free_count(), host.pages())
}

fn main(rt: HostRuntime) -> Result<()> {
    let mut host = booted(rt.alloc())?;
    show(&rt, &mut host)?;
    threads::both(&rt)?;
    history::run(&rt)
}
