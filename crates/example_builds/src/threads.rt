//! An example of two realm builds on a shared host, each in its own thread. A lock guards the host. Each build has a
//! seat, and the seats close the host.
ghost use Rattle.std.specs.Prelude.{◌≡◌, [], IfOk};
ghost use Rattle.build_seats.specs.Names.{AreNamed};

use anyhow::{Result, bail};
use builders::{Blanks, Ledgers, Seat, Shared};
use plan_replay::map_text;
use realm_host::{Cmd, Host, PlainStore, Refusal, Settings};
use std::alloc::Global;
use std::marker::{Brand, Send, Sync};
use std::sync::Wait;
use std::thread::{Threads, for_each_mut};

fn booted(alloc: Global) -> Result<Host<PlainStore>>
    ensures { IfOk result (λ host. host.history ≡ []) }
{
    let settings = Settings::new(8, 0, 64, 2).unwrap();
    let store = PlainStore::build(alloc, 8)?;
    Ok(Host::boot(alloc, settings, store).map_err(|(error, _store)| error)?)
}

// Performs the build of one thread: takes two pages, delegates the first, and fills the second.
fn build<L: Ledgers>(
    rt: &impl Wait,
    shared: &Shared<PlainStore, L>,
    seat: &mut Seat<L>,
) -> Result<(), Refusal> {
    let value = 1 + seat.build().number();
    shared.call(rt, seat, Cmd::Take { order: 1 })?;
    shared.call(rt, seat, Cmd::Delegate { page: 0 })?;
    shared.call(rt, seat, Cmd::Fill { page: 1, value })?;
    Ok(())
}

fn tell(rt: &(impl Print + AllocGlobal), host: &Host<PlainStore>) -> Result<()> {
    println!(rt; "{} events", host.history().len())?;
    print!(rt; "{}", map_text(rt.alloc(), host)?)?;
    Ok(())
}

// Shares a host, performs a build in a thread for each seat, and closes the host with the seats.
fn run<R: Print + AllocGlobal + Threads + Wait + Sync, L: Ledgers + Send + Sync>(
    rt: &R,
    blanks: Blanks,
    host: Host<PlainStore>,
) -> Result<()>
    requires empty { host.history ≡ [] }
    requires opened { host ≡ L.opened }
    requires named { AreNamed L.names blanks }
{
    let Ok((shared, mut seats)) = Shared::<PlainStore, L>::start(rt.alloc(), blanks, host) else {
        bail!("there is too little memory for the seats");
    };
    let each = |_, seat: &mut Seat<L>| {
        let _answer = build(rt, &shared, seat);
    };
    for_each_mut(rt, &mut seats, 2, &each);
    match shared.close(seats) {
        Ok(host) => tell(rt, &host),
        Err(_) => bail!("the seats do not have the history"),
    }
}

/// Runs two realm builds in threads on a new host, and prints the result. The result is the number of events in the
/// host's history, and the map of the host's pages and realms.
pub(crate) fn both<R: Print + AllocGlobal + Threads + Wait + Sync>(rt: &R) -> Result<()> {
    let host = booted(rt.alloc())?;
    run::<R, Brand>(rt, Blanks::new(), host)
}
