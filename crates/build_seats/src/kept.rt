//! The data that a lock protects: a shared host, and each build's event count.
ghost use Rattle.std.specs.Prelude.{◌≡◌, ◌+◌, ◌<◌, ◌≤◌, List, [], ◌∷◌, ◌++◌, length, map, replicate, slice_set, vec_capacity, IfOk, IfErr, MatchResult};
ghost use Rattle.std.specs.List.{range_with_len};
ghost use Rattle.std.specs.Result.{OnOk};
ghost use Rattle.realm_model.specs.declared.act.Event.{Event};
ghost use Rattle.host_ledger.specs.Kept.{IsMarkOf};
ghost use Rattle.realm_host.specs.Answer.{IsAnswer, replied, undone};
ghost use Rattle.realm_host.specs.Call.{Ask, Undo};
ghost use Rattle.realm_host.specs.Marked.{IsMarked, way_back};
ghost use Rattle.build_seats.specs.Close.{IsClosed, IsHostGivenBack};
ghost use Rattle.build_seats.specs.Fault.{IsFault};
ghost use Rattle.build_seats.specs.Kept.{IsNoted, IsSound};
ghost use Rattle.realm_model.specs.History.{events_of};
ghost use Rattle.build_seats.specs.Names.{AreNamed};
ghost use Rattle.build_seats.specs.Seats.{new_seat, with_noted};
ghost use Rattle.build_seats.specs.Told.{IsBehind};

use crate::blanks::Blanks;
use crate::close;
use crate::close::CloseFault;
use crate::ledgers::{Books, Ledgers, Opened};
use crate::seat::{Seat, Trail, new_trails, seats_of_trails};
use granule_addr::BuildId;
use page_arena::PageStore;
use realm_host::{Cmd, Host, Mark, Refusal, Reply, Undone};
use realm_model::Event;
use std::alloc::{AllocError, Global};
use std::marker::Model;

/// A shared host, and the number of events that each build has in the history. No build is in abort.
pub struct Kept<S: PageStore, L: Ledgers> {
    host: Host<S>,
    books: Books<L>,
}

impl<S: PageStore + Drop, L: Ledgers> Drop for Kept<S, L> {
    fn drop(self) {
        let Kept { host: _, books: _ } = self;
    }
}

impl<S: PageStore, L: Ledgers> Model for Kept<S, L> {
    ghost use Rattle.build_seats.specs.Codes.{kept_code};
    ghost use Rattle.build_seats.specs.Kept.{KeptView, IsKeptBehindLock};

    ghost Value = { KeptView };

    ghost coded = { kept_code };

    ghost view = { λ k. record { host = k.host; books = k.books } };

    ghost invariant = { λ k. IsKeptBehindLock L.opened (record { host = k.host; books = k.books }) };
}

impl<S: PageStore, L: Ledgers> Kept<S, L> {
    /// Wraps a host for use under a lock, and makes a session handle (`Seat`) for each build. The host's history is
    /// empty. The handle of the lowest build comes first. All memory for the builds' events is taken here. If an
    /// allocation fails, the blanks and the host are returned.
    pub fn start(
        alloc: Global,
        blanks: Blanks,
        host: Host<S>,
    ) -> Result<(Kept<S, L>, Vec<Seat<L>>), (AllocError, Blanks, Host<S>)>
        requires empty { host.history ≡ [] }
        requires opened { host ≡ L.opened }
        requires named { AreNamed L.names blanks }
        ensures kept { IfOk result (λ r. r.0.host ≡ host) }
        ensures seats { IfOk result (λ r. r.1.items ≡ map new_seat (range_with_len 0 host.limits.builds)) }
        ensures back { IfErr result (λ e. (e.1 ≡ blanks) × (e.2 ≡ host)) }
    {
        let count = host.build_count();
        let Ok((trails, seats)) = memory_for_seats(alloc, count, host.capacity()) else {
            return Err((AllocError, blanks, host));
        };
        // (called only for its contract, which gives the invariant of a host)
        let _ = host.history();
        let Opened { books, passes } = Opened::new(blanks);
        let seats = seats_of_trails(seats, passes, trails);
        Ok((Kept { host, books }, seats))
    }

    // Proves that the session handle `seat` counts the events that the history has of its build. Returns the build.
    // Nothing changes.
    fn audit(&mut self, seat: &mut Seat<L>) -> BuildId
        ensures build { result ≡ seat.old.build }
        ensures range { seat.old.build < 8 }
        ensures same { (self.new ≡ self.old) × (seat.new ≡ seat.old) }
        ensures behind { IsBehind L.opened self.old.host seat.old }
    {
        self.books.audit(&mut seat.pass);
        seat.pass.build()
    }

    /// Asks the host to perform a command of the build whose session handle is `seat`. The answer is the host's. An
    /// accepted command appends one event of the build to the history and to the trail. A refusal leaves both as they
    /// are. No memory is taken.
    pub fn call(&mut self, seat: &mut Seat<L>, cmd: Cmd) -> Result<Reply, Refusal>
        ensures answer { IsAnswer self.old.host seat.old.build (Ask cmd) (replied result) self.new.host }
        ensures noted { IfOk result (λ _. IsNoted self.old seat.old self.new seat.new) }
        ensures refused { IfErr result (λ _. (self.new ≡ self.old) × (seat.new ≡ seat.old)) }
        ensures before { IsBehind L.opened self.old.host seat.old }
        ensures after { IsBehind L.opened self.new.host seat.new }
    {
        let build = self.audit(seat);
        let reply = self.host.command(build, cmd)?;
        note(&self.host, &mut self.books, seat);
        Ok(reply)
    }

    /// Undoes the newest open operation of the build whose session handle is `seat`. The answer is the host's. An
    /// accepted undo appends one event of the build to the history and to the trail. A refusal leaves both as they are.
    /// No memory is taken.
    pub fn undo(&mut self, seat: &mut Seat<L>) -> Result<Undone, Refusal>
        ensures answer { IsAnswer self.old.host seat.old.build Undo (undone result) self.new.host }
        ensures noted { IfOk result (λ _. IsNoted self.old seat.old self.new seat.new) }
        ensures refused { IfErr result (λ _. (self.new ≡ self.old) × (seat.new ≡ seat.old)) }
        ensures before { IsBehind L.opened self.old.host seat.old }
        ensures after { IsBehind L.opened self.new.host seat.new }
    {
        let build = self.audit(seat);
        let undone = self.host.undo(build)?;
        note(&self.host, &mut self.books, seat);
        Ok(undone)
    }

    /// Sets a mark for the build whose session handle is `seat`. Returns the host's answer. A mark is not an event.
    pub fn mark(&mut self, seat: &mut Seat<L>) -> Result<Mark, Refusal>
        ensures answer { IsMarked self.old.host seat.old.build result self.new.host }
        ensures books { self.new.books ≡ self.old.books }
        ensures seat { seat.new ≡ seat.old }
        ensures before { IsBehind L.opened self.old.host seat.old }
        ensures after { IsBehind L.opened self.new.host seat.new }
    {
        let build = self.audit(seat);
        let mark = self.host.mark(build)?;
        // (called only for its contract, which gives the invariant of a host)
        let _ = self.host.history();
        Ok(mark)
    }

    /// Returns the number of operations that a rollback to a mark would undo. They are open operations of the seat's
    /// build. The error is the host's refusal to go back to the mark. Nothing changes.
    pub fn check_back(&mut self, seat: &mut Seat<L>, mark: Mark) -> Result<u16, Refusal>
        ensures answer { result ≡ way_back self.old.host seat.old.build mark }
        ensures stands { OnOk result (IsMarkOf self.old.host seat.old.build mark) }
        ensures same { (self.new ≡ self.old) × (seat.new ≡ seat.old) }
        ensures behind { IsBehind L.opened self.old.host seat.old }
    {
        let build = self.audit(seat);
        self.host.check_back(build, mark)
    }

    /// Takes back the builds' session handles (`Seat`), and returns the host unchanged. Each build has to have one
    /// handle, with the events that the history has of the build. At `Err` the host is returned too.
    pub fn close(self, mut seats: Vec<Seat<L>>) -> Result<Host<S>, (CloseFault, Host<S>)>
        ensures closed { IfOk result (λ host. IsClosed host seats.items) }
        ensures fault { IfErr result (λ e. IsFault e.0 e.1 seats.items) }
        ensures host { MatchResult result (λ host. host ≡ self.host) (λ e. e.1 ≡ self.host) }
        ensures given_back { MatchResult result (λ host. IsHostGivenBack L.opened host seats.items) (λ e. IsHostGivenBack L.opened e.1 seats.items) }
    {
        let Kept { host, mut books } = self;
        close::audit(&mut books, seats.as_mut_slice());
        if let Some(fault) = close::fault(&host, seats.as_slice()) {
            return Err((fault, host));
        }
        Ok(host)
    }
}

// Takes the memory for `count` seats: their trails, which are empty, and a list in which the seats have room.
fn memory_for_seats<L: Ledgers>(
    alloc: Global,
    count: u8,
    room: u16,
) -> Result<(Vec<Trail<L>>, Vec<Seat<L>>), AllocError>
    requires { room ≡ L.opened.capacity }
    ensures trails { IfOk result (λ r. r.0.items ≡ replicate count []) }
    ensures seats { IfOk result (λ r. r.1.items ≡ []) }
    ensures room { IfOk result (λ r. count ≤ vec_capacity r.1) }
{
    let trails = new_trails(alloc, count, room)?;
    let seats = Vec::with_capacity(alloc, count as usize)?;
    Ok((trails, seats))
}

// Appends the last event of a host's history to a seat's trail, and counts the event in the seat and under the lock.
fn note<S: PageStore, L: Ledgers>(host: &Host<S>, books: &mut Books<L>, seat: &mut Seat<L>)
    requires some { 0 < length host.now.history }
    requires counted { length (events_of seat.old.build host.now.history) ≡ seat.old.count + 1 }
    requires fits { host.now.capacity ≡ L.opened.capacity }
    ensures sound { IsSound host.now }
    ensures books { books.new ≡ slice_set books.old seat.old.build (seat.old.count + 1) }
    ensures seat { (before : List Event) (event : Event) → host.now.history ≡ before ++ event ∷ [] → seat.new ≡ with_noted seat.old event }
{
    let history = host.history();
    let last = &history[history.len() - 1];
    books.raise(&mut seat.pass);
    seat.trail.add(Event {
        build: last.build,
        act: last.act.clone(),
    });
}
