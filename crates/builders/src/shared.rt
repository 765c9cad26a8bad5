//! A host that the threads of its builds share under a lock.
ghost use Rattle.std.specs.Prelude.{◌≡◌, [], map, IfOk, IfErr, MatchResult};
ghost use Rattle.std.specs.List.{range_with_len};
ghost use Rattle.realm_host.specs.Call.{Ask, Undo};
ghost use Rattle.realm_host.specs.declared.command.HostAnswer.TheVariants.{Replied, Undone as WasUndone};
ghost use Rattle.build_seats.specs.Close.{IsClosed, IsHostGivenBack};
ghost use Rattle.build_seats.specs.Fault.{IsFault};
ghost use Rattle.build_seats.specs.Seats.{new_seat};
ghost use Rattle.build_seats.specs.Told.{IsCallTold, IsCallRefused, IsMarkTold, IsBackTold};
ghost use Rattle.build_seats.specs.Names.{AreNamed};
ghost use Rattle.builders.specs.Order.{IsWorldOfSeats};

use build_seats::{Blanks, CloseFault, Kept, Ledgers, Seat};
use page_arena::PageStore;
use realm_host::{Cmd, Host, Mark, Refusal, Reply, Undone};
use std::alloc::{AllocError, Global};
use std::sync::{Mutex, Wait};

/// A realm host under a lock, for calls from several threads. Each call takes the lock once.
#[derive(Drop)]
pub struct Shared<S: PageStore, L: Ledgers> {
    kept: Mutex<Kept<S, L>>,
}

impl<S: PageStore, L: Ledgers> Shared<S, L> {
    /// Puts a host under a lock, and returns the shared host with a session handle (`Seat`) for each build. The host
    /// has no history. The handle of the lowest build comes first. All memory for the builds' events is taken here. If
    /// an allocation fails, the blanks and the host are returned.
    pub fn start(
        alloc: Global,
        blanks: Blanks,
        host: Host<S>,
    ) -> Result<(Shared<S, L>, Vec<Seat<L>>), (AllocError, Blanks, Host<S>)>
        requires empty { host.history ≡ [] }
        requires opened { host ≡ L.opened }
        requires named { AreNamed L.names blanks }
        ensures seats { IfOk result (λ r. r.1.items ≡ map new_seat (range_with_len 0 host.limits.builds)) }
        ensures back { IfErr result (λ e. (e.1 ≡ blanks) × (e.2 ≡ host)) }
    {
        let (kept, seats) = Kept::start(alloc, blanks, host)?;
        let kept = Mutex::new(kept);
        Ok((Shared { kept }, seats))
    }

    /// Performs, on the shared host, a command of the build whose session handle is `seat`. Returns the reply, or the
    /// host's refusal.
    pub fn call(&self, rt: &impl Wait, seat: &mut Seat<L>, cmd: Cmd) -> Result<Reply, Refusal>
        ensures told { IfOk result (λ reply. IsCallTold L.opened (Ask cmd) (Replied reply) seat.old seat.new) }
        ensures refused { IfErr result (λ refusal. IsCallRefused L.opened (Ask cmd) refusal seat.old × (seat.new ≡ seat.old)) }
    {
        self.kept.lock(rt).call(seat, cmd)
    }

    /// Undoes the newest open operation of the build whose session handle is `seat`. It is the newest one that has a
    /// reverse and is not undone yet.
    pub fn undo(&self, rt: &impl Wait, seat: &mut Seat<L>) -> Result<Undone, Refusal>
        ensures told { IfOk result (λ done. IsCallTold L.opened Undo (WasUndone done) seat.old seat.new) }
        ensures refused { IfErr result (λ refusal. IsCallRefused L.opened Undo refusal seat.old × (seat.new ≡ seat.old)) }
    {
        self.kept.lock(rt).undo(seat)
    }

    /// Sets a mark to which the build whose session handle is `seat` can later be rolled back. Returns the mark, or the
    /// host's refusal. The handle is borrowed mutably, since its count is compared with the one under the lock; it
    /// stays as it is.
    pub fn mark(&self, rt: &impl Wait, seat: &mut Seat<L>) -> Result<Mark, Refusal>
        ensures told { IsMarkTold L.opened seat.old result }
        ensures seat { seat.new ≡ seat.old }
    {
        self.kept.lock(rt).mark(seat)
    }

    /// Returns the number of undos that lead back to a mark of the build whose session handle is `seat`. The error is
    /// the host's refusal. The handle is borrowed as for `mark`.
    pub fn check_back(&self, rt: &impl Wait, seat: &mut Seat<L>, mark: Mark) -> Result<u16, Refusal>
        ensures told { IsBackTold L.opened seat.old mark result }
        ensures seat { seat.new ≡ seat.old }
    {
        self.kept.lock(rt).check_back(seat, mark)
    }

    /// Takes back each build's session handle (`Seat`), and returns the host, which is then no longer shared. Each
    /// build has to have one handle, with the events that the history has of the build. At `Err` the host is returned
    /// too.
    ///
    /// Either way the host has the limits and the capacity of the host that was handed to `start`. At `Ok` the world of
    /// the host is a function of the limits and the handles' lists alone. The schedule in which the builds took the
    /// lock is in the history, and affects the world only through these lists.
    pub fn close(self, seats: Vec<Seat<L>>) -> Result<Host<S>, (CloseFault, Host<S>)>
        ensures closed { IfOk result (λ host. IsClosed host seats.items) }
        ensures order { IfOk result (λ host. IsWorldOfSeats host seats.items) }
        ensures fault { IfErr result (λ e. IsFault e.0 e.1 seats.items) }
        ensures host { MatchResult result (λ host. IsHostGivenBack L.opened host seats.items) (λ e. IsHostGivenBack L.opened e.1 seats.items) }
    {
        self.kept.into_inner().close(seats)
    }
}
