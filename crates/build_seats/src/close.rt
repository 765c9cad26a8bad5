//! The checks that precede the closing of a shared host. Each build has to have one session handle (`Seat`), whose
//! trail has to be the build's part of the history.
ghost use Rattle.std.specs.Prelude.{◌≡◌, ◌+◌, ◌<◌, ◌≤◌, ◌↔◌, [], filter, slice_index, true, IsTrue, IfSome, IfNone};
ghost use Rattle.std.specs.List.{All};
ghost use Rattle.build_seats.specs.Close.{seats_of, Fits, IsMissing, AreSeatsWhole, Differs, FitsAll};
ghost use Rattle.build_seats.specs.Fault.{IsFault};
ghost use Rattle.realm_model.specs.History.{events_of};

use crate::ledgers::{Books, Ledgers};
use crate::seat::Seat;
use granule_addr::BuildId;
use page_arena::PageStore;
use realm_host::Host;
use realm_model::Event;

/// The reason why a shared host is not closed.
#[derive(Clone, Copy, PartialEq, Eq)]
pub enum CloseFault {
    /// A build that does not have exactly one session handle (`Seat`) on the shared host.
    SeatMissing(BuildId),
    /// A build whose session handle (`Seat`) has a list of events that differs from the build's events in the host's
    /// history.
    RecordMismatch(BuildId),
}

/// Proves that the event count of each session handle in `seats` equals its build's count in `books`. Nothing changes.
pub fn audit<L: Ledgers>(books: &mut Books<L>, seats: &mut [Seat<L>])
    ensures books { books.new ≡ books.old }
    ensures seats { seats.new ≡ seats.old }
    ensures counted { All (λ seat. (seat.build < 8) × (slice_index books.old seat.build ≡ seat.count)) seats.old }
{
    for seat in seats.iter_mut() {
        books.audit(&mut seat.pass);
    }
}

// The lowest-numbered build, if any, that does not have exactly one session handle (`Seat`).
#[tactic(auto, unfolding(crate::specs::Close::AreSeatsWhole))]
fn missing<L: Ledgers>(seats: &[Seat<L>], builds: u8) -> Option<BuildId>
    requires { builds ≤ 8 }
    ensures some { IfSome result (λ build. IsMissing builds build seats.now) }
    ensures none { IfNone result (AreSeatsWhole builds seats.now) }
{
    for number in 0..usize::from(builds) {
        let build = BuildId::at(number);
        if seat_count(seats, build) != 1 {
            return Some(build);
        }
    }
    None
}

// The number of seats of a build.
fn seat_count<L: Ledgers>(seats: &[Seat<L>], build: BuildId) -> usize
    ensures { result ≡ seats_of build seats.now }
{
    let mut count = 0;
    for seat in seats {
        if seat.build() == build {
            count += 1;
        }
    }
    count
}

// The lowest-numbered build, if any, with a session handle (`Seat`) whose event list is not the build's part of the
// history.
#[tactic(auto, unfolding(crate::specs::Close::FitsAll))]
fn mismatch<L: Ledgers>(seats: &[Seat<L>], history: &[Event]) -> Option<BuildId>
    ensures some { IfSome result (λ build. Differs build history.now seats.now) }
    ensures none { IfNone result (FitsAll history.now seats.now) }
{
    for number in 0..8 {
        let build = BuildId::at(number);
        if !fits(seats, history, build) {
            return Some(build);
        }
    }
    None
}

/// Finds the reason, if any, why a host must not be closed with the session handles `seats`.
pub fn fault<S: PageStore, L: Ledgers>(host: &Host<S>, seats: &[Seat<L>]) -> Option<CloseFault>
    ensures some { IfSome result (λ fault. IsFault fault host.now seats.now) }
    ensures whole { IfNone result (AreSeatsWhole host.now.limits.builds seats.now) }
    ensures fits { IfNone result (FitsAll host.now.history seats.now) }
{
    if let Some(build) = missing(seats, host.build_count()) {
        return Some(CloseFault::SeatMissing(build));
    }
    if let Some(build) = mismatch(seats, host.history()) {
        return Some(CloseFault::RecordMismatch(build));
    }
    None
}

// Whether every seat of a build has a trail that equals the build's part of a history.
fn fits<L: Ledgers>(seats: &[Seat<L>], history: &[Event], build: BuildId) -> bool
    ensures { IsTrue result ↔ Fits build history.now seats.now }
{
    for seat in seats {
        if !seat_fits(seat, history, build) {
            return false;
        }
    }
    true
}

fn seat_fits<L: Ledgers>(seat: &Seat<L>, history: &[Event], build: BuildId) -> bool
    ensures { IsTrue result ↔ (seat.now.build ≡ build → seat.now.trail ≡ events_of build history.now) }
{
    if seat.build() == build {
        is_trail(history, build, seat.trail())
    } else {
        true
    }
}

// Whether a trail is a build's part of a history.
fn is_trail(history: &[Event], build: BuildId, trail: &[Event]) -> bool
    ensures { IsTrue result ↔ (trail.now ≡ events_of build history.now) }
{
    let mut at = 0;
    for event in history {
        if event.build == build {
            if at >= trail.len() || !trail[at].is_same(event) {
                return false;
            }
            at += 1;
        }
    }
    at == trail.len()
}
