//! Session handles (`Seat`) of builds on a shared host, and the list (`Trail`) of each build's events.
ghost use Rattle.std.specs.Prelude.{◌≡◌, ◌+◌, ◌<◌, ◌≤◌, [], ◌∷◌, ◌++◌, length, map, vec_len, vec_capacity, replicate, IfOk};
ghost use Rattle.std.specs.List.{range_with_len};
ghost use Rattle.build_seats.specs.Passes.{unused};
ghost use Rattle.build_seats.specs.Seats.{new_seat};

use crate::ledgers::{Ledgers, Pass};
use granule_addr::BuildId;
use realm_model::Event;
use std::alloc::{AllocError, Global};
use std::marker::{Model, PhantomData};

/// The list of one build's events, in sequence. The list's capacity is the room of the build in the history.
#[derive(Drop)]
pub struct Trail<L: Ledgers> {
    events: Vec<Event>,
    room: PhantomData<L>,
}

impl<L: Ledgers> Model for Trail<L> {
    ghost use Rattle.std.specs.Prelude.{◌≡◌, List, vec_capacity};
    ghost use Rattle.realm_model.specs.declared.act.Event.{Event};

    ghost Value = { List Event };

    ghost view = { λ t. t.events.items };

    ghost invariant = { λ t. vec_capacity t.events ≡ L.opened.capacity };
}

impl<L: Ledgers> Trail<L> {
    /// Creates an empty list of a build's events, with capacity for `room` events.
    pub fn build(alloc: Global, room: u16) -> Result<Trail<L>, AllocError>
        requires { room ≡ L.opened.capacity }
        ensures { IfOk result (λ trail. trail ≡ []) }
    {
        let events = Vec::with_capacity(alloc, room as usize)?;
        Ok(Trail {
            events,
            room: PhantomData,
        })
    }

    /// Appends an event to the list of a build's events. No memory is taken.
    pub fn add(&mut self, event: Event)
        requires { length self.old < L.opened.capacity }
        ensures { self.new ≡ self.old ++ event ∷ [] }
    {
        self.events.push_reserved(event);
    }

    /// Returns the events of the build, in sequence.
    pub fn events(&self) -> &[Event]
        ensures { result.now ≡ self.now }
    {
        self.events.as_slice()
    }
}

/// Makes `count` empty event lists for builds, each with capacity for `room` events.
pub(crate) fn new_trails<L: Ledgers>(
    alloc: Global,
    count: u8,
    room: u16,
) -> Result<Vec<Trail<L>>, AllocError>
    requires { room ≡ L.opened.capacity }
    ensures { IfOk result (λ trails. trails.items ≡ replicate count []) }
{
    let mut trails = Vec::with_capacity(alloc, count as usize)?;
    for _i in 0..count {
        trails.push_reserved(Trail::build(alloc, room)?);
    }
    Ok(trails)
}

/// The session handle of a build on a shared host. It has the build's pass, which counts the build's events in the
/// history, and the list of these events.
pub struct Seat<L: Ledgers> {
    pub(crate) pass: Pass<L>,
    pub(crate) trail: Trail<L>,
}

impl<L: Ledgers> Drop for Seat<L> {
    fn drop(self) {
        let Seat { pass: _, trail: _ } = self;
    }
}

impl<L: Ledgers> Model for Seat<L> {
    ghost use Rattle.std.specs.Prelude.{◌≡◌, length};
    ghost use Rattle.build_seats.specs.Seats.{SeatView};

    ghost Value = { SeatView };

    ghost view = { λ s. record { build = s.pass.build; count = s.pass.count; trail = s.trail } };

    ghost invariant = { λ s. s.pass.count ≡ length s.trail };
}

impl<L: Ledgers> Seat<L> {
    /// Returns the build of the session handle.
    pub fn build(&self) -> BuildId
        ensures build { result ≡ self.now.build }
        ensures range { self.now.build < 8 }
    {
        self.pass.build()
    }

    /// Returns the number of the build's events that the session handle has counted. It is the length of the handle's
    /// trail.
    pub fn count(&self) -> usize
        ensures count { result ≡ self.now.count }
        ensures trail { result ≡ length self.now.trail }
    {
        self.trail.events().len()
    }

    /// Returns the events of the session handle's build, in sequence.
    pub fn trail(&self) -> &[Event]
        ensures { result.now ≡ self.now.trail }
    {
        self.trail.events()
    }
}

/// Makes a session handle (`Seat`) from each event list, for builds 0, 1 and so on. Each handle has its build's pass
/// too, and the lowest build comes first. The passes that are left are dropped.
pub(crate) fn seats_of_trails<L: Ledgers>(
    mut seats: Vec<Seat<L>>,
    passes: [Pass<L>; 8],
    mut trails: Vec<Trail<L>>,
) -> Vec<Seat<L>>
    requires none { seats.items ≡ [] }
    requires passes { passes ≡ map unused (range_with_len 0 8) }
    requires few { vec_len trails ≤ 8 }
    requires empty { trails.items ≡ replicate (vec_len trails) [] }
    requires room { vec_len trails ≤ vec_capacity seats }
    ensures { result.items ≡ map new_seat (range_with_len 0 (vec_len trails)) }
{
    let mut passes = passes.into_iter();
    while let Some(trail) = trails.pop() {
        let pass = passes.next().unwrap();
        seats.push_reserved(Seat { pass, trail });
    }
    seats
}
