//! A client (`Teller`) through which the worker of one build calls a shared host.
ghost use Rattle.std.specs.Prelude.{◌+◌, ◌*◌};
ghost use Rattle.builders.specs.Answered.{AreAnswered};
ghost use Rattle.build_seats.specs.Seats.{new_seat};

use crate::shared::Shared;
use build_seats::{Gate, Ledgers, Seat, Stuck, Teller};
use granule_addr::BuildId;
use page_arena::PageStore;
use realm_host::{Cmd, Mark, Refusal, Reply, Undone};
use std::sync::Wait;

/// A client (`Teller`) that passes one build's commands to a shared host. Each of its calls takes the host's lock once.
/// The accepted commands and undos are the events of the seat's trail.
#[derive(Drop)]
pub struct SeatTeller<'a, R: Wait, S: PageStore, L: Ledgers> {
    pub rt: &'a R,
    pub shared: &'a Shared<S, L>,
    pub seat: &'a mut Seat<L>,
}

impl<'a, R: Wait, S: PageStore, L: Ledgers> Teller for SeatTeller<'a, R, S, L> {
    // the exchanges of the seat since it was new
    ghost tells = { λ teller exchanges. AreAnswered L.opened (new_seat teller.seat.now.build) exchanges teller.seat.now };

    // the seat's name and build, as one number that no call changes
    ghost loan = { λ teller. 8 * teller.seat.ghost_name + teller.seat.now.build };

    fn ask(&mut self, cmd: &Cmd) -> Result<Reply, Refusal> {
        self.shared.call(self.rt, self.seat, cmd.clone())
    }

    fn undo(&mut self) -> Result<Undone, Refusal> {
        self.shared.undo(self.rt, self.seat)
    }

    fn mark(&mut self) -> Result<Mark, Refusal> {
        self.shared.mark(self.rt, self.seat)
    }

    fn check_back(&mut self, mark: Mark) -> Result<u16, Refusal> {
        self.shared.check_back(self.rt, self.seat, mark)
    }
}

/// A `Gate` that lets each build take its turns without waiting.
#[derive(Clone, Copy)]
pub struct OpenGate;

impl Gate for OpenGate {
    ghost passes = { λ gate build turn. Unit {0} };

    ghost stops = { λ gate build turn. ⊥ };

    fn pass(&self, _build: BuildId, _turn: usize) -> Result<(), Stuck> {
        Ok(())
    }
}
