//! A host client for tests that itself refuses at most one chosen request of a worker.
ghost use Rattle.std.specs.Prelude.{◌+◌, ◌*◌};

use builders::{Ledgers, SeatTeller, Teller};
use page_arena::PageStore;
use realm_host::{Cmd, Mark, Refusal, Reply, Undone};
use realm_model::Rmi;
use std::sync::Wait;

/// A host client that itself refuses at most one of its worker's requests, without asking the host. All other requests
/// are passed on to a seat. Requests are numbered from 0.
#[derive(Drop)]
pub struct Refusing<'a, R: Wait, S: PageStore, L: Ledgers> {
    pub teller: SeatTeller<'a, R, S, L>,
    pub asked: usize,
    pub refused: Option<usize>,
}

const REFUSAL: Refusal = Refusal::Rmi(Rmi::INPUT);

// Counts a question, and returns whether it is the one to be refused.
fn is_refused(asked: &mut usize, refused: Option<usize>) -> bool {
    let question = *asked;
    *asked = question.saturating_add(1);
    refused == Some(question)
}

impl<'a, R: Wait, S: PageStore, L: Ledgers> Teller for Refusing<'a, R, S, L> {
    ghost tells = { λ refusing exchanges. Unit {0} };

    // The loan that the seat's teller writes through.
    ghost loan = { λ refusing. 8 * refusing.teller.seat.ghost_name + refusing.teller.seat.now.build };

    fn ask(&mut self, cmd: &Cmd) -> Result<Reply, Refusal> {
        if is_refused(&mut self.asked, self.refused) {
            return Err(REFUSAL);
        }
        self.teller.ask(cmd)
    }

    fn undo(&mut self) -> Result<Undone, Refusal> {
        if is_refused(&mut self.asked, self.refused) {
            return Err(REFUSAL);
        }
        self.teller.undo()
    }

    fn mark(&mut self) -> Result<Mark, Refusal> {
        if is_refused(&mut self.asked, self.refused) {
            return Err(REFUSAL);
        }
        self.teller.mark()
    }

    fn check_back(&mut self, mark: Mark) -> Result<u16, Refusal> {
        if is_refused(&mut self.asked, self.refused) {
            return Err(REFUSAL);
        }
        self.teller.check_back(mark)
    }
}
