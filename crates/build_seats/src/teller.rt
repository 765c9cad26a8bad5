//! Traits through which a worker sends its requests to a host and waits for turns. A `Teller` answers the worker's
//! questions, and a `Gate` gives the worker turns.
ghost use Rattle.std.specs.Prelude.{◌≡◌, ℕ, List, [], ◌∷◌, ◌++◌, OnOk, OnErr};
ghost use Rattle.build_seats.specs.Exchange.{Exchange, Did, Undid, KeptMark, CheckedBack};

use crate::report::Stuck;
use granule_addr::BuildId;
use host_commands::{Cmd, Refusal, Reply, Undone};
use host_ledger::Mark;

/// A host client that passes on the requests of one build's worker. A teller asks the host the worker's questions, and
/// returns the answers. A session handle (`Seat`) with its shared host is a teller.
pub trait Teller {
    /// The condition that a list has all exchanges of the teller so far, in sequence. An exchange is a question to the
    /// teller, with its answer.
    ghost tells: { Self → List Exchange → Type 0 };

    /// A number that identifies a teller's mutable borrow of its session handle. A teller need not have such a borrow.
    ghost loan: { Self → ℕ };

    /// Asks the host to perform a command. The command is borrowed from the worker.
    fn ask(&mut self, cmd: &Cmd) -> Result<Reply, Refusal>
        ensures told { (earlier : List Exchange) → tells self.old earlier → tells self.new (earlier ++ Did cmd.now result ∷ []) }
        ensures loan { loan self.new ≡ loan self.old };

    /// Asks the host to undo the build's newest open operation.
    fn undo(&mut self) -> Result<Undone, Refusal>
        ensures told { (earlier : List Exchange) → tells self.old earlier → tells self.new (earlier ++ Undid result ∷ []) }
        ensures loan { loan self.new ≡ loan self.old };

    /// Asks the host to set a mark to which the build can be rolled back.
    fn mark(&mut self) -> Result<Mark, Refusal>
        ensures told { (earlier : List Exchange) → tells self.old earlier → tells self.new (earlier ++ KeptMark result ∷ []) }
        ensures loan { loan self.new ≡ loan self.old };

    /// Asks for the number of operations that a rollback to a mark would undo.
    fn check_back(&mut self, mark: Mark) -> Result<u16, Refusal>
        ensures told { (earlier : List Exchange) → tells self.old earlier → tells self.new (earlier ++ CheckedBack mark result ∷ []) }
        ensures loan { loan self.new ≡ loan self.old };
}

/// The scheduler that gives the workers of builds their turns.
pub trait Gate {
    /// The condition that the gate gives a build's worker the turn with a given number. The arguments are the build and
    /// the number of the turn.
    ghost passes: { Self → ℕ → ℕ → Type 0 };

    /// The condition that the gate withholds the turn with a given number from a build's worker. The arguments are the
    /// build and the number of the turn.
    ghost stops: { Self → ℕ → ℕ → Type 0 };

    /// Waits for the scheduler to give a build's worker the turn with number `turn`. Returns `Err` if the turn is
    /// withheld. The build's worker calls this function before each question. Turns are counted from 0.
    fn pass(&self, build: BuildId, turn: usize) -> Result<(), Stuck>
        ensures ok { OnOk result (passes self.now build turn) }
        ensures stuck { OnErr result (stops self.now build turn) };
}
