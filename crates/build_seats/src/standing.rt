//! The record in which a worker keeps track of the state of its build. It has the number of the build's open
//! operations, its running RECs and its last mark. The teller's replies keep the record up to date.
ghost use Rattle.std.specs.Prelude.{◌≡◌, ◌+◌, ◌-◌, ◌^◌, ◌<◌, ◌≤◌, ◌++◌, length, take, drop, slice_index, Some};
ghost use Rattle.build_seats.specs.Standing.{first_standing, with_number, without_number, standing_after_command, left_to_clear};

use arrayvec::ArrayVec;
use host_commands::Cmd;
use host_ledger::Mark;
use std::marker::Model;

/// The maximum number of running RECs that a worker records for its build. It is equal to the limit on a build's steps.
pub const MOST: usize = 1024;

/// A worker's own record of the progress and state of its build. It has the number of turns taken, the number of open
/// operations, the running RECs and the last mark. The teller's replies keep the record up to date.
#[derive(Drop)]
pub struct Standing {
    turn: usize,
    journal: usize,
    running: ArrayVec<u16, MOST>,
    mark: Option<Mark>,
}

impl Model for Standing {
    ghost use Rattle.build_seats.specs.Standing.{StandingView};

    ghost Value = { StandingView };

    ghost view = { λ s. record { turn = s.turn; journal = s.journal; running = s.running.items; mark = s.mark } };
}

// The index of the first number that is not below `number`.
fn place_of(numbers: &[u16], number: u16) -> usize
    ensures within { result ≤ length numbers.now }
    ensures below { with_number number numbers.now ≡ take result numbers.now ++ with_number number (drop result numbers.now) }
    ensures above { result < length numbers.now → number ≤ slice_index numbers.now result }
{
    let mut place = 0;
    'places: while place < numbers.len() {
        if number <= numbers[place] {
            return place;
        }
        place += 1;
    }
    place
}

fn enter(running: &mut ArrayVec<u16, MOST>, number: u16)
    requires { length running.old.items < 1024 }
    ensures { running.new.items ≡ with_number number running.old.items }
{
    let place = place_of(running.as_slice(), number);
    if place < running.len() && running[place] == number {
        return;
    }
    running.insert(place, number);
}

fn exit(running: &mut ArrayVec<u16, MOST>, number: u16)
    ensures { running.new.items ≡ without_number number running.old.items }
{
    running.retain(|other| *other != number);
}

impl Standing {
    /// Creates the record of a worker that has not asked the host anything yet.
    pub fn first() -> Standing
        ensures { result ≡ first_standing }
    {
        Standing {
            turn: 0,
            journal: 0,
            running: ArrayVec::new(),
            mark: None,
        }
    }

    /// Returns the index of the worker's next turn, which is the number of its questions so far. Turns are counted from
    /// 0.
    pub fn turn(&self) -> usize
        ensures { result ≡ self.now.turn }
    {
        self.turn
    }

    /// Records that the worker has taken one more turn. A turn is for one question.
    pub(crate) fn take_turn(&mut self)
        requires { self.old.turn + 1 < 2 ^ 64 }
        ensures { self.new ≡ record self.old { turn = self.old.turn + 1 } }
    {
        self.turn += 1;
    }

    /// Returns the numbers of the build's running RECs, the lowest first.
    pub fn running(&self) -> &[u16]
        ensures value { result.now ≡ self.now.running }
        ensures few { length result.now ≤ 1024 }
    {
        self.running.as_slice()
    }

    /// Updates the worker's record after the host accepted a command.
    #[tactic(auto, unfolding(crate::specs::Standing::standing_after_command))]
    pub(crate) fn count_command(&mut self, cmd: &Cmd)
        requires { left_to_clear self.old < 1024 }
        ensures { self.new ≡ standing_after_command cmd.now self.old }
    {
        if cmd.needs().paired {
            self.journal += 1;
        }
        match cmd {
            Cmd::Enter { number } => enter(&mut self.running, number.number()),
            Cmd::Exit { number } => exit(&mut self.running, number.number()),
            _ => {}
        }
    }

    /// Returns the number of open operations of the worker's build.
    pub fn journal(&self) -> usize
        ensures { result ≡ self.now.journal }
    {
        self.journal
    }

    /// Records an accepted undo, after which one operation fewer is open. The number of open operations stays 0 if it
    /// is 0.
    pub(crate) fn count_undo(&mut self)
        ensures { self.new ≡ record self.old { journal = self.old.journal - 1 } }
    {
        self.journal = self.journal.saturating_sub(1);
    }

    /// Returns the last mark that the worker set for its build, if any.
    pub fn mark(&self) -> Option<Mark>
        ensures { result ≡ self.now.mark }
    {
        self.mark
    }

    /// Records a newly set mark, to which the worker's build can be rolled back.
    pub(crate) fn count_mark(&mut self, mark: Mark)
        ensures { self.new ≡ record self.old { mark = Some mark } }
    {
        self.mark = Some(mark);
    }
}
