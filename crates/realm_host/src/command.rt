//! The commands that a host performs for a build, and its answers to them.
ghost use Rattle.std.specs.Prelude.{◌≡◌, ◌<◌, None};
ghost use Rattle.host_commands.specs.declared.cmd.Cmd.TheVariants as cmd;
ghost use Rattle.realm_host.specs.Call.{Ask};
ghost use Rattle.host_commands.specs.Checks.{checks_of, first_that_holds};
ghost use Rattle.host_ledger.specs.Summary.{summary_of};
ghost use Rattle.realm_host.specs.Answer.{IsAnswer, replied};

use crate::{Cmd, Host, Refusal, Reply};
use granule_addr::{BuildId, Order};
use host_commands::{Undone, act_of, check_needs, reply_of};
use page_arena::PageStore;
use realm_model::Rmi;

impl<S: PageStore> Host<S> {
    /// Performs a command of a build and returns the reply to it. One event then ends the history.
    ///
    /// If the command is refused, returns the refusal with the lowest number of those that apply and hold; then nothing
    /// changes. No memory is taken, which tests check and no clause says. The machine, the history and the journals are
    /// not searched, as the code shows.
    pub fn command(&mut self, build: BuildId, cmd: Cmd) -> Result<Reply, Refusal>
        ensures { IsAnswer self.old build (Ask cmd) (replied result) self.new }
    {
        self.ask(build, &cmd)
    }

    /// Performs a command of a build, without taking ownership of the command. `ask` does what `command` does. So the
    /// run of a plan does not copy the plan's commands.
    pub fn ask(&mut self, build: BuildId, cmd: &Cmd) -> Result<Reply, Refusal>
        ensures { IsAnswer self.old build (Ask cmd.now) (replied result) self.new }
    {
        let granules = check_needs(&self.ledger, build, cmd)?;
        if let Cmd::Take { order } = cmd {
            return self.take(build, *order);
        }
        let allocated = match self.allocated_for(build, cmd, granules.as_slice()) {
            Ok(allocated) => allocated,
            Err(rmi) => return Err(Refusal::Rmi(rmi)),
        };
        // (refuses the command with RMI_ERROR_INPUT if one of its numbers fits no operation)
        let Some(act) = act_of(cmd, &granules, allocated) else {
            return Err(Refusal::Rmi(Rmi::INPUT));
        };
        let reply = reply_of(self.ledger.page_count(build), &act);
        if let Err(rmi) = self.act(build, act) {
            return Err(Refusal::Rmi(rmi));
        }
        Ok(reply)
    }

    // Leases a block of free pages, for a Take that passed its checks.
    fn take(&mut self, build: BuildId, order: u8) -> Result<Reply, Refusal>
        requires there { build < self.old.limits.builds }
        requires passed { first_that_holds (checks_of (summary_of self.old) build (cmd.Take order)) ≡ None }
        ensures { IsAnswer self.old build (Ask (cmd.Take order)) (replied result) self.new }
    {
        let order = Order::new(order).unwrap();
        let page = self.ledger.page_count(build);
        match self.take_block(build, order) {
            Some(_first) => Ok(Reply::FirstPage(page)),
            None => Err(Refusal::NoBlock(order)),
        }
    }
}

/// The answer of a host to a command or an undo.
#[derive(Clone, Copy)]
pub enum HostAnswer {
    Replied(Reply),
    Undone(Undone),
    Refused(Refusal),
}
