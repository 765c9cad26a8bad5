//! The abort of a build, which undoes all its open operations. They are those that have a reverse and are not undone
//! yet.
ghost use Rattle.std.specs.Prelude.{◌≡◌, ◌<◌, ◌≤◌, drop, false, length};
ghost use Rattle.std.specs.List.{list_any};
ghost use Rattle.std.specs.Result.{OnOk};
ghost use Rattle.realm_model.specs.Running.{is_running};
ghost use Rattle.realm_model.specs.World.{realm_of};
ghost use Rattle.host_ledger.specs.View.{world_of, open_of};
ghost use Rattle.realm_host.specs.Abort.{IsBegun, GoesOn, IsAbortAnswer, LeavesNothing, IsDown};

use crate::{Host, Refusal};
use granule_addr::BuildId;
use host_commands::check_build;
use page_arena::PageStore;

impl<S: PageStore> Host<S> {
    /// Begins the abort of a build, and returns the number of operations that the build has open. From then on, until
    /// the build has nothing open, the host refuses each command of the build, and performs each of its undos, whatever
    /// other builds do. If the build has nothing open, no abort begins.
    ///
    /// Refused with NoBuild, with Aborting, or with RecRunning if a REC of the build runs. This is no event.
    pub fn begin_abort(&mut self, build: BuildId) -> Result<u16, Refusal>
        ensures answer { IsBegun self.old build result self.new }
        ensures goes_on { OnOk result (GoesOn self.old build) }
    {
        check_build(&self.ledger, build)?;
        if self.ledger.running(build) > 0 {
            return Err(Refusal::RecRunning);
        }
        let count = self.ledger.open_count(build);
        self.ledger.begin_abort(build);
        Ok(count)
    }

    /// Undoes all open operations of a build, the newest first. They are those that have a reverse and are not undone
    /// yet. Returns their number, and ends an abort that was begun. The world is then that of the history without the
    /// build.
    ///
    /// Refused with NoBuild, or with RecRunning if a REC of the build runs; then nothing changes.
    pub fn abort(&mut self, build: BuildId) -> Result<u16, Refusal>
        ensures answer { IsAbortAnswer self.old build result self.new }
        ensures nothing_left { OnOk result (LeavesNothing self.old build self.new) }
    {
        if !self.ledger.has_build(build) {
            return Err(Refusal::NoBuild);
        }
        if self.ledger.running(build) > 0 {
            return Err(Refusal::RecRunning);
        }
        let count = self.ledger.open_count(build);
        self.undo_down_to(build, 0);
        Ok(count)
    }

    // Undoes all but the oldest `count` of a build's open operations, the newest first. The caller has checked that
    // none of these created a REC that runs.
    pub(crate) fn undo_down_to(&mut self, build: BuildId, count: u16)
        requires there { build < self.old.limits.builds }
        requires enough { count ≤ length (open_of self.old build) }
        requires rest { list_any (is_running (realm_of build (world_of self.old))) (drop count (open_of self.old build)) ≡ false }
        ensures { IsDown self.old build count self.new }
    {
        // (no undo is refused here: that is a theorem on histories, newest_can_be_undone)
        for _ in count..self.ledger.open_count(build) {
            let Ok(_) = self.undo(build) else {
                unreachable!()
            };
        }
    }
}
