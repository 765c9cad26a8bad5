//! The marks of builds, and the rollback of a build to its mark. A mark is a point among a build's open operations.
ghost use Rattle.std.specs.Prelude.{◌≡◌, ◌<◌};
ghost use Rattle.std.specs.Bool.{OnTrue};
ghost use Rattle.std.specs.List.{list_any};
ghost use Rattle.std.specs.Result.{OnOk};
ghost use Rattle.realm_model.specs.Marks.{IsRolledBack};
ghost use Rattle.realm_model.specs.Running.{is_running};
ghost use Rattle.realm_model.specs.World.{realm_of};
ghost use Rattle.host_ledger.specs.View.{world_of};
ghost use Rattle.host_ledger.specs.Kept.{IsMarkOf};
ghost use Rattle.host_ledger.specs.Marks.{point_of};
ghost use Rattle.realm_host.specs.Marked.{IsMarked, way_back, IsBackAnswer, is_kept};

use crate::{Host, Mark, Refusal};
use granule_addr::BuildId;
use host_commands::check_build;
use page_arena::PageStore;
use realm_model::Act;

impl<S: PageStore> Host<S> {
    /// Sets a mark to which the build can be rolled back. The mark is at the current number of open operations. An
    /// older mark of the build is replaced. The mark is dropped by the reverse that leaves the build with fewer
    /// operations open than it has now.
    ///
    /// Refused with NoBuild or with Aborting. This is no event.
    pub fn mark(&mut self, build: BuildId) -> Result<Mark, Refusal>
        ensures { IsMarked self.old build result self.new }
    {
        check_build(&self.ledger, build)?;
        let mark = self.ledger.mark_now(build);
        self.ledger.keep_mark(build, &mark);
        Ok(mark)
    }

    /// Checks whether a build can be rolled back to a mark. Returns the number of operations that `rollback_to` would
    /// undo, or the refusal that it would give. If there is no refusal, the mark is valid, and the build can go back to
    /// it.
    pub fn check_back(&self, build: BuildId, mark: Mark) -> Result<u16, Refusal>
        ensures value { result ≡ way_back self.now build mark }
        ensures stands { OnOk result (IsMarkOf self.now build mark) }
        ensures leads_back { OnOk result (IsRolledBack self.now.limits (point_of mark) self.now.history) }
    {
        check_build(&self.ledger, build)?;
        if !self.is_kept(build, mark) {
            return Err(Refusal::NothingToUndo);
        }
        let above = self.ledger.open_above(build, mark.length());
        if self.is_any_running(build, above) {
            return Err(Refusal::RecRunning);
        }
        Ok(self.ledger.open_count(build) - mark.length())
    }

    /// Rolls a build back to a mark, by undoing the build's open operations from after the mark, the newest first.
    /// Returns the number of undone operations. The world then owns the same as that of the history without what the
    /// build did after the mark; what is not the build's is exactly the same. The mark stays.
    ///
    /// Refused with NoBuild or Aborting. Refused with NothingToUndo if this is not the mark that is kept for the build,
    /// and with RecRunning if an open operation from after it created a REC that runs. Then nothing changes.
    pub fn rollback_to(&mut self, build: BuildId, mark: Mark) -> Result<u16, Refusal>
        ensures { IsBackAnswer self.old build mark result self.new }
    {
        let count = self.check_back(build, mark)?;
        self.undo_down_to(build, mark.length());
        Ok(count)
    }

    // Whether a mark is the one that is kept for a build.
    fn is_kept(&self, build: BuildId, mark: Mark) -> bool
        requires { build < self.now.limits.builds }
        ensures value { result ≡ is_kept self.now build mark }
        ensures stands { OnTrue result (IsMarkOf self.now build mark) }
    {
        match self.ledger.mark(build) {
            Some(kept) => kept.is(mark),
            None => false,
        }
    }

    // Whether any of the given operations of a build created a REC that runs.
    fn is_any_running(&self, build: BuildId, acts: &[Act]) -> bool
        requires { build < self.now.limits.builds }
        ensures { result ≡ list_any (is_running (realm_of build (world_of self.now))) acts.now }
    {
        for act in acts {
            if self.is_running(build, act) {
                return true;
            }
        }
        false
    }
}
