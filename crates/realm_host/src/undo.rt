//! The undo of a build's newest open operation: the newest one that has a reverse and is not undone yet.
ghost use Rattle.std.specs.Prelude.{◌≡◌, ◌<◌, IfOk};
ghost use Rattle.std.specs.Result.{OnOk};
ghost use Rattle.realm_model.specs.History.{IsLegal};
ghost use Rattle.realm_model.specs.Running.{is_running};
ghost use Rattle.realm_model.specs.World.{realm_of};
ghost use Rattle.realm_host.specs.Call.{Undo};
ghost use Rattle.host_ledger.specs.View.{world_of};
ghost use Rattle.realm_host.specs.Abort.{LeavesNothing};
ghost use Rattle.realm_host.specs.Acting.{IsBack, IsRecorded};
ghost use Rattle.realm_host.specs.Answer.{IsAnswer, undone};
ghost use Rattle.realm_host.specs.PairLaw.{LeadsBack};

use crate::{Host, Refusal, Undone};
use build_journal::reverse_of;
use granule_addr::BuildId;
use page_arena::PageStore;
use realm_model::{Act, kind_of};

impl<S: PageStore> Host<S> {
    /// Undoes the newest open operation of a build: the newest one that has a reverse and is not undone yet. Operations
    /// of other builds since then do not matter. Returns the kind of the operation, and the number of operations that
    /// are left open.
    ///
    /// Refused with NoBuild, with NothingToUndo if the build has nothing open, or with RecRunning if that operation
    /// created a REC that runs; then nothing changes. An undo right after the operation that it reverses leads back to
    /// a world in which everybody has the same granules and mappings. If it leaves nothing open, the world is that of
    /// the history without the build.
    pub fn undo(&mut self, build: BuildId) -> Result<Undone, Refusal>
        ensures answer { IsAnswer self.old build Undo (undone result) self.new }
        ensures pair { OnOk result (LeadsBack self.old build self.new) }
        ensures last { IfOk result (λ undone. undone.left ≡ 0 → LeavesNothing self.old build self.new) }
    {
        if !self.ledger.has_build(build) {
            return Err(Refusal::NoBuild);
        }
        let Some(newest) = self.ledger.newest(build) else {
            return Err(Refusal::NothingToUndo);
        };
        if self.is_running(build, newest) {
            return Err(Refusal::RecRunning);
        }
        // (an open operation has a kind and a reverse)
        let kind = kind_of(newest).unwrap();
        let back = reverse_of(newest).unwrap();
        let left = self.ledger.open_count(build) - 1;
        self.reverse(build, back);
        Ok(Undone { kind, left })
    }

    // Whether an operation of a build created a REC that runs, and so cannot be undone.
    pub(crate) fn is_running(&self, build: BuildId, act: &Act) -> bool
        requires { build < self.now.limits.builds }
        ensures { result ≡ is_running (realm_of build (world_of self.now)) act.now }
    {
        let Act::Rec { number, .. } = act else {
            return false;
        };
        let Some(granule) = self.ledger.rec(build, *number) else {
            return false;
        };
        match self.monitor.rec_at(granule) {
            Some(rec) => !rec.is_ready(),
            None => unreachable!(),
        }
    }

    // Performs the reverse of a build's newest open operation. The RMM refuses only the reverse of a REC that runs.
    pub(crate) fn reverse(&mut self, build: BuildId, back: Act)
        requires there { build < self.old.limits.builds }
        requires legal { IsLegal self.old.limits self.old.history }
        requires back { IsBack self.old build back }
        ensures { IsRecorded self.old build back self.new }
    {
        match back {
            Act::UnTake { order, first } => self.give_back(build, order, first),
            _ => {
                let Ok(()) = self.act(build, back) else {
                    unreachable!()
                };
            }
        }
    }
}
