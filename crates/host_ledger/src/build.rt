//! The record that a host keeps of the construction of one realm.
ghost use Rattle.std.specs.Prelude.{◌≡◌, nat_lt, length, IfOk};
ghost use Rattle.host_ledger.specs.Kept.{new_build, points_after, build_after, CanFollow};

use crate::mark::Mark;
use crate::recs::Recs;
use build_journal::Journal;
use granule_addr::Gran;
use realm_model::Act;
use std::alloc::{AllocError, Global};

/// The record that a host keeps of one build, the construction of a realm. It has the build's open operations, the
/// number of its events in the history, its mark, and whether it is in abort. Of the build's realm it has the RD, the
/// RECs, and how many of them run.
#[derive(Drop)]
pub(crate) struct Build {
    pub(crate) journal: Journal,
    pub(crate) events: u16,
    pub(crate) realm: Option<Gran>,
    pub(crate) recs: Recs,
    pub(crate) running: u16,
    pub(crate) aborting: bool,
    pub(crate) mark: Option<Mark>,
}

impl Build {
    /// Creates the record of a build that has no events.
    pub(crate) fn build(alloc: Global) -> Result<Build, AllocError>
        ensures { IfOk result (λ build. build ≡ new_build) }
    {
        Ok(Build {
            journal: Journal::build(alloc)?,
            events: 0,
            realm: None,
            recs: Recs::build(alloc)?,
            running: 0,
            aborting: false,
            mark: None,
        })
    }

    /// Updates the record after an operation of the build.
    pub(crate) fn follow(&mut self, act: &Act)
        requires { CanFollow self.old act.now }
        ensures { self.new ≡ build_after self.old act.now }
    {
        self.journal.follow(act);
        self.events += 1;
        match act {
            Act::Realm { rd, .. } => self.realm = Some(*rd),
            Act::UnRealm { .. } => self.realm = None,
            Act::Rec {
                granule,
                number,
                ..
            } => self.recs.push(*number, *granule),
            Act::UnRec { .. } => self.recs.pop(),
            Act::Enter { .. } => self.running += 1,
            Act::Exit { .. } => self.running -= 1,
            _ => {}
        }
        self.follow_points();
    }

    // Ends the abort once nothing is open, and drops the mark once fewer operations are open than at the mark.
    fn follow_points(&mut self)
        ensures { self.new ≡ points_after self.old }
    {
        if self.journal.len() == 0 {
            self.aborting = false;
        }
        if let Some(mark) = self.mark {
            if !self.journal.has(mark.length()) {
                self.mark = None;
            }
        }
    }

    /// Begins the abort of the build, if any of its operations can still be undone.
    pub(crate) fn begin_abort(&mut self)
        ensures { self.new ≡ record self.old { aborting = nat_lt 0 (length self.old.journal) } }
    {
        self.aborting = self.journal.len() > 0;
    }
}
