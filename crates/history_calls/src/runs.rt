//! Functions that give each running REC a run page for RMI_REC_ENTER.
ghost use Rattle.std.specs.Prelude.{◌≡◌, ◌<◌, replicate, None};
ghost use Rattle.std.specs.List.{position_from};
ghost use Rattle.history_calls.specs.Runs as runs;

use granule_addr::Gran;
use realm_model::Act;
use std::marker::Model;

/// The host's run pages for RMI_REC_ENTER, and the running REC that uses each page. Each page in use has the granule of
/// its REC.
///
/// With `RUN_PAGE_COUNT` RECs running, those entered later share the last page.
#[derive(Drop)]
pub struct RunPages {
    recs: [Option<Gran>; 64],
}

impl Model for RunPages {
    ghost use Rattle.std.specs.Prelude.{ℕ, List, Option};

    ghost Value = { List (Option ℕ) };

    ghost view = { λ pages. pages.recs };
}

// The index of the first element of `recs` that equals `rec`.
fn place_of(recs: &[Option<Gran>], rec: Option<Gran>) -> Option<usize>
    ensures { result ≡ position_from (runs.is_same rec) 0 recs.now }
{
    for (place, it) in recs.iter().enumerate() {
        if *it == rec {
            return Some(place);
        }
    }
    None
}

impl RunPages {
    /// Creates the host's run pages for RMI_REC_ENTER, all of them free.
    pub fn new() -> RunPages
        ensures { result ≡ replicate 64 None }
    {
        RunPages { recs: [None; 64] }
    }

    // The page of a REC, or a free page for `None`; page 63 if there is neither.
    fn page_of(&self, rec: Option<Gran>) -> u16
        ensures value { result ≡ runs.run_page_of rec self.now }
        ensures below { result < 64 }
    {
        match place_of(&self.recs, rec) {
            Some(page) if page < 64 => page as u16,
            _ => 63,
        }
    }

    /// Returns the number of the run page that a REC uses for RMI_REC_ENTER. The list of pages in use is updated: after
    /// an entry the page is in use, and after an exit it is free again.
    pub fn page_for(&mut self, rec: Option<Gran>, act: &Act) -> u16
        ensures value { result ≡ runs.run_page_for rec act.now self.old }
        ensures below { result < 64 }
        ensures pages { self.new ≡ runs.run_pages_after rec act.now self.old }
    {
        match act {
            Act::Enter { .. } => {
                let page = self.page_of(None);
                self.recs[page as usize] = rec;
                page
            }
            Act::Exit { .. } => {
                let page = self.page_of(rec);
                self.recs[page as usize] = None;
                page
            }
            _ => self.page_of(rec),
        }
    }
}
