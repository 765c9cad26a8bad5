//! The browser pages that show the runs of plans.
ghost use Rattle.std.specs.Prelude.{◌≡◌, None, IfOk, vec_len};
ghost use Rattle.realm_plan.specs.PlanView.{plan_view};
ghost use Rattle.realm_host.specs.Recorded.{fresh_like, IsWithout};
ghost use Rattle.realm_program.specs.Replay.{opening_host, IsWithoutText};
ghost use Rattle.view_program.specs.PageData.{IsWithoutWorld, AreWorldsWithout, IsPageData, IsPageText};

use crate::page_words::{RefusedTurn, refused_turns};
use crate::plan_json::run_of;
use crate::plan_text::ViewText;
use crate::plan_title::plan_title;
use buddy::BuddyArena;
use granule_addr::BuildId;
use realm_host::{Host, HostLedger, apply_without};
use realm_plan::Plan;
use realm_program::{Fault, boot};
use run_json::{Document, ObjectWriter, WorldItem, json_text, page_of, world_item};
use serde::{Described, Serialize, Serializer};
use std::alloc::{AllocError, Global};

/// The data of a browser page that shows a plan's run and its refused turns. For each build, the data also have the
/// machine as it would be without that build's events. The title of the plan is empty if it has none.
struct PageData {
    run: Document,
    without: Vec<WorldItem>,
    refused: Vec<RefusedTurn>,
    title: String,
}

impl Drop for PageData {
    fn drop(self) {
        let PageData {
            run: _,
            without: _,
            refused: _,
            title: _,
        } = self;
    }
}

impl Described for PageData {}

impl Serialize for PageData {
    fn serialize<W: Serializer>(&self, out: &mut W) -> Result<(), W::Error> {
        let mut object = ObjectWriter::begin(out, None);
        object.member("run", &self.run);
        object.member("without", &self.without);
        object.member("refused", &self.refused);
        if !self.title.is_empty() {
            object.member("title", &self.title);
        }
        object.end()
    }
}

// A new host of the plan whose history is the ledger's without a build's events.
fn fresh_without(
    alloc: Global,
    plan: &Plan,
    ledger: &HostLedger,
    build: BuildId,
) -> Result<Host<BuddyArena>, AllocError>
    requires { opening_host (plan_view plan.now) ≡ fresh_like ledger.now }
    ensures { IfOk result (IsWithout ledger.now build) }
{
    let mut fresh = boot(alloc, plan)?;
    apply_without(ledger, build, &mut fresh);
    Ok(fresh)
}

// The machine after a history without a build's events, as an item of a page.
fn world_without(
    alloc: Global,
    plan: &Plan,
    ledger: &HostLedger,
    build: BuildId,
) -> Result<WorldItem, AllocError>
    requires { opening_host (plan_view plan.now) ≡ fresh_like ledger.now }
    ensures { IfOk result (IsWithoutWorld ledger.now build) }
{
    let fresh = fresh_without(alloc, plan, ledger, build)?;
    world_item(alloc, &fresh)
}

// For each of the plan's builds, the machine after the history without that build's events.
fn worlds_without(
    alloc: Global,
    plan: &Plan,
    ledger: &HostLedger,
) -> Result<Vec<WorldItem>, AllocError>
    requires { opening_host (plan_view plan.now) ≡ fresh_like ledger.now }
    ensures { IfOk result (λ worlds. AreWorldsWithout ledger.now (vec_len plan.now.builds) worlds.items) }
{
    let mut worlds = Vec::new(alloc);
    for place in 0..plan.builds.len() {
        let world = world_without(alloc, plan, ledger, BuildId::at(place))?;
        worlds.push(world)?;
    }
    Ok(worlds)
}

// The data of a page.
fn page_data(alloc: Global, plan: &Plan, source: &[u8]) -> Result<PageData, AllocError>
    ensures { IfOk result (IsPageData (plan_view plan.now)) }
{
    let (document, ledger) = run_of(alloc, plan)?;
    Ok(PageData {
        run: document,
        without: worlds_without(alloc, plan, &ledger)?,
        refused: refused_turns(alloc, plan)?,
        title: plan_title(alloc, source)?,
    })
}

/// A kind of text for a plan: the browser page that shows the plan's run. The page has the document of the run, the
/// refused turns, and the plan's title. For each build, it also has the machine of a fresh host after the history
/// without that build. The page is missing only if allocation failed.
#[derive(Drop)]
pub struct Pages;

impl ViewText for Pages {
    ghost is_text = { λ asked _. IsPageText };

    ghost is_without = { λ asked. IsWithoutText None };

    fn text_of(&self, alloc: Global, plan: Plan, source: &[u8]) -> Result<Vec<u8>, Fault> {
        let data = page_data(alloc, &plan, source)?;
        let json = json_text(alloc, &data)?;
        Ok(page_of(alloc, json.as_bytes())?)
    }
}
