//! The JSON document of a plan's run, with machine settings, turns, and the host's final state.
ghost use Rattle.std.specs.Prelude.{◌≡◌, ◌<◌, OnOk, IfOk, vec_len};
ghost use Rattle.realm_plan.specs.PlanView.{plan_view};
ghost use Rattle.run_json.specs.Document.{settings_of, AddsTurnItem, HasTurnItems, IsDocument};

use crate::json::ObjectWriter;
use crate::turn::{TurnItem, step_of, turn_item};
use crate::world::{WorldItem, world_item};
use granule_addr::BuildId;
use page_arena::PageStore;
use plan_replay::{PlanCursor, take_turn};
use realm_host::Host;
use realm_plan::Plan;
use serde::{Described, Serialize, Serializer};
use std::alloc::{AllocError, Global};

/// The settings of a plan's machine, and the number of the plan's builds.
#[derive(Clone, Copy)]
pub struct MachineSettings {
    pub pages: u16,
    pub vmids: u8,
    pub aux: u8,
    pub history: u16,
    pub builds: usize,
}

impl Described for MachineSettings {}

impl Serialize for MachineSettings {
    fn serialize<W: Serializer>(&self, out: &mut W) -> Result<(), W::Error> {
        let mut object = ObjectWriter::begin(out, Some(5));
        object.member("pages", self.pages);
        object.member("vmids", self.vmids);
        object.member("aux", self.aux);
        object.member("history", self.history);
        object.member("builds", self.builds);
        object.end()
    }
}

/// The JSON document of a plan's run, with machine settings, turns, and the host's final state. `realmview` is the
/// version of the format.
pub struct Document {
    pub realmview: u8,
    pub settings: MachineSettings,
    pub turns: Vec<TurnItem>,
    pub world: WorldItem,
}

impl Drop for Document {
    fn drop(self) {
        let Document {
            realmview: _,
            settings: _,
            turns: _,
            world: _,
        } = self;
    }
}

impl Described for Document {}

impl Serialize for Document {
    fn serialize<W: Serializer>(&self, out: &mut W) -> Result<(), W::Error> {
        let mut object = ObjectWriter::begin(out, Some(4));
        object.member("realmview", self.realmview);
        object.member("settings", self.settings);
        object.member("turns", &self.turns);
        object.member("world", &self.world);
        object.end()
    }
}

// The settings of a plan.
fn settings_of(plan: &Plan) -> MachineSettings
    ensures { result ≡ settings_of (plan_view plan.now) }
{
    MachineSettings {
        pages: plan.pages,
        vmids: plan.vmids,
        aux: plan.aux,
        history: plan.history,
        builds: plan.builds.len(),
    }
}

// Takes one turn of a build, and appends the turn's item.
fn push_turn<S: PageStore>(
    alloc: Global,
    items: &mut Vec<TurnItem>,
    host: &mut Host<S>,
    plan: &Plan,
    places: &mut [PlanCursor; 8],
    build: usize,
) -> Result<(), AllocError>
    requires { build < vec_len plan.now.builds }
    ensures { OnOk result (AddsTurnItem (plan_view plan.now) (record { host = host.old; places = places.old }) build
        (record { host = host.new; places = places.new }) items.old.items items.new.items) }
{
    let (place, before) = (places[build].done, host.history().len());
    let told = take_turn(host, plan, places, build);
    let step = step_of(alloc, place, &told)?;
    let item = turn_item(alloc, host, BuildId::at(build), step, before)?;
    items.push(item)?;
    Ok(())
}

// Takes the turns of a plan, and returns their items.
fn turns_of<S: PageStore>(
    alloc: Global,
    host: &mut Host<S>,
    plan: &Plan,
) -> Result<Vec<TurnItem>, AllocError>
    ensures { IfOk result (λ items. HasTurnItems (plan_view plan.now) host.old host.new items.items) }
{
    let mut items = Vec::new(alloc);
    let mut places = [PlanCursor::first(); 8];
    for build in &plan.order {
        push_turn(
            alloc,
            &mut items,
            host,
            plan,
            &mut places,
            build.number() as usize,
        )?;
    }
    Ok(items)
}

/// Runs a plan on a host, and returns the JSON document of the run. The one error is that allocation failed.
pub fn run_document<S: PageStore>(
    alloc: Global,
    host: &mut Host<S>,
    plan: &Plan,
) -> Result<Document, AllocError>
    ensures { IfOk result (IsDocument (plan_view plan.now) host.old host.new) }
{
    let turns = turns_of(alloc, host, plan)?;
    Ok(Document {
        realmview: 1,
        settings: settings_of(plan),
        turns,
        world: world_item(alloc, host)?,
    })
}
