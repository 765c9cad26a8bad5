//! The JSON object of a host's state, with all granules, and the pages, open operations and realm of each build.
ghost use Rattle.std.specs.Prelude.{◌≡◌, IfOk, length};
ghost use Rattle.host_ledger.specs.View.{pages_of_build};
ghost use Rattle.run_json.specs.Worlds.{all_granules, page_items, open_lines, AreRecItems, IsRealmContents, IsBuildItem, AreBuildItems, IsWorldItem};

use crate::items::{GranuleItem, PageItem, RecItem, RowItem, page_item, rec_item};
use crate::json::ObjectWriter;
use crate::kept::{BuildKept, build_kept};
use crate::realm::{RealmItem, realm_item};
use crate::rows::rows_of;
use crate::turn::push_more_granules;
use granule_addr::{BuildId, RecNo};
use history_text::EventText;
use page_arena::PageStore;
use realm_host::Host;
use realm_model::{Act, Event};
use serde::{Described, Serialize, Serializer};
use std::alloc::{AllocError, Global};

/// An event that is written in JSON as its text.
#[derive(Drop)]
pub struct EventLine(pub Event);

impl Described for EventLine {}

impl Serialize for EventLine {
    fn serialize<W: Serializer>(&self, out: &mut W) -> Result<(), W::Error> {
        out.collect_str(&EventText(&self.0))
    }
}

/// The JSON object of a realm, with its translation table rows and its RECs. Each REC is at the index of its number.
pub struct RealmContents {
    pub realm: RealmItem,
    pub rows: Vec<RowItem>,
    pub recs: Vec<RecItem>,
}

impl Drop for RealmContents {
    fn drop(self) {
        let RealmContents {
            realm: _,
            rows: _,
            recs: _,
        } = self;
    }
}

impl Described for RealmContents {}

impl Serialize for RealmContents {
    fn serialize<W: Serializer>(&self, out: &mut W) -> Result<(), W::Error> {
        let mut object = ObjectWriter::begin(out, Some(10));
        self.realm.write(&mut object);
        object.member("rows", &self.rows);
        object.member("recs", &self.recs);
        object.end()
    }
}

/// The JSON object of a build's state on the host, with the mark, the abort flag, the open operations, the pages and
/// the realm. The open operations are events, from the oldest on.
pub struct BuildItem {
    pub build: BuildId,
    pub kept: BuildKept,
    pub open: Vec<EventLine>,
    pub pages: Vec<Option<PageItem>>,
    pub realm: Option<RealmContents>,
}

impl Drop for BuildItem {
    fn drop(self) {
        let BuildItem {
            build: _,
            kept: _,
            open: _,
            pages: _,
            realm: _,
        } = self;
    }
}

impl Described for BuildItem {}

impl Serialize for BuildItem {
    fn serialize<W: Serializer>(&self, out: &mut W) -> Result<(), W::Error> {
        let mut object = ObjectWriter::begin(out, Some(6));
        object.member("build", self.build.number());
        self.kept.write(&mut object);
        object.member("open", &self.open);
        object.member("pages", &self.pages);
        object.member("realm", &self.realm);
        object.end()
    }
}

/// The JSON object of a host's state, with its granules, its builds, and the number of granules that no build leases.
pub struct WorldItem {
    pub free: u16,
    pub granules: Vec<Option<GranuleItem>>,
    pub builds: Vec<BuildItem>,
}

impl Drop for WorldItem {
    fn drop(self) {
        let WorldItem {
            free: _,
            granules: _,
            builds: _,
        } = self;
    }
}

impl Described for WorldItem {}

impl Serialize for WorldItem {
    fn serialize<W: Serializer>(&self, out: &mut W) -> Result<(), W::Error> {
        let mut object = ObjectWriter::begin(out, Some(3));
        object.member("free", self.free);
        object.member("granules", &self.granules);
        object.member("builds", &self.builds);
        object.end()
    }
}

// The granules of the machine.
fn granules_of<S: PageStore>(
    alloc: Global,
    host: &Host<S>,
) -> Result<Vec<Option<GranuleItem>>, AllocError>
    ensures { IfOk result (λ items. items.items ≡ all_granules host.now) }
{
    let mut items = Vec::new(alloc);
    push_more_granules(&mut items, host, 0, host.pages())?;
    Ok(items)
}

// The pages of a build.
fn pages_of<S: PageStore>(
    alloc: Global,
    host: &Host<S>,
    build: BuildId,
) -> Result<Vec<Option<PageItem>>, AllocError>
    ensures { IfOk result (λ items. items.items ≡ page_items host.now build (length (pages_of_build host.now build))) }
{
    let mut items = Vec::new(alloc);
    for page in 0..host.page_count(build) {
        items.push(page_item(host, build, page))?;
    }
    Ok(items)
}

// The open operations of a build, as events.
fn lines_of(alloc: Global, build: BuildId, acts: &[Act]) -> Result<Vec<EventLine>, AllocError>
    ensures { IfOk result (λ items. items.items ≡ open_lines build acts.now) }
{
    let mut items = Vec::new(alloc);
    for act in acts {
        let act = act.clone();
        items.push(EventLine(Event { build, act }))?;
    }
    Ok(items)
}

// The RECs of a build's realm whose numbers are below that of its next REC.
fn recs_of<S: PageStore>(
    alloc: Global,
    host: &Host<S>,
    build: BuildId,
    next: RecNo,
) -> Result<Vec<RecItem>, AllocError>
    ensures { IfOk result (λ items. AreRecItems host.now build next items.items) }
{
    let mut items = Vec::new(alloc);
    for number in 0..next.number() {
        let item = rec_item(alloc, host, build, RecNo::new(number))?;
        items.push(item)?;
    }
    Ok(items)
}

// The realm of a build, if it has one.
fn realm_world<S: PageStore>(
    alloc: Global,
    host: &Host<S>,
    build: BuildId,
) -> Result<Option<RealmContents>, AllocError>
    ensures { IfOk result (IsRealmContents host.now build) }
{
    let Some(realm) = realm_item(host, build) else {
        return Ok(None);
    };
    Ok(Some(RealmContents {
        rows: rows_of(alloc, host, build)?,
        recs: recs_of(alloc, host, build, realm.next_rec)?,
        realm,
    }))
}

// The item of a build, with its open operations, pages and realm.
fn build_item<S: PageStore>(
    alloc: Global,
    host: &Host<S>,
    build: BuildId,
) -> Result<BuildItem, AllocError>
    ensures { IfOk result (IsBuildItem host.now build) }
{
    Ok(BuildItem {
        build,
        kept: build_kept(host, build),
        open: lines_of(alloc, build, host.open_acts(build))?,
        pages: pages_of(alloc, host, build)?,
        realm: realm_world(alloc, host, build)?,
    })
}

// The items of all builds.
fn builds_of<S: PageStore>(alloc: Global, host: &Host<S>) -> Result<Vec<BuildItem>, AllocError>
    ensures { IfOk result (λ items. AreBuildItems host.now host.now.limits.builds items.items) }
{
    let mut items = Vec::new(alloc);
    for number in 0..host.build_count() {
        let item = build_item(alloc, host, BuildId::at(number as usize))?;
        items.push(item)?;
    }
    Ok(items)
}

/// Returns the JSON object of a host's state, with its granules and its builds. The one error is that allocation
/// failed.
pub fn world_item<S: PageStore>(alloc: Global, host: &Host<S>) -> Result<WorldItem, AllocError>
    ensures { IfOk result (IsWorldItem host.now) }
{
    Ok(WorldItem {
        free: host.free_count(),
        granules: granules_of(alloc, host)?,
        builds: builds_of(alloc, host)?,
    })
}
