//! The JSON objects for granules, rows of translation tables, RECs and pages, with the values that the host has.
ghost use Rattle.std.specs.Prelude.{◌≡◌, IfOk};
ghost use Rattle.run_json.specs.Items.{granule_item, row_item, IsRecItem, page_item};

use crate::json::ObjectWriter;
use crate::words::{
    GranuleNumbers, build_number, entry_state_word, granule_number, rec_state_word, ripas_word,
};
use granule_addr::{BuildId, Gran, Level, RecNo};
use page_arena::PageStore;
use realm_host::{GranuleView, Host, RowView};
use realm_model::RecState;
use realm_plan::state_word;
use serde::{Described, Serialize, Serializer};
use std::alloc::{AllocError, Global};

/// The JSON object of a granule, with its number, and the state, build and realm that the host has for it.
#[derive(Clone, Copy)]
pub struct GranuleItem {
    pub granule: Gran,
    pub view: GranuleView,
}

impl Described for GranuleItem {}

impl Serialize for GranuleItem {
    fn serialize<W: Serializer>(&self, out: &mut W) -> Result<(), W::Error> {
        let mut object = ObjectWriter::begin(out, Some(4));
        object.member("granule", self.granule.number());
        object.member("state", state_word(self.view.state));
        object.member("build", build_number(self.view.build));
        object.member("realm", granule_number(self.view.realm));
        object.end()
    }
}

/// Returns the JSON object of a granule, or `None` if the host's machine has no such granule.
pub fn granule_item<S: PageStore>(host: &Host<S>, granule: Gran) -> Option<GranuleItem>
    ensures { result ≡ granule_item host.now granule }
{
    let view = host.granule_view(granule)?;
    Some(GranuleItem { granule, view })
}

/// The JSON object of a series of equal rows at one level of a realm's translation tables, with the first row and the
/// number of rows.
#[derive(Clone, Copy)]
pub struct RowItem {
    pub row: RowView,
    pub count: u32,
}

impl Described for RowItem {}

impl Serialize for RowItem {
    fn serialize<W: Serializer>(&self, out: &mut W) -> Result<(), W::Error> {
        let entry = &self.row.entry;
        let mut object = ObjectWriter::begin(out, Some(6));
        object.member("level", self.row.level.number());
        object.member("first", self.row.first.number());
        object.member("count", self.count);
        object.member("state", entry_state_word(entry.state));
        object.member("ripas", ripas_word(entry.ripas));
        object.member("granule", granule_number(entry.granule));
        object.end()
    }
}

/// Creates the JSON object for `count` rows of a realm's translation tables. The first row is the one at which the RTT
/// walk of an IPA granule towards a level ends. The result is `None` if there is no such row.
pub fn row_item<S: PageStore>(
    host: &Host<S>,
    build: BuildId,
    ipa: u32,
    level: Level,
    count: u32,
) -> Option<RowItem>
    ensures { result ≡ row_item host.now build ipa level count }
{
    let row = host.row(build, ipa, level)?;
    Some(RowItem { row, count })
}

/// The data of an existing REC in the REC's JSON object, with its granule, its state and its auxiliary granules.
#[derive(Drop)]
pub struct RecView {
    pub granule: Gran,
    pub state: RecState,
    pub auxiliaries: Vec<Gran>,
}

impl RecView {
    // Writes the members of the REC.
    fn write<W: Serializer>(&self, object: &mut ObjectWriter<'_, W>) {
        object.member("state", rec_state_word(self.state));
        object.member("granule", self.granule.number());
        object.member("auxiliaries", GranuleNumbers(&self.auxiliaries));
    }
}

/// The JSON object of a REC, with the REC's number, and the REC's data if the REC exists.
#[derive(Drop)]
pub struct RecItem {
    pub number: RecNo,
    pub rec: Option<RecView>,
}

impl Described for RecItem {}

impl Serialize for RecItem {
    fn serialize<W: Serializer>(&self, out: &mut W) -> Result<(), W::Error> {
        let mut object = ObjectWriter::begin(out, None);
        object.member("number", self.number.number());
        match &self.rec {
            Some(rec) => rec.write(&mut object),
            None => object.member("state", ()),
        }
        object.end()
    }
}

/// Returns the JSON object of REC `number` of a build's realm, with a null state if there is no such REC.
pub fn rec_item<S: PageStore>(
    alloc: Global,
    host: &Host<S>,
    build: BuildId,
    number: RecNo,
) -> Result<RecItem, AllocError>
    ensures { IfOk result (IsRecItem host.now build number) }
{
    let Some((granule, rec)) = host.rec(build, number) else {
        return Ok(RecItem { number, rec: None });
    };
    let mut auxiliaries = Vec::new(alloc);
    auxiliaries.extend_from_slice(rec.auxiliaries())?;
    Ok(RecItem {
        number,
        rec: Some(RecView {
            granule,
            state: rec.state(),
            auxiliaries,
        }),
    })
}

/// The JSON object of a build's page, with its granule and the sum of its bytes.
#[derive(Clone, Copy)]
pub struct PageItem {
    pub granule: Gran,
    pub sum: u32,
}

impl Described for PageItem {}

impl Serialize for PageItem {
    fn serialize<W: Serializer>(&self, out: &mut W) -> Result<(), W::Error> {
        let mut object = ObjectWriter::begin(out, Some(2));
        object.member("granule", self.granule.number());
        object.member("sum", self.sum);
        object.end()
    }
}

/// Returns the JSON object of a build's page, or `None` if the build has no such page.
pub fn page_item<S: PageStore>(host: &Host<S>, build: BuildId, page: u16) -> Option<PageItem>
    ensures { result ≡ page_item host.now build page }
{
    match (host.page_granule(build, page), host.page_sum(build, page)) {
        (Some(granule), Some(sum)) => Some(PageItem { granule, sum }),
        _ => None,
    }
}
