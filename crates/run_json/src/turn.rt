//! The JSON object of a build's turn, with step, answer, event, and the event's changes.
ghost use Rattle.std.specs.Prelude.{◌≡◌, ◌+◌, ◌≤◌, [], ◌∷◌, ◌++◌, OnOk, IfOk, slice_get, option_map};
ghost use Rattle.run_json.specs.Turns.{step_view, placed, numbered_granule, more_granules, each_granule, changed_items, changed_view};
ghost use Rattle.run_json.specs.Turns.{granules_after, rows_after, IsRecAfter, realm_after, IsEventItem, IsEventAt, IsAfterTurn};

use crate::answer::{is_accepted_answer, numbers_of};
use crate::changed::{Changed, changes_realm, granules_of, level_above, rec_named_by};
use crate::items::{GranuleItem, RecItem, RowItem, granule_item, rec_item, row_item};
use crate::json::{ObjectWriter, Shown};
use crate::kept::{BuildKept, build_kept};
use crate::realm::{RealmItem, realm_item};
use granule_addr::{BuildId, Gran, Level};
use history_text::EventText;
use page_arena::PageStore;
use plan_replay::TurnAnswer;
use realm_host::Host;
use realm_model::{Act, Event};
use realm_plan::{PlanStep, StepText};
use serde::{Described, Serialize, Serializer};
use std::alloc::{AllocError, Global};

/// The JSON object of a step, with its index, its text, and the host's answer. The index is that in the build's list of
/// steps, and the text is that of a plan.
#[derive(Drop)]
pub struct StepItem {
    pub place: usize,
    pub step: String,
    pub answer: TurnAnswer,
}

/// The JSON object of a history event, with the event, and the RMM objects that it changed. The objects are as the host
/// has them after the turn. A list is empty if the event changes no such object.
pub struct EventItem {
    pub event: Event,
    pub granules: Vec<Option<GranuleItem>>,
    pub rows: Vec<Option<RowItem>>,
    pub rec: Option<RecItem>,
    pub realm: Option<Option<RealmItem>>,
}

impl Drop for EventItem {
    fn drop(self) {
        let EventItem {
            event: _,
            granules: _,
            rows: _,
            rec: _,
            realm: _,
        } = self;
    }
}

/// The JSON object of a build's turn, with step, event, and build state afterwards. A step or an event is there only if
/// the turn has one.
pub struct TurnItem {
    pub build: BuildId,
    pub step: Option<StepItem>,
    pub event: Option<EventItem>,
    pub open: usize,
    pub kept: BuildKept,
}

impl Drop for TurnItem {
    fn drop(self) {
        let TurnItem {
            build: _,
            step: _,
            event: _,
            open: _,
            kept: _,
        } = self;
    }
}

// ---- in JSON

// Writes the members of a step and its answer.
fn write_step<W: Serializer>(object: &mut ObjectWriter<'_, W>, step: &StepItem) {
    let numbers = numbers_of(&step.answer);
    object.member("place", step.place);
    object.member("step", &step.step);
    object.member("answer", Shown(step.answer));
    object.member("accepted", is_accepted_answer(&step.answer));
    object.member("numbers", numbers.as_slice());
}

// Writes the members of a turn with no step.
fn write_idle<W: Serializer>(object: &mut ObjectWriter<'_, W>) {
    object.member("place", ());
    object.member("step", ());
    object.member("answer", ());
    object.member("accepted", ());
    object.member("numbers", [0u8; 0]);
}

// Writes the members of an event. RMM objects that it does not change have none.
fn write_event<W: Serializer>(object: &mut ObjectWriter<'_, W>, item: &EventItem) {
    object.member("event", Shown(EventText(&item.event)));
    if !item.granules.is_empty() {
        object.member("granules", &item.granules);
    }
    if !item.rows.is_empty() {
        object.member("rows", &item.rows);
    }
    if let Some(rec) = &item.rec {
        object.member("recs", [rec]);
    }
    if let Some(realm) = &item.realm {
        object.member("realm", realm);
    }
}

impl Described for TurnItem {}

impl Serialize for TurnItem {
    fn serialize<W: Serializer>(&self, out: &mut W) -> Result<(), W::Error> {
        let mut object = ObjectWriter::begin(out, None);
        object.member("build", self.build.number());
        match &self.step {
            Some(step) => write_step(&mut object, step),
            None => write_idle(&mut object),
        }
        match &self.event {
            Some(event) => write_event(&mut object, event),
            None => object.member("event", ()),
        }
        object.member("open", self.open);
        self.kept.write(&mut object);
        object.end()
    }
}

// ---- steps

// The item of a step, at index `place` of its build's list, with the host's answer.
fn step_item(
    alloc: Global,
    place: usize,
    step: &PlanStep,
    answer: TurnAnswer,
) -> Result<StepItem, AllocError>
    ensures { IfOk result (λ item. step_view item ≡ placed place (step.now, answer)) }
{
    let mut text = String::new(alloc);
    write!(text, "{}", StepText(step))?;
    Ok(StepItem {
        place,
        step: text,
        answer,
    })
}

/// Returns the JSON object of a turn's step, with index, text and answer, or `None` if the turn had no step.
pub fn step_of(
    alloc: Global,
    place: usize,
    told: &Option<(&PlanStep, TurnAnswer)>,
) -> Result<Option<StepItem>, AllocError>
    ensures { IfOk result (λ item. option_map step_view item ≡ option_map (placed place) (option_map (λ it. (it.0.now, it.1)) told.now)) }
{
    match told {
        Some((step, answer)) => Ok(Some(step_item(alloc, place, step, *answer)?)),
        None => Ok(None),
    }
}

// ---- what an event changed

// Appends the item of granule `number`, if a machine can have a granule with that number.
fn push_numbered<S: PageStore>(
    items: &mut Vec<Option<GranuleItem>>,
    host: &Host<S>,
    number: u16,
) -> Result<(), AllocError>
    ensures { OnOk result (items.new.items ≡ items.old.items ++ numbered_granule host.now number) }
{
    if let Some(granule) = Gran::new(number, 4096) {
        items.push(granule_item(host, granule))?;
    }
    Ok(())
}

/// Appends the JSON objects of `count` granules, from granule `from` on.
pub fn push_more_granules<S: PageStore>(
    items: &mut Vec<Option<GranuleItem>>,
    host: &Host<S>,
    from: u16,
    count: u16,
) -> Result<(), AllocError>
    requires { from + count ≤ 65535 }
    ensures { OnOk result (items.new.items ≡ items.old.items ++ more_granules host.now from count) }
{
    for place in 0..count {
        push_numbered(items, host, from + place)?;
    }
    Ok(())
}

// Appends an item for each of the granules.
fn push_each_granule<S: PageStore>(
    items: &mut Vec<Option<GranuleItem>>,
    host: &Host<S>,
    granules: &[Gran],
) -> Result<(), AllocError>
    ensures { OnOk result (items.new.items ≡ items.old.items ++ each_granule host.now granules.now) }
{
    for granule in granules {
        items.push(granule_item(host, *granule))?;
    }
    Ok(())
}

// Appends the granules that an operation changed.
fn push_changed<S: PageStore>(
    items: &mut Vec<Option<GranuleItem>>,
    host: &Host<S>,
    changed: &Changed<'_>,
) -> Result<(), AllocError>
    requires { changed.now.from + changed.now.count ≤ 65535 }
    ensures { OnOk result (items.new.items ≡ items.old.items ++ changed_items host.now (changed_view changed.now)) }
{
    items.push(granule_item(host, changed.granule))?;
    push_more_granules(items, host, changed.from, changed.count)?;
    push_each_granule(items, host, changed.also)
}

// The granules that an operation changed.
fn granules_after<S: PageStore>(
    alloc: Global,
    host: &Host<S>,
    act: &Act,
) -> Result<Vec<Option<GranuleItem>>, AllocError>
    ensures { IfOk result (λ items. items.items ≡ granules_after host.now act.now) }
{
    let mut items = Vec::new(alloc);
    if let Some(changed) = granules_of(act) {
        push_changed(&mut items, host, &changed)?;
    }
    Ok(items)
}

// A list of one item.
fn one_row(alloc: Global, row: Option<RowItem>) -> Result<Vec<Option<RowItem>>, AllocError>
    ensures { IfOk result (λ items. items.items ≡ row ∷ []) }
{
    Ok(Vec::from_array(alloc, [row])?)
}

// The rows that an operation changed. Equal rows are one item, which has the first row and their count.
fn rows_after<S: PageStore>(
    alloc: Global,
    host: &Host<S>,
    build: BuildId,
    act: &Act,
) -> Result<Vec<Option<RowItem>>, AllocError>
    ensures { IfOk result (λ items. items.items ≡ rows_after host.now build act.now) }
{
    match act {
        Act::Realm { root, .. } => {
            let count = 512 * root.width.start_count() as u32;
            let rows = row_item(host, build, 0, Level::start(), count);
            one_row(alloc, rows)
        }
        Act::Rtt { ipa, level, .. } => {
            let above = row_item(host, build, ipa.number(), level_above(*level), 1);
            let rows = row_item(host, build, ipa.number(), *level, 512);
            Ok(Vec::from_array(alloc, [above, rows])?)
        }
        Act::UnRtt { ipa, level, .. } => {
            let above = row_item(host, build, ipa.number(), level_above(*level), 1);
            one_row(alloc, above)
        }
        Act::Ripas { ipa, count } => {
            let rows = row_item(host, build, ipa.number(), Level::last(), *count as u32);
            one_row(alloc, rows)
        }
        Act::Data { ipa, .. } | Act::Unknown { ipa, .. } | Act::UnData { ipa, .. } => {
            let row = row_item(host, build, ipa.number(), Level::last(), 1);
            one_row(alloc, row)
        }
        _ => Ok(Vec::new(alloc)),
    }
}

// The REC that an operation changed, if there is one.
fn rec_after<S: PageStore>(
    alloc: Global,
    host: &Host<S>,
    build: BuildId,
    act: &Act,
) -> Result<Option<RecItem>, AllocError>
    ensures { IfOk result (IsRecAfter host.now build act.now) }
{
    match rec_named_by(act) {
        Some(number) => Ok(Some(rec_item(alloc, host, build, number)?)),
        None => Ok(None),
    }
}

// The build's realm, if an operation changed the realm itself.
fn realm_after<S: PageStore>(host: &Host<S>, build: BuildId, act: &Act) -> Option<Option<RealmItem>>
    ensures { result ≡ realm_after host.now build act.now }
{
    if changes_realm(act) {
        Some(realm_item(host, build))
    } else {
        None
    }
}

// An event of a build, and the objects that the event changed.
fn event_item<S: PageStore>(
    alloc: Global,
    host: &Host<S>,
    build: BuildId,
    event: &Event,
) -> Result<EventItem, AllocError>
    ensures { IfOk result (IsEventItem host.now build event.now) }
{
    Ok(EventItem {
        granules: granules_after(alloc, host, &event.act)?,
        rows: rows_after(alloc, host, build, &event.act)?,
        rec: rec_after(alloc, host, build, &event.act)?,
        realm: realm_after(host, build, &event.act),
        event: Event {
            build: event.build,
            act: event.act.clone(),
        },
    })
}

// The event at index `place` of the history, if there is one, and the objects that the event changed.
fn event_at<S: PageStore>(
    alloc: Global,
    host: &Host<S>,
    build: BuildId,
    place: usize,
) -> Result<Option<EventItem>, AllocError>
    ensures { IfOk result (IsEventAt host.now build (slice_get host.now.history place)) }
{
    match host.history().get(place) {
        Some(event) => Ok(Some(event_item(alloc, host, build, event)?)),
        None => Ok(None),
    }
}

/// Returns the JSON object of a turn that a build has just taken. The history had `before` events at the start of the
/// turn.
pub fn turn_item<S: PageStore>(
    alloc: Global,
    host: &Host<S>,
    build: BuildId,
    step: Option<StepItem>,
    before: usize,
) -> Result<TurnItem, AllocError>
    ensures turn { IfOk result (λ item. (item.build ≡ build) × (item.step ≡ step)) }
    ensures after { IfOk result (IsAfterTurn host.now build before) }
{
    Ok(TurnItem {
        build,
        step,
        event: event_at(alloc, host, build, before)?,
        open: host.open_acts(build).len(),
        kept: build_kept(host, build),
    })
}
