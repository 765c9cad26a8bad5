//! Snapshots of the state of a plan's run, and their comparison. A snapshot has all that decides further turns, and
//! nothing of the schedule.
ghost use Rattle.std.specs.Prelude.{◌≡◌, ◌<◌, IfOk};
ghost use Rattle.std.specs.Bool.{OnTrue};
ghost use Rattle.realm_model.specs.History.{events_of};
ghost use Rattle.plan_states.specs.Snapshots.{is_kept_mark, length_of, point_at, shown_build, AreBuildsAt, AreSameBuilds, IsOfHost};

use crate::graph::push;
use granule_addr::BuildId;
use page_arena::PageStore;
use plan_replay::PlanCursor;
use realm_host::{Host, Mark};
use realm_model::Event;
use std::alloc::{AllocError, Global};

/// A build's cursor, marks and abort flag at one point of a run. `mark` is the cursor's mark and `kept` the host's,
/// each as the number of operations open at the mark. `has_way_back` is whether the host keeps the cursor's mark.
#[derive(Clone, Copy)]
pub(crate) struct BuildPoint {
    pub(crate) done: usize,
    pub(crate) left: u16,
    pub(crate) mark: Option<u16>,
    pub(crate) has_way_back: bool,
    pub(crate) is_aborting: bool,
    pub(crate) kept: Option<u16>,
}

/// One build's part of a snapshot of a plan's run: its events, and its `point` with the cursor, the marks and the abort
/// flag.
#[derive(Drop)]
pub(crate) struct BuildSnapshot {
    pub(crate) point: BuildPoint,
    pub(crate) events: Vec<Event>,
}

/// A snapshot of a plan's run: the states and events of the eight builds.
#[derive(Drop)]
pub(crate) struct Snapshot {
    pub(crate) builds: Vec<BuildSnapshot>,
}

// The number of operations that were open at a mark, if there is one.
fn length_of(mark: &Option<Mark>) -> Option<u16>
    ensures { result ≡ length_of mark.now }
{
    match mark {
        Some(mark) => Some(mark.length()),
        None => None,
    }
}

// Whether there is a mark, and the host keeps that mark.
fn is_kept_mark(kept: &Option<Mark>, mark: &Option<Mark>) -> bool
    ensures { result ≡ is_kept_mark kept.now mark.now }
{
    let Some(mark) = mark else {
        return false;
    };
    match kept {
        Some(kept) => kept.is(*mark),
        None => false,
    }
}

// The cursor, the marks and the abort flag of a build.
fn point_of<S: PageStore>(host: &Host<S>, places: &[PlanCursor; 8], build: usize) -> BuildPoint
    requires { build < 8 }
    ensures { result ≡ point_at (record { host = host.now; places = places.now }) build }
{
    let id = BuildId::at(build);
    let place = &places[build];
    let kept = host.kept_mark(id);
    BuildPoint {
        done: place.done,
        left: place.left,
        mark: length_of(&place.mark),
        has_way_back: is_kept_mark(&kept, &place.mark),
        is_aborting: host.is_aborting(id),
        kept: length_of(&kept),
    }
}

// The events of a build.
fn events_of(alloc: Global, history: &[Event], build: usize) -> Result<Vec<Event>, AllocError>
    ensures { IfOk result (λ events. events.items ≡ events_of build history.now) }
{
    let mut events = Vec::new(alloc);
    for event in history {
        if usize::from(event.build.number()) == build {
            let copy = Event {
                build: event.build,
                act: event.act.clone(),
            };
            events.push(copy)?;
        }
    }
    Ok(events)
}

/// Takes a snapshot of a run, given its host and the builds' cursors.
pub(crate) fn snapshot_of<S: PageStore>(
    alloc: Global,
    host: &Host<S>,
    places: &[PlanCursor; 8],
) -> Result<Snapshot, AllocError>
    ensures builds { IfOk result (λ it. AreBuildsAt (record { host = host.now; places = places.now }) 8 it.builds.items) }
    ensures of_host { IfOk result (λ _. IsOfHost (record { host = host.now; places = places.now })) }
{
    let history = host.history();
    let mut builds = Vec::new(alloc);
    for build in 0..8 {
        let point = point_of(host, places, build);
        let events = events_of(alloc, history, build)?;
        push(&mut builds, BuildSnapshot { point, events })?;
    }
    Ok(Snapshot { builds })
}

// Whether two optional numbers are the same.
fn is_same_length(one: Option<u16>, other: Option<u16>) -> bool
    ensures { OnTrue result (one ≡ other) }
{
    one == other
}

// Whether the cursors, marks and abort flags of two snapshots are the same.
fn is_same_point(one: &BuildPoint, other: &BuildPoint) -> bool
    ensures { OnTrue result (one.now ≡ other.now) }
{
    one.done == other.done
        && one.left == other.left
        && is_same_length(one.mark, other.mark)
        && one.has_way_back == other.has_way_back
        && one.is_aborting == other.is_aborting
        && is_same_length(one.kept, other.kept)
}

// Whether two lists of events are the same.
fn are_same_events(one: &[Event], other: &[Event]) -> bool
    ensures { OnTrue result (one.now ≡ other.now) }
{
    if one.len() != other.len() {
        return false;
    }
    for place in 0..one.len() {
        if !one[place].is_same(&other[place]) {
            return false;
        }
    }
    true
}

// Whether two snapshots of a build are the same.
fn is_same_build(one: &BuildSnapshot, other: &BuildSnapshot) -> bool
    ensures { OnTrue result (shown_build one.now ≡ shown_build other.now) }
{
    is_same_point(&one.point, &other.point) && are_same_events(&one.events, &other.events)
}

/// Returns whether two snapshots of runs agree on all eight builds.
pub(crate) fn is_same(one: &Snapshot, other: &Snapshot) -> bool
    ensures { OnTrue result (AreSameBuilds 8 one.now.builds.items other.now.builds.items) }
{
    for build in 0..8 {
        let Some(here) = one.builds.get(build) else {
            return false;
        };
        let Some(there) = other.builds.get(build) else {
            return false;
        };
        if !is_same_build(here, there) {
            return false;
        }
    }
    true
}
