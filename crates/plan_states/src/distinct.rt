//! The check that a state graph lists no step outcome or page map twice.
ghost use Rattle.std.specs.Prelude.{◌≢◌, ◌<◌, length};
ghost use Rattle.std.specs.Bool.{OnTrue, OnFalse};
ghost use Rattle.plan_states.specs.Distinct.{AreEndsDistinct, AreMapsDistinct, IsGraphDistinct, IsNewEnd, IsNewMap};

use crate::graph::Graph;
use crate::step_end::{EndOfStep, is_same_end};

// Whether two maps are the same.
fn is_same_map(one: &str, other: &str) -> bool
    ensures { OnFalse result (one.now ≢ other.now) }
{
    one == other
}

// Whether the outcome at index `place` differs from each outcome before it.
fn is_new_end(ends: &[EndOfStep], place: usize) -> bool
    requires { place < length ends.now }
    ensures { OnTrue result (IsNewEnd ends.now place) }
{
    for before in 0..place {
        if is_same_end(&ends[before], &ends[place]) {
            return false;
        }
    }
    true
}

// Whether the map at index `place` differs from each map before it.
fn is_new_map(maps: &[String], place: usize) -> bool
    requires { place < length maps.now }
    ensures { OnTrue result (IsNewMap maps.now place) }
{
    for before in 0..place {
        if is_same_map(&maps[before], &maps[place]) {
            return false;
        }
    }
    true
}

// Whether no two outcomes of steps are the same.
fn are_ends_distinct(ends: &[EndOfStep]) -> bool
    ensures { OnTrue result (AreEndsDistinct ends.now) }
{
    for place in 0..ends.len() {
        if !is_new_end(ends, place) {
            return false;
        }
    }
    true
}

// Whether no two maps are the same.
fn are_maps_distinct(maps: &[String]) -> bool
    ensures { OnTrue result (AreMapsDistinct maps.now) }
{
    for place in 0..maps.len() {
        if !is_new_map(maps, place) {
            return false;
        }
    }
    true
}

/// Returns whether a state graph lists each step outcome and each page map only once.
pub(crate) fn is_distinct(graph: &Graph) -> bool
    ensures { OnTrue result (IsGraphDistinct graph.now) }
{
    are_ends_distinct(&graph.ends) && are_maps_distinct(&graph.maps)
}
