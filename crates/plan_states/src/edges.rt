//! Edge labels of a state graph, each of which describes a turn of a build.

/// The label of an edge of a state graph: the build that takes the turn, and the turn's outcome as indices into the
/// graph's lists. `end` is the index of the outcome of the step that the turn ended, if any. `held` is the index of the
/// builds' page counts after the turn. `map` is the index of the final map, if a schedule ends with the turn.
#[derive(Clone, Copy)]
pub struct Label {
    pub build: usize,
    pub end: Option<usize>,
    pub held: usize,
    pub map: Option<usize>,
}
