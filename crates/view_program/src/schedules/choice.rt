//! The build that is chosen for a turn, among those with a step left.

/// The build that is chosen for a turn. `left` says for each build whether it had a step left before the turn.
#[derive(Clone, Copy)]
pub struct Choice {
    pub build: usize,
    pub left: [bool; 8],
}
