//! The refused turns that a browser page shows, with their reasons in words. The words are tested, not proved.
use buddy::BuddyArena;
use explain::explain_turns;
use realm_plan::Plan;
use realm_program::boot;
use run_json::ObjectWriter;
use serde::{Described, Serialize, Serializer};
use std::alloc::{AllocError, Global};

/// A refused turn, with its error message and its help message. Turns are counted from 0, as in the document of the
/// run. `help` is empty if there is no help.
pub(crate) struct RefusedTurn {
    turn: usize,
    error: String,
    help: String,
}

impl Drop for RefusedTurn {
    fn drop(self) {
        let RefusedTurn {
            turn: _,
            error: _,
            help: _,
        } = self;
    }
}

impl Described for RefusedTurn {}

impl Serialize for RefusedTurn {
    fn serialize<W: Serializer>(&self, out: &mut W) -> Result<(), W::Error> {
        let mut object = ObjectWriter::begin(out, None);
        object.member("turn", self.turn);
        object.member("error", &self.error);
        if !self.help.is_empty() {
            object.member("help", &self.help);
        }
        object.end()
    }
}

/// Returns the turns of a plan's run in which a step is refused.
pub(crate) fn refused_turns(alloc: Global, plan: &Plan) -> Result<Vec<RefusedTurn>, AllocError> {
    let mut host = boot::<BuddyArena>(alloc, plan)?;
    let mut refused = Vec::new(alloc);
    for (turn, explained) in explain_turns(alloc, &mut host, plan)?
        .into_iter()
        .enumerate()
    {
        if let Some(reason) = explained.into_reason() {
            let (error, help) = reason.into_messages();
            refused.push(RefusedTurn { turn, error, help })?;
        }
    }
    Ok(refused)
}
