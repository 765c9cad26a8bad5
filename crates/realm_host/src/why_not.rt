//! The reason why a recorded event cannot be applied.
ghost use Rattle.realm_host.specs.Recorded.{IsWhyNot};

use crate::Host;
use page_arena::PageStore;
use realm_model::Event;
use thiserror::Error;

/// The reason why a recorded event cannot be applied.
#[derive(Clone, Copy, Debug, Error)]
pub enum WhyNot {
    /// An event for which its build has too little room. The build has too little room left in the history, or the
    /// event has a reverse and the build already has 512 open operations.
    #[error("its build has not the room that it takes")]
    NoRoom,
    /// An event that would undo an operation which cannot be undone now. The operation is not the build's newest open
    /// operation, or created a REC that runs.
    #[error("it is not the reverse of the newest act that its build has open")]
    NotNewest,
    /// An event whose build does not exist, or whose operation is not possible in the host's world.
    #[error("it is no step of the rules")]
    NoStep,
}

impl<S: PageStore> Host<S> {
    /// Returns the first reason why `apply_recorded` refused a recorded event. In sequence: NoStep if there is no such
    /// build, NoRoom, NotNewest for a reverse, and NoStep for any other operation. For an event that can be applied the
    /// value means nothing.
    pub fn why_not(&self, event: &Event) -> WhyNot
        ensures { IsWhyNot self.now event.now result }
    {
        if !self.ledger.has_build(event.build) {
            return WhyNot::NoStep;
        }
        if !self.has_room_for(event.build, &event.act) {
            return WhyNot::NoRoom;
        }
        if event.act.is_reverse() {
            WhyNot::NotNewest
        } else {
            WhyNot::NoStep
        }
    }
}
