//! Performs the operations of builds by commands of the simulated RMM.
ghost use Rattle.std.specs.Prelude.{◌≡◌};
ghost use Rattle.rmi_monitor.specs.View.{Answers, after_command};
ghost use Rattle.rmi_monitor.specs.Performing.{IsReady, outcome_on};

use crate::Monitor;
use crate::realm_operation::in_realm;
use page_arena::PageStore;
use realm_model::{Act, RealmAndRec, Rmi};

/// Performs a build's operation by the RMM command that corresponds to it. The command has the granules and numbers
/// that the operation names. An answer in the operation, a byte that is read or the number of a REC, is taken as it is.
///
/// The answer and the machine after it are those of the operation's definition. A refusal changes nothing.
#[tactic(auto, unfolding(realm_model::specs::Act::named, realm_model::specs::Outcome::outcome_of))]
pub fn perform<S: PageStore>(
    monitor: &mut Monitor<S>,
    place: RealmAndRec,
    act: &Act,
) -> Result<(), Rmi>
    requires { IsReady monitor.old place act.now }
    ensures answer { Answers result (outcome_on monitor.old place.realm act.now) }
    ensures machine { monitor.new ≡ after_command (outcome_on monitor.old place.realm act.now) monitor.old }
{
    match act {
        Act::Fill { granule, value } => monitor.host_fill(*granule, *value),
        Act::Peek {
            granule,
            offset,
            ..
        } => match monitor.host_peek(*granule, *offset) {
            Ok(_) => Ok(()),
            Err(rmi) => Err(rmi),
        },
        Act::Delegate { granule } => monitor.granule_delegate(*granule),
        Act::Undelegate { granule } => monitor.granule_undelegate(*granule),
        Act::Realm { rd, root, vmid } => {
            monitor.realm_create(*rd, root.first, *vmid, root.width.number())
        }
        Act::UnRealm { rd, .. } => monitor.realm_destroy(*rd),
        _ => match place.realm {
            Some(rd) => in_realm(monitor, rd, place.rec, act),
            None => Err(Rmi::INPUT),
        },
    }
}
