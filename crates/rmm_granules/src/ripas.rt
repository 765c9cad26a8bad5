//! Functions that return the kinds of RTT entries whose RIPAS a command may change.
ghost use Rattle.std.specs.Prelude.{◌≡◌};
ghost use Rattle.rmm_model.specs.Command.RttInitRipas as making;
ghost use Rattle.rmm_model.specs.Command.RttSetRipas as setting;

use rmi_abi::RmmSettings;
use rmm_model::{Changeable, RipasRequest};

/// Returns the kinds of RTT entries that RMI_RTT_INIT_RIPAS changes: UNASSIGNED entries, except those with RIPAS
/// DESTROYED if `stops_at_destroyed` is set.
pub fn init_changeable(settings: &RmmSettings) -> Changeable
    ensures { result ≡ making.init_changeable settings.now }
{
    Changeable {
        assigned: false,
        destroyed: !settings.stops_at_destroyed,
    }
}

/// Returns the kinds of RTT entries that RMI_RTT_SET_RIPAS changes for a REC's request.
pub fn set_changeable(request: &RipasRequest) -> Changeable
    ensures { result ≡ setting.set_changeable request.now }
{
    Changeable {
        assigned: true,
        destroyed: request.changes_destroyed,
    }
}
