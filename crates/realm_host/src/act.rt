//! The function that performs and records an operation of a build, other than a Take and its reverse.
ghost use Rattle.realm_host.specs.Acting.{CanAct, IsActed};

use crate::Host;
use granule_addr::BuildId;
use page_arena::PageStore;
use realm_model::{Act, Rmi};
use rmi_monitor::perform;

impl<S: PageStore> Host<S> {
    // Performs an operation of a build, and records it. A refusal changes nothing.
    pub(crate) fn act(&mut self, build: BuildId, act: Act) -> Result<(), Rmi>
        requires { CanAct self.old build act }
        ensures { IsActed self.old build act result self.new }
    {
        let place = self.ledger.place(build, &act);
        if let Err(rmi) = perform(&mut self.monitor, place, &act) {
            return Err(rmi);
        }
        self.ledger.record(build, act);
        Ok(())
    }
}
