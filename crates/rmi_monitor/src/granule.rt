//! Commands that delegate, undelegate, fill and read single granules.
ghost use Rattle.std.specs.Prelude.{◌≡◌, IfOk, slice_index};
ghost use Rattle.realm_model.specs.Machine.{cell_at};
ghost use Rattle.realm_model.specs.Command.Granule as command;
ghost use Rattle.rmi_monitor.specs.View.{IsTaken, Answers, seen_in, after_command};

use crate::Monitor;
use granule_addr::{Gran, PageOff};
use page_arena::PageStore;
use realm_model::{GranuleState, Rmi};

impl<S: PageStore> Monitor<S> {
    /// Delegates an UNDELEGATED granule, which becomes DELEGATED and zero.
    ///
    /// RMM 1.0, RMI_GRANULE_DELEGATE. The error is RMI_ERROR_INPUT if the granule is not UNDELEGATED.
    pub fn granule_delegate(&mut self, granule: Gran) -> Result<(), Rmi>
        requires { IsTaken self.old granule }
        ensures answer { Answers result (command.granule_delegate (seen_in self.old granule)) }
        ensures machine { self.new ≡ after_command (command.granule_delegate (seen_in self.old granule)) self.old }
    {
        if self.granules.shift(
            granule,
            GranuleState::Undelegated,
            GranuleState::Delegated,
            None,
        ) {
            self.store.fill(granule, 0);
            Ok(())
        } else {
            Err(Rmi::INPUT)
        }
    }

    /// Makes a DELEGATED granule UNDELEGATED.
    ///
    /// RMM 1.0, RMI_GRANULE_UNDELEGATE. The error is RMI_ERROR_INPUT if the granule is not DELEGATED.
    pub fn granule_undelegate(&mut self, granule: Gran) -> Result<(), Rmi>
        requires { IsTaken self.old granule }
        ensures answer { Answers result (command.granule_undelegate (seen_in self.old granule)) }
        ensures machine { self.new ≡ after_command (command.granule_undelegate (seen_in self.old granule)) self.old }
    {
        if !self.granules.shift(
            granule,
            GranuleState::Delegated,
            GranuleState::Undelegated,
            None,
        ) {
            return Err(Rmi::INPUT);
        }
        Ok(())
    }

    /// Writes a value to each byte of an UNDELEGATED granule. The call is this profile's own.
    ///
    /// The error is RMI_ERROR_INPUT if the granule is not UNDELEGATED.
    pub fn host_fill(&mut self, granule: Gran, value: u8) -> Result<(), Rmi>
        requires { IsTaken self.old granule }
        ensures answer { Answers result (command.host_fill (seen_in self.old granule) value) }
        ensures machine { self.new ≡ after_command (command.host_fill (seen_in self.old granule) value) self.old }
    {
        match self.granules.state(granule) {
            GranuleState::Undelegated => {
                self.store.fill(granule, value);
                Ok(())
            }
            _ => Err(Rmi::INPUT),
        }
    }

    /// Reads a byte of an UNDELEGATED granule. The call is this profile's own.
    ///
    /// The error is RMI_ERROR_INPUT if the granule is not UNDELEGATED.
    pub fn host_peek(&self, granule: Gran, offset: PageOff) -> Result<u8, Rmi>
        requires { IsTaken self.now granule }
        ensures answer { Answers result (command.host_peek (seen_in self.now granule)) }
        ensures byte { IfOk result (λ byte. byte ≡ slice_index (cell_at self.now.machine granule).bytes offset) }
    {
        match self.granules.state(granule) {
            GranuleState::Undelegated => Ok(self.store.bytes(granule)[offset.number() as usize]),
            _ => Err(Rmi::INPUT),
        }
    }
}
