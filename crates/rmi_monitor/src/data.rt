//! Commands that map and unmap data pages of realms.
ghost use Rattle.std.specs.Prelude.{◌≡◌, ◌&&◌, true, IfOk, IfErr, Err};
ghost use Rattle.realm_model.specs.Command.Check.{is_delegated, is_undelegated};
ghost use Rattle.realm_model.specs.Command.Data as command;
ghost use Rattle.rmi_monitor.specs.View.{IsTaken, Answers, seen_in, after_command};
ghost use Rattle.rmi_monitor.specs.Located.{LocatesNew};

use crate::locate::located;
use crate::places::{can_be_copied, is_delegated, measure};
use crate::{Monitor, data_event};
use granule_addr::{Gran, IpaGran};
use page_arena::PageStore;
use realm_model::{Ripas, Rmi};
use rtt::Tables;

impl<S: PageStore> Monitor<S> {
    /// Maps a DELEGATED granule into a NEW realm as a data page. The page gets the bytes of an UNDELEGATED granule, and
    /// the realm's measurement is extended.
    ///
    /// RMM 1.0, RMI_DATA_CREATE. The error is RMI_ERROR_INPUT if `rd` is not an RD, `page` is not DELEGATED, `source`
    /// is not UNDELEGATED, or the IPA granule `ipa` is not protected. The error is RMI_ERROR_REALM if the realm is not
    /// NEW. The error is RMI_ERROR_RTT, with the level at which the walk ended, unless that is 3 and the entry there is
    /// UNASSIGNED.
    pub fn data_create(&mut self, rd: Gran, page: Gran, ipa: u32, source: Gran) -> Result<(), Rmi>
        requires rd_taken { IsTaken self.old rd }
        requires page_taken { IsTaken self.old page }
        requires source_taken { IsTaken self.old source }
        ensures answer { Answers result
            (command.data_create (seen_in self.old rd) (seen_in self.old page) ipa (seen_in self.old source)) }
        ensures machine { self.new ≡ after_command
            (command.data_create (seen_in self.old rd) (seen_in self.old page) ipa (seen_in self.old source)) self.old }
    {
        let (tables, ipa) = self.check_copy(rd, page, ipa, source)?;
        tables.map(
            &mut self.store,
            &mut self.granules,
            page,
            ipa,
            Some(Ripas::Ram),
        )?;
        self.store.copy(page, source);
        measure(
            &mut self.realms[rd.number() as usize],
            &data_event(ipa, self.store.bytes(source)),
        );
        Ok(())
    }

    // Checks the operands of `data_create`, and returns the realm's tables and the IPA granule, or the refusal. Nothing
    // changes.
    fn check_copy(
        &self,
        rd: Gran,
        page: Gran,
        ipa: u32,
        source: Gran,
    ) -> Result<(Tables, IpaGran), Rmi>
        requires rd_taken { IsTaken self.now rd }
        requires page_taken { IsTaken self.now page }
        requires source_taken { IsTaken self.now source }
        ensures ok { IfOk result (λ at. LocatesNew self.now.machine rd ipa at
            × ((is_delegated (seen_in self.now page) && is_undelegated (seen_in self.now source)) ≡ true)) }
        ensures err { IfErr result (λ e.
            command.data_create (seen_in self.now rd) (seen_in self.now page) ipa (seen_in self.now source) ≡ Err e) }
    {
        let Some(realm) = &self.realms[rd.number() as usize] else {
            return Err(Rmi::INPUT);
        };
        let Some(at) = located(rd, realm, ipa) else {
            return Err(Rmi::INPUT);
        };
        if !can_be_copied(&self.granules, source, page) {
            return Err(Rmi::INPUT);
        }
        if !realm.is_new() {
            return Err(Rmi::REALM);
        }
        Ok(at)
    }

    /// Maps a DELEGATED granule into a realm as a data page whose bytes are zero. The RIPAS stays unchanged.
    ///
    /// RMM 1.0, RMI_DATA_CREATE_UNKNOWN. The error is RMI_ERROR_INPUT if `rd` is not an RD, `page` is not DELEGATED, or
    /// the IPA granule `ipa` is not protected. The error is RMI_ERROR_RTT, with the level at which the walk ended,
    /// unless that is 3 and the entry there is UNASSIGNED.
    pub fn data_create_unknown(&mut self, rd: Gran, page: Gran, ipa: u32) -> Result<(), Rmi>
        requires rd_taken { IsTaken self.old rd }
        requires page_taken { IsTaken self.old page }
        ensures answer { Answers result (command.data_create_unknown (seen_in self.old rd) (seen_in self.old page) ipa) }
        ensures machine { self.new
            ≡ after_command (command.data_create_unknown (seen_in self.old rd) (seen_in self.old page) ipa) self.old }
    {
        let (tables, ipa) = self.locate(rd, ipa)?;
        if !is_delegated(&self.granules, page) {
            return Err(Rmi::INPUT);
        }
        tables.map(&mut self.store, &mut self.granules, page, ipa, None)?;
        Ok(())
    }

    /// Unmaps a data page of a realm. The page's granule becomes zero and DELEGATED. If the RIPAS of the IPA granule
    /// was RAM, it becomes DESTROYED.
    ///
    /// RMM 1.0, RMI_DATA_DESTROY. The error is RMI_ERROR_INPUT if `rd` is not an RD, or the IPA granule `ipa` is not
    /// protected. The error is RMI_ERROR_RTT, with the level at which the walk ended, unless that is 3 and the entry
    /// there is ASSIGNED.
    pub fn data_destroy(&mut self, rd: Gran, ipa: u32) -> Result<(), Rmi>
        requires { IsTaken self.old rd }
        ensures answer { Answers result (command.data_destroy (seen_in self.old rd) ipa) }
        ensures machine { self.new ≡ after_command (command.data_destroy (seen_in self.old rd) ipa) self.old }
    {
        let (tables, ipa) = self.locate(rd, ipa)?;
        tables.unmap(&mut self.store, &mut self.granules, ipa)?;
        Ok(())
    }
}
