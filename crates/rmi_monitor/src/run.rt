//! Commands that enter a REC, write a byte as the REC's guest, and stop the REC.
ghost use Rattle.realm_model.specs.Command.Rec as command;
ghost use Rattle.rmi_monitor.specs.View.{IsTaken, IsOnRec};

use crate::Monitor;
use crate::locate::located;
use granule_addr::{Gran, Level, PageOff};
use page_arena::PageStore;
use realm_model::Rmi;
use rtt::Rtt;

impl<S: PageStore> Monitor<S> {
    /// Enters a READY REC of an ACTIVE realm. The REC becomes RUNNING.
    ///
    /// RMM 1.0, RMI_REC_ENTER. The error is RMI_ERROR_INPUT if the granule is not a REC, RMI_ERROR_REALM if its realm
    /// is not ACTIVE, and RMI_ERROR_REC if the REC is not READY.
    pub fn rec_enter(&mut self, rec: Gran) -> Result<(), Rmi>
        requires { IsTaken self.old rec }
        ensures { IsOnRec command.rec_enter self.old rec result self.new }
    {
        let Some(kept) = &mut self.recs[rec.number() as usize] else {
            return Err(Rmi::INPUT);
        };
        let rd = self.granules.realm_of(rec).unwrap();
        let realm = self.realms[rd.number() as usize].as_ref().unwrap();
        if realm.is_new() {
            return Err(Rmi::REALM);
        }
        if !kept.is_ready() {
            return Err(Rmi::REC);
        }
        kept.enter();
        Ok(())
    }

    /// Writes a byte to a realm's page, as the guest of a RUNNING REC. The RIPAS of the page's IPA does not matter. The
    /// command is this profile's own, for guest instructions.
    ///
    /// `ipa` is the number of an IPA granule. The error is RMI_ERROR_INPUT if the granule is not a REC or the IPA is
    /// not protected, and RMI_ERROR_REC if the REC is not RUNNING. The error is RMI_ERROR_RTT, with the level at which
    /// the walk ended, unless the entry there is ASSIGNED.
    pub fn guest_write(
        &mut self,
        rec: Gran,
        ipa: u32,
        offset: PageOff,
        value: u8,
    ) -> Result<(), Rmi>
        requires { IsTaken self.old rec }
        ensures { IsOnRec (λ rd number. command.guest_write rd number ipa offset value) self.old rec result self.new }
    {
        let Some(writer) = &self.recs[rec.number() as usize] else {
            return Err(Rmi::INPUT);
        };
        let rd = self.granules.realm_of(rec).unwrap();
        let realm = self.realms[rd.number() as usize].as_ref().unwrap();
        let Some((tables, granule)) = located(rd, realm, ipa) else {
            return Err(Rmi::INPUT);
        };
        if writer.is_ready() {
            return Err(Rmi::REC);
        }
        let walk = tables.walk(&self.store, &self.granules, granule, Level::last());
        let Some(page) = walk.entry.page() else {
            return Err(Rmi::from(Rtt { level: walk.level }));
        };
        self.store.set(page, offset, value);
        Ok(())
    }

    /// Stops a RUNNING REC. It becomes READY.
    ///
    /// RMM 1.0, REC exit; the command is this profile's own. The error is RMI_ERROR_INPUT if the granule is not a REC,
    /// and RMI_ERROR_REC if the REC is not RUNNING.
    pub fn rec_exit(&mut self, rec: Gran) -> Result<(), Rmi>
        requires { IsTaken self.old rec }
        ensures { IsOnRec command.rec_exit self.old rec result self.new }
    {
        let Some(kept) = &mut self.recs[rec.number() as usize] else {
            return Err(Rmi::INPUT);
        };
        if kept.is_ready() {
            return Err(Rmi::REC);
        }
        kept.exit();
        Ok(())
    }
}
