//! Commands that create and destroy translation tables, and set RIPAS values.
ghost use Rattle.std.specs.Prelude.{◌≡◌, true, IfOk, IfErr, Err};
ghost use Rattle.realm_model.specs.Rows.{is_page_run};
ghost use Rattle.realm_model.specs.Command.Table as command;
ghost use Rattle.rmi_monitor.specs.View.{IsTaken, Answers, seen_in, after_command};
ghost use Rattle.rmi_monitor.specs.Located.{LocatesNew};

use crate::inputs::table_level;
use crate::locate::located_run;
use crate::places::{is_delegated, measure};
use crate::{Monitor, ripas_event};
use granule_addr::{Gran, IpaGran};
use page_arena::PageStore;
use realm_model::Rmi;
use rtt::Tables;

impl<S: PageStore> Monitor<S> {
    /// Creates a realm's table of level 2 or 3 in a DELEGATED granule.
    ///
    /// `ipa` is the first IPA granule that the table serves. RMM 1.0, RMI_RTT_CREATE. The error is RMI_ERROR_INPUT if
    /// `rd` is not an RD, `table` is not DELEGATED, or `ipa` is not protected. The error is the same if `level` is not
    /// 2 or 3, or no table of that level can start at `ipa`. The error is RMI_ERROR_RTT, with the level at which the
    /// walk ended, unless that is the level above and the entry there is not TABLE.
    pub fn rtt_create(&mut self, rd: Gran, table: Gran, ipa: u32, level: u8) -> Result<(), Rmi>
        requires rd_taken { IsTaken self.old rd }
        requires table_taken { IsTaken self.old table }
        ensures answer { Answers result (command.rtt_create (seen_in self.old rd) (seen_in self.old table) ipa level) }
        ensures machine { self.new
            ≡ after_command (command.rtt_create (seen_in self.old rd) (seen_in self.old table) ipa level) self.old }
    {
        let Some(level) = table_level(ipa, level) else {
            return Err(Rmi::INPUT);
        };
        let (tables, ipa) = self.locate(rd, ipa)?;
        if !is_delegated(&self.granules, table) {
            return Err(Rmi::INPUT);
        }
        tables.create_table(&mut self.store, &mut self.granules, table, ipa, level)?;
        Ok(())
    }

    /// Destroys a realm's table of level 2 or 3. Its granule is cleared and becomes DELEGATED.
    ///
    /// `ipa` is the first IPA granule that the table serves. RMM 1.0, RMI_RTT_DESTROY.
    ///
    /// The error is RMI_ERROR_INPUT if `rd` is not an RD, `level` is not 2 or 3, no table of that level can start at
    /// `ipa`, or `ipa` is not protected. The error is RMI_ERROR_RTT, with the level at which the walk ended, unless
    /// that is the level above and the entry there is TABLE. In that case, it is RMI_ERROR_RTT, with `level`, if an
    /// entry of the table is ASSIGNED or TABLE.
    pub fn rtt_destroy(&mut self, rd: Gran, ipa: u32, level: u8) -> Result<(), Rmi>
        requires { IsTaken self.old rd }
        ensures answer { Answers result (command.rtt_destroy (seen_in self.old rd) ipa level) }
        ensures machine { self.new ≡ after_command (command.rtt_destroy (seen_in self.old rd) ipa level) self.old }
    {
        let Some(level) = table_level(ipa, level) else {
            return Err(Rmi::INPUT);
        };
        let (tables, ipa) = self.locate(rd, ipa)?;
        tables.destroy_table(&mut self.store, &mut self.granules, ipa, level)?;
        Ok(())
    }

    /// Sets the RIPAS of `count` IPA granules of a NEW realm to RAM. The granules are those from `ipa` on, and all or
    /// none of them are set. The realm's measurement is extended.
    ///
    /// RMM 1.0, RMI_RTT_INIT_RIPAS. The error is RMI_ERROR_INPUT if `rd` is not an RD, `count` is not 1 to 512, no
    /// table of level 3 can serve them all, or `ipa` is not protected. The error is RMI_ERROR_REALM if the realm is not
    /// NEW. The error is RMI_ERROR_RTT, with the level at which the walk ended, unless that is 3 and all the entries
    /// are UNASSIGNED.
    pub fn rtt_init_ripas(&mut self, rd: Gran, ipa: u32, count: u16) -> Result<(), Rmi>
        requires { IsTaken self.old rd }
        ensures answer { Answers result (command.rtt_init_ripas (seen_in self.old rd) ipa count) }
        ensures machine { self.new ≡ after_command (command.rtt_init_ripas (seen_in self.old rd) ipa count) self.old }
    {
        let (tables, first) = self.check_run(rd, ipa, count)?;
        tables.init_ripas(&mut self.store, &self.granules, first, count)?;
        measure(
            &mut self.realms[rd.number() as usize],
            &ripas_event(first, count),
        );
        Ok(())
    }

    // Checks the operands of `rtt_init_ripas`, and returns the realm's tables and the first IPA granule, or the
    // refusal.
    fn check_run(&self, rd: Gran, ipa: u32, count: u16) -> Result<(Tables, IpaGran), Rmi>
        requires { IsTaken self.now rd }
        ensures ok { IfOk result (λ at. LocatesNew self.now.machine rd ipa at × (is_page_run ipa count ≡ true)) }
        ensures err { IfErr result (λ e. command.rtt_init_ripas (seen_in self.now rd) ipa count ≡ Err e) }
    {
        let Some(realm) = &self.realms[rd.number() as usize] else {
            return Err(Rmi::INPUT);
        };
        let Some(at) = located_run(rd, realm, ipa, count) else {
            return Err(Rmi::INPUT);
        };
        if !realm.is_new() {
            return Err(Rmi::REALM);
        }
        Ok(at)
    }
}
