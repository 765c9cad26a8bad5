//! The lookup of a realm's translation tables by its RD. It includes a check that a command's IPA granules are
//! protected.
ghost use Rattle.std.specs.Prelude.{◌≡◌, ◌&&◌, true, false, IfOk, IfErr, IfSome, IfNone};
ghost use Rattle.granule_addr.specs.Ipa.{is_protected_at};
ghost use Rattle.realm_model.specs.Rows.{is_page_run};
ghost use Rattle.realm_model.specs.Command.Check.{error_input};
ghost use Rattle.rmi_monitor.specs.View.{IsTaken};
ghost use Rattle.rmi_monitor.specs.Located.{IsLocated, Locates, IsNowhere};

use crate::inputs::{protected, protected_run};
use crate::places::tables_of;
use crate::{Monitor, RealmDesc};
use granule_addr::{Gran, IpaGran};
use page_arena::PageStore;
use realm_model::Rmi;
use rtt::Tables;

// The tables of the realm with RD `rd`, and IPA granule `ipa`, if that granule is protected in the realm.
pub(crate) fn located(rd: Gran, realm: &RealmDesc, ipa: u32) -> Option<(Tables, IpaGran)>
    ensures some { IfSome result (IsLocated realm.now rd ipa) }
    ensures none { IfNone result (is_protected_at ipa realm.now.root.width ≡ false) }
{
    let ipa = protected(ipa, realm.root().width)?;
    Some((tables_of(rd, realm), ipa))
}

// The tables of the realm with RD `rd`, and IPA granule `ipa`, if `protected_run` accepts the `count` granules from
// `ipa` on.
pub(crate) fn located_run(
    rd: Gran,
    realm: &RealmDesc,
    ipa: u32,
    count: u16,
) -> Option<(Tables, IpaGran)>
    ensures some { IfSome result (λ at. IsLocated realm.now rd ipa at × (is_page_run ipa count ≡ true)) }
    ensures none { IfNone result (is_page_run ipa count && is_protected_at ipa realm.now.root.width ≡ false) }
{
    let first = protected_run(ipa, count, realm.root().width)?;
    Some((tables_of(rd, realm), first))
}

impl<S: PageStore> Monitor<S> {
    // Returns the tables of the realm with RD `rd` and its protected IPA granule `ipa`, or RMI_ERROR_INPUT.
    pub(crate) fn locate(&self, rd: Gran, ipa: u32) -> Result<(Tables, IpaGran), Rmi>
        requires { IsTaken self.now rd }
        ensures ok { IfOk result (Locates self.now.machine rd ipa) }
        ensures err { IfErr result (λ e. (e ≡ error_input) × IsNowhere self.now.machine rd ipa) }
    {
        let Some(realm) = &self.realms[rd.number() as usize] else {
            return Err(Rmi::INPUT);
        };
        let Some(at) = located(rd, realm, ipa) else {
            return Err(Rmi::INPUT);
        };
        Ok(at)
    }
}
