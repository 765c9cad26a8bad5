//! The operations that activate a realm, or change its tables, pages or RECs.
ghost use Rattle.std.specs.Prelude.{◌≡◌, Some, true, is_some};
ghost use Rattle.rmi_monitor.specs.View.{Answers, after_command};
ghost use Rattle.rmi_monitor.specs.Performing.{IsReady, is_in_realm, outcome_on, IsDone};
ghost use Rattle.realm_model.specs.Places.{rec_named};

use crate::Monitor;
use granule_addr::Gran;
use page_arena::PageStore;
use realm_model::{Act, Rmi, clone_granules};

// Activates a realm, or performs an operation on its tables, pages or RECs. If the operation names a REC, `rec` is the
// REC's granule, or `None` if there is no such REC.
#[tactic(auto, unfolding(realm_model::specs::Act::named, realm_model::specs::Outcome::outcome_of))]
pub(crate) fn in_realm<S: PageStore>(
    monitor: &mut Monitor<S>,
    rd: Gran,
    rec: Option<Gran>,
    act: &Act,
) -> Result<(), Rmi>
    requires ready { IsReady monitor.old (record { realm = Some rd; rec = rec }) act.now }
    requires kind { is_in_realm act.now ≡ true }
    ensures answer { Answers result (outcome_on monitor.old (Some rd) act.now) }
    ensures machine { monitor.new ≡ after_command (outcome_on monitor.old (Some rd) act.now) monitor.old }
{
    match act {
        Act::Activate => monitor.realm_activate(rd),
        Act::Rtt {
            granule,
            ipa,
            level,
        } => monitor.rtt_create(rd, *granule, ipa.number(), level.number()),
        Act::UnRtt { ipa, level, .. } => monitor.rtt_destroy(rd, ipa.number(), level.number()),
        Act::Ripas { ipa, count } => monitor.rtt_init_ripas(rd, ipa.number(), *count),
        Act::Data {
            granule,
            ipa,
            source,
        } => monitor.data_create(rd, *granule, ipa.number(), *source),
        Act::Unknown { granule, ipa } => monitor.data_create_unknown(rd, *granule, ipa.number()),
        Act::UnData { ipa, .. } => monitor.data_destroy(rd, ipa.number()),
        Act::Rec {
            granule,
            auxiliaries,
            ..
        } => match monitor.rec_create(rd, *granule, clone_granules(auxiliaries)) {
            Ok(_) => Ok(()),
            Err(rmi) => Err(rmi),
        },
        _ => match rec {
            Some(rec) => on_rec(monitor, rd, rec, act),
            None => Err(Rmi::INPUT),
        },
    }
}

// Performs an operation on the realm's REC whose granule is `rec`.
#[tactic(auto, unfolding(realm_model::specs::Act::named, realm_model::specs::Outcome::outcome_of))]
pub(crate) fn on_rec<S: PageStore>(
    monitor: &mut Monitor<S>,
    rd: Gran,
    rec: Gran,
    act: &Act,
) -> Result<(), Rmi>
    requires ready { IsReady monitor.old (record { realm = Some rd; rec = Some rec }) act.now }
    requires kind { is_some (rec_named act.now) ≡ true }
    ensures { IsDone monitor.old (outcome_on monitor.old (Some rd) act.now) result monitor.new }
{
    match act {
        Act::UnRec { .. } => monitor.rec_destroy(rec),
        Act::Enter { .. } => monitor.rec_enter(rec),
        Act::Exit { .. } => monitor.rec_exit(rec),
        Act::Poke {
            ipa,
            offset,
            value,
            ..
        } => monitor.guest_write(rec, ipa.number(), *offset, *value),
        _ => unreachable!(),
    }
}
