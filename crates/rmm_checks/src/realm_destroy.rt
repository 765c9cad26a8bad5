//! The checks of RMI_REALM_DESTROY.
ghost use Rattle.std.specs.Prelude.{◌≡◌};
ghost use Rattle.rmm_model.specs.Command.Operand.{realm_at};
ghost use Rattle.rmm_model.specs.Command.RealmDestroy as command;
ghost use Rattle.rmm_checks.specs.Evaluated.{evaluated};

use crate::EvaluatedChecks;
use crate::realm::{add_rd, realm_named};
use page_arena::PageStore;
use rmm_granules::{Granules, is_realm_live};
use rmm_model::Condition;

// Whether the realm of an RD has a REC or a live entry; false if there is no realm.
#[tactic(auto, unfolding(rmm_model::specs::Command::RealmDestroy::is_realm_live, rmm_model::specs::Command::RealmDestroy::has_live_table))]
fn is_live_at<S: PageStore>(granules: &Granules<S>, rd: u64) -> bool
    ensures { result ≡ command.is_realm_live granules.now (realm_at granules.now rd) }
{
    match realm_named(granules, rd) {
        Some(realm) => is_realm_live(granules, &realm),
        None => false,
    }
}

// The checks of RMI_REALM_DESTROY.
pub fn realm_destroy<S: PageStore>(granules: &Granules<S>, rd: u64) -> EvaluatedChecks
    ensures { result ≡ evaluated (command.realm_destroy rd granules.now).checks }
{
    let mut checks = EvaluatedChecks::new();
    add_rd(&mut checks, granules, rd);
    let is_live = is_live_at(granules, rd);
    checks.realm(Condition::RealmLive, &[Condition::RdState], is_live);
    checks
}
