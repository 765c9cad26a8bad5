//! Functions that find granules and realms, and compare the owners of granules.
ghost use Rattle.std.specs.Prelude.{◌≡◌, ◌+◌, ◌<◌, IfSome};
ghost use Rattle.rmm_model.specs.Granule.{realm_of};
ghost use Rattle.rmm_model.specs.Machine.{granule_count, granule_at};
ghost use Rattle.rmm_model.specs.Realm.{IsServed};
ghost use Rattle.rmm_model.specs.Walk as walks;
ghost use Rattle.rmm_model.specs.Command.PsciComplete as completing;

use crate::Granules;
use granule_addr::Gran;
use page_arena::PageStore;
use rmm_model::RmmRealm;

/// Returns the granule whose number is `k` above that of `first`.
pub fn granule_after(first: Gran, k: u16) -> Gran
    requires { first + k < 4096 }
    ensures { result ≡ first + k }
{
    Gran::from_number(first.number() + k)
}

/// Returns the granule that contains an address, or `None` if the address is outside the machine.
#[tactic(auto, unfolding(rmm_model::specs::Walk::granule_named))]
pub fn granule_named<S: PageStore>(granules: &Granules<S>, address: u64) -> Option<Gran>
    ensures value { result ≡ walks.granule_named granules.now address }
    ensures inside { IfSome result (λ granule. granule < granule_count granules.now) }
{
    if granules.is_inside(address) {
        Some(granules.number_of(address))
    } else {
        None
    }
}

/// Returns the attributes of the realm whose RD is granule `rd`, or `None` if `rd` is not an RD, or is not in the
/// machine.
pub fn realm_in<S: PageStore>(granules: &Granules<S>, rd: Gran) -> Option<RmmRealm>
    ensures value { result ≡ realm_of (granule_at granules.now rd).state }
    ensures inside { IfSome result (λ _. rd < granule_count granules.now) }
    ensures served { IfSome result (IsServed (granule_count granules.now)) }
{
    if rd.number() < granules.count() {
        granules.realm(rd)
    } else {
        None
    }
}

/// Returns whether two owners of granules are the same RD, or are both absent.
pub fn is_same_owner(a: Option<Gran>, b: Option<Gran>) -> bool
    ensures { result ≡ completing.is_same_owner a b }
{
    match a {
        Some(first) => match b {
            Some(second) => first == second,
            None => false,
        },
        None => b.is_none(),
    }
}
