//! The reverses of operations, such as UnTake, which undoes Take.
ghost use Rattle.std.specs.Prelude.{◌≡◌, ◌↔◌, Some, true};
ghost use Rattle.realm_model.specs.Act as acts;

use realm_model::{Act, clone_granules};

/// Returns the reverse of an operation, if the operation has one. The two kinds of data operations have the same
/// reverse.
#[tactic(auto, unfolding(realm_model::specs::Act::reverse_of))]
pub fn reverse_of(act: &Act) -> Option<Act>
    ensures { result ≡ acts.reverse_of act.now }
{
    match act {
        Act::Take { order, first } => Some(Act::UnTake {
            order: *order,
            first: *first,
        }),
        Act::Delegate { granule } => Some(Act::Undelegate { granule: *granule }),
        Act::Realm { rd, root, vmid } => Some(Act::UnRealm {
            rd: *rd,
            root: *root,
            vmid: *vmid,
        }),
        Act::Rtt {
            granule,
            ipa,
            level,
        } => Some(Act::UnRtt {
            granule: *granule,
            ipa: *ipa,
            level: *level,
        }),
        Act::Data { granule, ipa, .. } | Act::Unknown { granule, ipa } => {
            Some(Act::UnData {
                granule: *granule,
                ipa: *ipa,
            })
        }
        Act::Rec {
            granule,
            auxiliaries,
            number,
        } => Some(Act::UnRec {
            granule: *granule,
            auxiliaries: clone_granules(auxiliaries),
            number: *number,
        }),
        _ => None,
    }
}

/// Returns whether `back` is the reverse of `act`.
pub fn takes_back(back: &Act, act: &Act) -> bool
    ensures { (result ≡ true) ↔ (acts.reverse_of act.now ≡ Some back.now) }
{
    match reverse_of(act) {
        Some(reverse) => reverse.is_same(back),
        None => false,
    }
}
