//! The command RMI_RTT_SET_RIPAS.
ghost use Rattle.std.specs.Prelude.{◌≡◌, ◌^◌, ◌<◌, ◌≤◌, IfOk, OnOk};
ghost use Rattle.rmm_model.specs.Check.{outcome, first_failing, refusal_in};
ghost use Rattle.rmm_model.specs.Machine.{granule_count, number_of};
ghost use Rattle.rmm_model.specs.Command.RttSetRipas as command;
ghost use Rattle.rmm.specs.CheckedOperands.{IsRequestedRange};

use crate::operand::{Rd, is_protected, realm_of};
use crate::rec::{NamedRec, error_rec, rec_of};
use crate::ripas_range::{change_count, check_progress, check_size, write_ripas};
use granule_addr::Gran;
use page_arena::PageStore;
use rmi_abi::{SmcResult, Word};
use rmm_granules::{Granules, OperandConditions, RecEdit, is_same_owner, set_changeable, walk};
use rmm_model::{
    Condition, FailedCondition, RipasRequest, RmmRealm, RmmRec, RttWalk, entry_index, entry_size,
    error_input,
};

// A range whose RIPAS a REC asked to change, and the table with the range's first entry.
#[derive(Clone, Copy)]
pub struct RequestedRange {
    pub granule: Gran,
    pub request: RipasRequest,
    pub found: RttWalk,
}

// Whether a range ends within the range that a REC asked to change. A range that has addresses also has to begin at a
// protected one, if the REC is one of the realm.
fn is_within(realm: &RmmRealm, asking: &RmmRec, is_owner: bool, base: u64, top: u64) -> bool
    requires { realm.now.s2sz ≤ 48 }
    ensures { result ≡ command.is_within realm.now asking.now is_owner base top }
{
    top <= asking.ripas.top && (!is_owner || top <= base || is_protected(realm, base))
}

// Whether a REC belongs to the realm of an RD.
fn is_rec_of<S: PageStore>(
    granules: &Granules<S>,
    owner: &Rd,
    asking: &NamedRec,
    rd: u64,
    rec: u64,
) -> bool
    requires inside { asking.now.granule < granule_count granules.now }
    requires owner { owner.now.granule ≡ number_of granules.now rd }
    requires asking { asking.now.granule ≡ number_of granules.now rec }
    ensures { result ≡ command.is_rec_of granules.now rd rec }
{
    is_same_owner(granules.owner(asking.granule), Some(owner.granule))
}

// Checks that a REC belongs to the realm and does not run, and that it asked to change a range.
#[tactic(auto, unfolding(rmm_model::specs::Command::RttSetRipas::ripas_request_checks))]
fn check_request(
    realm: &RmmRealm,
    asking: &RmmRec,
    is_owner: bool,
    base: u64,
    top: u64,
) -> Result<(), FailedCondition>
    requires width { realm.now.s2sz ≤ 48 }
    requires size { base < top }
    ensures refusal { refusal_in result
        ≡ first_failing (command.ripas_request_checks realm.now asking.now is_owner base top) }
    ensures in_space { OnOk result (base < 2 ^ realm.now.s2sz) }
    ensures low { OnOk result (base < 2 ^ 48) }
{
    if top % 4096 != 0 {
        return Err(error_input(Condition::TopGranAlign));
    }
    if asking.is_running() {
        return Err(error_rec(Condition::RecState));
    }
    if !is_owner {
        return Err(error_rec(Condition::RecOwner));
    }
    if base != asking.ripas.base {
        return Err(error_input(Condition::BaseBound));
    }
    if !is_within(realm, asking, is_owner, base, top) {
        return Err(error_input(Condition::TopBound));
    }
    Ok(())
}

// Returns the range that RMI_RTT_SET_RIPAS changes, or the failed condition.
fn find_range<S: PageStore>(
    granules: &Granules<S>,
    rd: u64,
    rec: u64,
    base: u64,
    top: u64,
) -> Result<RequestedRange, FailedCondition>
    ensures refusal { refusal_in result
        ≡ first_failing (command.rtt_set_ripas rd rec base top granules.now).checks }
    ensures found { IfOk result (IsRequestedRange granules.now rd rec base) }
    ensures size { OnOk result (base < top) }
{
    check_size(base, top)?;
    let owner = realm_of(granules, rd)?;
    let asking = rec_of(granules, rec, OperandConditions::REC)?;
    let is_owner = is_rec_of(granules, &owner, &asking, rd, rec);
    check_request(&owner.realm, &asking.rec, is_owner, base, top)?;
    let found = walk(granules, &owner.realm, base, 3);
    check_progress(
        granules,
        set_changeable(&asking.rec.ripas),
        &found,
        base,
        top,
    )?;
    Ok(RequestedRange {
        granule: asking.granule,
        request: asking.rec.ripas,
        found,
    })
}

// Performs RMI_RTT_SET_RIPAS.
#[inline(never)]
#[tactic(auto, unfolding(rmm_model::specs::Command::RttSetRipas::rtt_set_ripas))]
pub fn rtt_set_ripas<S: PageStore>(
    granules: &mut Granules<S>,
    rd: u64,
    rec: u64,
    base: u64,
    top: u64,
) -> SmcResult
    ensures answer { result
        ≡ (outcome (command.rtt_set_ripas rd rec base top granules.old) granules.old).0 }
    ensures machine { granules.new
        ≡ (outcome (command.rtt_set_ripas rd rec base top granules.old) granules.old).1 }
{
    match find_range(granules, rd, rec, base, top) {
        Ok(range) => {
            let request = range.request;
            let count = change_count(granules, set_changeable(&request), &range.found, base, top);
            let stop = base + count as u64 * entry_size(range.found.level);
            let first = entry_index(range.found.level, base);
            write_ripas(granules, &range.found, first, request.ripas, count);
            let rest = RipasRequest {
                base: stop,
                ..request
            };
            granules.edit_rec(range.granule, RecEdit::Ripas(rest));
            SmcResult {
                x1: stop,
                ..SmcResult::only(Word::Success)
            }
        }
        Err(refusal) => refusal.into_answer(),
    }
}
