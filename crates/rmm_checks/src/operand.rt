//! Checks on operands that are addresses of granules.
ghost use Rattle.std.specs.Prelude.{◌≡◌, ◌+◌, ◌<◌, ◌≤◌, length, IfSome, IfNone};
ghost use Rattle.rmm_model.specs.Machine as machine;
ghost use Rattle.rmm_model.specs.Machine.{granule_count, granule_at, number_of};
ghost use Rattle.rmm_model.specs.Command.Operand as operands;
ghost use Rattle.rmm_checks.specs.Evaluated.{Adds};

use crate::EvaluatedChecks;
use granule_addr::Gran;
use page_arena::PageStore;
use rmm_granules::{Granules, OperandConditions};
use rmm_model::{Condition, RmmGranuleState};

// ---- granules

// Whether a granule begins at an address.
pub fn is_aligned(address: u64) -> bool
    ensures { result ≡ machine.is_aligned address }
{
    address % 4096 == 0
}

// The number of the granule that an address lies in; 0 for an address below the first granule.
#[tactic(auto, unfolding(rmm_model::specs::Machine::number_of))]
pub fn number_at<S: PageStore>(granules: &Granules<S>, address: u64) -> u64
    ensures { result ≡ number_of granules.now address }
{
    address.saturating_sub(granules.settings().base) / 4096
}

// The granule that an address lies in, if the machine has it.
pub fn covering<S: PageStore>(granules: &Granules<S>, address: u64) -> Option<Gran>
    ensures number { IfSome result (λ granule. granule ≡ number_of granules.now address) }
    ensures inside { IfSome result (λ granule. granule < granule_count granules.now) }
    ensures outside { IfNone result (granule_count granules.now ≤ number_of granules.now address) }
{
    let number = number_at(granules, address);
    if number < granules.count() as u64 {
        Some(Gran::from_number(number as u16))
    } else {
        None
    }
}

// The state of the granule that an address lies in; UNDELEGATED for an address outside the machine.
#[tactic(auto, using(crate::proofs::Outside::outside))]
pub fn state_at<S: PageStore>(granules: &Granules<S>, address: u64) -> RmmGranuleState
    ensures { result ≡ machine.state_at granules.now address }
{
    match covering(granules, address) {
        Some(granule) => granules.state(granule),
        None => RmmGranuleState::Undelegated,
    }
}

// The RD of the realm that owns the granule at an address; `None` for an address outside the machine.
#[tactic(auto, using(crate::proofs::Outside::outside))]
pub fn owner_at<S: PageStore>(granules: &Granules<S>, address: u64) -> Option<Gran>
    ensures { result ≡ (granule_at granules.now (number_of granules.now address)).owner }
{
    match covering(granules, address) {
        Some(granule) => granules.owner(granule),
        None => None,
    }
}

// Whether the granule at an address is UNDELEGATED, and not in the Secure physical address space.
pub fn is_host<S: PageStore>(granules: &Granules<S>, address: u64) -> bool
    ensures { result ≡ operands.is_host_s granules.now address }
{
    state_at(granules, address).is_undelegated() && !granules.is_secure(address)
}

// ---- checks

// Adds the checks that a granule of the machine begins at an address.
pub fn add_address<S: PageStore>(
    checks: &mut EvaluatedChecks,
    granules: &Granules<S>,
    align: Condition,
    bound: Condition,
    address: u64,
)
    requires room { length checks.old + 2 ≤ 18 }
    ensures rows { Adds checks.old (operands.address_checks align bound granules.now address) checks.new }
    ensures length { length checks.new ≡ length checks.old + 2 }
{
    checks.input(align, &[], !is_aligned(address));
    checks.input(bound, &[align], !granules.is_inside(address));
}

// Adds the checks that a DELEGATED granule begins at an address.
pub fn add_delegated<S: PageStore>(
    checks: &mut EvaluatedChecks,
    granules: &Granules<S>,
    conditions: OperandConditions,
    address: u64,
)
    requires room { length checks.old + 3 ≤ 18 }
    ensures rows { Adds checks.old
        (operands.delegated_checks conditions.align conditions.bound conditions.state granules.now address) checks.new }
    ensures length { length checks.new ≡ length checks.old + 3 }
{
    add_address(
        checks,
        granules,
        conditions.align,
        conditions.bound,
        address,
    );
    let state = state_at(granules, address);
    checks.input(conditions.state, &[conditions.bound], !state.is_delegated());
}

// Adds the checks that a granule of the host begins at an address.
pub fn add_host<S: PageStore>(
    checks: &mut EvaluatedChecks,
    granules: &Granules<S>,
    conditions: OperandConditions,
    address: u64,
)
    requires room { length checks.old + 3 ≤ 18 }
    ensures rows { Adds checks.old
        (operands.host_checks conditions.align conditions.bound conditions.state granules.now address) checks.new }
    ensures length { length checks.new ≡ length checks.old + 3 }
{
    add_address(
        checks,
        granules,
        conditions.align,
        conditions.bound,
        address,
    );
    checks.input(
        conditions.state,
        &[conditions.bound],
        !is_host(granules, address),
    );
}
