//! Checks on REC operands, and the checks of RMI_REC_DESTROY.
ghost use Rattle.std.specs.Prelude.{◌≡◌, ◌+◌, ◌≤◌, length};
ghost use Rattle.rmm_model.specs.Granule.{rec_of as rec_in};
ghost use Rattle.rmm_model.specs.Machine as machine;
ghost use Rattle.rmm_model.specs.Command.Operand as operands;
ghost use Rattle.rmm_model.specs.Command.RecDestroy.{rec_destroy as destroying};
ghost use Rattle.rmm_checks.specs.Evaluated.{Adds, evaluated};

use crate::EvaluatedChecks;
use crate::operand::{add_address, state_at};
use page_arena::PageStore;
use rmm_granules::{Granules, OperandConditions};
use rmm_model::{Condition, RmmRec};

// The REC at an address, if there is one.
pub fn rec_named<S: PageStore>(granules: &Granules<S>, address: u64) -> Option<RmmRec>
    ensures { result ≡ rec_in (machine.state_at granules.now address) }
{
    state_at(granules, address).rec()
}

// The REC at an address; if there is none, a new REC that is not runnable.
pub fn rec_at<S: PageStore>(granules: &Granules<S>, address: u64) -> RmmRec
    ensures { result ≡ operands.rec_at granules.now address }
{
    match rec_named(granules, address) {
        Some(rec) => rec,
        None => RmmRec::new(false, 0),
    }
}

// Adds the checks that an address is the address of a REC.
pub fn add_rec<S: PageStore>(
    checks: &mut EvaluatedChecks,
    granules: &Granules<S>,
    conditions: OperandConditions,
    address: u64,
)
    requires room { length checks.old + 3 ≤ 18 }
    ensures rows { Adds checks.old
        (operands.rec_checks conditions.align conditions.bound conditions.state granules.now address) checks.new }
    ensures length { length checks.new ≡ length checks.old + 3 }
{
    add_address(
        checks,
        granules,
        conditions.align,
        conditions.bound,
        address,
    );
    let rec = rec_named(granules, address);
    checks.input(conditions.state, &[conditions.bound], rec.is_none());
}

// The checks of RMI_REC_DESTROY.
pub fn rec_destroy<S: PageStore>(granules: &Granules<S>, rec: u64) -> EvaluatedChecks
    ensures { result ≡ evaluated (destroying rec granules.now).checks }
{
    let mut checks = EvaluatedChecks::new();
    add_rec(&mut checks, granules, OperandConditions::REC, rec);
    let found = rec_at(granules, rec);
    checks.rec(
        Condition::RecState,
        &[Condition::RecGranState],
        found.is_running(),
    );
    checks
}
