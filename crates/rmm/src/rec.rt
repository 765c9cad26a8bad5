//! The REC that an operand of an RMI command names by its address.
ghost use Rattle.std.specs.Prelude.{◌≡◌, ◌<◌, IfOk};
ghost use Rattle.rmm_model.specs.Check.{first_failing, refusal_in, error_rec};
ghost use Rattle.rmm_model.specs.Machine.{granule_count, number_of};
ghost use Rattle.rmm_model.specs.Command.Operand as operands;

use crate::operand::named;
use granule_addr::Gran;
use page_arena::PageStore;
use rmi_abi::{SmcResult, Word};
use rmm_granules::{Granules, OperandConditions};
use rmm_model::{Condition, FailedCondition, RmmRec, error_input};

// A REC and its granule.
#[derive(Clone, Copy)]
pub struct NamedRec {
    pub granule: Gran,
    pub rec: RmmRec,
}

// The refusal RMI_ERROR_REC for a failed condition.
pub fn error_rec(condition: Condition) -> FailedCondition
    ensures { result ≡ record { condition = condition; answer = error_rec } }
{
    FailedCondition {
        condition,
        answer: SmcResult::only(Word::ErrorRec),
    }
}

// Returns the REC that an address names, or the failed condition.
#[inline(always)]
pub fn rec_of<S: PageStore>(
    granules: &Granules<S>,
    address: u64,
    conditions: OperandConditions,
) -> Result<NamedRec, FailedCondition>
    ensures refusal { refusal_in result
        ≡ first_failing (operands.rec_checks conditions.align conditions.bound conditions.state granules.now address) }
    ensures number { IfOk result (λ found. found.granule ≡ number_of granules.now address) }
    ensures inside { IfOk result (λ found. found.granule < granule_count granules.now) }
    ensures rec { IfOk result (λ found. found.rec ≡ operands.rec_at granules.now address) }
{
    let granule = named(granules, address, conditions)?;
    match granules.rec(granule) {
        Some(rec) => Ok(NamedRec { granule, rec }),
        None => Err(error_input(conditions.state)),
    }
}
