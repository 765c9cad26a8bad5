//! Functions that repeat an RMI call or a page fill, as a trace requests. The first repetition that does not succeed is
//! the last.
ghost use Rattle.std.specs.Prelude.{◌≡◌};
ghost use Rattle.rmm_answers.specs.Rounds as rounds;

use crate::call::registers_at;
use page_arena::PageStore;
use rmi_abi::Registers;
use rmm::Rmm;
use rmm_trace::{TraceWord, operand};

// The number of a call's last repetition, and the registers after that repetition.
#[derive(Clone, Copy)]
pub struct LastCall {
    pub round: u64,
    pub after: Registers,
}

// Performs a call once and up to `more` further times, until X0 is not RMI_SUCCESS.
#[tactic(auto, unfolding(crate::specs::Rounds::performed_rounds))]
pub(crate) fn perform_rounds<S: PageStore>(
    rmm: &mut Rmm<S>,
    call: &[TraceWord],
    more: u64,
) -> LastCall
    ensures { (result, rmm.new) ≡ rounds.performed_rounds more call.now rmm.old }
{
    let mut left = more;
    let mut round = 0;
    let mut after = rmm.smc(registers_at(call, 0));
    'rounds: while left > 0 {
        if after.x0 != 0 {
            break;
        }
        left -= 1;
        round += 1;
        after = rmm.smc(registers_at(call, round));
    }
    LastCall { round, after }
}

// Fills the page of one repetition. Returns whether the host may write the page.
#[tactic(auto, unfolding(crate::specs::Rounds::filled))]
fn fill_round<S: PageStore>(rmm: &mut Rmm<S>, operands: &[TraceWord], round: u64) -> bool
    ensures { (result, rmm.new) ≡ rounds.filled operands.now round rmm.old }
{
    let value = operand(operands, 1, round) % 0x100;
    rmm.fill(operand(operands, 0, round), value as u8)
}

// Fills one page and up to `more` further pages, until a fill faults. Returns the number of the last repetition, and
// whether its fill is done.
#[tactic(auto, unfolding(crate::specs::Rounds::filled_rounds))]
pub(crate) fn fill_rounds<S: PageStore>(
    rmm: &mut Rmm<S>,
    operands: &[TraceWord],
    more: u64,
) -> (u64, bool)
    ensures { (result.0, result.1, rmm.new) ≡ rounds.filled_rounds more operands.now rmm.old }
{
    let mut left = more;
    let mut round = 0;
    let mut is_done = fill_round(rmm, operands, 0);
    'rounds: while left > 0 {
        if is_done {
            left -= 1;
            round += 1;
            is_done = fill_round(rmm, operands, round);
        } else {
            break;
        }
    }
    (round, is_done)
}
