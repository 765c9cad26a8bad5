//! Operations on an RMM: RMI calls, the host's writes to memory, and steps of a guest's program.
use page_arena::PlainStore;
use rmi_abi::Registers;
use rmm::Rmm;
use rmm_model::{Queued, StepWords};

/// A call, a memory write, or a guest's step, as an operation on an RMM.
#[derive(Clone, Copy)]
pub(crate) enum Operation {
    Call(Registers),
    Store { address: u64, word: u64 },
    Guest { rec: u64, step: StepWords },
}

// The registers X0 to X6, set to seven numbers.
fn registers(n: &[u64; 7]) -> Registers {
    Registers {
        x0: n[0],
        x1: n[1],
        x2: n[2],
        x3: n[3],
        x4: n[4],
        x5: n[5],
        x6: n[6],
    }
}

// A sum of the registers X0 to X4, each with a different weight.
fn sum_of(r: &Registers) -> u64 {
    r.x0.wrapping_add(r.x1.wrapping_mul(3))
        .wrapping_add(r.x2.wrapping_mul(5))
        .wrapping_add(r.x3.wrapping_mul(7))
        .wrapping_add(r.x4.wrapping_mul(9))
}

impl Operation {
    /// Creates the operation with the given kind and numbers. The result is `None` if the kind is unknown.
    pub(crate) fn new(kind: &str, n: &[u64; 7]) -> Option<Operation> {
        match kind {
            "smc" => Some(Operation::Call(registers(n))),
            "store" => Some(Operation::Store {
                address: n[0],
                word: n[1],
            }),
            "guest" => Some(Operation::Guest {
                rec: n[0],
                step: StepWords {
                    kind: n[1],
                    a: n[2],
                    b: n[3],
                    c: n[4],
                    d: n[5],
                },
            }),
            _ => None,
        }
    }

    // Performs the operation, and returns a number that depends on all its results.
    fn result(&self, rmm: &mut Rmm<PlainStore>) -> u64 {
        match self {
            Operation::Call(registers) => sum_of(&rmm.smc(*registers)),
            Operation::Store { address, word } => u64::from(rmm.store(*address, *word)),
            Operation::Guest { rec, step } => match rmm.guest(*rec, step) {
                Queued::Queued => 0,
                Queued::Full => 1,
                Queued::NoRec => 2,
            },
        }
    }
}

/// Performs operations on an RMM, one after another. Returns a checksum of `before` and the operations' results.
pub(crate) fn perform(rmm: &mut Rmm<PlainStore>, operations: &[Operation], before: u64) -> u64 {
    let mut sum = before;
    for operation in operations {
        sum = sum.wrapping_mul(31).wrapping_add(operation.result(rmm));
    }
    sum
}
