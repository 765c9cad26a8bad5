//! The registers of an RMI call, and those of its result.
ghost use Rattle.std.specs.Prelude.{◌≡◌};
ghost use Rattle.rmi_abi.specs.Answer as answers;

use crate::Word;

/// The registers X0 to X6 of a call. SMCCC 1.2.
#[derive(Clone, Copy)]
pub struct Registers {
    pub x0: u64,
    pub x1: u64,
    pub x2: u64,
    pub x3: u64,
    pub x4: u64,
    pub x5: u64,
    pub x6: u64,
}

/// The result word of an RMI command, and its outputs X1 to X4.
#[derive(Clone, Copy)]
pub struct SmcResult {
    pub word: Word,
    pub x1: u64,
    pub x2: u64,
    pub x3: u64,
    pub x4: u64,
}

impl SmcResult {
    /// Returns the result with the given result word, and 0 in all outputs.
    pub fn only(word: Word) -> SmcResult
        ensures { result ≡ answers.only word }
    {
        SmcResult {
            word,
            x1: 0,
            x2: 0,
            x3: 0,
            x4: 0,
        }
    }
}

/// Returns the registers after an RMI call with the given result. X0 to X4 have the answer, and X5 and X6 are
/// unchanged.
pub fn answer_registers(regs: Registers, answer: SmcResult) -> Registers
    ensures { result ≡ answers.with_answer regs answer }
{
    Registers {
        x0: answer.word.number(),
        x1: answer.x1,
        x2: answer.x2,
        x3: answer.x3,
        x4: answer.x4,
        x5: regs.x5,
        x6: regs.x6,
    }
}

/// Returns the registers after an SMC call of an unknown function. X0 is -1, NOT_SUPPORTED. SMCCC 1.2.
pub fn unknown_registers(regs: Registers) -> Registers
    ensures { result ≡ answers.not_supported regs }
{
    Registers {
        x0: u64::MAX,
        ..regs
    }
}
