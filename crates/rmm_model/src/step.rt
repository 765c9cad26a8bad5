//! The steps of guests' programs, and their results.
ghost use Rattle.std.specs.Prelude.{◌≡◌, ◌<◌, length};
ghost use Rattle.rmm_model.specs.Guest as guests;

use crate::{AccessSize, LastExit};
use page_arena::word_in;
use rmi_abi::RecExit;

/// A step of a simulated guest, such as a memory access, an RSI call or a wait. Simulated guests are this RMM's own.
#[derive(Clone, Copy)]
pub enum GuestStep {
    Write {
        ipa: u64,
        value: u64,
        size: AccessSize,
    },
    Read {
        ipa: u64,
        size: AccessSize,
    },
    Fetch {
        ipa: u64,
    },
    HostCall {
        imm: u64,
        gpr0: u64,
        gpr1: u64,
        gpr2: u64,
    },
    SetRipas {
        base: u64,
        top: u64,
        ripas: u64,
        flags: u64,
    },
    CpuOn {
        target: u64,
        entry_point: u64,
        context: u64,
    },
    AffinityInfo {
        target: u64,
        level: u64,
    },
    CpuOff,
    CpuSuspend,
    SystemOff,
    SystemReset,
    Wfi,
    Wfe,
    SystemRegister {
        iss: u64,
        value: u64,
    },
    Spin,
}

/// The result of a guest's step, as the guest sees it.
#[derive(Clone, Copy)]
pub enum StepResult {
    Done,
    Read(u64),
    /// A synchronous external abort.
    Sea,
    Psci(u64),
    RsiErrorInput,
    /// An accepted change of RIPAS, and the address that the change reached.
    Accepted(u64),
    Rejected(u64),
    /// The host's answer to a host call.
    Returned(u64),
}

/// The outcome of a guest's step: a result, an exit, or a guest that spins until it is interrupted.
#[derive(Clone, Copy)]
pub enum StepOutcome {
    Result(StepResult),
    Exit(RecExit, LastExit),
    Spin,
}

/// The outcome of queuing a guest's step.
#[derive(Clone, Copy)]
pub enum Queued {
    Queued,
    Full,
    NoRec,
}

/// The words that encode a guest's step: its kind, and four operands.
#[derive(Clone, Copy)]
pub struct StepWords {
    pub kind: u64,
    pub a: u64,
    pub b: u64,
    pub c: u64,
    pub d: u64,
}

impl StepWords {
    /// Returns the guest step that the words encode, or `Spin` if the kind is unknown.
    pub fn step(&self) -> GuestStep
        ensures { result ≡ guests.step_of self.now }
    {
        let (a, b, c, d) = (self.a, self.b, self.c, self.d);
        match self.kind {
            0 => GuestStep::Write {
                ipa: a,
                value: b,
                size: AccessSize::of(c),
            },
            1 => GuestStep::Read {
                ipa: a,
                size: AccessSize::of(b),
            },
            2 => GuestStep::HostCall {
                imm: a,
                gpr0: b,
                gpr1: c,
                gpr2: d,
            },
            3 => GuestStep::SetRipas {
                base: a,
                top: b,
                ripas: c,
                flags: d,
            },
            4 => GuestStep::CpuOn {
                target: a,
                entry_point: b,
                context: c,
            },
            5 => GuestStep::AffinityInfo {
                target: a,
                level: b,
            },
            6 => GuestStep::CpuOff,
            7 => GuestStep::CpuSuspend,
            8 => GuestStep::SystemOff,
            9 => GuestStep::SystemReset,
            10 => GuestStep::Wfi,
            11 => GuestStep::Wfe,
            13 => GuestStep::Fetch { ipa: a },
            14 => GuestStep::SystemRegister { iss: a, value: b },
            _ => GuestStep::Spin,
        }
    }

    /// Reads the words that encode one step of a REC's guest, at position `place` of the ring of steps in the REC's
    /// granule.
    #[tactic(auto, unfolding(crate::specs::Guest::words_at))]
    pub fn read(page: &[u8], place: u8) -> StepWords
        requires page { length page.now ≡ 4096 }
        requires below { place < 16 }
        ensures { result ≡ guests.words_at page.now place }
    {
        let first = 48 + 5 * place as usize;
        StepWords {
            kind: word_in(page, first),
            a: word_in(page, first + 1),
            b: word_in(page, first + 2),
            c: word_in(page, first + 3),
            d: word_in(page, first + 4),
        }
    }
}

impl StepResult {
    /// Returns the number that encodes the kind of the step result.
    pub fn code(&self) -> u64
        ensures { result ≡ guests.result_code self.now }
    {
        match self {
            StepResult::Done => 0,
            StepResult::Read(_) => 1,
            StepResult::Sea => 2,
            StepResult::Psci(_) => 6,
            StepResult::RsiErrorInput => 7,
            StepResult::Accepted(_) => 3,
            StepResult::Rejected(_) => 4,
            StepResult::Returned(_) => 5,
        }
    }

    /// Returns the value of the step result, or 0 for a result without a value.
    pub fn value(&self) -> u64
        ensures { result ≡ guests.result_value self.now }
    {
        match self {
            StepResult::Read(value) => *value,
            StepResult::Psci(value) => *value,
            StepResult::Accepted(value) => *value,
            StepResult::Rejected(value) => *value,
            StepResult::Returned(value) => *value,
            _ => 0,
        }
    }
}
