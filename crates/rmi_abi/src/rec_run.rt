//! The values in a REC's run page: those for a REC entry, and those from a REC exit.
ghost use Rattle.std.specs.Prelude.{◌≡◌, ◌<◌, length};
ghost use Rattle.rmi_abi.specs.RecRun as runs;

use page_arena::word_in;

/// Functions that decode the flags of RMI_REC_ENTER. A host gives the flags in a run page. RMM 1.0, RmiRecEnterFlags.
pub struct EnterFlags;

impl EnterFlags {
    /// Returns the RMI_REC_ENTER flags in a REC's run page.
    pub fn read(page: &[u8]) -> u64
        requires { length page.now ≡ 4096 }
        ensures { result ≡ runs.flags_in page.now }
    {
        word_in(page, 0)
    }

    pub fn emulates_mmio(flags: u64) -> bool
        ensures { result ≡ runs.emulates_mmio flags }
    {
        flags % 2 == 1
    }

    pub fn injects_sea(flags: u64) -> bool
        ensures { result ≡ runs.injects_sea flags }
    {
        flags / 2 % 2 == 1
    }

    pub fn traps_wfi(flags: u64) -> bool
        ensures { result ≡ runs.traps_wfi flags }
    {
        flags / 4 % 2 == 1
    }

    pub fn traps_wfe(flags: u64) -> bool
        ensures { result ≡ runs.traps_wfe flags }
    {
        flags / 8 % 2 == 1
    }

    pub fn rejects_ripas(flags: u64) -> bool
        ensures { result ≡ runs.rejects_ripas flags }
    {
        flags / 16 % 2 == 1
    }
}

/// Returns the host's value for general-purpose register `k` at REC entry, from the run page. RMM 1.0, RmiRecEnter.
pub fn entry_gpr(page: &[u8], k: u8) -> u64
    requires page { length page.now ≡ 4096 }
    requires below { k < 31 }
    ensures { result ≡ runs.entry_gpr_in page.now k }
{
    word_in(page, 64 + k as usize)
}

/// The reason for an exit from a REC. RMM 1.0, RmiRecExitReason; a simulated guest causes no FIQ and no SError.
#[derive(Clone, Copy)]
pub enum ExitReason {
    Sync,
    Irq,
    Psci,
    RipasChange,
    HostCall,
}

/// The values that a host gets at an exit from a REC. RMM 1.0, RmiRecExit; the words without a field here are 0.
#[derive(Clone, Copy)]
pub struct RecExit {
    pub reason: ExitReason,
    pub esr: u64,
    pub far: u64,
    pub hpfar: u64,
    pub gpr0: u64,
    pub gpr1: u64,
    pub gpr2: u64,
    pub gpr3: u64,
    pub ripas_base: u64,
    pub ripas_top: u64,
    pub ripas: u64,
    pub imm: u64,
}

impl ExitReason {
    pub fn code(self) -> u64
        ensures { result ≡ runs.reason_code self }
    {
        match self {
            ExitReason::Sync => 0,
            ExitReason::Irq => 1,
            ExitReason::Psci => 3,
            ExitReason::RipasChange => 4,
            ExitReason::HostCall => 5,
        }
    }
}

impl RecExit {
    /// Returns a REC exit with the given reason, and 0 in all other fields.
    pub fn only(reason: ExitReason) -> RecExit
        ensures { result ≡ runs.only_reason reason }
    {
        RecExit {
            reason,
            esr: 0,
            far: 0,
            hpfar: 0,
            gpr0: 0,
            gpr1: 0,
            gpr2: 0,
            gpr3: 0,
            ripas_base: 0,
            ripas_top: 0,
            ripas: 0,
            imm: 0,
        }
    }

    /// Returns 64-bit word `k` of a run page that holds the REC exit. `k` is the index of the word, from 256 on.
    pub fn word(&self, k: u16) -> u64
        ensures { result ≡ runs.exit_word self.now k }
    {
        match k {
            256 => self.reason.code(),
            288 => self.esr,
            289 => self.far,
            290 => self.hpfar,
            320 => self.gpr0,
            321 => self.gpr1,
            322 => self.gpr2,
            323 => self.gpr3,
            416 => self.ripas_base,
            417 => self.ripas_top,
            418 => self.ripas,
            448 => self.imm,
            _ => 0,
        }
    }
}
