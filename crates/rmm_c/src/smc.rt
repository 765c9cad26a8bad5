//! A function that performs an RMI call with operands and results in registers.
ghost use Rattle.std.specs.Prelude.{◌≡◌};
ghost use Rattle.rmm_c.specs.Smc.{call_of, smc_registers, on_smc};

use crate::RmmHandle;
use rmi_abi::{Registers, unknown_registers};
use std::alloc::Global;

/// The registers X0 to X6 of an SMC call. SMCCC 1.2.
#[repr(C)]
#[derive(Drop)]
pub struct SmcRegisters {
    pub x0: u64,
    pub x1: u64,
    pub x2: u64,
    pub x3: u64,
    pub x4: u64,
    pub x5: u64,
    pub x6: u64,
}

impl SmcRegisters {
    // The registers in the RMM's form.
    pub(crate) fn call(&self) -> Registers
        ensures { result ≡ call_of self.now }
    {
        Registers {
            x0: self.x0,
            x1: self.x1,
            x2: self.x2,
            x3: self.x3,
            x4: self.x4,
            x5: self.x5,
            x6: self.x6,
        }
    }

    // The C form of registers.
    fn of(registers: Registers) -> SmcRegisters
        ensures { result ≡ smc_registers registers }
    {
        SmcRegisters {
            x0: registers.x0,
            x1: registers.x1,
            x2: registers.x2,
            x3: registers.x3,
            x4: registers.x4,
            x5: registers.x5,
            x6: registers.x6,
        }
    }
}

/// Performs an SMC call on the RMM of a handle. `registers` has X0 to X6 before the call, and X0 to X4 after it.
///
/// A closed handle is firmware without an RMM: X0 is -1, NOT_SUPPORTED.
#[unsafe(no_mangle)]
pub extern "C" fn rmm_smc(alloc: Global, handle: &mut RmmHandle, registers: &mut SmcRegisters)
    ensures { (registers.new, handle.new.held.machine) ≡ on_smc registers.old handle.old.held.machine }
{
    let asked = registers.call();
    let Some(mut plain) = handle.take(alloc) else {
        *registers = SmcRegisters::of(unknown_registers(asked));
        return;
    };
    let answered = plain.rmm.smc(asked);
    handle.give(plain);
    *registers = SmcRegisters::of(answered);
}
