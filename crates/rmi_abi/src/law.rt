//! Theorems about the encoding of RMI calls, and about an RMM's default settings.
ghost use Rattle.std.specs.Prelude.{◌≡◌, Some, true};
ghost use Rattle.rmi_abi.specs.declared.call.Call.{Call};
ghost use Rattle.rmi_abi.specs.declared.registers.Registers.{Registers};
ghost use Rattle.rmi_abi.specs.Call.{call_in, registers_of, operand_count, with_operands};
ghost use Rattle.rmi_abi.specs.Settings.{is_platform, default_settings};

use crate::RmmSettings;

/// Decoding an encoded RMI call gives the same call.
pub fn calls_come_back()
    ensures { (call : Call) → call_in (registers_of call) ≡ Some call }
{}

/// Encoding an RMI call that was decoded from registers gives the same registers, but with zeros after the operands.
pub fn registers_come_back()
    ensures { (r : Registers) (call : Call) → call_in r ≡ Some call
        → with_operands (operand_count call) r ≡ registers_of call }
{}

/// The default settings of an RMM are in their ranges, as `Platform` requires.
pub fn defaults_are_a_platform()
    ensures values { RmmSettings.DEFAULT ≡ default_settings }
    ensures in_range { is_platform RmmSettings.DEFAULT ≡ true }
{}
