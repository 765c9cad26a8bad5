//! Checks of the flags and the GIC fields that the host gives in the run page of RMI_REC_ENTER. RMM 1.0, RMI_REC_ENTER.
ghost use Rattle.std.specs.Prelude.{◌≡◌, length};
ghost use Rattle.rmi_abi.specs.Gic.{is_gicv3_lr};
ghost use Rattle.rmm_model.specs.Command.RecCreate.{all_from};
ghost use Rattle.rmm_model.specs.Command.RecEnter as entering;

use rmi_abi::{EnterFlags, GicFields, RmmSettings};
use rmm_model::{LastExit, RmmRec};

/// Returns whether the host claims to have emulated an access, but the REC's last exit was not an emulatable abort.
/// `flags` are the host's flags in the run page.
pub fn is_no_mmio(rec: &RmmRec, flags: u64) -> bool
    ensures { result ≡ entering.is_no_mmio rec.now flags }
{
    EnterFlags::emulates_mmio(flags) && !matches!(rec.exit, LastExit::EmulatableAbort)
}

// Whether a host may set the list registers to their values in a run page.
fn are_lrs(num_lrs: u8, page: &[u8]) -> bool
    requires { length page.now ≡ 4096 }
    ensures { result ≡ all_from (is_gicv3_lr num_lrs page.now) 0 16 }
{
    for k in 0..16u8 {
        if !GicFields::is_lr_allowed(num_lrs, page, k) {
            return false;
        }
    }
    true
}

/// Returns whether the GIC fields of a run page are refused: the settings require their check, and one has a value that
/// a host may not set.
#[tactic(auto, unfolding(rmm_model::specs::Command::RecEnter::is_gic_wrong))]
pub fn refuses_gic(settings: &RmmSettings, page: &[u8]) -> bool
    requires { length page.now ≡ 4096 }
    ensures { result ≡ entering.is_gic_wrong settings.now page.now }
{
    settings.checks_gic
        && !(GicFields::is_hcr_allowed(GicFields::hcr(page)) && are_lrs(settings.lrs, page))
}
