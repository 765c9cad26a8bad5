//! The GIC fields in a REC's run page: gicv3_hcr, followed by 16 list registers.
ghost use Rattle.std.specs.Prelude.{◌≡◌, ◌<◌, length};
ghost use Rattle.rmi_abi.specs.Gic as gic;

use page_arena::word_in;

/// Functions that read and check the GIC fields in a REC's run page. A host sets these fields for RMI_REC_ENTER. RMM
/// 1.0, RmiRecEnter.
pub struct GicFields;

impl GicFields {
    /// Returns the field gicv3_hcr in a REC's run page.
    pub fn hcr(page: &[u8]) -> u64
        requires { length page.now ≡ 4096 }
        ensures { result ≡ gic.gicv3_hcr_in page.now }
    {
        word_in(page, 96)
    }

    /// Returns GICv3 list register `k` in a REC's run page.
    pub fn lr(page: &[u8], k: u8) -> u64
        requires page { length page.now ≡ 4096 }
        requires below { k < 16 }
        ensures { result ≡ gic.gicv3_lr_in page.now k }
    {
        word_in(page, 97 + k as usize)
    }

    /// Returns whether a host may set the field gicv3_hcr to the value `hcr`.
    pub fn is_hcr_allowed(hcr: u64) -> bool
        ensures { result ≡ gic.is_gicv3_hcr hcr }
    {
        hcr % 2 == 0 && hcr / 0x100 % 0x40 == 0 && hcr / 0x8000 == 0
    }

    /// Returns whether a host may set GICv3 list register `k` to its value in the run page. `num_lrs` is the number of
    /// the last list register.
    pub fn is_lr_allowed(num_lrs: u8, page: &[u8], k: u8) -> bool
        requires page { length page.now ≡ 4096 }
        requires below { k < 16 }
        ensures { result ≡ gic.is_gicv3_lr num_lrs page.now k }
    {
        let lr = GicFields::lr(page, k);
        if k <= num_lrs {
            lr / 0x2000_0000_0000_0000 % 2 == 0
        } else {
            lr == 0
        }
    }
}
