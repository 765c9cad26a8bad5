//! The values of an RMM's feature registers.
ghost use Rattle.std.specs.Prelude.{◌≡◌};
ghost use Rattle.rmi_abi.specs.Features as features;

use crate::{Layout, Platform};

/// Returns the value of RMI feature register `index` on a platform. RMM 1.0, RmiFeatureRegister0; a register of any
/// other index is 0.
#[tactic(auto, unfolding(crate::specs::Features::feature_register))]
pub fn feature_register(platform: &Platform, index: u64) -> u64
    ensures { result ≡ features.feature_register platform.now index }
{
    let s = platform.settings();
    if index != 0 {
        return 0;
    }
    let (bps, wps, lrs) = (s.bps as u64, s.wps as u64, s.lrs as u64);
    let order = s.max_recs_order as u64;
    match s.layout {
        Layout::Rel0 => s.s2sz as u64
            + bps * 0x4000
            + wps * 0x10_0000
            + 0x3_0000_0000
            + lrs * 0x4_0000_0000
            + order * 0x40_0000_0000,
        Layout::Eac5 => s.s2sz as u64
            + bps * 0x4000
            + wps * 0x4_0000
            + 0x3000_0000
            + lrs * 0x4000_0000
            + order * 0x4_0000_0000,
    }
}
