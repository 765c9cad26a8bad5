//! The check of a descriptor for an unprotected mapping. RMM 1.0, RMI_RTT_MAP_UNPROTECTED.
ghost use Rattle.std.specs.Prelude.{◌≡◌};
ghost use Rattle.rmm_model.specs.Command.RttMapUnprotected as mapping;

use rmi_abi::RmmSettings;

// Whether bits 9:8 of a descriptor are a shareability that the host may choose.
fn is_shareability(settings: &RmmSettings, desc: u64) -> bool
    ensures { result ≡ mapping.is_shareability settings.now desc }
{
    let sh = desc / 0x100 % 4;
    sh == 0 || (settings.takes_shareability && sh != 1)
}

/// Returns whether a descriptor of an unprotected mapping has only attributes that a host may choose. The attributes
/// are all bits outside the address field.
pub fn has_attributes(settings: &RmmSettings, desc: u64) -> bool
    ensures { result ≡ mapping.has_attributes settings.now desc }
{
    desc < 0x1_0000_0000_0000
        && desc % 4 == 0
        && desc / 4 % 8 != 4
        && desc / 0x20 % 2 == 0
        && is_shareability(settings, desc)
        && desc / 0x400 % 4 == 0
}
