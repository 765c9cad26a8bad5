//! Checks of the IPAs and table levels in the inputs of RMI commands.
ghost use Rattle.std.specs.Prelude.{◌≡◌, ◌&&◌, true, false, Some, None, IfSome, IfNone, if◌then◌else◌};
ghost use Rattle.granule_addr.specs.Ipa.{is_protected_at};
ghost use Rattle.realm_model.specs.Rows.{is_table_place, is_page_run};

use granule_addr::{IpaGran, IpaWidth, Level, is_protected};

// The IPA granule with the number `ipa`, if it is protected in an address space of width `width`.
pub fn protected(ipa: u32, width: IpaWidth) -> Option<IpaGran>
    ensures { result ≡ (if is_protected_at ipa width then Some ipa else None) }
{
    let granule = IpaGran::new(ipa, width.number())?;
    if is_protected(granule, width) {
        Some(granule)
    } else {
        None
    }
}

// The first of `count` IPA granules, if it is protected, `count` is 1 to 512, and one table of level 3 serves all of
// them.
pub(crate) fn protected_run(ipa: u32, count: u16, width: IpaWidth) -> Option<IpaGran>
    ensures { result ≡ (if is_page_run ipa count && is_protected_at ipa width then Some ipa else None) }
{
    let first = protected(ipa, width)?;
    if count == 0 || count > 512 || ipa / 512 != (ipa + u32::from(count) - 1) / 512 {
        return None;
    }
    Some(first)
}

// The level with the number `level`, if it is 2 or 3 and a table of that level can start at IPA granule `ipa`.
pub(crate) fn table_level(ipa: u32, level: u8) -> Option<Level>
    ensures some { IfSome result (λ given. (given ≡ level) × (is_table_place ipa level ≡ true)) }
    ensures none { IfNone result (is_table_place ipa level ≡ false) }
{
    let served = match level {
        2 => 262_144,
        3 => 512,
        _ => return None,
    };
    if ipa % served == 0 {
        Level::new(level)
    } else {
        None
    }
}
