//! The C struct for a platform's settings.
ghost use Rattle.std.specs.Prelude.{◌≡◌, true};
ghost use Rattle.rmm_c.specs.Settings as settings;

use rmi_abi::{Layout, Platform, RmmSettings};

/// The settings of a platform as a C struct: the number of granules, and the settings of the RMM. `layout` is 0 for
/// that of RMM 1.0-rel0, and 1 for that of 1.0-eac5.
#[repr(C)]
#[derive(Drop)]
pub struct PlatformSettings {
    pub granules: u64,
    pub base: u64,
    pub secure_base: u64,
    pub secure_count: u64,
    pub aux: u64,
    pub vmid_bits: u64,
    pub s2sz: u64,
    pub max_recs_order: u64,
    pub block_level: u64,
    pub bps: u64,
    pub wps: u64,
    pub lrs: u64,
    pub layout: u64,
    pub stops_at_destroyed: bool,
    pub measures_all_recs: bool,
    pub ignores_data_flags: bool,
    pub data_needs_ram: bool,
    pub aligns_live_top: bool,
    pub shows_target_alone: bool,
    pub takes_shareability: bool,
    pub checks_params: bool,
    pub checks_gic: bool,
}

impl PlatformSettings {
    // Whether each number fits its field.
    fn fit(&self) -> bool
        ensures { result ≡ settings.fit self.now }
    {
        self.secure_count <= 0xFFFF
            && self.aux <= 0xFF
            && self.vmid_bits <= 0xFF
            && self.s2sz <= 0xFF
            && self.max_recs_order <= 0xFF
            && self.block_level <= 0xFF
            && self.bps <= 0xFF
            && self.wps <= 0xFF
            && self.lrs <= 0xFF
            && self.layout <= 1
    }

    // The settings, with each number in the RMM's field of fewer bits.
    fn narrowed(&self) -> RmmSettings
        requires { settings.fit self.now ≡ true }
        ensures { result ≡ settings.settings_of self.now }
    {
        RmmSettings {
            base: self.base,
            secure_base: self.secure_base,
            secure_count: self.secure_count as u16,
            aux: self.aux as u8,
            vmid_bits: self.vmid_bits as u8,
            s2sz: self.s2sz as u8,
            max_recs_order: self.max_recs_order as u8,
            block_level: self.block_level as u8,
            bps: self.bps as u8,
            wps: self.wps as u8,
            lrs: self.lrs as u8,
            layout: if self.layout == 0 {
                Layout::Rel0
            } else {
                Layout::Eac5
            },
            stops_at_destroyed: self.stops_at_destroyed,
            measures_all_recs: self.measures_all_recs,
            ignores_data_flags: self.ignores_data_flags,
            data_needs_ram: self.data_needs_ram,
            aligns_live_top: self.aligns_live_top,
            shows_target_alone: self.shows_target_alone,
            takes_shareability: self.takes_shareability,
            checks_params: self.checks_params,
            checks_gic: self.checks_gic,
        }
    }

    // The platform with these settings, or `None` if a setting is out of its range.
    pub(crate) fn platform(&self) -> Option<Platform>
        ensures { result ≡ settings.platform_of self.now }
    {
        if self.fit() {
            Platform::new(self.narrowed())
        } else {
            None
        }
    }
}
