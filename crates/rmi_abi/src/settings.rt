//! The settings of an RMM, which are choices that the RMM standard leaves to an implementation.
ghost use Rattle.std.specs.Prelude.{◌≡◌, Some, None, if◌then◌else◌};
ghost use Rattle.rmi_abi.specs.Settings as ranges;

use std::marker::Model;

/// The layout of feature register 0, as in RMM 1.0-rel0, or as in the drafts up to 1.0-eac5.
#[derive(Clone, Copy)]
pub enum Layout {
    Rel0,
    Eac5,
}

/// The memory and the limits of an RMM, and choices in its behavior. If the standard leaves a choice open, the default
/// is the likeliest choice.
#[derive(Clone, Copy)]
pub struct RmmSettings {
    /// The address of the first granule of the machine's memory.
    pub base: u64,
    /// The address of the first granule of the secure world. `secure_count` granules from there on are of the secure
    /// world, and cannot be delegated.
    pub secure_base: u64,
    pub secure_count: u16,
    /// The number of auxiliary granules of a REC.
    pub aux: u8,
    pub vmid_bits: u8,
    /// The maximum width of a realm's IPA space, in bits.
    pub s2sz: u8,
    pub max_recs_order: u8,
    /// The smallest RTT level number at which an entry can be a block.
    pub block_level: u8,
    /// The value of NUM_BPS in feature register 0.
    pub bps: u8,
    /// The value of NUM_WPS in feature register 0.
    pub wps: u8,
    /// The value of GICV3_NUM_LRS in feature register 0.
    pub lrs: u8,
    pub layout: Layout,
    /// Whether RTT_INIT_RIPAS stops at an UNASSIGNED entry whose RIPAS is DESTROYED.
    pub stops_at_destroyed: bool,
    /// Whether the creation of a REC that is not runnable extends the realm's measurement.
    pub measures_all_recs: bool,
    /// Whether DATA_CREATE ignores flags above bit 0.
    pub ignores_data_flags: bool,
    /// Whether DATA_CREATE requires that the RIPAS is RAM.
    pub data_needs_ram: bool,
    /// Whether commands align their output `top` down to the start of the entry of the IPA, if that entry is live.
    /// Without this alignment, `top` is then the IPA itself.
    pub aligns_live_top: bool,
    /// Whether a PSCI exit shows the host only the function and the target of the PSCI call.
    pub shows_target_alone: bool,
    /// Whether a host may choose the shareability of a descriptor: 0b10 or 0b11 in bits 9:8, and not only 0.
    pub takes_shareability: bool,
    /// Whether REALM_CREATE checks its parameters against feature register 0. REALM_CREATE then refuses a number of
    /// breakpoints or watchpoints, or a vector length, above that of the register.
    pub checks_params: bool,
    /// Whether REC_ENTER checks gicv3_hcr and gicv3_lrs.
    pub checks_gic: bool,
}

impl RmmSettings {
    /// The default settings of an RMM, with the first granule at 0x8000_0000.
    pub const DEFAULT: RmmSettings = RmmSettings {
        base: 0x8000_0000,
        secure_base: 0,
        secure_count: 0,
        aux: 2,
        vmid_bits: 16,
        s2sz: 48,
        max_recs_order: 4,
        block_level: 2,
        bps: 0,
        wps: 0,
        lrs: 0,
        layout: Layout::Rel0,
        stops_at_destroyed: false,
        measures_all_recs: false,
        ignores_data_flags: false,
        data_needs_ram: false,
        aligns_live_top: false,
        shows_target_alone: false,
        takes_shareability: false,
        checks_params: false,
        checks_gic: false,
    };

    // Whether both base addresses are multiples of 4,096 below 2^47.
    fn has_addresses(&self) -> bool
        ensures { result ≡ ranges.has_addresses self.now }
    {
        self.base < 0x8000_0000_0000
            && self.base % 4096 == 0
            && self.secure_base < 0x8000_0000_0000
            && self.secure_base % 4096 == 0
    }

    // Whether the sizes are in their ranges: auxiliary granules, VMID bits, IPA width, MAX_RECS_ORDER, and block level.
    fn has_sizes(&self) -> bool
        ensures { result ≡ ranges.has_sizes self.now }
    {
        self.aux <= 16
            && (self.vmid_bits == 8 || self.vmid_bits == 16)
            && 32 <= self.s2sz
            && self.s2sz <= 48
            && self.max_recs_order <= 15
            && (self.block_level == 1 || self.block_level == 2)
    }

    // Whether the values of NUM_BPS, NUM_WPS and GICV3_NUM_LRS fit their fields of feature register 0.
    fn has_fields(&self) -> bool
        ensures { result ≡ ranges.has_fields self.now }
    {
        let most = match self.layout {
            Layout::Rel0 => 63,
            Layout::Eac5 => 15,
        };
        self.bps <= most && self.wps <= most && self.lrs <= 15
    }
}

/// A set of RMM settings that are all in their ranges.
#[derive(Clone, Copy)]
pub struct Platform {
    settings: RmmSettings,
}

impl Model for Platform {
    ghost use Rattle.rmi_abi.specs.declared.settings.RmmSettings.{RmmSettings};
    ghost use Rattle.rmi_abi.specs.Settings.{IsPlatform};

    ghost Value = { RmmSettings };

    ghost view = { λ p. p.settings };

    ghost invariant = { λ p. IsPlatform p.settings };

    ghost inverse = { λ s. record { settings = s } };
}

impl Platform {
    /// Creates a platform from the given settings, if they are in their ranges. Returns `None` otherwise.
    pub fn new(settings: RmmSettings) -> Option<Platform>
        ensures { result ≡ (if ranges.is_platform settings then Some settings else None) }
    {
        if settings.has_addresses() && settings.has_sizes() && settings.has_fields() {
            Some(Platform { settings })
        } else {
            None
        }
    }

    pub fn settings(&self) -> &RmmSettings
        ensures value { result.now ≡ self.now }
        ensures ranges { ranges.IsPlatform result.now }
    {
        &self.settings
    }
}
