//! The C struct for the settings of a new host.
ghost use Rattle.std.specs.Prelude.{◌≡◌};
ghost use Rattle.rhm_c.specs.Settings.{are_settings};

/// The settings of a new host, with its sizes, its limits, and the address of its granule 0.
#[repr(C)]
#[derive(Drop)]
pub struct HostSettings {
    pub pages: u64,
    pub vmids: u64,
    pub aux: u64,
    pub builds: u64,
    pub history: u64,
    pub base: u64,
}

impl HostSettings {
    // Whether each number is in its range.
    pub(crate) fn are_settings(&self) -> bool
        ensures { result ≡ are_settings self.now }
    {
        1 <= self.pages
            && self.pages <= 4_096
            && 1 <= self.vmids
            && self.vmids <= 255
            && self.aux <= 16
            && 1 <= self.builds
            && self.builds <= 8
            && 16 <= self.history
            && self.history <= 16_384
            && self.base % 4_096 == 0
            && self.base < 1 << 46
    }
}
