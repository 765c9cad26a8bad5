//! The settings that a host is booted with.
ghost use Rattle.std.specs.Prelude.{◌≡◌, ◌≤◌, ◌↔◌, IsSome, IfSome};

use realm_model::{LEAST_HISTORY, MOST_HISTORY};

/// The numbers of VMIDs, auxiliary granules, events and builds with which a host is booted. Auxiliary granules are
/// counted per REC, and events per build.
#[derive(Clone, Copy)]
pub struct Settings {
    pub vmids: u8,
    pub aux: u8,
    pub history: u16,
    pub builds: u8,
    ghost some_vmid: { 1 ≤ vmids },
    ghost few_auxiliaries: { aux ≤ 16 },
    ghost some_history: { 16 ≤ history },
    ghost short_history: { history ≤ 16384 },
    ghost some_build: { 1 ≤ builds },
    ghost few_builds: { builds ≤ 8 },
}

impl Settings {
    ghost use Rattle.realm_host.specs.Settings.{AreSettings};

    /// Creates the settings of a host, if all numbers are in range. Returns `None` if one of the numbers is out of
    /// range. The ranges are 1 to 255 VMIDs, 0 to 16 auxiliaries, 16 to 16,384 events, and 1 to 8 builds.
    pub fn new(vmids: u8, aux: u8, history: u16, builds: u8) -> Option<Settings>
        ensures valid { IsSome result ↔ AreSettings vmids aux history builds }
        ensures value { IfSome result (λ s. (s.vmids ≡ vmids) × (s.aux ≡ aux) × (s.history ≡ history) × (s.builds ≡ builds)) }
    {
        let are_settings = vmids >= 1
            && aux <= 16
            && history >= LEAST_HISTORY
            && history <= MOST_HISTORY
            && builds >= 1
            && builds <= 8;
        if are_settings {
            Some(Settings {
                vmids,
                aux,
                history,
                builds,
            })
        } else {
            None
        }
    }
}
