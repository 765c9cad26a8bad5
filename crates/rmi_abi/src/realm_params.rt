//! The parameters with which a host creates a realm, read from a page.
ghost use Rattle.std.specs.Prelude.{◌≡◌, ◌<◌, length};
ghost use Rattle.rmi_abi.specs.RealmParams as params;

use page_arena::word_in;

/// The parameters with which a host creates a realm. RMM 1.0, RmiRealmParams.
///
/// The starting level has the 64 bits of its field as an unsigned number, so a negative level is a number above 3.
#[derive(Clone, Copy)]
pub struct RealmParams {
    pub flags: u64,
    pub s2sz: u8,
    pub sve_vl: u8,
    pub num_bps: u8,
    pub num_wps: u8,
    pub pmu_num_ctrs: u8,
    pub hash_algo: u8,
    pub vmid: u16,
    pub rtt_base: u64,
    pub rtt_level_start: u64,
    pub rtt_num_start: u32,
}

// The first byte of word `index` of a page.
fn byte_in(page: &[u8], index: usize) -> u8
    requires page { length page.now ≡ 4096 }
    requires index { index < 512 }
    ensures { result ≡ params.byte_of_page page.now index }
{
    (word_in(page, index) % 0x100) as u8
}

impl RealmParams {
    /// Reads the parameters of a realm from a page.
    #[tactic(auto, unfolding(crate::specs::RealmParams::realm_params_in))]
    pub fn read(page: &[u8]) -> RealmParams
        requires { length page.now ≡ 4096 }
        ensures { result ≡ params.realm_params_in page.now }
    {
        RealmParams {
            flags: word_in(page, 0),
            s2sz: byte_in(page, 1),
            sve_vl: byte_in(page, 2),
            num_bps: byte_in(page, 3),
            num_wps: byte_in(page, 4),
            pmu_num_ctrs: byte_in(page, 5),
            hash_algo: byte_in(page, 6),
            vmid: (word_in(page, 256) % 0x1_0000) as u16,
            rtt_base: word_in(page, 257),
            rtt_level_start: word_in(page, 258),
            rtt_num_start: (word_in(page, 259) % 0x1_0000_0000) as u32,
        }
    }
}
