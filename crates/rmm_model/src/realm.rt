//! The attributes and the states of realms, the number of their starting tables, and the results of walks.
ghost use Rattle.std.specs.Prelude.{◌≡◌, ◌≤◌};
ghost use Rattle.rmm_model.specs.Realm as realms;

use crate::entry_size;
use granule_addr::Gran;
use rmi_abi::HashAlgorithm;

/// The state of a realm. RMM 1.0, RmmRealmState.
#[derive(Clone, Copy)]
pub enum RmmRealmState {
    New,
    Active,
    SystemOff,
}

/// The attributes of a realm. RMM 1.0, Realm attributes.
///
/// `rim` is the initial measurement, the digest of `hash` with zeros up to 64 bytes. The starting tables are
/// `table_count` adjacent granules. `next_rec` counts the RECs that the realm was given, `rec_count` those that it has.
#[derive(Clone, Copy)]
pub struct RmmRealm {
    pub state: RmmRealmState,
    pub hash: HashAlgorithm,
    pub rim: [u8; 64],
    pub s2sz: u8,
    pub start_level: u8,
    pub first_table: Gran,
    pub table_count: u8,
    pub vmid: u16,
    pub next_rec: u32,
    pub rec_count: u16,
}

/// The result of a translation table walk: the last table and its level. RMM 1.0, RttWalkResult.
#[derive(Clone, Copy)]
pub struct RttWalk {
    pub table: Gran,
    pub level: u8,
}

/// Returns the number of starting tables that an address space of `s2sz` bits needs at `level`.
#[tactic(auto, unfolding(crate::specs::Realm::start_count))]
pub fn start_count(s2sz: u8, level: u8) -> u64
    requires { s2sz ≤ 48 }
    ensures { result ≡ realms.start_count s2sz level }
{
    let served = 512 * entry_size(level);
    ((1 << s2sz) + (served - 1)) / served
}
