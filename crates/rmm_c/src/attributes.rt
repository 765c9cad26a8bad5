//! C structs for the attributes of realms and RECs.
ghost use Rattle.std.specs.Prelude.{◌≡◌};
ghost use Rattle.rmm_model.specs.Command.PsciComplete as completion;
ghost use Rattle.rmm_c.specs.Reading as shown;

use rmi_abi::HashAlgorithm;
use rmm_model::{PsciRequest, RmmGranuleState, RmmRealm, RmmRealmState, RmmRec, RmmRecState};

/// The attributes of a realm, as a C struct. RMM 1.0, Realm attributes.
///
/// `state` is 0 for NEW, 1 for ACTIVE and 2 for SYSTEM_OFF, `hash_algo` is 0 for SHA-256 and 1 for SHA-512. `next_rec`
/// counts the RECs that the realm was given, `rec_count` those that it has.
#[repr(C)]
#[derive(Drop)]
pub struct RealmAttributes {
    pub state: u64,
    pub hash_algo: u64,
    pub s2sz: u64,
    pub rtt_level_start: u64,
    pub rtt_num_start: u64,
    pub rtt_base: u64,
    pub vmid: u64,
    pub next_rec: u64,
    pub rec_count: u64,
    pub rim: [u8; 64],
}

/// The attributes of a REC, as a C struct. RMM 1.0, REC attributes.
///
/// `state` is 0 for READY and 1 for RUNNING. `ripas_base`, `ripas_top` and `ripas_value` are what is left of the RIPAS
/// change that the REC has requested. A flag is a number, 1 if it holds and 0 if not, because C may not have
/// initialized it.
#[repr(C)]
#[derive(Drop)]
pub struct RecAttributes {
    pub state: u64,
    pub mpidr: u64,
    pub ripas_base: u64,
    pub ripas_top: u64,
    pub ripas_value: u64,
    pub step_count: u64,
    pub result_count: u64,
    pub is_runnable: u64,
    pub is_psci_pending: u64,
}

// The number of a granule's state.
pub(crate) fn granule_state_code(state: RmmGranuleState) -> u64
    ensures { result ≡ shown.granule_state_code state }
{
    match state {
        RmmGranuleState::Undelegated => 0,
        RmmGranuleState::Delegated => 1,
        RmmGranuleState::Rd(_) => 2,
        RmmGranuleState::Rec(_) => 3,
        RmmGranuleState::RecAux => 4,
        RmmGranuleState::Data => 5,
        RmmGranuleState::Rtt => 6,
    }
}

fn realm_state_code(state: RmmRealmState) -> u64
    ensures { result ≡ shown.realm_state_code state }
{
    match state {
        RmmRealmState::New => 0,
        RmmRealmState::Active => 1,
        RmmRealmState::SystemOff => 2,
    }
}

fn hash_code(hash: HashAlgorithm) -> u64
    ensures { result ≡ shown.hash_code hash }
{
    match hash {
        HashAlgorithm::Sha256 => 0,
        HashAlgorithm::Sha512 => 1,
    }
}

fn rec_state_code(state: RmmRecState) -> u64
    ensures { result ≡ shown.rec_state_code state }
{
    match state {
        RmmRecState::Ready => 0,
        RmmRecState::Running => 1,
    }
}

// The number of a flag: 1 if it holds, and 0 if not.
fn flag(holds: bool) -> u64
    ensures { result ≡ shown.flag holds }
{
    if holds { 1 } else { 0 }
}

// Whether the host has to complete a PSCI request.
fn is_pending(psci: PsciRequest) -> bool
    ensures { result ≡ completion.is_pending psci }
{
    match psci {
        PsciRequest::CpuOn { .. } | PsciRequest::AffinityInfo { .. } => true,
        PsciRequest::None | PsciRequest::Complete(_) => false,
    }
}

// The attributes of a realm. `base` is the address of the machine's granule 0.
pub(crate) fn realm_attributes(base: u64, realm: &RmmRealm) -> RealmAttributes
    ensures { result ≡ shown.realm_attributes base realm.now }
{
    let first = u64::from(realm.first_table.number());
    RealmAttributes {
        state: realm_state_code(realm.state),
        hash_algo: hash_code(realm.hash),
        s2sz: u64::from(realm.s2sz),
        rtt_level_start: u64::from(realm.start_level),
        rtt_num_start: u64::from(realm.table_count),
        rtt_base: base.wrapping_add(4096 * first),
        vmid: u64::from(realm.vmid),
        next_rec: u64::from(realm.next_rec),
        rec_count: u64::from(realm.rec_count),
        rim: realm.rim,
    }
}

// The attributes of a REC.
pub(crate) fn rec_attributes(rec: &RmmRec) -> RecAttributes
    ensures { result ≡ shown.rec_attributes rec.now }
{
    RecAttributes {
        state: rec_state_code(rec.state),
        mpidr: rec.mpidr,
        ripas_base: rec.ripas.base,
        ripas_top: rec.ripas.top,
        ripas_value: u64::from(rec.ripas.ripas.code()),
        step_count: u64::from(rec.step_count),
        result_count: u64::from(rec.result_count),
        is_runnable: flag(rec.is_runnable),
        is_psci_pending: flag(is_pending(rec.psci)),
    }
}
