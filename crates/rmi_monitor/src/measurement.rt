//! The initial measurement of a realm, and the bytes by which commands extend it.
ghost use Rattle.std.specs.Prelude.{◌≡◌};
ghost use Rattle.realm_model.specs.Measurement as measured;

use granule_addr::{IpaGran, RecNo};
use sha2::{Digest, Sha256};

// The codes of the kinds of events (data, RIPAS and REC), each of which is the first byte of its events.
const DATA: u8 = 1;

const RIPAS: u8 = 2;

const REC: u8 = 3;

/// Returns the measurement `old`, extended by the bytes `event`. The result is SHA-256 of `old` followed by `event`.
///
/// RMM 1.0, Realm measurement.
#[tactic(auto, unfolding(realm_model::specs::Measurement::measurement_after))]
pub fn extend_measurement(old: &[u8; 32], event: &[u8]) -> [u8; 32]
    ensures { result ≡ measured.measurement_after old.now event.now }
{
    let mut hasher = Sha256::new();
    hasher.update(old.as_slice());
    hasher.update(event);
    hasher.finalize()
}

/// Returns the bytes by which RMI_DATA_CREATE extends a realm's measurement. They are the tag 1, the page's IPA
/// granule, and the SHA-256 digest of the page. The IPA granule is four bytes, big endian.
///
/// RMM 1.0, Realm measurement, RMI_DATA_CREATE; the bytes are this profile's own.
#[tactic(auto, unfolding(realm_model::specs::Measurement::data_event))]
pub fn data_event(ipa: IpaGran, page: &[u8]) -> [u8; 37]
    ensures { result ≡ measured.data_event ipa page.now }
{
    let mut event = [0; 37];
    event[0] = DATA;
    event[1..5].copy_from_slice(&ipa.number().to_be_bytes());
    event[5..].copy_from_slice(&Sha256::digest(page));
    event
}

/// Returns the bytes by which RMI_RTT_INIT_RIPAS extends a realm's measurement. They are the tag 2, the first IPA
/// granule, and the number of IPA granules that become RAM. The last two are four bytes each, big endian.
///
/// RMM 1.0, Realm measurement, RMI_RTT_INIT_RIPAS; the bytes are this profile's own.
#[tactic(auto, unfolding(realm_model::specs::Measurement::ripas_event))]
pub fn ripas_event(ipa: IpaGran, count: u16) -> [u8; 9]
    ensures { result ≡ measured.ripas_event ipa count }
{
    let mut event = [0; 9];
    event[0] = RIPAS;
    event[1..5].copy_from_slice(&ipa.number().to_be_bytes());
    event[5..].copy_from_slice(&u32::from(count).to_be_bytes());
    event
}

/// Returns the bytes by which a new REC extends a realm's measurement. They are the tag 3, and the number of the REC as
/// four bytes, big endian.
///
/// RMM 1.0, Realm measurement, RMI_REC_CREATE; the bytes are this profile's own.
#[tactic(auto, unfolding(realm_model::specs::Measurement::rec_event))]
pub fn rec_event(number: RecNo) -> [u8; 5]
    ensures { result ≡ measured.rec_event number }
{
    let mut event = [0; 5];
    event[0] = REC;
    event[1..].copy_from_slice(&u32::from(number.number()).to_be_bytes());
    event
}
