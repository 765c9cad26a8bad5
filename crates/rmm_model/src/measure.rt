//! Initial measurements of realms, and their extensions.
ghost use Rattle.std.specs.Prelude.{◌≡◌, ℕ, List, ◌++◌, length};
ghost use Rattle.rmm_model.specs.Bytes as bytes;
ghost use Rattle.rmm_model.specs.Measure as measures;

use crate::digest::{feed_word, feed_zeros};
use rmi_abi::{HashAlgorithm, RealmParams};
use sha2::{Digest, Sha256, Sha512};

/// An extension of a realm's initial measurement. RMM 1.0, RmmMeasurementDescriptorData, RmmMeasurementDescriptorRec
/// and RmmMeasurementDescriptorRipas.
#[derive(Clone, Copy)]
pub enum Extension {
    /// A page of data that is added to the realm. The flags are those of RMI_DATA_CREATE. The digest is zeros if the
    /// content is not measured.
    Data {
        ipa: u64,
        flags: u64,
        digest: [u8; 64],
    },
    /// The creation of a REC, with the digest of the REC's parameters.
    Rec {
        digest: [u8; 64],
    },
    /// A range of IPAs whose RIPAS becomes RAM.
    Ripas {
        base: u64,
        top: u64,
    },
}

// A SHA-256 digest, zero-padded to 64 bytes.
#[tactic(auto, unfolding(crate::specs::Bytes::zeros))]
fn padded(digest: [u8; 32]) -> [u8; 64]
    ensures { result ≡ digest ++ bytes.zeros 32 }
{
    let mut padded = [0; 64];
    padded[..32].copy_from_slice(&digest);
    padded
}

// ---- initial measurements

// The hash of a realm's parameters.
fn hash_params<D: Digest>(p: &RealmParams) -> D::Output
    ensures { D.digest_of (measures.params_bytes p.now) result }
{
    let mut hasher = D::new();
    feed_word(&mut hasher, p.flags);
    feed_word(&mut hasher, p.s2sz as u64);
    feed_word(&mut hasher, p.sve_vl as u64);
    feed_word(&mut hasher, p.num_bps as u64);
    feed_word(&mut hasher, p.num_wps as u64);
    feed_word(&mut hasher, p.pmu_num_ctrs as u64);
    feed_word(&mut hasher, p.hash_algo as u64);
    feed_zeros(&mut hasher, 4040);
    hasher.finalize()
}

/// Returns the measurement of a new realm: the hash of a page with the parameters that are measured.
#[tactic(auto, unfolding(crate::specs::Measure::initial, crate::specs::Measure::digest))]
pub fn initial(hash: HashAlgorithm, params: &RealmParams) -> [u8; 64]
    ensures { result ≡ measures.initial hash params.now }
{
    match hash {
        HashAlgorithm::Sha256 => padded(hash_params::<Sha256>(params)),
        HashAlgorithm::Sha512 => hash_params::<Sha512>(params),
    }
}

// ---- extensions

// Feeds the part of a descriptor that follows the old measurement.
fn feed_content<D: Digest>(hasher: &mut D, extension: &Extension)
    ensures { (m : List ℕ) → D.holds hasher.old m → D.holds hasher.new (measures.with_content m extension.now) }
{
    match extension {
        Extension::Data { ipa, flags, digest } => {
            feed_word(hasher, *ipa);
            feed_word(hasher, *flags);
            hasher.update(digest.as_slice());
            feed_zeros(hasher, 96);
        }
        Extension::Rec { digest } => {
            hasher.update(digest.as_slice());
            feed_zeros(hasher, 112);
        }
        Extension::Ripas { base, top } => {
            feed_word(hasher, *base);
            feed_word(hasher, *top);
            feed_zeros(hasher, 160);
        }
    }
}

// The type of an extension's descriptor.
fn type_of(extension: &Extension) -> u64
    ensures { result ≡ measures.type_of extension.now }
{
    match extension {
        Extension::Data { .. } => 0,
        Extension::Rec { .. } => 1,
        Extension::Ripas { .. } => 2,
    }
}

// The hash of the descriptor of an extension.
fn hash_descriptor<D: Digest>(rim: &[u8; 64], extension: &Extension) -> D::Output
    ensures { D.digest_of (measures.descriptor rim.now extension.now) result }
{
    let mut hasher = D::new();
    feed_word(&mut hasher, type_of(extension));
    feed_word(&mut hasher, 0x100);
    hasher.update(rim.as_slice());
    feed_content(&mut hasher, extension);
    hasher.finalize()
}

/// Returns a realm's measurement after an extension.
#[tactic(auto, unfolding(crate::specs::Measure::extended, crate::specs::Measure::digest))]
pub fn extend(hash: HashAlgorithm, rim: &[u8; 64], extension: &Extension) -> [u8; 64]
    ensures { result ≡ measures.extended hash rim.now extension.now }
{
    match hash {
        HashAlgorithm::Sha256 => padded(hash_descriptor::<Sha256>(rim, extension)),
        HashAlgorithm::Sha512 => hash_descriptor::<Sha512>(rim, extension),
    }
}

/// Returns the 64-byte digest of a page of data; a SHA-256 digest is followed by zeros.
#[tactic(auto, unfolding(crate::specs::Measure::digest))]
pub fn page_digest(hash: HashAlgorithm, page: &[u8]) -> [u8; 64]
    ensures { result ≡ measures.digest hash page.now }
{
    match hash {
        HashAlgorithm::Sha256 => padded(Sha256::digest(page)),
        HashAlgorithm::Sha512 => Sha512::digest(page),
    }
}

// ---- RECs

// The hash of the measured parameters of a REC: flags, pc and gprs 0 to 7.
fn hash_rec<D: Digest>(page: &[u8]) -> D::Output
    requires { length page.now ≡ 4096 }
    ensures { D.digest_of (measures.rec_bytes page.now) result }
{
    let mut hasher = D::new();
    hasher.update(&page[..8]);
    feed_zeros(&mut hasher, 504);
    hasher.update(&page[512..520]);
    feed_zeros(&mut hasher, 248);
    hasher.update(&page[768..832]);
    feed_zeros(&mut hasher, 3264);
    hasher.finalize()
}

/// Returns the digest of a REC's measured parameters: flags, pc and gprs 0 to 7.
#[tactic(auto, unfolding(crate::specs::Measure::rec_digest, crate::specs::Measure::digest))]
pub fn rec_digest(hash: HashAlgorithm, page: &[u8]) -> [u8; 64]
    requires { length page.now ≡ 4096 }
    ensures { result ≡ measures.rec_digest hash page.now }
{
    match hash {
        HashAlgorithm::Sha256 => padded(hash_rec::<Sha256>(page)),
        HashAlgorithm::Sha512 => hash_rec::<Sha512>(page),
    }
}
