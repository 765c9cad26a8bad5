//! The hash algorithms for the measurements of realms.

/// The hash algorithm of a realm's measurements. RMM 1.0, RmiHashAlgorithm.
#[derive(Clone, Copy)]
pub enum HashAlgorithm {
    Sha256,
    Sha512,
}
