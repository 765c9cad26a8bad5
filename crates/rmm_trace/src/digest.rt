//! The hexadecimal text of SHA-256 and SHA-512 measurements.
ghost use Rattle.std.specs.Prelude.{◌≡◌};
ghost use Rattle.hex.specs.Hex.{encode_lower};

/// Returns the text of a SHA-256 measurement, with two lowercase hexadecimal digits for each byte.
pub fn sha256_text(measurement: &[u8; 32]) -> [u8; 64]
    ensures { result ≡ encode_lower measurement.now }
{
    let mut digits = [0; 64];
    hex::encode_to_slice(measurement.as_slice(), &mut digits).unwrap();
    digits
}

/// Returns the text of a SHA-512 measurement, with two lowercase hexadecimal digits for each byte.
pub fn sha512_text(measurement: &[u8; 64]) -> [u8; 128]
    ensures { result ≡ encode_lower measurement.now }
{
    let mut text = [0; 128];
    hex::encode_to_slice(measurement.as_slice(), &mut text).unwrap();
    text
}
