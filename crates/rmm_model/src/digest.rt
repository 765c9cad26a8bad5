//! Functions that feed words and zero bytes to a hash.
ghost use Rattle.std.specs.Prelude.{◌≡◌, ℕ, List, ◌++◌, ◌≤◌};
ghost use Rattle.std.specs.Int.{to_le_bytes, w64};
ghost use Rattle.rmm_model.specs.Bytes.{zeros};

use sha2::Digest;

const ZEROS: [u8; 64] = [0; 64];

// Feeds the eight bytes of a word to a hash, in little-endian order.
pub fn feed_word<D: Digest>(hasher: &mut D, word: u64)
    ensures { (m : List ℕ) → D.holds hasher.old m → D.holds hasher.new (m ++ to_le_bytes w64 word) }
{
    hasher.update(word.to_le_bytes());
}

// Feeds `count` zero bytes to a hash, at most 64.
fn feed_some_zeros<D: Digest>(hasher: &mut D, count: usize)
    requires { count ≤ 64 }
    ensures { (m : List ℕ) → D.holds hasher.old m → D.holds hasher.new (m ++ zeros count) }
{
    hasher.update(&ZEROS[..count]);
}

// Feeds `count` zero bytes to a hash.
pub fn feed_zeros<D: Digest>(hasher: &mut D, count: usize)
    ensures { (m : List ℕ) → D.holds hasher.old m → D.holds hasher.new (m ++ zeros count) }
{
    let mut left = count;
    'zeros: while left > 0 {
        let some = left.min(64);
        feed_some_zeros(hasher, some);
        left -= some;
    }
}
