//! Checks that numbers do not exceed given maxima.
ghost use Rattle.std.specs.Prelude.{◌≡◌, IfSome, IfNone};
ghost use Rattle.decimal_text.specs.Ranges.{AreAtMost};
ghost use Rattle.decimal_text.specs.Rows.{up_to};

use arrayvec::ArrayVec;

/// Checks each number against the maximum at the same index. Returns the numbers; or `None` if a number is above its
/// maximum, or if there is not one number for each maximum.
pub fn at_most<const N: usize>(numbers: &[u32], maxima: [u32; N]) -> Option<[u32; N]>
    ensures found { IfSome result (λ ns. (numbers.now ≡ ns) × AreAtMost ns maxima.entry) }
    ensures none { IfNone result (AreAtMost numbers.now maxima.entry → ⊥) }
{
    let Ok(found) = <[u32; N]>::try_from(numbers) else {
        return None;
    };
    for i in 0..N {
        if found[i] > maxima[i] {
            return None;
        }
    }
    Some(found)
}

/// Checks that there are at most `MOST` numbers, each at most `maximum`. Returns the numbers, or `None` if the check
/// fails.
pub fn up_to<const MOST: usize>(numbers: &[u32], maximum: u16) -> Option<ArrayVec<u16, MOST>>
    ensures { result ≡ up_to MOST maximum numbers.now }
{
    if numbers.len() > MOST {
        return None;
    }
    let mut found = ArrayVec::new();
    for number in numbers {
        if *number > u32::from(maximum) {
            return None;
        }
        found.push(*number as u16);
    }
    Some(found)
}
