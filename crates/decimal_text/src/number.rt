//! Parses decimal numbers without a sign and without leading zeros.
ghost use Rattle.std.specs.Prelude.{◌≡◌, ◌≢◌, ◌↔◌, ℕ, ◌<◌, ◌^◌, List, IfSome, IfNone, IsTrue, IsUtf8};
ghost use Rattle.std.specs.Fmt.{decimal};
ghost use Rattle.decimal_text.specs.Numbers.{IsPlain, AreNumbers, spelled_numbers, before_space, from_space};

use arrayvec::ArrayVec;

/// Returns whether the text has no leading `+` and no leading zeros. The text `0` has no leading zero.
fn is_plain(bytes: &[u8]) -> bool
    ensures { IsTrue result ↔ IsPlain bytes.now }
{
    match bytes {
        [b'+', ..] => false,
        [b'0', _, ..] => false,
        _ => true,
    }
}

/// Parses a 32-bit decimal number without a sign and without leading zeros. Any other text gives `None`.
fn number_of(text: &str) -> Option<u32>
    ensures found { IfSome result (λ n. text.now ≡ decimal n) }
    ensures none { IfNone result ((n : ℕ) → n < 2 ^ 32 → text.now ≢ decimal n) }
{
    if !is_plain(text.as_bytes()) {
        return None;
    }
    text.parse::<u32>().ok()
}

/// Splits a text at its first space. The second part begins with that space; without a space, it is empty.
pub fn cut_at_space(text: &str) -> (&str, &str)
    ensures before { result.0.now ≡ before_space text.now }
    ensures from { result.1.now ≡ from_space text.now }
    ensures utf8 { IsUtf8 result.1.now }
{
    match text.find(' ') {
        Some(end) => (&text[..end], &text[end..]),
        None => (text, ""),
    }
}

/// Parses a text of at most `MOST` 32-bit decimal numbers. One space is before each number. Any other text gives
/// `None`.
pub fn numbers_of<const MOST: usize>(text: &str) -> Option<ArrayVec<u32, MOST>>
    ensures found { IfSome result (λ v. AreNumbers MOST v.items × (text.now ≡ spelled_numbers v.items)) }
    ensures none { IfNone result ((ns : List ℕ) → AreNumbers MOST ns → text.now ≢ spelled_numbers ns) }
{
    let mut numbers = ArrayVec::new();
    let mut rest = text;
    while let Some(fields) = rest.strip_prefix(' ') {
        let (field, after) = cut_at_space(fields);
        let Some(number) = number_of(field) else {
            return None;
        };
        if numbers.is_full() {
            return None;
        }
        numbers.push(number);
        rest = after;
    }
    if rest.is_empty() { Some(numbers) } else { None }
}
