//! A function that splits a text at the first byte that has a given value.
ghost use Rattle.std.specs.Prelude.{◌≡◌};
ghost use Rattle.std.specs.Option.{option_copied};
ghost use Rattle.rmm_trace.specs.Cuts.{before_mark, after_mark};

/// Splits a text at the first byte that is equal to `mark`. Returns the text before that byte, and the text after it.
/// If there is no such byte, returns the whole text and `None`.
pub fn cut_at(text: &[u8], mark: u8) -> (&[u8], Option<&[u8]>)
    ensures before { result.0.now ≡ before_mark mark text.now }
    ensures after { option_copied result.1 ≡ after_mark mark text.now }
{
    for at in 0..text.len() {
        if text[at] == mark {
            return (&text[..at], Some(&text[at + 1..]));
        }
    }
    (text, None)
}
