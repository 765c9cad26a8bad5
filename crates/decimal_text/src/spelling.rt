//! Decimal numbers as text, alone or after a word.
use std::fmt;

/// Decimal numbers as text, with one space before each.
#[derive(Clone, Copy)]
pub struct NumbersText<'a>(pub &'a [u32]);

impl fmt::Display for NumbersText<'_> {
    ghost use Rattle.std.specs.Prelude.{Some};
    ghost use Rattle.decimal_text.specs.Numbers.{spelled_numbers};

    ghost output = { λ n. Some (spelled_numbers n.0.now) };

    fn fmt<W: fmt::Write>(&self, f: &mut fmt::Formatter<W>) -> fmt::Result {
        for number in self.0 {
            write!(f, " {number}")?;
        }
        Ok(())
    }
}

/// A word and its numbers, as text. The numbers are in decimal, with one space before each.
#[derive(Clone, Copy)]
pub struct SpelledText<'a>(pub &'a str, pub &'a [u32]);

impl fmt::Display for SpelledText<'_> {
    ghost use Rattle.std.specs.Prelude.{Some};
    ghost use Rattle.decimal_text.specs.Grammar.{spelled};

    ghost output = { λ s. Some (spelled s.0.now s.1.now) };

    fn fmt<W: fmt::Write>(&self, f: &mut fmt::Formatter<W>) -> fmt::Result {
        write!(f, "{}{}", self.0, NumbersText(self.1))
    }
}
