//! Converts a list of numbers to typed operands, after checks of the list's length and of each operand's range.
ghost use Rattle.std.specs.Prelude.{◌≡◌, ℕ, nat_le, ◌&&◌, if◌then◌else◌, Some, None};
ghost use Rattle.decimal_text.specs.Rows.{one, two, three, four};
ghost use Rattle.decimal_text.specs.Written.{u8, u16, u32};

/// An operand type whose values are made from numbers up to `maximum`.
pub trait Operand: Copy {
    ghost maximum: { ℕ };

    ghost of: { ℕ → Self };

    /// Converts a number to an operand, if the number is in the type's range. Returns `None` if the number is above the
    /// type's maximum.
    fn from_number(number: u32) -> Option<Self>
        ensures { result ≡ (if nat_le number maximum then Some (of number) else None) };
}

impl Operand for u8 {
    ghost maximum = { u8 };

    ghost of = { λ n. n };

    fn from_number(number: u32) -> Option<u8> {
        u8::try_from(number).ok()
    }
}

impl Operand for u16 {
    ghost maximum = { u16 };

    ghost of = { λ n. n };

    fn from_number(number: u32) -> Option<u16> {
        u16::try_from(number).ok()
    }
}

impl Operand for u32 {
    ghost maximum = { u32 };

    ghost of = { λ n. n };

    fn from_number(number: u32) -> Option<u32> {
        Some(number)
    }
}

fn both<A: Operand, B: Operand>(first: u32, second: u32) -> Option<(A, B)>
    ensures { result ≡ (if nat_le first A.maximum && nat_le second B.maximum
        then Some (A.of first, B.of second) else None) }
{
    A::from_number(first).zip(B::from_number(second))
}

/// Converts a list of exactly one number to an operand. Returns `None` for another count of numbers, or if the number
/// is out of range.
pub fn one_operand<A: Operand>(numbers: &[u32]) -> Option<A>
    ensures { result ≡ one A.maximum (λ k. A.of k) numbers.now }
{
    match numbers {
        [first] => A::from_number(*first),
        _ => None,
    }
}

/// Converts a list of exactly two numbers to two operands. Returns `None` for another count of numbers, or if a number
/// is out of its operand's range.
pub fn two_operands<A: Operand, B: Operand>(numbers: &[u32]) -> Option<(A, B)>
    ensures { result ≡ two A.maximum B.maximum (λ k l. (A.of k, B.of l)) numbers.now }
{
    match numbers {
        [first, second] => both(*first, *second),
        _ => None,
    }
}

/// Converts a list of exactly three numbers to three operands. Returns `None` for another count of numbers, or if a
/// number is out of its operand's range.
pub fn three_operands<A: Operand, B: Operand, C: Operand>(numbers: &[u32]) -> Option<(A, B, C)>
    ensures { result ≡ three A.maximum B.maximum C.maximum (λ k l m. (A.of k, B.of l, C.of m)) numbers.now }
{
    let [first, second, third] = numbers else {
        return None;
    };
    let (first, second) = both(*first, *second)?;
    let third = C::from_number(*third)?;
    Some((first, second, third))
}

/// Converts a list of exactly four numbers to four operands. Returns `None` for another count of numbers, or if a
/// number is out of its operand's range.
pub fn four_operands<A: Operand, B: Operand, C: Operand, D: Operand>(
    numbers: &[u32],
) -> Option<(A, B, C, D)>
    ensures { result ≡ four A.maximum B.maximum C.maximum D.maximum
        (λ k l m n. (A.of k, B.of l, C.of m, D.of n)) numbers.now }
{
    let [first, second, third, fourth] = numbers else {
        return None;
    };
    let (first, second) = both(*first, *second)?;
    let (third, fourth) = both(*third, *fourth)?;
    Some((first, second, third, fourth))
}

/// Converts an `Option` of operands to an `Option` of a value made from the operands. The value is a variant whose
/// fields are the operands in sequence, or any expression. This is a macro for a `match`, since a closure for each
/// would be one more function to prove.
#[macro_export]
macro_rules! made_of {
    ($found:expr => $type:ident::$kind:ident { $($field:ident),+ }) => {
        match $found {
            Some(($($field),+)) => Some($type::$kind { $($field),+ }),
            None => None,
        }
    };
    ($found:expr, $operands:pat => $made:expr) => {
        match $found {
            Some($operands) => Some($made),
            None => None,
        }
    };
}
