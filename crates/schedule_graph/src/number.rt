//! Natural numbers without an upper bound, in decimal digits, for counting schedules.
ghost use Rattle.std.specs.Prelude.{◌≡◌, ℕ, ◌+◌, ◌*◌, ◌^◌, ◌<◌, ◌≤◌, ◌==◌, List, ◌++◌, length, map, reverse, All, OnOk, IfOk, string_bytes};
ghost use Rattle.schedule_graph.specs.Number.{number_of, trimmed, numeral};

use std::alloc::{AllocError, Global};
use std::marker::Model;

/// A natural number of any size, kept as its decimal digits. The least significant digit is first. The view is the
/// number.
#[derive(Drop)]
pub struct Count {
    digits: Vec<u8>,
}

impl Model for Count {
    ghost use Rattle.std.specs.Prelude.{ℕ, ◌<◌, All};
    ghost use Rattle.schedule_graph.specs.Number.{number_of};

    ghost Value = { ℕ };

    ghost view = { λ c. number_of c.digits.items };

    ghost invariant = { λ c. All (λ digit. digit < 10) c.digits.items };
}

// Appends zeros until there are at least `places` digits.
fn pad(digits: &mut Vec<u8>, places: usize) -> Result<(), AllocError>
    requires { All (λ digit. digit < 10) digits.old.items }
    ensures number { number_of digits.new.items ≡ number_of digits.old.items }
    ensures digits { All (λ digit. digit < 10) digits.new.items }
    ensures places { OnOk result (places ≤ length digits.new.items) }
{
    for _place in digits.len()..places {
        digits.push(0)?;
    }
    Ok(())
}

// Appends the digits of a carry.
fn push_carry(digits: &mut Vec<u8>, carry: u128) -> Result<(), AllocError>
    requires { All (λ digit. digit < 10) digits.old.items }
    ensures number { OnOk result (number_of digits.new.items
        ≡ number_of digits.old.items + carry * 10 ^ length digits.old.items) }
    ensures digits { All (λ digit. digit < 10) digits.new.items }
    ensures longer { length digits.old.items ≤ length digits.new.items }
{
    let mut carry = carry;
    while carry > 0 {
        digits.push((carry % 10) as u8)?;
        carry /= 10;
    }
    Ok(())
}

// Adds `amount` at the decimal place `place`, and returns the carry out of the last digit.
fn carry_from(digits: &mut [u8], place: usize, amount: u8) -> u8
    requires digits { All (λ digit. digit < 10) digits.old }
    requires place { place ≤ length digits.old }
    requires amount { amount ≤ 81 }
    ensures number { number_of digits.new + result * 10 ^ length digits.new
        ≡ number_of digits.old + amount * 10 ^ place }
    ensures digits { All (λ digit. digit < 10) digits.new }
    ensures length { length digits.new ≡ length digits.old }
{
    let mut carry = amount;
    for at in place..digits.len() {
        if carry == 0 {
            return 0;
        }
        let sum = digits[at] + carry;
        digits[at] = sum % 10;
        carry = sum / 10;
    }
    carry
}

// Adds `amount` at the decimal place `place`.
fn add_at(digits: &mut Vec<u8>, place: usize, amount: u8) -> Result<(), AllocError>
    requires digits { All (λ digit. digit < 10) digits.old.items }
    requires place { place ≤ length digits.old.items }
    requires amount { amount ≤ 81 }
    ensures number { OnOk result (number_of digits.new.items ≡ number_of digits.old.items + amount * 10 ^ place) }
    ensures digits { All (λ digit. digit < 10) digits.new.items }
    ensures longer { length digits.old.items ≤ length digits.new.items }
{
    let carry = carry_from(digits, place, amount);
    push_carry(digits, u128::from(carry))
}

// Adds the number whose digits are `more`.
fn add_digits(digits: &mut Vec<u8>, more: &[u8]) -> Result<(), AllocError>
    requires digits { All (λ digit. digit < 10) digits.old.items }
    requires more { All (λ digit. digit < 10) more.now }
    ensures number { OnOk result (number_of digits.new.items ≡ number_of digits.old.items + number_of more.now) }
    ensures digits { All (λ digit. digit < 10) digits.new.items }
{
    pad(digits, more.len())?;
    for place in 0..more.len() {
        add_at(digits, place, more[place])?;
    }
    Ok(())
}

// The digits without leading zeros.
fn trimmed(digits: &[u8]) -> &[u8]
    ensures { result.now ≡ trimmed digits.now }
{
    let mut count = 0;
    for place in 0..digits.len() {
        if digits[place] != 0 {
            count = place + 1;
        }
    }
    &digits[..count]
}

// Appends digits to a text, the most significant first.
fn push_digits(text: &mut String, digits: &[u8]) -> Result<(), AllocError>
    requires { All (λ digit. digit < 10) digits.now }
    ensures { OnOk result (string_bytes text.new ≡ string_bytes text.old ++ map (λ digit. 48 + digit) (reverse digits.now)) }
{
    for done in 0..digits.len() {
        let digit = digits[digits.len() - 1 - done];
        write!(text, "{digit}")?;
    }
    Ok(())
}

impl Count {
    /// Returns the number 0.
    #[tactic(auto, using(crate::proofs::Numbers::number_of_none))]
    pub fn zero(alloc: Global) -> Count
        ensures { result ≡ 0 }
    {
        Count {
            digits: Vec::new(alloc),
        }
    }

    /// Returns the number 1. The one error is that allocation failed.
    pub fn one(alloc: Global) -> Result<Count, AllocError>
        ensures { IfOk result (λ one. one ≡ 1) }
    {
        let mut digits = Vec::new(alloc);
        digits.push(1)?;
        Ok(Count { digits })
    }

    /// Converts a `u128` to a `Count`. The one error is that allocation failed.
    pub(crate) fn of(alloc: Global, number: u128) -> Result<Count, AllocError>
        ensures { IfOk result (λ count. count ≡ number) }
    {
        let mut digits = Vec::new(alloc);
        push_carry(&mut digits, number)?;
        Ok(Count { digits })
    }

    /// Returns a copy of the number. The one error is that allocation failed.
    pub(crate) fn copy(&self, alloc: Global) -> Result<Count, AllocError>
        ensures { IfOk result (λ copy. copy ≡ self.now) }
    {
        let mut copy = Count::zero(alloc);
        copy.add(self)?;
        Ok(copy)
    }

    /// Returns the number times 2^128. The one error is that allocation failed.
    pub(crate) fn shifted(&self, alloc: Global) -> Result<Count, AllocError>
        ensures { IfOk result (λ shifted. shifted ≡ 2 ^ 128 * self.now) }
    {
        let mut shifted = self.copy(alloc)?;
        for _double in 0u32..128 {
            let copy = shifted.copy(alloc)?;
            shifted.add(&copy)?;
        }
        Ok(shifted)
    }

    /// Adds 1 to the number. The one error is that allocation failed; the number is then unspecified.
    pub fn add_one(&mut self) -> Result<(), AllocError>
        ensures { OnOk result (self.new ≡ self.old + 1) }
    {
        add_at(&mut self.digits, 0, 1)
    }

    /// Adds another number to this one. The one error is that allocation failed; the number is then unspecified.
    pub fn add(&mut self, other: &Count) -> Result<(), AllocError>
        ensures { OnOk result (self.new ≡ self.old + other.now) }
    {
        add_digits(&mut self.digits, &other.digits)
    }

    /// Returns whether the number is 0.
    pub fn is_zero(&self) -> bool
        ensures { result ≡ (self.now == 0) }
    {
        trimmed(&self.digits).is_empty()
    }

    /// Returns whether the two numbers are the same.
    pub fn is_same(&self, other: &Count) -> bool
        ensures { result ≡ (self.now == other.now) }
    {
        trimmed(&self.digits) == trimmed(&other.digits)
    }

    /// Appends the number to a text, in decimal. The one error is that allocation failed; the text may then have a part
    /// of the number.
    pub fn push_to(&self, text: &mut String) -> Result<(), AllocError>
        ensures { OnOk result (string_bytes text.new ≡ string_bytes text.old ++ numeral self.now) }
    {
        let digits = trimmed(&self.digits);
        if digits.is_empty() {
            text.push_str("0")?;
            return Ok(());
        }
        push_digits(text, digits)
    }
}
