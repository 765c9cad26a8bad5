//! The check that the numbers in a line of a trace are consistent with each other.
ghost use Rattle.std.specs.Prelude.{◌≡◌, ◌+◌, ◌*◌};
ghost use Rattle.rmm_trace.specs.Consistent.{is_secure_right, is_platform_right, limit_of, is_access, is_step_right};
ghost use Rattle.rmm_trace.specs.Consistent.{is_guest_right, are_bytes, is_fill_right, is_repeat_right};
ghost use Rattle.rmm_trace.specs.Consistent.{is_consistent};

use crate::access::{after_name, number_at, number_or_zero, operand};
use crate::place::{FILL, GUEST, PLATFORM, READ, REPEAT, SECURE, WRITE};
use crate::word::{Atom, TraceWord};

// The end of `count` granules that begin at the address `base`.
fn end_of(base: u64, count: u64) -> u128
    ensures { result ≡ base + 4096 * count }
{
    u128::from(base) + 4096 * u128::from(count)
}

// Whether the granules of a `secure` setting, if there is one, are inside the machine.
fn is_secure_right(secure: &[TraceWord], base: u64, end: u128) -> bool
    ensures { result ≡ is_secure_right secure.now base end }
{
    match secure {
        [] => true,
        _ => {
            let first = operand(secure, 0, 0);
            base <= first && end_of(first, operand(secure, 1, 0)) <= end
        }
    }
}

// Whether a machine ends within 48 bits, and the granules of its `secure` setting are inside it.
fn is_platform_right(words: &[TraceWord]) -> bool
    ensures { result ≡ is_platform_right words.now }
{
    let base = operand(words, 0, 0);
    let end = end_of(base, operand(words, 1, 0));
    end <= 0x1_0000_0000_0000 && is_secure_right(after_name(words, SECURE), base, end)
}

// The least number above all values of `width` bytes.
fn limit_of(width: u64) -> u128
    ensures { result ≡ limit_of width }
{
    match width {
        2 => 0x1_0000,
        4 => 0x1_0000_0000,
        8 => 0x1_0000_0000_0000_0000,
        _ => 0x100,
    }
}

// Whether a guest can access `width` bytes at an address, and a value fits in them.
fn is_access(ipa: u64, width: u64, value: u64) -> bool
    ensures { result ≡ is_access ipa width value }
{
    ipa % width.max(1) == 0 && u128::from(value) < limit_of(width)
}

fn is_step_right(step: &[TraceWord]) -> bool
    ensures { result ≡ is_step_right step.now }
{
    let [first, rest @ ..] = step else {
        return true;
    };
    let Atom::Name(name) = first.value else {
        return true;
    };
    if name == WRITE {
        return is_access(
            operand(rest, 0, 0),
            operand(rest, 2, 0),
            operand(rest, 1, 0),
        );
    }
    if name == READ {
        return is_access(operand(rest, 0, 0), operand(rest, 1, 0), 0);
    }
    true
}

// Whether the numbers of the step in a `guest` question are consistent.
fn is_guest_right(words: &[TraceWord]) -> bool
    ensures { result ≡ is_guest_right words.now }
{
    match words {
        [] => true,
        [_, step @ ..] => is_step_right(step),
    }
}

// Whether a word is a byte in each round of a `repeat`.
fn are_bytes(word: TraceWord, rounds: u64) -> bool
    ensures { result ≡ are_bytes rounds word }
{
    let mut left = rounds;
    'rounds: while left > 0 {
        left -= 1;
        if number_at(word, left) > 255 {
            return false;
        }
    }
    true
}

// Whether a repeated `fill` has a granule's address and a byte in every round. Any other repeated question is right.
fn is_fill_right(times: TraceWord, name: TraceWord, address: TraceWord, byte: TraceWord) -> bool
    ensures { result ≡ is_fill_right times name address byte }
{
    match name.value {
        Atom::Name(place) => {
            place != FILL
                || (number_or_zero(address.step) % 4096 == 0
                    && are_bytes(byte, number_or_zero(Some(times.value))))
        }
        Atom::Decimal(_) => true,
        Atom::Hexadecimal(_) => true,
    }
}

fn is_repeat_right(words: &[TraceWord]) -> bool
    ensures { result ≡ is_repeat_right words.now }
{
    match words {
        [times, name, address, byte] => is_fill_right(*times, *name, *address, *byte),
        _ => true,
    }
}

/// Returns whether the numbers in the words of a trace line are consistent with each other. The words are ones that the
/// grammar accepts.
///
/// Compared are the machine of a platform, the access of a guest, and the rounds of a fill.
pub fn is_consistent(words: &[TraceWord]) -> bool
    ensures { result ≡ is_consistent words.now }
{
    let [first, rest @ ..] = words else {
        return false;
    };
    let Atom::Name(place) = first.value else {
        return false;
    };
    if place == PLATFORM {
        return is_platform_right(rest);
    }
    if place == GUEST {
        return is_guest_right(rest);
    }
    if place == REPEAT {
        return is_repeat_right(rest);
    }
    true
}
