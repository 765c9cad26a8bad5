//! The operands of steps, which are pages, offsets, and lists of at most 17 numbers.
ghost use Rattle.std.specs.Prelude.{◌≡◌, [], ◌∷◌};

use arrayvec::ArrayVec;
use decimal_text::Operand;
use granule_addr::PageOff;

/// The highest number that a build's page can have. Numbers begin at 0, and the largest machine has 4096 pages.
pub const MOST_PAGE: u16 = 4095;

/// The greatest offset of a byte in a page of 4 KiB.
const MOST_OFFSET: u32 = 4095;

/// The number of a build's page, as an operand of a step.
#[derive(Clone, Copy)]
pub struct Page(pub u16);

impl Operand for Page {
    ghost use Rattle.realm_plan.specs.StepsWritten.{page};

    ghost maximum = { page };

    ghost of = { λ n. record { 0 = n } };

    fn from_number(number: u32) -> Option<Page> {
        if number > u32::from(MOST_PAGE) {
            return None;
        }
        Some(Page(number as u16))
    }
}

/// The offset of a byte in a page, as an operand of a step.
#[derive(Clone, Copy)]
pub struct Offset(pub PageOff);

impl Operand for Offset {
    ghost use Rattle.realm_plan.specs.StepsWritten.{page_offset};

    ghost maximum = { page_offset };

    ghost of = { λ n. record { 0 = n } };

    fn from_number(number: u32) -> Option<Offset> {
        if number > MOST_OFFSET {
            return None;
        }
        Some(Offset(PageOff::new(number as u16)?))
    }
}

/// The maximum number of operands of a step: the page of a REC, and 16 auxiliary pages.
pub const MOST_NUMBERS: usize = 17;

pub fn one(first: u32) -> ArrayVec<u32, MOST_NUMBERS>
    ensures { result.items ≡ first ∷ [] }
{
    let mut numbers = ArrayVec::new();
    numbers.push(first);
    numbers
}

pub fn two(first: u32, second: u32) -> ArrayVec<u32, MOST_NUMBERS>
    ensures { result.items ≡ first ∷ second ∷ [] }
{
    let mut numbers = one(first);
    numbers.push(second);
    numbers
}

pub fn three(first: u32, second: u32, third: u32) -> ArrayVec<u32, MOST_NUMBERS>
    ensures { result.items ≡ first ∷ second ∷ third ∷ [] }
{
    let mut numbers = two(first, second);
    numbers.push(third);
    numbers
}

pub fn four(first: u32, second: u32, third: u32, fourth: u32) -> ArrayVec<u32, MOST_NUMBERS>
    ensures { result.items ≡ first ∷ second ∷ third ∷ fourth ∷ [] }
{
    let mut numbers = three(first, second, third);
    numbers.push(fourth);
    numbers
}
