//! The parser for operations in a history. An operation is spelled as a word and numbers.
ghost use Rattle.std.specs.Prelude.{◌≡◌, ◌≤◌};
ghost use Rattle.decimal_text.specs.Rows.{none, one, two, three, four};
ghost use Rattle.decimal_text.specs.Written.{u8, u16};
ghost use Rattle.realm_model.specs.declared.act.Act.TheVariants.{Activate};
ghost use Rattle.history_text.specs.Written.{order, granule, offset, ipa};
ghost use Rattle.history_text.specs.Acts.{realm_row, table_row, rec_row, page_act_at, realm_act_at, table_act_at, data_act_at, rec_act_at, act_at, act_of_text};

use crate::granules::{GRANULE, IPA, granule_of, granules_of, ipa_of};
use arrayvec::ArrayVec;
use decimal_text::{at_most, cut_at_space, made_of, numbers_of};
use granule_addr::{Gran, IpaGran, IpaWidth, Level, Order, PageOff, RecNo, Root, Vmid};
use realm_model::Act;

// The largest value of each kind of operand.
const ORDER: u32 = 9;

const OFFSET: u32 = 4095;

const WIDTH: u32 = 43;

const LEVEL: u32 = 3;

const U8: u32 = 255;

const U16: u32 = 65_535;

/// The maximum number of operands of an operation. The operands are then a REC's granule, the REC's number, and 16
/// auxiliary granules.
const MOST_NUMBERS: usize = 18;

fn order_of(number: u32) -> Order
    requires { number ≤ 9 }
    ensures { result ≡ number }
{
    Order::new(number as u8).unwrap()
}

fn offset_of(number: u32) -> PageOff
    requires { number ≤ 4095 }
    ensures { result ≡ number }
{
    PageOff::new(number as u16).unwrap()
}

// The order of a block, and its first granule.
fn block(numbers: &[u32]) -> Option<(Order, Gran)>
    ensures { result ≡ two order granule (λ o first. (o, first)) numbers.now }
{
    let [order, first] = at_most(numbers, [ORDER, GRANULE])?;
    Some((order_of(order), granule_of(first)))
}

fn one_granule(numbers: &[u32]) -> Option<Gran>
    ensures { result ≡ one granule (λ g. g) numbers.now }
{
    let [granule] = at_most(numbers, [GRANULE])?;
    Some(granule_of(granule))
}

// A granule, and the value that all its bytes get.
fn filled(numbers: &[u32]) -> Option<(Gran, u8)>
    ensures { result ≡ two granule u8 (λ g value. (g, value)) numbers.now }
{
    let [granule, value] = at_most(numbers, [GRANULE, U8])?;
    Some((granule_of(granule), value as u8))
}

// A granule, the offset of a byte in it, and the byte.
fn byte_at(numbers: &[u32]) -> Option<(Gran, PageOff, u8)>
    ensures { result ≡ three granule offset u8 (λ g o byte. (g, o, byte)) numbers.now }
{
    let [granule, offset, byte] = at_most(numbers, [GRANULE, OFFSET, U8])?;
    Some((granule_of(granule), offset_of(offset), byte as u8))
}

fn page_act(word: &str, numbers: &[u32]) -> Option<Act>
    ensures { result ≡ page_act_at word.now numbers.now }
{
    match word {
        "take" => made_of!(block(numbers) => Act::Take { order, first }),
        "untake" => made_of!(block(numbers) => Act::UnTake { order, first }),
        "fill" => made_of!(filled(numbers) => Act::Fill { granule, value }),
        "peek" => made_of!(byte_at(numbers) => Act::Peek { granule, offset, byte }),
        "delegate" => made_of!(one_granule(numbers) => Act::Delegate { granule }),
        "undelegate" => made_of!(one_granule(numbers) => Act::Undelegate { granule }),
        _ => None,
    }
}

// The RD of a realm, its starting tables and its VMID.
fn realm(numbers: &[u32]) -> Option<(Gran, Root, Vmid)>
    ensures { result ≡ realm_row (λ rd root vmid. (rd, root, vmid)) numbers.now }
{
    let [rd, first, width, vmid] = at_most(numbers, [GRANULE, GRANULE, WIDTH, U8])?;
    let width = IpaWidth::new(width as u8)?;
    let vmid = Vmid::new(vmid as u8)?;
    let root = Root {
        first: granule_of(first),
        width,
    };
    Some((granule_of(rd), root, vmid))
}

fn activate(numbers: &[u32]) -> Option<Act>
    ensures { result ≡ none Activate numbers.now }
{
    match numbers {
        [] => Some(Act::Activate),
        _ => None,
    }
}

fn realm_act(word: &str, numbers: &[u32]) -> Option<Act>
    ensures { result ≡ realm_act_at word.now numbers.now }
{
    match word {
        "realm" => made_of!(realm(numbers) => Act::Realm { rd, root, vmid }),
        "unrealm" => made_of!(realm(numbers) => Act::UnRealm { rd, root, vmid }),
        "activate" => activate(numbers),
        _ => None,
    }
}

// The granule of a table, an IPA granule, and the table's level.
fn table(numbers: &[u32]) -> Option<(Gran, IpaGran, Level)>
    ensures { result ≡ table_row (λ g i l. (g, i, l)) numbers.now }
{
    let [granule, ipa, level] = at_most(numbers, [GRANULE, IPA, LEVEL])?;
    let level = Level::new(level as u8)?;
    Some((granule_of(granule), ipa_of(ipa), level))
}

// The first IPA granule of a range, and the number of its granules.
fn range(numbers: &[u32]) -> Option<(IpaGran, u16)>
    ensures { result ≡ two ipa u16 (λ i count. (i, count)) numbers.now }
{
    let [ipa, count] = at_most(numbers, [IPA, U16])?;
    Some((ipa_of(ipa), count as u16))
}

fn table_act(word: &str, numbers: &[u32]) -> Option<Act>
    ensures { result ≡ table_act_at word.now numbers.now }
{
    match word {
        "rtt" => made_of!(table(numbers) => Act::Rtt { granule, ipa, level }),
        "unrtt" => made_of!(table(numbers) => Act::UnRtt { granule, ipa, level }),
        "ripas" => made_of!(range(numbers) => Act::Ripas { ipa, count }),
        _ => None,
    }
}

// A granule, and the IPA granule that it is mapped at.
fn mapped(numbers: &[u32]) -> Option<(Gran, IpaGran)>
    ensures { result ≡ two granule ipa (λ g i. (g, i)) numbers.now }
{
    let [granule, ipa] = at_most(numbers, [GRANULE, IPA])?;
    Some((granule_of(granule), ipa_of(ipa)))
}

// A granule, the IPA granule that it is mapped at, and the granule that it is copied from.
fn copied(numbers: &[u32]) -> Option<(Gran, IpaGran, Gran)>
    ensures { result ≡ three granule ipa granule (λ g i source. (g, i, source)) numbers.now }
{
    let [granule, ipa, source] = at_most(numbers, [GRANULE, IPA, GRANULE])?;
    Some((granule_of(granule), ipa_of(ipa), granule_of(source)))
}

fn data_act(word: &str, numbers: &[u32]) -> Option<Act>
    ensures { result ≡ data_act_at word.now numbers.now }
{
    match word {
        "data" => made_of!(copied(numbers) => Act::Data { granule, ipa, source }),
        "unknown" => made_of!(mapped(numbers) => Act::Unknown { granule, ipa }),
        "undata" => made_of!(mapped(numbers) => Act::UnData { granule, ipa }),
        _ => None,
    }
}

// The granule of a REC, the REC's auxiliary granules, and the REC's number.
fn rec(numbers: &[u32]) -> Option<(Gran, ArrayVec<Gran, 16>, RecNo)>
    ensures { result ≡ rec_row (λ g auxiliaries number. (g, auxiliaries, number)) numbers.now }
{
    let [granule, number, more @ ..] = numbers else {
        return None;
    };
    let [granule, number] = at_most(&[*granule, *number], [GRANULE, U16])?;
    let auxiliaries = granules_of(more)?;
    Some((granule_of(granule), auxiliaries, RecNo::new(number as u16)))
}

fn rec_number(numbers: &[u32]) -> Option<RecNo>
    ensures { result ≡ one u16 (λ number. number) numbers.now }
{
    let [number] = at_most(numbers, [U16])?;
    Some(RecNo::new(number as u16))
}

// The number of a REC, the IPA granule and the offset at which the REC writes, and the value.
fn written(numbers: &[u32]) -> Option<(RecNo, IpaGran, PageOff, u8)>
    ensures { result ≡ four u16 ipa offset u8 (λ number i o value. (number, i, o, value)) numbers.now }
{
    let [number, ipa, offset, value] = at_most(numbers, [U16, IPA, OFFSET, U8])?;
    Some((
        RecNo::new(number as u16),
        ipa_of(ipa),
        offset_of(offset),
        value as u8,
    ))
}

fn rec_act(word: &str, numbers: &[u32]) -> Option<Act>
    ensures { result ≡ rec_act_at word.now numbers.now }
{
    match word {
        "rec" => made_of!(rec(numbers) => Act::Rec { granule, auxiliaries, number }),
        "unrec" => made_of!(rec(numbers) => Act::UnRec { granule, auxiliaries, number }),
        "enter" => made_of!(rec_number(numbers) => Act::Enter { number }),
        "exit" => made_of!(rec_number(numbers) => Act::Exit { number }),
        "poke" => made_of!(written(numbers) => Act::Poke { number, ipa, offset, value }),
        _ => None,
    }
}

// The operation that a word and its numbers spell.
fn act(word: &str, numbers: &[u32]) -> Option<Act>
    ensures { result ≡ act_at word.now numbers.now }
{
    page_act(word, numbers)
        .or_else(|| realm_act(word, numbers))
        .or_else(|| table_act(word, numbers))
        .or_else(|| data_act(word, numbers))
        .or_else(|| rec_act(word, numbers))
}

/// Parses an operation, spelled as a word and numbers. Returns `None` if the text spells no operation. The text has one
/// space before each number and nothing else. The numbers are in decimal, without a sign and without leading zeros, and
/// each in its range. No memory is taken.
pub fn act_from_text(text: &str) -> Option<Act>
    ensures { result ≡ act_of_text text.now }
{
    let (word, rest) = cut_at_space(text);
    let numbers = numbers_of::<MOST_NUMBERS>(rest)?;
    act(word, numbers.as_slice())
}
