//! The spelling of operations in a history: a word and numbers.
ghost use Rattle.std.specs.Prelude.{◌≡◌, [], ◌∷◌, ◌≤◌, length};
ghost use Rattle.history_text.specs.Written.{written_act};

use arrayvec::ArrayVec;
use granule_addr::{Gran, IpaGran, PageOff, RecNo, Root, Vmid};
use realm_model::Act;

/// The maximum number of operands in the text of an operation. An operation that creates or destroys a REC can have
/// this many: the granule and the number of the REC, and 16 auxiliary granules.
const MOST_NUMBERS: usize = 18;

/// Returns the word for an operation in the text of a history.
pub fn word_of(act: &Act) -> &'static str
    ensures { result.now ≡ (written_act act.now).word }
{
    match act {
        Act::Take { .. } => "take",
        Act::UnTake { .. } => "untake",
        Act::Fill { .. } => "fill",
        Act::Peek { .. } => "peek",
        Act::Delegate { .. } => "delegate",
        Act::Undelegate { .. } => "undelegate",
        Act::Realm { .. } => "realm",
        Act::UnRealm { .. } => "unrealm",
        Act::Activate => "activate",
        Act::Rtt { .. } => "rtt",
        Act::UnRtt { .. } => "unrtt",
        Act::Ripas { .. } => "ripas",
        Act::Data { .. } => "data",
        Act::Unknown { .. } => "unknown",
        Act::UnData { .. } => "undata",
        Act::Rec { .. } => "rec",
        Act::UnRec { .. } => "unrec",
        Act::Enter { .. } => "enter",
        Act::Exit { .. } => "exit",
        Act::Poke { .. } => "poke",
    }
}

fn numbers(values: &[u32]) -> ArrayVec<u32, MOST_NUMBERS>
    requires { length values.now ≤ 18 }
    ensures { result.items ≡ values.now }
{
    let mut numbers = ArrayVec::new();
    numbers.try_extend_from_slice(values).unwrap();
    numbers
}

fn peek_numbers(granule: Gran, offset: PageOff, byte: u8) -> ArrayVec<u32, MOST_NUMBERS>
    ensures { result.items ≡ granule ∷ offset ∷ byte ∷ [] }
{
    let (granule, offset) = (granule.number() as u32, offset.number() as u32);
    numbers(&[granule, offset, byte as u32])
}

fn data_numbers(granule: Gran, ipa: IpaGran, source: Gran) -> ArrayVec<u32, MOST_NUMBERS>
    ensures { result.items ≡ granule ∷ ipa ∷ source ∷ [] }
{
    let (granule, source) = (granule.number() as u32, source.number() as u32);
    numbers(&[granule, ipa.number(), source])
}

fn poke_numbers(
    number: RecNo,
    ipa: IpaGran,
    offset: PageOff,
    value: u8,
) -> ArrayVec<u32, MOST_NUMBERS>
    ensures { result.items ≡ number ∷ ipa ∷ offset ∷ value ∷ [] }
{
    let (number, offset) = (number.number() as u32, offset.number() as u32);
    numbers(&[number, ipa.number(), offset, value as u32])
}

fn realm_numbers(rd: Gran, root: Root, vmid: Vmid) -> ArrayVec<u32, MOST_NUMBERS>
    ensures { result.items ≡ rd ∷ root.first ∷ root.width ∷ vmid ∷ [] }
{
    let (rd, first) = (rd.number() as u32, root.first.number() as u32);
    let (width, vmid) = (root.width.number() as u32, vmid.number() as u32);
    numbers(&[rd, first, width, vmid])
}

// The numbers of an operation that creates or destroys a REC: the REC's granule, its number, and its auxiliary
// granules.
fn rec_numbers(granule: Gran, number: RecNo, auxiliaries: &[Gran]) -> ArrayVec<u32, MOST_NUMBERS>
    requires { length auxiliaries.now ≤ 16 }
    ensures { result.items ≡ granule ∷ number ∷ auxiliaries.now }
{
    let mut numbers = numbers(&[granule.number() as u32, number.number() as u32]);
    for auxiliary in auxiliaries {
        numbers.push(auxiliary.number() as u32);
    }
    numbers
}

/// Returns the numbers in the text of an operation, from left to right.
pub fn numbers_of(act: &Act) -> ArrayVec<u32, MOST_NUMBERS>
    ensures { result.items ≡ (written_act act.now).numbers }
{
    match act {
        Act::Take { order, first } | Act::UnTake { order, first } => {
            numbers(&[order.number() as u32, first.number() as u32])
        }
        Act::Fill { granule, value } => numbers(&[granule.number() as u32, *value as u32]),
        Act::Peek {
            granule,
            offset,
            byte,
        } => peek_numbers(*granule, *offset, *byte),
        Act::Delegate { granule } | Act::Undelegate { granule } => {
            numbers(&[granule.number() as u32])
        }
        Act::Realm { rd, root, vmid } | Act::UnRealm { rd, root, vmid } => {
            realm_numbers(*rd, *root, *vmid)
        }
        Act::Activate => ArrayVec::new(),
        Act::Rtt {
            granule,
            ipa,
            level,
        }
        | Act::UnRtt {
            granule,
            ipa,
            level,
        } => numbers(&[granule.number() as u32, ipa.number(), level.number() as u32]),
        Act::Ripas { ipa, count } => numbers(&[ipa.number(), *count as u32]),
        Act::Data {
            granule,
            ipa,
            source,
        } => data_numbers(*granule, *ipa, *source),
        Act::Unknown { granule, ipa } | Act::UnData { granule, ipa } => {
            numbers(&[granule.number() as u32, ipa.number()])
        }
        Act::Rec {
            granule,
            auxiliaries,
            number,
        }
        | Act::UnRec {
            granule,
            auxiliaries,
            number,
        } => rec_numbers(*granule, *number, auxiliaries.as_slice()),
        Act::Enter { number } | Act::Exit { number } => numbers(&[number.number() as u32]),
        Act::Poke {
            number,
            ipa,
            offset,
            value,
        } => poke_numbers(*number, *ipa, *offset, *value),
    }
}
