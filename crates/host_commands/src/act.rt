//! Converts a build's command to the operation that the command asks for, if there is one.
ghost use Rattle.std.specs.Prelude.{◌≡◌, ◌≤◌, length, slice_get, drop, true, Some, None, IfSome, if◌then◌else◌};
ghost use Rattle.realm_model.specs.Outcome.{is_in_range};
ghost use Rattle.realm_model.specs.declared.act.Act.TheVariants as acts;
ghost use Rattle.host_commands.specs.Needs.{operands};
ghost use Rattle.host_commands.specs.Acts.{is_ipa, act_if, root_of, act_of};

use crate::{Allocated, Cmd};
use arrayvec::ArrayVec;
use granule_addr::{Gran, IpaGran, IpaWidth, Level, PageOff, RecNo, Root};
use realm_model::Act;

// The widest address space that a realm may have, in bits.
const WIDEST: u8 = 43;

// IPA granule `number`, if the widest address space has it.
fn ipa_of(number: u32) -> Option<IpaGran>
    ensures { result ≡ (if is_ipa number then Some number else None) }
{
    IpaGran::new(number, WIDEST)
}

fn granule_at(granules: &[Gran], place: usize) -> Option<Gran>
    ensures { result ≡ slice_get granules.now place }
{
    granules.get(place).copied()
}

// The auxiliary granules of a REC: all granules but the first.
fn auxiliaries_of(granules: &[Gran]) -> ArrayVec<Gran, 16>
    requires some { 1 ≤ length granules.now }
    requires few { length granules.now ≤ 17 }
    ensures { result.items ≡ drop 1 granules.now }
{
    let mut auxiliaries = ArrayVec::new();
    for granule in &granules[1..] {
        auxiliaries.push(*granule);
    }
    auxiliaries
}

// The starting tables of a realm, if `width` is valid, and `tables` are the right number of adjacent granules, in
// sequence.
fn starting_tables(width: u8, tables: &[Gran]) -> Option<Root>
    ensures { result ≡ root_of width tables.now }
{
    let first = granule_at(tables, 0)?;
    let width = IpaWidth::new(width)?;
    if tables.len() != width.start_count() as usize {
        return None;
    }
    let mut number = first.number();
    'tables: for table in tables {
        if table.number() != number {
            return None;
        }
        number += 1;
    }
    Some(Root { first, width })
}

fn peek_act(granule: Gran, offset: PageOff, byte: u8) -> Act
    ensures act { result ≡ acts.Peek granule offset byte }
    ensures in_range { is_in_range result ≡ true }
{
    let _in_page = offset.number();
    Act::Peek {
        granule,
        offset,
        byte,
    }
}

fn poke_act(number: RecNo, ipa: u32, offset: PageOff, value: u8) -> Option<Act>
    ensures act { result ≡ act_if (is_ipa ipa) (acts.Poke number ipa offset value) }
    ensures in_range { IfSome result (λ act. is_in_range act ≡ true) }
{
    let ipa = ipa_of(ipa)?;
    let _in_page = offset.number();
    Some(Act::Poke {
        number,
        ipa,
        offset,
        value,
    })
}

// The operation of a command that names pages.
#[tactic(auto, unfolding(crate::specs::Acts::act_of, crate::specs::Needs::operands))]
fn act_on_pages(cmd: &Cmd, granules: &[Gran], allocated: Allocated) -> Option<Act>
    requires some { 1 ≤ length (operands cmd.now) }
    requires few { length granules.now ≤ 17 }
    ensures act { result ≡ act_of cmd.now granules.now allocated }
    ensures in_range { IfSome result (λ act. is_in_range act ≡ true) }
{
    let granule = granule_at(granules, 0)?;
    match cmd {
        Cmd::Fill { value, .. } => Some(Act::Fill {
            granule,
            value: *value,
        }),
        Cmd::Peek { offset, .. } => Some(peek_act(granule, *offset, allocated.byte)),
        Cmd::Delegate { .. } => Some(Act::Delegate { granule }),
        Cmd::Realm { width, .. } => {
            let root = starting_tables(*width, &granules[1..])?;
            Some(Act::Realm {
                rd: granule,
                root,
                vmid: allocated.vmid,
            })
        }
        Cmd::Rtt { ipa, level, .. } => Some(Act::Rtt {
            granule,
            ipa: ipa_of(*ipa)?,
            level: Level::new(*level)?,
        }),
        Cmd::Data { ipa, .. } => Some(Act::Data {
            granule,
            ipa: ipa_of(*ipa)?,
            source: granule_at(granules, 1)?,
        }),
        Cmd::Unknown { ipa, .. } => Some(Act::Unknown {
            granule,
            ipa: ipa_of(*ipa)?,
        }),
        Cmd::Rec { .. } => Some(Act::Rec {
            granule,
            auxiliaries: auxiliaries_of(granules),
            number: allocated.number,
        }),
        _ => None,
    }
}

/// Converts a build's command to the operation that the command asks for, if there is one. `granules` are those of the
/// command's pages, and `allocated` has the allocated values.
///
/// The result is `None` if a number of the command can be in no operation. That is an IPA granule from 2^31 on, a level
/// outside 1 to 3, a width outside 39 to 43, or starting tables that are not adjacent granules. The command is then
/// refused with RMI_ERROR_INPUT. A Take has no operation either: the store chooses its block. The numbers that no
/// command checks, values and offsets in a page, are in range.
#[tactic(auto, unfolding(crate::specs::Acts::act_of, crate::specs::Needs::operands))]
pub fn act_of(cmd: &Cmd, granules: &ArrayVec<Gran, 17>, allocated: Allocated) -> Option<Act>
    ensures act { result ≡ act_of cmd.now granules.now.items allocated }
    ensures in_range { IfSome result (λ act. is_in_range act ≡ true) }
{
    match cmd {
        Cmd::Take { .. } => None,
        Cmd::Ripas { ipa, count } => Some(Act::Ripas {
            ipa: ipa_of(*ipa)?,
            count: *count,
        }),
        Cmd::Activate => Some(Act::Activate),
        Cmd::Enter { number } => Some(Act::Enter { number: *number }),
        Cmd::Exit { number } => Some(Act::Exit { number: *number }),
        Cmd::Poke {
            number,
            ipa,
            offset,
            value,
        } => poke_act(*number, *ipa, *offset, *value),
        _ => act_on_pages(cmd, granules.as_slice(), allocated),
    }
}
