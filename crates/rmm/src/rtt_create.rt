//! The command RMI_RTT_CREATE.
ghost use Rattle.std.specs.Prelude.{◌≡◌, ◌^◌, ◌<◌, IfOk, None};
ghost use Rattle.rmm_model.specs.Check.{outcome, first_failing, refusal_in};
ghost use Rattle.rmm_model.specs.Entry.{descriptor_of, repeated_byte};
ghost use Rattle.rmm_model.specs.Machine.{granule_count, with_page};
ghost use Rattle.rmm_model.specs.Table.{children_page};
ghost use Rattle.rmm_model.specs.Command.RttCreate.{rtt_create as creating};
ghost use Rattle.rmm.specs.CheckedOperands.{IsVacancy};

use crate::operand::{check_entry, check_ipa, delegated, realm_of};
use crate::walking::write;
use granule_addr::Gran;
use page_arena::PageStore;
use rmi_abi::{SmcResult, Word};
use rmm_granules::{Granules, OperandConditions, entry_at, walk};
use rmm_model::{FailedCondition, RmmGranule, RmmGranuleState, RmmRttEntry, RttWalk};

// An entry that a new table can replace, together with the realm's RD, the new table, and the new table's level.
#[derive(Clone, Copy)]
pub struct Vacancy {
    pub rd: Gran,
    pub table: Gran,
    pub level: u8,
    pub found: RttWalk,
    pub parent: RmmRttEntry,
}

// Fills a table with the children of a mapping, which together replace it.
#[inline(always)]
fn write_mappings<S: PageStore>(
    granules: &mut Granules<S>,
    table: Gran,
    parent: RmmRttEntry,
    level: u8,
)
    requires inside { table < granule_count granules.old }
    requires parent { descriptor_of parent < 2 ^ 48 }
    requires mapping { repeated_byte parent ≡ None }
    ensures { granules.new ≡ with_page granules.old table (children_page parent level) }
{
    let (kind, step) = (parent.kind_word(), parent.child_step(level));
    granules.write_rising(table, kind, parent.descriptor(), step);
}

// Fills a new table with entries that together replace the parent entry. If the parent entry is not live, all bytes of
// the table are the same.
#[tactic(auto, unfolding(rmm_model::specs::Table::children_page))]
fn write_children<S: PageStore>(
    granules: &mut Granules<S>,
    table: Gran,
    parent: RmmRttEntry,
    level: u8,
)
    requires inside { table < granule_count granules.old }
    requires parent { descriptor_of parent < 2 ^ 48 }
    ensures { granules.new ≡ with_page granules.old table (children_page parent level) }
{
    match parent.repeated_byte() {
        Some(byte) => granules.fill(table, byte),
        None => write_mappings(granules, table, parent, level),
    }
}

// Returns the entry that the table of RMI_RTT_CREATE replaces, or the failed condition.
#[tactic(auto, unfolding(rmm_model::specs::Command::RttCreate::rtt_create))]
fn find_vacancy<S: PageStore>(
    granules: &Granules<S>,
    rd: u64,
    rtt: u64,
    ipa: u64,
    level: u64,
) -> Result<Vacancy, FailedCondition>
    ensures refusal { refusal_in result
        ≡ first_failing (creating rd rtt ipa level granules.now).checks }
    ensures vacancy { IfOk result (IsVacancy granules.now rd rtt ipa level) }
{
    let table = delegated(granules, rtt, OperandConditions::RTT)?;
    let owner = realm_of(granules, rd)?;
    let level = check_ipa(&owner.realm, owner.realm.start_level + 1, level, 1, ipa)?;
    let found = walk(granules, &owner.realm, ipa, level - 1);
    let parent = entry_at(granules, &found, ipa);
    check_entry(&found, level - 1, !parent.is_table())?;
    Ok(Vacancy {
        rd: owner.granule,
        table,
        level,
        found,
        parent,
    })
}

// Performs RMI_RTT_CREATE.
#[tactic(auto, unfolding(rmm_model::specs::Command::RttCreate::rtt_create))]
pub fn rtt_create<S: PageStore>(
    granules: &mut Granules<S>,
    rd: u64,
    rtt: u64,
    ipa: u64,
    level: u64,
) -> SmcResult
    ensures answer { result
        ≡ (outcome (creating rd rtt ipa level granules.old) granules.old).0 }
    ensures machine { granules.new
        ≡ (outcome (creating rd rtt ipa level granules.old) granules.old).1 }
{
    match find_vacancy(granules, rd, rtt, ipa, level) {
        Ok(vacancy) => {
            let kept = RmmGranule {
                state: RmmGranuleState::Rtt,
                owner: Some(vacancy.rd),
            };
            write_children(granules, vacancy.table, vacancy.parent, vacancy.level);
            granules.set(vacancy.table, kept);
            write(granules, &vacancy.found, ipa, RmmRttEntry::Table(rtt));
            SmcResult::only(Word::Success)
        }
        Err(refusal) => refusal.into_answer(),
    }
}
