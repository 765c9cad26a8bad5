//! Functions that perform a guest's reads and writes of memory.
ghost use Rattle.std.specs.Prelude.{◌≡◌, ◌+◌, ◌<◌, ◌≤◌, true, false};
ghost use Rattle.rmm_model.specs.Access as accesses;
ghost use Rattle.rmm_model.specs.Machine.{granule_count};
ghost use Rattle.rmm_model.specs.Realm.{IsServed};
ghost use Rattle.rmm_model.specs.Step as steps;

use crate::step::access;
use granule_addr::Gran;
use page_arena::PageStore;
use rmm_granules::Granules;
use rmm_model::{AccessSize, RmmRealm, StepOutcome, StepResult};

// ---- stores

// Writes the low two bytes of a value.
#[tactic(auto, unfolding(rmm_model::specs::Access::with_two_bytes))]
fn set_two_bytes<S: PageStore>(granules: &mut Granules<S>, granule: Gran, offset: u16, value: u64)
    requires granule { granule < granule_count granules.old }
    requires inside { offset + 2 ≤ 4096 }
    ensures machine { granules.new ≡ accesses.with_two_bytes granules.old granule offset value }
    ensures count { granule_count granules.new ≡ granule_count granules.old }
{
    granules.set_byte(granule, offset, (value % 0x100) as u8);
    granules.set_byte(granule, offset + 1, (value / 0x100 % 0x100) as u8);
}

// Writes the low four bytes of a value.
#[tactic(auto, unfolding(rmm_model::specs::Access::with_four_bytes))]
fn set_four_bytes<S: PageStore>(granules: &mut Granules<S>, granule: Gran, offset: u16, value: u64)
    requires granule { granule < granule_count granules.old }
    requires inside { offset + 4 ≤ 4096 }
    ensures machine { granules.new ≡ accesses.with_four_bytes granules.old granule offset value }
    ensures count { granule_count granules.new ≡ granule_count granules.old }
{
    set_two_bytes(granules, granule, offset, value);
    set_two_bytes(granules, granule, offset + 2, value / 0x1_0000);
}

// Writes a value to a granule, as an access of the given size at an address.
#[tactic(auto, unfolding(rmm_model::specs::Access::with_value))]
fn set_value<S: PageStore>(
    granules: &mut Granules<S>,
    granule: Gran,
    size: AccessSize,
    ipa: u64,
    value: u64,
)
    requires granule { granule < granule_count granules.old }
    ensures machine { granules.new ≡ accesses.with_value granules.old granule size ipa value }
    ensures count { granule_count granules.new ≡ granule_count granules.old }
{
    let offset = (ipa % 4096) as u16;
    match size {
        AccessSize::Byte => granules.set_byte(granule, offset, (value % 0x100) as u8),
        AccessSize::Halfword => set_two_bytes(granules, granule, offset / 2 * 2, value),
        AccessSize::Word => set_four_bytes(granules, granule, offset / 4 * 4, value),
        AccessSize::Doubleword => granules.set_word(granule, offset / 8, value),
    }
}

// ---- steps

// Performs a write of a guest.
pub fn write<S: PageStore>(
    granules: &mut Granules<S>,
    realm: &RmmRealm,
    ipa: u64,
    size: AccessSize,
    value: u64,
) -> StepOutcome
    requires { IsServed (granule_count granules.old) realm.now }
    ensures outcome { result
        ≡ steps.tried (steps.access granules.old realm.now ipa true size (accesses.low_bytes size value)) }
    ensures machine { granules.new
        ≡ steps.after_write granules.old ipa size value (steps.access granules.old realm.now ipa true size (accesses.low_bytes size value)) }
    ensures count { granule_count granules.new ≡ granule_count granules.old }
{
    match access(granules, realm, ipa, true, size, size.low(value)) {
        Ok(granule) => {
            set_value(granules, granule, size, ipa, value);
            StepOutcome::Result(StepResult::Done)
        }
        Err(outcome) => outcome,
    }
}

// Performs a read of a guest.
pub fn read<S: PageStore>(
    granules: &Granules<S>,
    realm: &RmmRealm,
    ipa: u64,
    size: AccessSize,
) -> StepOutcome
    requires { IsServed (granule_count granules.now) realm.now }
    ensures { result
        ≡ steps.read_outcome granules.now ipa size (steps.access granules.now realm.now ipa false size 0) }
{
    match access(granules, realm, ipa, false, size, 0) {
        Ok(granule) => {
            let value = size.read(granules.page(granule), ipa);
            StepOutcome::Result(StepResult::Read(value))
        }
        Err(outcome) => outcome,
    }
}
