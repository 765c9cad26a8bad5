//! The checks of a new REC's auxiliary granules. RMM 1.0, RMI_REC_CREATE.
ghost use Rattle.std.specs.Prelude.{◌≡◌, ◌<◌, ◌≤◌, length};
ghost use Rattle.rmm_model.specs.Machine.{is_aligned, is_inside};
ghost use Rattle.rmm_model.specs.Command.RecCreate as command;
ghost use Rattle.rmm_granules.specs.Tests.{aux_passes};

use crate::Granules;
use page_arena::PageStore;
use rmi_abi::RecParams;

// ---- one test of each of them

// A test of the address of an auxiliary granule.
#[derive(Clone, Copy)]
pub enum AuxTest {
    Aligned,
    Inside,
    Delegated,
    Not(u64),
}

// Whether an address passes a test.
fn passes<S: PageStore>(granules: &Granules<S>, test: AuxTest, address: u64) -> bool
    ensures { result ≡ aux_passes granules.now test address }
{
    match test {
        AuxTest::Aligned => address % 4096 == 0,
        AuxTest::Inside => granules.is_inside(address),
        AuxTest::Delegated => {
            granules.is_inside(address) && granules.is_delegated(granules.number_of(address))
        }
        AuxTest::Not(other) => address != other,
    }
}

// Whether the addresses of the first `count` auxiliary granules that parameters name all pass a test.
fn all_aux<S: PageStore>(granules: &Granules<S>, page: &[u8], test: AuxTest, count: u8) -> bool
    requires page { length page.now ≡ 4096 }
    requires few { count ≤ 16 }
    ensures { result ≡ command.all_aux (aux_passes granules.now test) page.now count }
{
    for k in 0..count {
        if !passes(granules, test, RecParams::aux(page, k)) {
            return false;
        }
    }
    true
}

// ---- the tests

/// Returns whether the addresses of a REC's auxiliary granules are aligned. The first `count` addresses in the REC's
/// parameters have to be multiples of 4,096.
pub fn are_aux_aligned<S: PageStore>(granules: &Granules<S>, page: &[u8], count: u8) -> bool
    requires page { length page.now ≡ 4096 }
    requires few { count ≤ 16 }
    ensures { result ≡ command.all_aux is_aligned page.now count }
{
    all_aux(granules, page, AuxTest::Aligned, count)
}

/// Returns whether a REC's auxiliary granules are in the machine. The first `count` addresses in the REC's parameters
/// have to lie in granules of the machine.
pub fn are_aux_inside<S: PageStore>(granules: &Granules<S>, page: &[u8], count: u8) -> bool
    requires page { length page.now ≡ 4096 }
    requires few { count ≤ 16 }
    ensures { result ≡ command.all_aux (is_inside granules.now) page.now count }
{
    all_aux(granules, page, AuxTest::Inside, count)
}

/// Returns whether a REC's auxiliary granules are DELEGATED. The first `count` addresses in the REC's parameters have
/// to lie in DELEGATED granules of the machine.
pub fn are_aux_delegated<S: PageStore>(granules: &Granules<S>, page: &[u8], count: u8) -> bool
    requires page { length page.now ≡ 4096 }
    requires few { count ≤ 16 }
    ensures { result ≡ command.all_aux (command.can_be_aux granules.now) page.now count }
{
    all_aux(granules, page, AuxTest::Delegated, count)
}

// Whether auxiliary granule `k` is neither the REC's granule nor an earlier auxiliary granule.
fn is_apart<S: PageStore>(granules: &Granules<S>, page: &[u8], rec: u64, k: u8) -> bool
    requires page { length page.now ≡ 4096 }
    requires below { k < 16 }
    ensures { result ≡ command.is_apart rec page.now k }
{
    let address = RecParams::aux(page, k);
    address != rec && all_aux(granules, page, AuxTest::Not(address), k)
}

/// Returns whether a REC's granule and its first `count` auxiliary granules all differ.
pub fn are_aux_apart<S: PageStore>(granules: &Granules<S>, page: &[u8], rec: u64, count: u8) -> bool
    requires page { length page.now ≡ 4096 }
    requires few { count ≤ 16 }
    ensures { result ≡ command.all_from (command.is_apart rec page.now) 0 count }
{
    for k in 0..count {
        if !is_apart(granules, page, rec, k) {
            return false;
        }
    }
    true
}
