//! Functions that replace the attributes of a REC's auxiliary granules, and zero their contents.
ghost use Rattle.std.specs.Prelude.{◌≡◌, ◌<◌, ◌≤◌, None, IfSome};
ghost use Rattle.rmm_model.specs.Granule.{realm_of};
ghost use Rattle.rmm_model.specs.Machine.{granule_count};
ghost use Rattle.rmm_model.specs.Command.Auxiliary as auxiliary;

use granule_addr::Gran;
use page_arena::PageStore;
use rmm_granules::{Granules, granule_named};
use rmm_model::{RmmGranule, aux_address};

// Replaces the attributes of a granule, and zeros its page.
#[inline(always)]
fn wipe<S: PageStore>(granules: &mut Granules<S>, granule: Gran, kept: &RmmGranule)
    requires inside { granule < granule_count granules.old }
    requires plain { realm_of kept.now.state ≡ None }
    ensures { granules.new ≡ auxiliary.with_wiped granules.old granule kept.now }
{
    granules.fill(granule, 0);
    granules.set(
        granule,
        RmmGranule {
            state: kept.state,
            owner: kept.owner,
        },
    );
}

// Auxiliary granule k of a REC, if the address for it in the REC's page lies in the machine.
#[inline(always)]
fn aux_granule<S: PageStore>(granules: &Granules<S>, rec: Gran, k: u8) -> Option<Gran>
    requires inside { rec < granule_count granules.now }
    requires below { k < 16 }
    ensures value { result ≡ auxiliary.aux_granule granules.now rec k }
    ensures inside { IfSome result (λ granule. granule < granule_count granules.now) }
{
    granule_named(granules, aux_address(granules.page(rec), k))
}

// Replaces the attributes of auxiliary granule k of a REC, and zeros its page.
#[inline(always)]
fn set_aux_granule<S: PageStore>(granules: &mut Granules<S>, rec: Gran, kept: &RmmGranule, k: u8)
    requires inside { rec < granule_count granules.old }
    requires plain { realm_of kept.now.state ≡ None }
    requires below { k < 16 }
    ensures one { granules.new
        ≡ auxiliary.with_wiped_if granules.old (auxiliary.aux_granule granules.old rec k) kept.now }
    ensures count { granule_count granules.new ≡ granule_count granules.old }
{
    if let Some(granule) = aux_granule(granules, rec, k) {
        wipe(granules, granule, kept);
    }
}

// Replaces the attributes of the first `count` auxiliary granules of a REC, and zeros their pages.
#[inline(always)]
pub fn set_aux<S: PageStore>(granules: &mut Granules<S>, rec: Gran, kept: &RmmGranule, count: u8)
    requires inside { rec < granule_count granules.old }
    requires plain { realm_of kept.now.state ≡ None }
    requires few { count ≤ 16 }
    ensures aux { granules.new ≡ auxiliary.with_aux granules.old rec kept.now count }
    ensures count { granule_count granules.new ≡ granule_count granules.old }
{
    for k in 0..count {
        set_aux_granule(granules, rec, kept, k);
    }
}
