//! An RMM for C programs, with the contents of its granules in a `PlainStore`, the simple store of pages.
ghost use Rattle.std.specs.Prelude.{◌≡◌, replicate, IfSome};
ghost use Rattle.granule_addr.specs.Page.{zero_page};
ghost use Rattle.rmm_granules.specs.Inside.{platform_machine};

use page_arena::PlainStore;
use rmi_abi::Platform;
use rmm::Rmm;
use rmm_granules::Granules;
use std::alloc::Global;
use std::marker::Model;

/// An RMM for C programs, with the contents of its granules in a `PlainStore`, the simple store of pages. The logical
/// view of the RMM is its machine.
#[derive(Drop)]
pub struct PlainRmm {
    pub(crate) rmm: Rmm<PlainStore>,
}

impl Model for PlainRmm {
    ghost use Rattle.rmm_model.specs.Machine.{Machine};
    ghost use Rattle.rmm_model.specs.Codes.{machine_code};

    ghost Value = { Machine };

    ghost coded = { machine_code };

    ghost view = { λ plain. plain.rmm };
}

impl PlainRmm {
    /// Creates an RMM with `count` UNDELEGATED granules, whose bytes are 0. Returns `None` if allocation fails, or if
    /// `count` is out of range.
    pub(crate) fn open(alloc: Global, platform: Platform, count: u16) -> Option<PlainRmm>
        ensures { IfSome result (λ plain.
            plain ≡ platform_machine platform (replicate count zero_page)) }
    {
        let Ok(store) = PlainStore::build(alloc, count) else {
            return None;
        };
        let Ok(granules) = Granules::open(alloc, platform, store) else {
            return None;
        };
        Some(PlainRmm {
            rmm: Rmm::over(granules),
        })
    }
}
