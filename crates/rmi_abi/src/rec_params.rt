//! The parameters with which a host creates a REC, read from a page.
ghost use Rattle.std.specs.Prelude.{◌≡◌, ◌<◌, length};
ghost use Rattle.rmi_abi.specs.RecParams as params;

use page_arena::word_in;

/// Functions that read the parameters with which a host creates a REC. RMM 1.0, RmiRecParams.
///
/// Flags but RUNNABLE are ignored.
pub struct RecParams;

impl RecParams {
    pub fn is_runnable(page: &[u8]) -> bool
        requires { length page.now ≡ 4096 }
        ensures { result ≡ params.is_runnable_in page.now }
    {
        word_in(page, 0) % 2 == 1
    }

    pub fn mpidr(page: &[u8]) -> u64
        requires { length page.now ≡ 4096 }
        ensures { result ≡ params.mpidr_in page.now }
    {
        word_in(page, 32)
    }

    pub fn pc(page: &[u8]) -> u64
        requires { length page.now ≡ 4096 }
        ensures { result ≡ params.pc_in page.now }
    {
        word_in(page, 64)
    }

    /// Returns the initial value of general-purpose register `k` of a new REC.
    pub fn gpr(page: &[u8], k: u8) -> u64
        requires page { length page.now ≡ 4096 }
        requires below { k < 8 }
        ensures { result ≡ params.gpr_in page.now k }
    {
        word_in(page, 96 + k as usize)
    }

    /// Returns the number of auxiliary granules in a REC's parameters.
    pub fn num_aux(page: &[u8]) -> u64
        requires { length page.now ≡ 4096 }
        ensures { result ≡ params.num_aux_in page.now }
    {
        word_in(page, 256)
    }

    /// Returns the address of auxiliary granule `k` in a REC's parameters.
    pub fn aux(page: &[u8], k: u8) -> u64
        requires page { length page.now ≡ 4096 }
        requires below { k < 16 }
        ensures { result ≡ params.aux_in page.now k }
    {
        word_in(page, 257 + k as usize)
    }
}
