//! Functions that check MPIDR values, and decode REC numbers from them.
ghost use Rattle.std.specs.Prelude.{◌≡◌};
ghost use Rattle.rmi_abi.specs.Mpidr as affinities;

/// Returns whether a number is a valid MPIDR of a REC: each bit that is set belongs to an affinity field. RMM 1.0,
/// RmiRecMpidr.
pub fn is_mpidr(mpidr: u64) -> bool
    ensures { result ≡ affinities.is_mpidr mpidr }
{
    mpidr < 0x1_0000_0000 && mpidr % 0x100 < 0x10
}

/// Returns the number of the REC that an MPIDR names: four bits from Aff0, then eight bits each from Aff1, Aff2 and
/// Aff3.
pub fn rec_number(mpidr: u64) -> u64
    ensures { result ≡ affinities.rec_number mpidr }
{
    mpidr % 16 + mpidr / 256 * 16
}
