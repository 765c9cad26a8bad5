//! Actions of a host or a guest, such as RMM calls and memory accesses.
use arrayvec::ArrayVec;
use rmi_abi::Call;

/// One action of a host or guest, such as an RMM call or a memory access. Addresses are physical, except for the IPAs
/// of a call or of a guest's write.
#[derive(Drop)]
pub enum HostAction {
    /// The host's write of `value` to each byte of consecutive granules.
    Fill {
        address: u64,
        granules: u16,
        value: u8,
    },
    /// The host's load of a word that has `byte` in each of its bytes.
    Load {
        address: u64,
        byte: u8,
    },
    /// The host's write of a realm's parameters to a page. RMM 1.0, RmiRealmParams.
    RealmParams {
        page: u64,
        width: u8,
        vmid: u8,
        tables: u64,
        count: u16,
    },
    /// The host's write of a REC's parameters to a page. RMM 1.0, RmiRecParams.
    RecParams {
        page: u64,
        mpidr: u64,
        auxiliaries: ArrayVec<u64, 16>,
    },
    /// A call of the RMM. `x1` is the output in X1 if the call succeeds, where that output is known beforehand.
    Call {
        call: Call,
        x1: Option<u64>,
    },
    /// An RMI_REC_ENTER after which the guest keeps running.
    Enter {
        rec: u64,
        run: u64,
    },
    /// An interrupt that ends the run of a REC.
    Interrupt {
        rec: u64,
    },
    /// A guest's write of a byte after the next entry of its REC.
    Write {
        rec: u64,
        ipa: u64,
        value: u8,
    },
    /// A guest's loop, which lasts until an interrupt.
    Spin {
        rec: u64,
    },
    /// A `saw` line of a trace, which reads the result of a guest's last write. The result is that the write is done.
    Saw {
        rec: u64,
    },
}

impl Default for HostAction {
    ghost use Rattle.std.specs.Prelude.{◌≡◌};
    ghost use Rattle.history_calls.specs.declared.action.HostAction.TheVariants.{Saw};

    ghost is_default = { λ action. action ≡ Saw 0 };

    fn default() -> HostAction {
        HostAction::Saw { rec: 0 }
    }
}
