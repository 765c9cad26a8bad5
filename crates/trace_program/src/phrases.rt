//! The requirement of each RMM check, in a few words. The words are tested, not proved.
use rmm_model::Condition;
use rmm_trace::place::{
    RMI_DATA_DESTROY, RMI_GRANULE_UNDELEGATE, RMI_PSCI_COMPLETE, RMI_REALM_CREATE, RMI_REC_CREATE,
    RMI_RTT_CREATE, RMI_RTT_DESTROY, RMI_RTT_FOLD, RMI_RTT_INIT_RIPAS, RMI_RTT_MAP_UNPROTECTED,
    RMI_RTT_READ_ENTRY, RMI_RTT_SET_RIPAS, RMI_RTT_UNMAP_UNPROTECTED,
};

// The requirement of each check. RMM 1.0, failure conditions of RMI commands.
const REQUIREMENTS: [(Condition, &str); 76] = [
    (Condition::Version, "the requested version must be 1.0"),
    (
        Condition::GranAlign,
        "the address must be a multiple of 4,096",
    ),
    (
        Condition::GranBound,
        "the address must name a granule of the machine",
    ),
    (Condition::GranState, "the granule must be UNDELEGATED"),
    (
        Condition::GranGpt,
        "the granule must be memory that can be delegated",
    ),
    (Condition::RdAlign, "rd must be a multiple of 4,096"),
    (Condition::RdBound, "rd must name a granule of the machine"),
    (Condition::RdState, "rd must be an RD"),
    (Condition::ParamsAlign, "params must be a multiple of 4,096"),
    (
        Condition::ParamsBound,
        "params must name a granule of the machine",
    ),
    (
        Condition::ParamsPas,
        "params must be UNDELEGATED, the host's",
    ),
    (Condition::ParamsValid, "hash_algo must be 0 or 1"),
    (Condition::ParamsSupp, "the RMM must support the parameters"),
    (
        Condition::RttNumLevel,
        "s2sz, starting level and number of tables must fit each other",
    ),
    (Condition::RttAlign, "rtt must be a multiple of 4,096"),
    (
        Condition::RttBound,
        "rtt must name a granule of the machine",
    ),
    (Condition::RttState, "rtt must be DELEGATED"),
    (Condition::Alias, "rd must be none of the starting tables"),
    (
        Condition::VmidValid,
        "vmid must be in range, and no other realm's",
    ),
    (Condition::RealmState, "the realm must be NEW"),
    (
        Condition::RealmLive,
        "the realm must have no REC and no live entry",
    ),
    (
        Condition::LevelBound,
        "level must be one that the command has in this realm",
    ),
    (Condition::IpaAlign, "ipa must be a multiple of 4,096"),
    (Condition::IpaBound, "ipa must be a protected address"),
    (Condition::RttWalk, "the walk must reach level 3"),
    (Condition::RtteState, "the entry must be UNASSIGNED"),
    (Condition::RttLive, "the table must have no live entry"),
    (
        Condition::RttHomo,
        "the entries of the table must say the same as one entry above",
    ),
    (
        Condition::RttBlock,
        "a block must be allowed at the level above",
    ),
    (
        Condition::DescBound,
        "desc must be a descriptor of the level",
    ),
    (Condition::DataAlign, "data must be a multiple of 4,096"),
    (
        Condition::DataBound,
        "data must name a granule of the machine",
    ),
    (Condition::DataState, "data must be DELEGATED"),
    (Condition::SrcAlign, "src must be a multiple of 4,096"),
    (
        Condition::SrcBound,
        "src must name a granule of the machine",
    ),
    (Condition::SrcPas, "src must be UNDELEGATED, the host's"),
    (Condition::FlagsValid, "flags must be 0 or 1"),
    (Condition::RtteRipas, "the RIPAS of the entry must be RAM"),
    (Condition::Size, "top must be above base"),
    (Condition::BaseGranAlign, "base must be a multiple of 4,096"),
    (Condition::TopGranAlign, "top must be a multiple of 4,096"),
    (Condition::BaseBound, "base must be a protected address"),
    (
        Condition::TopBound,
        "top must not be above the protected addresses",
    ),
    (
        Condition::BaseAlign,
        "base must be a multiple of the size of its entry",
    ),
    (
        Condition::NoProgress,
        "top must not be below the end of the entry at base",
    ),
    (Condition::RecAlign, "rec must be a multiple of 4,096"),
    (
        Condition::RecBound,
        "rec must name a granule of the machine",
    ),
    (Condition::RecGranState, "rec must be a REC"),
    (
        Condition::NumAux,
        "num_aux must be the realm's number of auxiliary granules",
    ),
    (
        Condition::AuxAlign,
        "each of aux must be a multiple of 4,096",
    ),
    (
        Condition::AuxBound,
        "each of aux must name a granule of the machine",
    ),
    (
        Condition::AuxAlias,
        "rec and aux must be different granules",
    ),
    (Condition::AuxState, "each of aux must be DELEGATED"),
    (
        Condition::MpidrIndex,
        "mpidr must be that of the realm's next REC",
    ),
    (
        Condition::NumRecs,
        "the realm must have fewer RECs than the RMM allows",
    ),
    (Condition::RecState, "the REC must not be running"),
    (Condition::RecOwner, "the REC must be the realm's"),
    (Condition::RunAlign, "run must be a multiple of 4,096"),
    (
        Condition::RunBound,
        "run must name a granule of the machine",
    ),
    (Condition::RunPas, "run must be UNDELEGATED, the host's"),
    (Condition::RealmNew, "the realm must not be NEW"),
    (Condition::SystemOff, "the realm must not be SYSTEM_OFF"),
    (Condition::RecRunnable, "the REC must be runnable"),
    (
        Condition::RecMmio,
        "EMUL_MMIO requires an exit that can be emulated",
    ),
    (
        Condition::RecPsci,
        "no PSCI request of the REC may be pending",
    ),
    (
        Condition::RecGicv3,
        "the GIC fields must be ones that a host may set",
    ),
    (
        Condition::CallingAlign,
        "calling must be a multiple of 4,096",
    ),
    (
        Condition::CallingBound,
        "calling must name a granule of the machine",
    ),
    (Condition::CallingState, "calling must be a REC"),
    (Condition::TargetAlign, "target must be a multiple of 4,096"),
    (
        Condition::TargetBound,
        "target must name a granule of the machine",
    ),
    (Condition::TargetState, "target must be a REC"),
    (
        Condition::Pending,
        "a PSCI request of calling must be pending",
    ),
    (
        Condition::Owner,
        "calling and target must be RECs of one realm",
    ),
    (
        Condition::Target,
        "target must have the MPIDR of the request",
    ),
    (
        Condition::Status,
        "status must be PSCI_SUCCESS, or PSCI_DENIED for a CPU_ON",
    ),
];

// The requirements of checks that mean something else in a given command.
const COMMAND_REQUIREMENTS: [(usize, Condition, &str); 34] = [
    (
        RMI_GRANULE_UNDELEGATE,
        Condition::GranState,
        "the granule must be DELEGATED",
    ),
    (RMI_REALM_CREATE, Condition::RdState, "rd must be DELEGATED"),
    (
        RMI_REALM_CREATE,
        Condition::RttAlign,
        "rtt_base must be a multiple of the size of all starting tables",
    ),
    (
        RMI_REALM_CREATE,
        Condition::RttState,
        "each starting table must be DELEGATED",
    ),
    (RMI_REC_CREATE, Condition::RecState, "rec must be DELEGATED"),
    (
        RMI_REC_CREATE,
        Condition::ParamsValid,
        "mpidr must have affinity bits alone",
    ),
    (
        RMI_PSCI_COMPLETE,
        Condition::Alias,
        "calling and target must be two RECs",
    ),
    (
        RMI_RTT_CREATE,
        Condition::IpaAlign,
        "ipa must be a multiple of the size of a table",
    ),
    (
        RMI_RTT_CREATE,
        Condition::IpaBound,
        "ipa must be an address of the realm",
    ),
    (
        RMI_RTT_CREATE,
        Condition::RttWalk,
        "the walk must reach the level above",
    ),
    (
        RMI_RTT_CREATE,
        Condition::RtteState,
        "the entry must not be TABLE",
    ),
    (
        RMI_RTT_DESTROY,
        Condition::IpaAlign,
        "ipa must be a multiple of the size of a table",
    ),
    (
        RMI_RTT_DESTROY,
        Condition::IpaBound,
        "ipa must be an address of the realm",
    ),
    (
        RMI_RTT_DESTROY,
        Condition::RttWalk,
        "the walk must reach the level above",
    ),
    (
        RMI_RTT_DESTROY,
        Condition::RtteState,
        "the entry must be TABLE",
    ),
    (
        RMI_RTT_FOLD,
        Condition::IpaAlign,
        "ipa must be a multiple of the size of a table",
    ),
    (
        RMI_RTT_FOLD,
        Condition::IpaBound,
        "ipa must be an address of the realm",
    ),
    (
        RMI_RTT_FOLD,
        Condition::RttWalk,
        "the walk must reach the level above",
    ),
    (
        RMI_RTT_FOLD,
        Condition::RtteState,
        "the entry must be TABLE",
    ),
    (
        RMI_RTT_READ_ENTRY,
        Condition::IpaAlign,
        "ipa must be a multiple of the size of an entry",
    ),
    (
        RMI_RTT_READ_ENTRY,
        Condition::IpaBound,
        "ipa must be an address of the realm",
    ),
    (
        RMI_RTT_MAP_UNPROTECTED,
        Condition::IpaAlign,
        "ipa must be a multiple of the size of an entry",
    ),
    (
        RMI_RTT_MAP_UNPROTECTED,
        Condition::IpaBound,
        "ipa must be an unprotected address",
    ),
    (
        RMI_RTT_MAP_UNPROTECTED,
        Condition::RttWalk,
        "the walk must reach the level",
    ),
    (
        RMI_RTT_MAP_UNPROTECTED,
        Condition::RtteState,
        "the entry must be UNASSIGNED_NS",
    ),
    (
        RMI_RTT_UNMAP_UNPROTECTED,
        Condition::IpaAlign,
        "ipa must be a multiple of the size of an entry",
    ),
    (
        RMI_RTT_UNMAP_UNPROTECTED,
        Condition::IpaBound,
        "ipa must be an unprotected address",
    ),
    (
        RMI_RTT_UNMAP_UNPROTECTED,
        Condition::RttWalk,
        "the walk must reach the level",
    ),
    (
        RMI_RTT_UNMAP_UNPROTECTED,
        Condition::RtteState,
        "the entry must be ASSIGNED_NS",
    ),
    (
        RMI_DATA_DESTROY,
        Condition::RtteState,
        "the entry must be ASSIGNED",
    ),
    (
        RMI_RTT_INIT_RIPAS,
        Condition::RtteState,
        "the entry must be UNASSIGNED, and with init_destroyed stop not DESTROYED",
    ),
    (
        RMI_RTT_SET_RIPAS,
        Condition::BaseBound,
        "base must be the address that the REC asked for",
    ),
    (
        RMI_RTT_SET_RIPAS,
        Condition::TopBound,
        "top must not be above the top that the REC asked for",
    ),
    (
        RMI_RTT_SET_RIPAS,
        Condition::RtteState,
        "the entry must not be DESTROYED, unless the guest lets it change",
    ),
];

/// Returns the text of the requirement that a command's check tests, or an empty text if the check has none. The
/// command is given by the index of its name in the grammar.
pub(crate) fn requirement(command: usize, condition: Condition) -> &'static str {
    for row in &COMMAND_REQUIREMENTS {
        if row.0 == command && row.1 == condition {
            return row.2;
        }
    }
    for row in &REQUIREMENTS {
        if row.0 == condition {
            return row.1;
        }
    }
    ""
}
