//! The failure conditions on operands that are addresses of granules.
use rmm_model::Condition;

/// The failure conditions on an operand that is a granule's address: misalignment, an address out of bounds, and a
/// wrong state or physical address space.
#[derive(Clone, Copy)]
pub struct OperandConditions {
    pub align: Condition,
    pub bound: Condition,
    pub state: Condition,
}

impl OperandConditions {
    /// The failure conditions on the operand of RMI_GRANULE_DELEGATE and RMI_GRANULE_UNDELEGATE.
    pub const GRANULE: OperandConditions = OperandConditions {
        align: Condition::GranAlign,
        bound: Condition::GranBound,
        state: Condition::GranState,
    };

    /// The failure conditions on the address of an RD.
    pub const RD: OperandConditions = OperandConditions {
        align: Condition::RdAlign,
        bound: Condition::RdBound,
        state: Condition::RdState,
    };

    /// The failure conditions on the address of the host's page with the parameters of a new realm or REC.
    pub const PARAMS: OperandConditions = OperandConditions {
        align: Condition::ParamsAlign,
        bound: Condition::ParamsBound,
        state: Condition::ParamsPas,
    };

    /// The failure conditions on the address of a new translation table's granule.
    pub const RTT: OperandConditions = OperandConditions {
        align: Condition::RttAlign,
        bound: Condition::RttBound,
        state: Condition::RttState,
    };

    /// The failure conditions on the address of the granule for new data.
    pub const DATA: OperandConditions = OperandConditions {
        align: Condition::DataAlign,
        bound: Condition::DataBound,
        state: Condition::DataState,
    };

    /// The failure conditions on the address of the host's page that RMI_DATA_CREATE copies.
    pub const SOURCE: OperandConditions = OperandConditions {
        align: Condition::SrcAlign,
        bound: Condition::SrcBound,
        state: Condition::SrcPas,
    };

    /// The failure conditions on the address of a new REC's granule.
    pub const NEW_REC: OperandConditions = OperandConditions {
        align: Condition::RecAlign,
        bound: Condition::RecBound,
        state: Condition::RecState,
    };

    /// The failure conditions on the address of an existing REC.
    pub const REC: OperandConditions = OperandConditions {
        align: Condition::RecAlign,
        bound: Condition::RecBound,
        state: Condition::RecGranState,
    };

    /// The failure conditions on the address of RMI_REC_ENTER's run page, which holds the entry and exit values.
    pub const RUN: OperandConditions = OperandConditions {
        align: Condition::RunAlign,
        bound: Condition::RunBound,
        state: Condition::RunPas,
    };

    /// The failure conditions on the address of the calling REC of RMI_PSCI_COMPLETE: the REC whose PSCI request the
    /// command completes.
    pub const CALLING: OperandConditions = OperandConditions {
        align: Condition::CallingAlign,
        bound: Condition::CallingBound,
        state: Condition::CallingState,
    };

    /// The failure conditions on the address of the target REC of RMI_PSCI_COMPLETE: the REC that the completed PSCI
    /// request names.
    pub const TARGET: OperandConditions = OperandConditions {
        align: Condition::TargetAlign,
        bound: Condition::TargetBound,
        state: Condition::TargetState,
    };
}
