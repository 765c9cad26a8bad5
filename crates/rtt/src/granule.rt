//! The state of a granule, and the realm that the granule belongs to.
use granule_addr::Gran;
use realm_model::GranuleState;

/// The attributes that the RMM keeps for a granule. RMM 1.0, Granule attributes.
#[derive(Clone, Copy)]
pub struct Granule {
    pub state: GranuleState,
    /// The RD of the realm that the granule belongs to, if any.
    pub realm: Option<Gran>,
}

impl Granule {
    /// An UNDELEGATED granule of no realm. It is the initial value of each granule.
    pub const UNDELEGATED: Granule = Granule {
        state: GranuleState::Undelegated,
        realm: None,
    };
}
