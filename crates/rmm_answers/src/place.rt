//! Constants for names that occur in a trace's answers, as indices into the table of names. The theorem
//! `answer_places_are_of_their_names` says which name is at each index.
pub const DONE: usize = 116;

pub const FAULT: usize = 117;

pub const QUEUED: usize = 118;

pub const FULL: usize = 119;

pub const NO: usize = 120;

pub const NOT: usize = 121;

pub const IS_RUNNING: usize = 122;

pub const NOTHING: usize = 123;

pub const COMMAND: usize = 124;

pub const REC_STATE: usize = 125;

pub const UNDELEGATED: usize = 127;

pub const DELEGATED: usize = 128;

pub const RD_STATE: usize = 129;

pub const REC_AUX: usize = 130;

pub const DATA_STATE: usize = 131;

pub const RTT_STATE: usize = 132;

pub const NEW: usize = 133;

pub const ACTIVE: usize = 134;

pub const IS_SYSTEM_OFF: usize = 135;

pub const READY: usize = 136;

pub const LOWER: usize = 150;

pub const HIGHER: usize = 151;

pub const VALUE: usize = 152;

pub const DESC: usize = 154;

pub const TOP: usize = 156;

pub const DATA: usize = 157;

pub const RTT: usize = 158;

pub const ESR: usize = 161;

pub const FAR: usize = 162;

pub const HPFAR: usize = 163;

pub const IMM: usize = 164;

pub const BASE: usize = 165;

pub const TABLES: usize = 166;

pub const NEXT: usize = 167;

pub const RECS: usize = 168;

pub const RD: usize = 169;

pub const OFF: usize = 170;

pub const PENDING: usize = 171;

pub const GPR0: usize = 172;

pub const SEA: usize = 174;

pub const ACCEPTED: usize = 175;

pub const REJECTED: usize = 176;

pub const RETURNED: usize = 177;

pub const PSCI_RESULT: usize = 178;

pub const RSI_ERROR_INPUT: usize = 179;
