//! Constants for the indices of names in the table of names. The theorem `places_are_of_their_names` says which name
//! each constant has.
pub const RMI_VERSION: usize = 0;

pub const RMI_FEATURES: usize = 1;

pub const RMI_GRANULE_DELEGATE: usize = 2;

pub const RMI_GRANULE_UNDELEGATE: usize = 3;

pub const RMI_REALM_CREATE: usize = 4;

pub const RMI_REALM_ACTIVATE: usize = 5;

pub const RMI_REALM_DESTROY: usize = 6;

pub const RMI_REC_CREATE: usize = 7;

pub const RMI_REC_DESTROY: usize = 8;

pub const RMI_REC_ENTER: usize = 9;

pub const RMI_REC_AUX_COUNT: usize = 10;

pub const RMI_RTT_CREATE: usize = 11;

pub const RMI_RTT_DESTROY: usize = 12;

pub const RMI_RTT_FOLD: usize = 13;

pub const RMI_RTT_INIT_RIPAS: usize = 14;

pub const RMI_RTT_SET_RIPAS: usize = 15;

pub const RMI_RTT_READ_ENTRY: usize = 16;

pub const RMI_RTT_MAP_UNPROTECTED: usize = 17;

pub const RMI_RTT_UNMAP_UNPROTECTED: usize = 18;

pub const RMI_DATA_CREATE: usize = 19;

pub const RMI_DATA_CREATE_UNKNOWN: usize = 20;

pub const RMI_DATA_DESTROY: usize = 21;

pub const RMI_PSCI_COMPLETE: usize = 22;

pub const PLATFORM: usize = 23;

pub const REPEAT: usize = 24;

pub const SMC: usize = 25;

pub const STORE: usize = 26;

pub const LOAD: usize = 27;

pub const FILL: usize = 28;

pub const REALM_PARAMS: usize = 29;

pub const REC_PARAMS: usize = 30;

pub const REC_RUN: usize = 31;

pub const GUEST: usize = 32;

pub const INTERRUPT: usize = 33;

pub const STATE: usize = 34;

pub const SUM: usize = 35;

pub const REALM: usize = 36;

pub const RIM: usize = 37;

pub const REC: usize = 38;

pub const SAW: usize = 39;

pub const WRITE: usize = 40;

pub const READ: usize = 41;

pub const FETCH: usize = 42;

pub const HOST_CALL: usize = 43;

pub const SET_RIPAS: usize = 44;

pub const CPU_ON: usize = 46;

pub const AFFINITY_INFO: usize = 47;

pub const CPU_OFF: usize = 48;

pub const CPU_SUSPEND: usize = 49;

pub const SYSTEM_OFF: usize = 50;

pub const SYSTEM_RESET: usize = 51;

pub const WFI: usize = 52;

pub const WFE: usize = 53;

pub const SYSREG: usize = 54;

pub const SPIN: usize = 55;

pub const AUX: usize = 56;

pub const VMID_BITS: usize = 57;

pub const S2SZ: usize = 58;

pub const MAX_RECS_ORDER: usize = 59;

pub const LAYOUT: usize = 60;

pub const INIT_DESTROYED: usize = 61;

pub const MEASURE_REC: usize = 62;

pub const DATA_FLAGS: usize = 63;

pub const LIVE_TOP: usize = 64;

pub const PSCI_ARGS: usize = 65;

pub const BLOCK_LEVEL: usize = 66;

pub const DESC_SH: usize = 67;

pub const DATA_RIPAS: usize = 68;

pub const PARAMS: usize = 69;

pub const GIC: usize = 70;

pub const BPS: usize = 71;

pub const WPS: usize = 72;

pub const LRS: usize = 73;

pub const SECURE: usize = 74;

pub const REL0: usize = 75;

pub const CHANGE: usize = 77;

pub const RUNNABLE: usize = 79;

pub const ALL: usize = 80;

pub const NONE: usize = 82;

pub const CHECKED: usize = 83;

pub const GIVEN: usize = 85;

pub const ZERO: usize = 87;

pub const LOOSE: usize = 90;

pub const FLAGS: usize = 92;

pub const SVE_VL: usize = 93;

pub const NUM_BPS: usize = 94;

pub const NUM_WPS: usize = 95;

pub const PMU_NUM_CTRS: usize = 96;

pub const HASH_ALGO: usize = 97;

pub const RPV: usize = 98;

pub const VMID: usize = 99;

pub const RTT_BASE: usize = 100;

pub const RTT_LEVEL_START: usize = 101;

pub const RTT_NUM_START: usize = 102;

pub const MPIDR: usize = 103;

pub const PC: usize = 104;

pub const GPRS: usize = 105;

pub const GICV3_HCR: usize = 106;

pub const GICV3_LRS: usize = 107;

pub const ANY_RIPAS: usize = 88;

pub const DESTROYED_STEP: usize = 45;

pub const PSCI_SUCCESS: usize = 114;

pub const PSCI_DENIED: usize = 115;

pub const EMPTY: usize = 140;

pub const UNASSIGNED: usize = 137;

pub const SYNC: usize = 143;

pub const RMI_SUCCESS: usize = 108;

pub const DASH: usize = 126;

pub const FIRST_CHECK: usize = 180;

pub const LEVEL: usize = 153;

pub const COUNT: usize = 159;

pub const RIPAS_OUTPUT: usize = 155;

pub const EXIT: usize = 160;

pub const RUNNING: usize = 113;

pub const AFTER: usize = 173;

pub const CHECK_VERSION: usize = 180;

pub const CHECK_FLAGS_VALID: usize = 216;

pub const CHECK_RTTE_RIPAS: usize = 217;

pub const CHECK_AUX_BOUND: usize = 230;

pub const CHECK_PARAMS_VALID: usize = 191;

pub const CHECK_NUM_RECS: usize = 234;

pub const CHECK_DESC_BOUND: usize = 209;

pub const CHECK_RTT_HOMO: usize = 207;

pub const CHECK_RTT_BLOCK: usize = 208;

pub const CHECK_SIZE: usize = 218;

pub const CHECK_BASE_GRAN_ALIGN: usize = 219;

pub const CHECK_BASE_BOUND: usize = 221;

pub const CHECK_TOP_GRAN_ALIGN: usize = 220;

pub const CHECK_NO_PROGRESS: usize = 224;

pub const CHECK_BASE_ALIGN: usize = 223;

pub const CHECK_RTTE_STATE: usize = 205;

pub const CHECK_STATUS: usize = 255;
