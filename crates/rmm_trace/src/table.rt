//! The grammar of trace lines up to their ` = `, as a table of word groups. The table has a row for each group.
use crate::grammar::{Group, Place, REPEATED, ValueKind};
use crate::place::*;

// ---- contexts

const LINE: u64 = 1;

const CALLS: u64 = LINE + REPEATED;

const SETTINGS: u64 = 4;

const REALM_FIELDS: u64 = 8;

const REC_FIELDS: u64 = 16;

const RUN_FIELDS: u64 = 32;

const STEPS: u64 = 64;

// ---- kinds

macro_rules! number {
    ($least:expr, $most:expr) => {
        ValueKind {
            least: $least,
            most: $most,
            unit: 1,
            multiple: 0,
            first_name: 0,
            name_count: 0,
        }
    };
}

// A kind whose values are names alone: no number is at least 1 and at most 0.
macro_rules! names {
    ($first:expr, $count:expr) => {
        ValueKind {
            least: 1,
            most: 0,
            unit: 1,
            multiple: 0,
            first_name: $first,
            name_count: $count,
        }
    };
}

const ANY: ValueKind = number!(0, u64::MAX);

const BYTE: ValueKind = number!(0, 255);

const SOME: ValueKind = number!(1, u64::MAX);

const GRANULES: ValueKind = number!(1, 65_536);

const TIMES: ValueKind = number!(2, 512);
// The number 8 or 16.
const EIGHT_OR_SIXTEEN: ValueKind = ValueKind {
    least: 8,
    most: 16,
    unit: 8,
    multiple: 0,
    first_name: 0,
    name_count: 0,
};
// The width of an access: 1, 2, 4 or 8 bytes.
const WIDTH: ValueKind = ValueKind {
    least: 1,
    most: 8,
    unit: 1,
    multiple: 8,
    first_name: 0,
    name_count: 0,
};
// Addresses: `ALIGNED` is a multiple of 8, and `PAGE` is a multiple of 4,096.
const ALIGNED: ValueKind = ValueKind {
    least: 0,
    most: u64::MAX,
    unit: 8,
    multiple: 0,
    first_name: 0,
    name_count: 0,
};

const PAGE: ValueKind = ValueKind {
    least: 0,
    most: u64::MAX,
    unit: 4096,
    multiple: 0,
    first_name: 0,
    name_count: 0,
};
// A PSCI status: a number, or one of two names.
const PSCI: ValueKind = ValueKind {
    least: 0,
    most: u64::MAX,
    unit: 1,
    multiple: 0,
    first_name: PSCI_SUCCESS,
    name_count: 2,
};
// A RIPAS: EMPTY, RAM or DESTROYED.
const RIPAS: ValueKind = ValueKind {
    least: 0,
    most: 2,
    unit: 1,
    multiple: 0,
    first_name: EMPTY,
    name_count: 3,
};

// ---- groups

macro_rules! group {
    (
        $contexts:expr, $name:expr, $least:expr, $most:expr,
        [$first:expr, $second:expr, $third:expr, $others:expr], $opens:expr, $is_last:expr
    ) => {
        Group {
            contexts: $contexts,
            name: $name,
            least: $least,
            most: $most,
            first: $first,
            second: $second,
            third: $third,
            others: $others,
            opens: $opens,
            is_last: $is_last,
            bit: 0,
            excludes: 0,
        }
    };
}

// A group whose values may be any numbers. A question may end with it, and no group follows.
macro_rules! plain {
    ($contexts:expr, $name:expr, $least:expr, $most:expr) => {
        group!(
            $contexts,
            $name,
            $least,
            $most,
            [ANY, ANY, ANY, ANY],
            0,
            true
        )
    };
}

// A setting of a platform, which has `$count` values and occurs at most once.
macro_rules! setting {
    ($name:expr, $place:expr, $count:expr, [$first:expr, $second:expr]) => {
        Group {
            contexts: SETTINGS,
            name: $name,
            least: $count,
            most: $count,
            first: $first,
            second: $second,
            third: ANY,
            others: ANY,
            opens: SETTINGS,
            is_last: true,
            bit: 1 << $place,
            excludes: 1 << $place,
        }
    };
}

// A field of a parameter page, with 1 to `$most` values, which occurs at most once and before the fields after it in
// the table.
macro_rules! field {
    ($context:expr, $name:expr, $place:expr, $most:expr, $kind:expr) => {
        Group {
            contexts: $context,
            name: $name,
            least: 1,
            most: $most,
            first: $kind,
            second: $kind,
            third: $kind,
            others: $kind,
            opens: $context,
            is_last: true,
            bit: 1 << $place,
            excludes: u64::MAX - ((1 << $place) - 1),
        }
    };
}

/// The position in the grammar before the first word of a trace line. A question may not end there.
pub const START: Place = Place {
    group: group!(0, 0, 0, 0, [ANY, ANY, ANY, ANY], LINE, false),
    context: 0,
    count: 0,
    seen: 0,
};

/// The grammar rules for all groups of words that a trace line can have before its ` = `.
pub const GROUPS: [Group; 95] = [
    // calls, which can be repeated
    plain!(CALLS, RMI_VERSION, 1, 1),
    plain!(CALLS, RMI_FEATURES, 1, 1),
    plain!(CALLS, RMI_GRANULE_DELEGATE, 1, 1),
    plain!(CALLS, RMI_GRANULE_UNDELEGATE, 1, 1),
    plain!(CALLS, RMI_REALM_CREATE, 2, 2),
    plain!(CALLS, RMI_REALM_ACTIVATE, 1, 1),
    plain!(CALLS, RMI_REALM_DESTROY, 1, 1),
    plain!(CALLS, RMI_REC_CREATE, 3, 3),
    plain!(CALLS, RMI_REC_DESTROY, 1, 1),
    plain!(CALLS, RMI_REC_ENTER, 2, 2),
    plain!(CALLS, RMI_REC_AUX_COUNT, 1, 1),
    plain!(CALLS, RMI_RTT_CREATE, 4, 4),
    plain!(CALLS, RMI_RTT_DESTROY, 3, 3),
    plain!(CALLS, RMI_RTT_FOLD, 3, 3),
    plain!(CALLS, RMI_RTT_INIT_RIPAS, 3, 3),
    plain!(CALLS, RMI_RTT_SET_RIPAS, 4, 4),
    plain!(CALLS, RMI_RTT_READ_ENTRY, 3, 3),
    plain!(CALLS, RMI_RTT_MAP_UNPROTECTED, 4, 4),
    plain!(CALLS, RMI_RTT_UNMAP_UNPROTECTED, 3, 3),
    plain!(CALLS, RMI_DATA_CREATE, 5, 5),
    plain!(CALLS, RMI_DATA_CREATE_UNKNOWN, 3, 3),
    plain!(CALLS, RMI_DATA_DESTROY, 2, 2),
    group!(
        CALLS,
        RMI_PSCI_COMPLETE,
        3,
        3,
        [ANY, ANY, PSCI, ANY],
        0,
        true
    ),
    group!(CALLS, FILL, 2, 2, [PAGE, BYTE, ANY, ANY], 0, true),
    // other questions
    group!(
        LINE,
        PLATFORM,
        2,
        2,
        [PAGE, GRANULES, ANY, ANY],
        SETTINGS,
        true
    ),
    group!(LINE, REPEAT, 1, 1, [TIMES, ANY, ANY, ANY], REPEATED, false),
    plain!(LINE, SMC, 1, 7),
    group!(LINE, STORE, 2, 2, [ALIGNED, ANY, ANY, ANY], 0, true),
    group!(LINE, LOAD, 1, 1, [ALIGNED, ANY, ANY, ANY], 0, true),
    group!(
        LINE,
        REALM_PARAMS,
        1,
        1,
        [PAGE, ANY, ANY, ANY],
        REALM_FIELDS,
        true
    ),
    group!(
        LINE,
        REC_PARAMS,
        1,
        1,
        [PAGE, ANY, ANY, ANY],
        REC_FIELDS,
        true
    ),
    group!(LINE, REC_RUN, 1, 1, [PAGE, ANY, ANY, ANY], RUN_FIELDS, true),
    group!(LINE, GUEST, 1, 1, [ANY, ANY, ANY, ANY], STEPS, false),
    plain!(LINE, INTERRUPT, 1, 1),
    plain!(LINE, STATE, 1, 1),
    plain!(LINE, SUM, 1, 1),
    plain!(LINE, REALM, 1, 1),
    plain!(LINE, RIM, 1, 1),
    plain!(LINE, REC, 1, 1),
    plain!(LINE, SAW, 1, 1),
    // settings of a platform, each once
    setting!(AUX, 0, 1, [number!(0, 16), ANY]),
    setting!(VMID_BITS, 1, 1, [EIGHT_OR_SIXTEEN, ANY]),
    setting!(S2SZ, 2, 1, [number!(32, 48), ANY]),
    setting!(MAX_RECS_ORDER, 3, 1, [number!(0, 15), ANY]),
    setting!(LAYOUT, 4, 1, [names!(REL0, 2), ANY]),
    setting!(INIT_DESTROYED, 5, 1, [names!(CHANGE, 2), ANY]),
    setting!(MEASURE_REC, 6, 1, [names!(RUNNABLE, 2), ANY]),
    setting!(DATA_FLAGS, 7, 1, [names!(CHECKED, 2), ANY]),
    setting!(LIVE_TOP, 8, 1, [names!(GIVEN, 2), ANY]),
    setting!(PSCI_ARGS, 9, 1, [names!(ALL, 2), ANY]),
    setting!(BLOCK_LEVEL, 10, 1, [number!(1, 2), ANY]),
    setting!(DESC_SH, 11, 1, [names!(ZERO, 2), ANY]),
    setting!(DATA_RIPAS, 12, 1, [names!(ANY_RIPAS, 2), ANY]),
    setting!(PARAMS, 13, 1, [names!(LOOSE, 2), ANY]),
    setting!(GIC, 14, 1, [names!(NONE, 2), ANY]),
    setting!(BPS, 15, 1, [number!(0, 15), ANY]),
    setting!(WPS, 16, 1, [number!(0, 15), ANY]),
    setting!(LRS, 17, 1, [number!(0, 15), ANY]),
    setting!(SECURE, 18, 2, [PAGE, SOME]),
    // fields of RmiRealmParams, in their sequence
    field!(REALM_FIELDS, FLAGS, 0, 1, ANY),
    field!(REALM_FIELDS, S2SZ, 1, 1, BYTE),
    field!(REALM_FIELDS, SVE_VL, 2, 1, BYTE),
    field!(REALM_FIELDS, NUM_BPS, 3, 1, BYTE),
    field!(REALM_FIELDS, NUM_WPS, 4, 1, BYTE),
    field!(REALM_FIELDS, PMU_NUM_CTRS, 5, 1, BYTE),
    field!(REALM_FIELDS, HASH_ALGO, 6, 1, BYTE),
    field!(REALM_FIELDS, RPV, 7, 1, ANY),
    field!(REALM_FIELDS, VMID, 8, 1, number!(0, 65_535)),
    field!(REALM_FIELDS, RTT_BASE, 9, 1, ANY),
    field!(REALM_FIELDS, RTT_LEVEL_START, 10, 1, ANY),
    field!(
        REALM_FIELDS,
        RTT_NUM_START,
        11,
        1,
        number!(0, 4_294_967_295)
    ),
    // fields of RmiRecParams
    field!(REC_FIELDS, FLAGS, 0, 1, ANY),
    field!(REC_FIELDS, MPIDR, 1, 1, ANY),
    field!(REC_FIELDS, PC, 2, 1, ANY),
    field!(REC_FIELDS, GPRS, 3, 8, ANY),
    field!(REC_FIELDS, AUX, 4, 16, ANY),
    // fields of RmiRecEnter
    field!(RUN_FIELDS, FLAGS, 0, 1, ANY),
    field!(RUN_FIELDS, GPRS, 1, 31, ANY),
    field!(RUN_FIELDS, GICV3_HCR, 2, 1, ANY),
    field!(RUN_FIELDS, GICV3_LRS, 3, 16, ANY),
    // steps of a guest
    group!(STEPS, WRITE, 2, 3, [ANY, ANY, WIDTH, ANY], 0, true),
    group!(STEPS, READ, 1, 2, [ANY, WIDTH, ANY, ANY], 0, true),
    plain!(STEPS, FETCH, 1, 1),
    group!(
        STEPS,
        HOST_CALL,
        1,
        32,
        [number!(0, 65_535), ANY, ANY, ANY],
        0,
        true
    ),
    group!(
        STEPS,
        SET_RIPAS,
        3,
        4,
        [ANY, ANY, RIPAS, names!(DESTROYED_STEP, 1)],
        0,
        true
    ),
    plain!(STEPS, CPU_ON, 3, 3),
    plain!(STEPS, AFFINITY_INFO, 2, 2),
    plain!(STEPS, CPU_OFF, 0, 0),
    plain!(STEPS, CPU_SUSPEND, 0, 0),
    plain!(STEPS, SYSTEM_OFF, 0, 0),
    plain!(STEPS, SYSTEM_RESET, 0, 0),
    plain!(STEPS, WFI, 0, 0),
    plain!(STEPS, WFE, 0, 0),
    group!(
        STEPS,
        SYSREG,
        2,
        2,
        [number!(0, 33_554_431), ANY, ANY, ANY],
        0,
        true
    ),
    plain!(STEPS, SPIN, 0, 0),
];
