//! RMI calls, and their encoding in the registers X0 to X6.
ghost use Rattle.std.specs.Prelude.{◌≡◌};
ghost use Rattle.rmi_abi.specs.Call as calls;

use crate::Registers;

/// A call of one of the 23 RMI commands, with its operands. RMM 1.0, RMI commands.
#[derive(Clone, Copy)]
pub enum Call {
    Version {
        requested: u64,
    },
    GranuleDelegate {
        address: u64,
    },
    GranuleUndelegate {
        address: u64,
    },
    DataCreate {
        rd: u64,
        data: u64,
        ipa: u64,
        source: u64,
        flags: u64,
    },
    DataCreateUnknown {
        rd: u64,
        data: u64,
        ipa: u64,
    },
    DataDestroy {
        rd: u64,
        ipa: u64,
    },
    RealmActivate {
        rd: u64,
    },
    RealmCreate {
        rd: u64,
        params: u64,
    },
    RealmDestroy {
        rd: u64,
    },
    RecCreate {
        rd: u64,
        rec: u64,
        params: u64,
    },
    RecDestroy {
        rec: u64,
    },
    RecEnter {
        rec: u64,
        run: u64,
    },
    RttCreate {
        rd: u64,
        rtt: u64,
        ipa: u64,
        level: u64,
    },
    RttDestroy {
        rd: u64,
        ipa: u64,
        level: u64,
    },
    RttMapUnprotected {
        rd: u64,
        ipa: u64,
        level: u64,
        descriptor: u64,
    },
    RttReadEntry {
        rd: u64,
        ipa: u64,
        level: u64,
    },
    RttUnmapUnprotected {
        rd: u64,
        ipa: u64,
        level: u64,
    },
    PsciComplete {
        calling: u64,
        target: u64,
        status: u64,
    },
    Features {
        index: u64,
    },
    RttFold {
        rd: u64,
        ipa: u64,
        level: u64,
    },
    RecAuxCount {
        rd: u64,
    },
    RttInitRipas {
        rd: u64,
        base: u64,
        top: u64,
    },
    RttSetRipas {
        rd: u64,
        rec: u64,
        base: u64,
        top: u64,
    },
}

// ---- from registers

// The call in registers, if its function identifier is that of a command, and at most that of REC_ENTER.
fn decode_first(r: Registers) -> Option<Call>
    ensures { result ≡ calls.first_call_in r }
{
    match r.x0 {
        0xC400_0150 => Some(Call::Version { requested: r.x1 }),
        0xC400_0151 => Some(Call::GranuleDelegate { address: r.x1 }),
        0xC400_0152 => Some(Call::GranuleUndelegate { address: r.x1 }),
        0xC400_0153 => Some(Call::DataCreate {
            rd: r.x1,
            data: r.x2,
            ipa: r.x3,
            source: r.x4,
            flags: r.x5,
        }),
        0xC400_0154 => Some(Call::DataCreateUnknown {
            rd: r.x1,
            data: r.x2,
            ipa: r.x3,
        }),
        0xC400_0155 => Some(Call::DataDestroy {
            rd: r.x1,
            ipa: r.x2,
        }),
        0xC400_0157 => Some(Call::RealmActivate { rd: r.x1 }),
        0xC400_0158 => Some(Call::RealmCreate {
            rd: r.x1,
            params: r.x2,
        }),
        0xC400_0159 => Some(Call::RealmDestroy { rd: r.x1 }),
        0xC400_015A => Some(Call::RecCreate {
            rd: r.x1,
            rec: r.x2,
            params: r.x3,
        }),
        0xC400_015B => Some(Call::RecDestroy { rec: r.x1 }),
        0xC400_015C => Some(Call::RecEnter {
            rec: r.x1,
            run: r.x2,
        }),
        _ => None,
    }
}

// The call in registers, if its function identifier is that of a command, and at least that of RTT_CREATE.
fn decode_last(r: Registers) -> Option<Call>
    ensures { result ≡ calls.last_call_in r }
{
    match r.x0 {
        0xC400_015D => Some(Call::RttCreate {
            rd: r.x1,
            rtt: r.x2,
            ipa: r.x3,
            level: r.x4,
        }),
        0xC400_015E => Some(Call::RttDestroy {
            rd: r.x1,
            ipa: r.x2,
            level: r.x3,
        }),
        0xC400_015F => Some(Call::RttMapUnprotected {
            rd: r.x1,
            ipa: r.x2,
            level: r.x3,
            descriptor: r.x4,
        }),
        0xC400_0161 => Some(Call::RttReadEntry {
            rd: r.x1,
            ipa: r.x2,
            level: r.x3,
        }),
        0xC400_0162 => Some(Call::RttUnmapUnprotected {
            rd: r.x1,
            ipa: r.x2,
            level: r.x3,
        }),
        0xC400_0164 => Some(Call::PsciComplete {
            calling: r.x1,
            target: r.x2,
            status: r.x3,
        }),
        0xC400_0165 => Some(Call::Features { index: r.x1 }),
        0xC400_0166 => Some(Call::RttFold {
            rd: r.x1,
            ipa: r.x2,
            level: r.x3,
        }),
        0xC400_0167 => Some(Call::RecAuxCount { rd: r.x1 }),
        0xC400_0168 => Some(Call::RttInitRipas {
            rd: r.x1,
            base: r.x2,
            top: r.x3,
        }),
        0xC400_0169 => Some(Call::RttSetRipas {
            rd: r.x1,
            rec: r.x2,
            base: r.x3,
            top: r.x4,
        }),
        _ => None,
    }
}

/// Decodes an RMI call from the registers X0 to X6. Returns `None` if X0 is not the function identifier of a command.
pub fn decode_call(r: Registers) -> Option<Call>
    ensures { result ≡ calls.call_in r }
{
    if r.x0 <= 0xC400_015C {
        decode_first(r)
    } else {
        decode_last(r)
    }
}

// ---- to registers

// The registers with a function identifier in X0, four operands in X1 to X4, and zeros after them.
fn registers(function: u64, x1: u64, x2: u64, x3: u64, x4: u64) -> Registers
    ensures { result ≡ calls.registers function x1 x2 x3 x4 }
{
    Registers {
        x0: function,
        x1,
        x2,
        x3,
        x4,
        x5: 0,
        x6: 0,
    }
}

/// Encodes an RMI call in the registers X0 to X6. X0 has the function identifier, the operands follow from X1 on, and
/// the rest is 0.
pub fn encode_call(call: Call) -> Registers
    ensures { result ≡ calls.registers_of call }
{
    match call {
        Call::Version { requested } => registers(0xC400_0150, requested, 0, 0, 0),
        Call::GranuleDelegate { address } => registers(0xC400_0151, address, 0, 0, 0),
        Call::GranuleUndelegate { address } => registers(0xC400_0152, address, 0, 0, 0),
        Call::DataCreate {
            rd,
            data,
            ipa,
            source,
            flags,
        } => Registers {
            x5: flags,
            ..registers(0xC400_0153, rd, data, ipa, source)
        },
        Call::DataCreateUnknown { rd, data, ipa } => registers(0xC400_0154, rd, data, ipa, 0),
        Call::DataDestroy { rd, ipa } => registers(0xC400_0155, rd, ipa, 0, 0),
        Call::RealmActivate { rd } => registers(0xC400_0157, rd, 0, 0, 0),
        Call::RealmCreate { rd, params } => registers(0xC400_0158, rd, params, 0, 0),
        Call::RealmDestroy { rd } => registers(0xC400_0159, rd, 0, 0, 0),
        Call::RecCreate { rd, rec, params } => registers(0xC400_015A, rd, rec, params, 0),
        Call::RecDestroy { rec } => registers(0xC400_015B, rec, 0, 0, 0),
        Call::RecEnter { rec, run } => registers(0xC400_015C, rec, run, 0, 0),
        Call::RttCreate {
            rd,
            rtt,
            ipa,
            level,
        } => registers(0xC400_015D, rd, rtt, ipa, level),
        Call::RttDestroy { rd, ipa, level } => registers(0xC400_015E, rd, ipa, level, 0),
        Call::RttMapUnprotected {
            rd,
            ipa,
            level,
            descriptor,
        } => registers(0xC400_015F, rd, ipa, level, descriptor),
        Call::RttReadEntry { rd, ipa, level } => registers(0xC400_0161, rd, ipa, level, 0),
        Call::RttUnmapUnprotected { rd, ipa, level } => registers(0xC400_0162, rd, ipa, level, 0),
        Call::PsciComplete {
            calling,
            target,
            status,
        } => registers(0xC400_0164, calling, target, status, 0),
        Call::Features { index } => registers(0xC400_0165, index, 0, 0, 0),
        Call::RttFold { rd, ipa, level } => registers(0xC400_0166, rd, ipa, level, 0),
        Call::RecAuxCount { rd } => registers(0xC400_0167, rd, 0, 0, 0),
        Call::RttInitRipas { rd, base, top } => registers(0xC400_0168, rd, base, top, 0),
        Call::RttSetRipas { rd, rec, base, top } => registers(0xC400_0169, rd, rec, base, top),
    }
}
