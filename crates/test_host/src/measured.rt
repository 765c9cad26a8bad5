//! Tests of the bytes that are hashed to measure data, RIPAS and RECs.
use crate::expected::holds;
use granule_addr::{IpaGran, RecNo};
use rmi_monitor::{data_event, rec_event, ripas_event};

// The bytes 01 03 ff ff ff, and then the SHA-256 digest of 4,096 bytes 5a, as computed by Python's hashlib.
const DATA_EVENT: [u8; 37] = [
    0x01, 0x03, 0xff, 0xff, 0xff, //
    0xf3, 0x02, 0x95, 0x7d, 0xa5, 0x22, 0x09, 0x38, 0xa7, 0xe3, 0xe5, 0x1a, 0x87, 0x18, 0xc7, 0x9b,
    0x9e, 0x00, 0xdc, 0x13, 0xab, 0x21, 0x19, 0xe8, 0xcf, 0xc9, 0x78, 0xf0, 0x41, 0x72, 0x03, 0x82,
];

#[test]
fn events_are_big_endian(rt: HostRuntime) {
    let first = IpaGran::new(67_108_352, 39).expect(&rt, "an IPA granule");
    let last = IpaGran::new(67_108_863, 39).expect(&rt, "an IPA granule");
    let data = data_event(last, &[0x5a; 4096]);
    holds(&rt, "of data", data == DATA_EVENT);
    let ripas = ripas_event(first, 512);
    holds(&rt, "of RIPAS", ripas == [2, 3, 0xff, 0xfe, 0, 0, 0, 2, 0]);
    let rec = rec_event(RecNo::new(258));
    holds(&rt, "of a REC", rec == [3, 0, 0, 1, 2]);
}
