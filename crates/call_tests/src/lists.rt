use kit_bytes::services::{BASIC_CONNECT, SMS};
use mbim_services::{Events, LONGEST_LIST, write_events};
use uuid::Uuid;

// The list of libmbim's test-message-builder.c: two CIDs of Basic Connect, and one of SMS.
const LIST: [u8; 72] = [
    0x02, 0x00, 0x00, 0x00, 0x14, 0x00, 0x00, 0x00, 0x1C, 0x00, 0x00, 0x00, 0x30, 0x00, 0x00, 0x00,
    0x18, 0x00, 0x00, 0x00, 0xA2, 0x89, 0xCC, 0x33, 0xBC, 0xBB, 0x8B, 0x4F, 0xB6, 0xB0, 0x13, 0x3E,
    0xC2, 0xAA, 0xE6, 0xDF, 0x02, 0x00, 0x00, 0x00, 0x0B, 0x00, 0x00, 0x00, 0x09, 0x00, 0x00, 0x00,
    0x53, 0x3F, 0xBE, 0xEB, 0x14, 0xFE, 0x44, 0x67, 0x9F, 0x90, 0x33, 0xA2, 0x23, 0xE5, 0x6C, 0x3F,
    0x01, 0x00, 0x00, 0x00, 0x02, 0x00, 0x00, 0x00,
];

/// Whether these are the events of a list, in this order.
fn are_events(list: &[u8], pairs: &[(Uuid, Option<u32>)]) -> bool {
    let Some(mut events) = Events::read(list) else {
        return false;
    };
    pairs.iter().all(|pair| events.next() == Some(*pair)) && events.next().is_none()
}

#[test]
fn a_list_is_written_and_read(rt: HostRuntime) {
    let basic_connect = Uuid::from_bytes(BASIC_CONNECT);
    let pairs = [
        (basic_connect, Some(11)),
        (basic_connect, Some(9)),
        (Uuid::from_bytes(SMS), Some(2)),
    ];
    let mut buffer = [0; LONGEST_LIST];
    assert!(rt; write_events(&pairs, &mut buffer) == 72 && buffer.starts_with(&LIST));
    assert!(rt; are_events(&LIST, &pairs) && Events::read(&LIST[..71]).is_none());
}
