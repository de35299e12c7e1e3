use qmi_shapes::Shape;
use qmi_values::{Val, decode, encode};
use std::alloc::Global;

const SPELLED: [u8; 3] = [0xFF, 0xFF, 0x7F];

fn is_read(alloc: Global) -> bool {
    match decode(alloc, &Shape::I(3), &SPELLED) {
        Ok(val) => val.as_i64() == Some(8_388_607) && is_written(alloc, &val),
        Err(_) => false,
    }
}

fn is_written(alloc: Global, val: &Val) -> bool {
    match encode(alloc, &Shape::I(3), val) {
        Ok(octets) => octets.as_slice() == SPELLED.as_slice(),
        Err(_) => false,
    }
}

// No format of a description has three bytes with a sign, so no row has.
#[test]
fn a_number_of_three_bytes_is_read_and_written(rt: HostRuntime) {
    assert!(rt; is_read(rt.alloc()));
}
