ghost use Rattle.std.specs.Prelude.{◌≡◌, ◌+◌, ◌≤◌, length, IfOk};
ghost use Rattle.sms_pdu.specs.Fields as places;
ghost use Rattle.sms_pdu.specs.Reading as readings;

use crate::address::address_text;
use crate::body::body_text;
use crate::fields::{
    address_count, address_place, address_size, coding, data_count, data_place, data_size,
    fault_in, header_size, is_submit, octet, time_place,
};
use crate::header::part_in;
use crate::texts::text_of;
use crate::time::time_text;
use crate::{Body, Part, Pdu, PduFault};
use kit_bytes::Text;
use std::alloc::{AllocError, Global};

/// The message that these bytes are: a service centre's address, which isn't read, and a DELIVER
/// or a SUBMIT. Bytes behind it are ignored. It is refused where its kind is another one, or at the
/// first field that isn't whole.
pub fn read_pdu(alloc: Global, bytes: &[u8]) -> Result<Pdu, PduFault>
    ensures { readings.ReadsPdu bytes.now result }
{
    if let Some(fault) = fault_in(bytes) {
        return Err(fault);
    }
    let address = address_in(alloc, bytes)?;
    let time = time_in(alloc, bytes)?;
    let body = body_in(alloc, bytes)?;
    Ok(Pdu {
        deliver: !is_submit(bytes),
        address,
        time,
        part: part_told(bytes),
        body,
    })
}

fn address_in(alloc: Global, bytes: &[u8]) -> Result<Text, AllocError>
    requires { places.address_place bytes.now + 2 + places.address_size bytes.now ≤ length bytes.now }
    ensures { IfOk result (λ address. address ≡ readings.address_in bytes.now) }
{
    let place = address_place(bytes);
    let octets = run(bytes, place + 2, address_size(bytes));
    address_text(alloc, address_count(bytes), octet(bytes, place + 1), octets)
}

// A SUBMIT has none.
fn time_in(alloc: Global, bytes: &[u8]) -> Result<Text, AllocError>
    ensures { IfOk result (λ time. time ≡ readings.time_in bytes.now) }
{
    if is_submit(bytes) {
        return text_of(alloc, &[]);
    }
    time_text(alloc, run(bytes, time_place(bytes), 7))
}

fn body_in(alloc: Global, bytes: &[u8]) -> Result<Body, AllocError>
    requires data { places.data_place bytes.now + places.data_size bytes.now ≤ length bytes.now }
    requires header { places.header_size bytes.now ≤ places.data_size bytes.now }
    ensures { IfOk result (λ body. body ≡ readings.body_in bytes.now) }
{
    let octets = run(bytes, data_place(bytes), data_size(bytes));
    body_text(
        alloc,
        coding(bytes),
        data_count(bytes),
        header_size(bytes),
        octets,
    )
}

// Where there is no header, nothing is told.
fn part_told(bytes: &[u8]) -> Option<Part>
    ensures { result ≡ readings.part_told bytes.now }
{
    let elements = header_size(bytes).saturating_sub(1);
    part_in(run(bytes, data_place(bytes) + 1, elements))
}

// So many bytes from a place on, or as many as there are.
fn run(bytes: &[u8], place: usize, size: usize) -> &[u8]
    ensures { result.now ≡ readings.run bytes.now place size }
{
    let left = &bytes[place.min(bytes.len())..];
    &left[..size.min(left.len())]
}
