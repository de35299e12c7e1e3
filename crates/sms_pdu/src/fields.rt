//! Where the fields of a message's body stand. A byte that isn't there counts as 0.

ghost use Rattle.std.specs.Prelude.{◌≡◌, ◌-◌, ◌≤◌, ◌<◌, find, nat_lt, slice_index};
ghost use Rattle.sms_pdu.specs.Fields as places;

use crate::PduFault;
use crate::coding::octets_of;

/// So many octets from a start on.
#[derive(Clone, Copy, PartialEq, Eq)]
pub struct Field {
    pub start: usize,
    pub size: usize,
}

// The byte at a place.
pub(crate) fn octet(bytes: &[u8], at: usize) -> u8
    ensures { result ≡ slice_index bytes.now at }
{
    match bytes.get(at) {
        Some(byte) => *byte,
        None => 0,
    }
}

fn first_place(bytes: &[u8]) -> usize
    ensures place { result ≡ places.first_place bytes.now }
    ensures small { result ≤ 256 }
{
    1 + usize::from(octet(bytes, 0))
}

fn first_octet(bytes: &[u8]) -> u8
    ensures { result ≡ places.first_octet bytes.now }
{
    octet(bytes, first_place(bytes))
}

// 0 for DELIVER, and 1 for SUBMIT.
fn kind(bytes: &[u8]) -> u8
    ensures { result ≡ places.kind bytes.now }
{
    first_octet(bytes) % 4
}

pub(crate) fn is_submit(bytes: &[u8]) -> bool
    ensures { result ≡ places.is_submit bytes.now }
{
    kind(bytes) == 1
}

fn reference_size(bytes: &[u8]) -> usize
    ensures size { result ≡ places.reference_size bytes.now }
    ensures small { result ≤ 1 }
{
    if is_submit(bytes) { 1 } else { 0 }
}

pub(crate) fn address_place(bytes: &[u8]) -> usize
    ensures place { result ≡ places.address_place bytes.now }
    ensures small { result ≤ 258 }
{
    first_place(bytes) + 1 + reference_size(bytes)
}

// How many half octets the address has.
pub(crate) fn address_count(bytes: &[u8]) -> u8
    ensures { result ≡ places.address_count bytes.now }
{
    octet(bytes, address_place(bytes))
}

pub(crate) fn address_size(bytes: &[u8]) -> usize
    ensures size { result ≡ places.address_size bytes.now }
    ensures small { result ≤ 128 }
{
    usize::from(address_count(bytes)).div_ceil(2)
}

fn protocol_place(bytes: &[u8]) -> usize
    ensures place { result ≡ places.protocol_place bytes.now }
    ensures small { result ≤ 388 }
{
    address_place(bytes) + 2 + address_size(bytes)
}

pub(crate) fn coding(bytes: &[u8]) -> u8
    ensures { result ≡ places.coding bytes.now }
{
    octet(bytes, protocol_place(bytes) + 1)
}

pub(crate) fn time_place(bytes: &[u8]) -> usize
    ensures place { result ≡ places.time_place bytes.now }
    ensures small { result ≤ 390 }
{
    protocol_place(bytes) + 2
}

// How many octets the validity of a SUBMIT has, by the first octet's bits 4 and 3.
fn validity_size(form: u8) -> usize
    requires { form < 4 }
    ensures size { result ≡ places.validity_size form }
    ensures small { result ≤ 7 }
{
    match form {
        0 => 0,
        2 => 1,
        _ => 7,
    }
}

fn time_size(bytes: &[u8]) -> usize
    ensures size { result ≡ places.time_size bytes.now }
    ensures small { result ≤ 7 }
{
    if is_submit(bytes) {
        validity_size(first_octet(bytes) / 8 % 4)
    } else {
        7
    }
}

fn length_place(bytes: &[u8]) -> usize
    ensures place { result ≡ places.length_place bytes.now }
    ensures small { result ≤ 397 }
{
    time_place(bytes) + time_size(bytes)
}

// How many codes or octets the user data have.
pub(crate) fn data_count(bytes: &[u8]) -> u8
    ensures { result ≡ places.data_count bytes.now }
{
    octet(bytes, length_place(bytes))
}

pub(crate) fn data_place(bytes: &[u8]) -> usize
    ensures place { result ≡ places.data_place bytes.now }
    ensures small { result ≤ 398 }
{
    length_place(bytes) + 1
}

pub(crate) fn data_size(bytes: &[u8]) -> usize
    ensures size { result ≡ places.data_size bytes.now }
    ensures small { result ≤ 255 }
{
    octets_of(coding(bytes), data_count(bytes))
}

// How long the header is in front of the text, if there is one.
pub(crate) fn header_size(bytes: &[u8]) -> usize
    ensures size { result ≡ places.header_size bytes.now }
    ensures small { result ≤ 256 }
{
    if first_octet(bytes) / 64 % 2 == 1 {
        1 + usize::from(octet(bytes, data_place(bytes)))
    } else {
        0
    }
}

fn field_at(start: usize, size: usize) -> Field
    ensures { result ≡ places.at start size }
{
    Field { start, size }
}

// All fields, in their order.
fn fields(bytes: &[u8]) -> [Field; 12]
    ensures { result ≡ places.fields bytes.now }
{
    [
        field_at(0, 1),
        field_at(1, usize::from(octet(bytes, 0))),
        field_at(first_place(bytes), 1),
        field_at(first_place(bytes) + 1, reference_size(bytes)),
        field_at(address_place(bytes), 1),
        field_at(address_place(bytes) + 1, 1),
        field_at(address_place(bytes) + 2, address_size(bytes)),
        field_at(protocol_place(bytes), 1),
        field_at(protocol_place(bytes) + 1, 1),
        field_at(time_place(bytes), time_size(bytes)),
        field_at(length_place(bytes), 1),
        field_at(data_place(bytes), data_size(bytes)),
    ]
}

// The first field that isn't whole.
fn short_field(bytes: &[u8]) -> Option<Field>
    ensures { result ≡ places.short_field bytes.now }
{
    first_short(&fields(bytes), bytes.len())
}

// The first of these fields that isn't whole where the bytes end here.
fn first_short(fields: &[Field], end: usize) -> Option<Field>
    ensures { result ≡ find (λ field. nat_lt (end - field.start) field.size) fields.now }
{
    fields
        .iter()
        .find(|field| end.saturating_sub(field.start) < field.size)
        .copied()
}

// Where the data are too short for the header.
fn short_header(bytes: &[u8]) -> Option<PduFault>
    ensures { result ≡ places.short_header bytes.now }
{
    if data_size(bytes) < header_size(bytes) {
        let place = data_place(bytes);
        return Some(PduFault::Short { place });
    }
    None
}

/// Why bytes are no body of a message, if they are none.
pub(crate) fn fault_in(bytes: &[u8]) -> Option<PduFault>
    ensures { result ≡ places.fault_in bytes.now }
{
    if first_place(bytes) < bytes.len() && 2 <= kind(bytes) {
        return Some(PduFault::Kind);
    }
    match short_field(bytes) {
        Some(field) => Some(PduFault::Short { place: field.start }),
        None => short_header(bytes),
    }
}
