ghost use Rattle.std.specs.Prelude.{◌≡◌};
ghost use Rattle.sms_pdu.specs.Header as headers;

use crate::Part;

/// The part that the elements of a header tell, if they do.
pub(crate) fn part_in(bytes: &[u8]) -> Option<Part>
    ensures { result ≡ headers.part_in bytes.now }
{
    valid(first_told(bytes)?)
}

// What the first element tells that tells of a part.
fn first_told(bytes: &[u8]) -> Option<Part>
    ensures { result ≡ headers.first_told (headers.elements bytes.now) }
{
    let mut left = bytes;
    while let [number, size, rest @ ..] = left {
        let size = usize::from(*size);
        if rest.len() < size {
            return None;
        }
        let (octets, behind) = rest.split_at(size);
        if let Some(part) = told(*number, octets) {
            return Some(part);
        }
        left = behind;
    }
    None
}

// What an element tells of a part, if it is one of the two that do.
fn told(number: u8, octets: &[u8]) -> Option<Part>
    ensures { result ≡ headers.told number octets.now }
{
    if number == 0 && octets.len() == 3 {
        return Some(Part {
            reference: u16::from(octets[0]),
            wide: false,
            total: octets[1],
            place: octets[2],
        });
    }
    if number == 8 && octets.len() == 4 {
        return Some(Part {
            reference: u16::from(octets[0]) * 256 + u16::from(octets[1]),
            wide: true,
            total: octets[2],
            place: octets[3],
        });
    }
    None
}

// The part, if its place is from 1 to the total.
fn valid(part: Part) -> Option<Part>
    ensures { result ≡ headers.valid part }
{
    if 1 <= part.place && part.place <= part.total {
        Some(part)
    } else {
        None
    }
}
