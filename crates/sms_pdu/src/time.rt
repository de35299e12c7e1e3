ghost use Rattle.std.specs.Prelude.{◌≡◌, ◌<◌, slice_index, IfOk};
ghost use Rattle.sms_pdu.specs.Time as times;

use crate::fields::octet;
use crate::texts::text_of;
use kit_bytes::Text;
use std::alloc::{AllocError, Global};

/// The digits of half octets.
pub const HEX_DIGITS: [char; 16] = [
    '0', '1', '2', '3', '4', '5', '6', '7', '8', '9', 'A', 'B', 'C', 'D', 'E', 'F',
];

/// The text of a time.
pub(crate) fn time_text(alloc: Global, octets: &[u8]) -> Result<Text, AllocError>
    ensures { IfOk result (λ text. text ≡ times.time_text octets.now) }
{
    let mut chars = Vec::with_capacity(alloc, 21)?;
    chars.extend_from_slice(&pair(octet(octets, 0), '-'))?;
    chars.extend_from_slice(&pair(octet(octets, 1), '-'))?;
    chars.extend_from_slice(&pair(octet(octets, 2), ' '))?;
    chars.extend_from_slice(&pair(octet(octets, 3), ':'))?;
    chars.extend_from_slice(&pair(octet(octets, 4), ':'))?;
    chars.extend_from_slice(&pair(octet(octets, 5), ' '))?;
    chars.extend_from_slice(&zone(octet(octets, 6)))?;
    text_of(alloc, &chars)
}

// The two digits of an octet, and the character behind them.
fn pair(octet: u8, behind: char) -> [char; 3]
    ensures { result ≡ times.pair octet behind }
{
    [low(octet), high(octet), behind]
}

// The quarters of an hour, behind their sign.
fn zone(octet: u8) -> [char; 3]
    ensures { result ≡ times.zone octet }
{
    [sign(octet), low(octet % 8), high(octet)]
}

fn sign(octet: u8) -> char
    ensures { result ≡ times.sign octet }
{
    if octet / 8 % 2 == 1 { '-' } else { '+' }
}

// The digit of the half octet that comes first.
fn low(octet: u8) -> char
    ensures { result ≡ times.low octet }
{
    HEX_DIGITS[(octet % 16) as usize]
}

// The digit of the other half octet.
fn high(octet: u8) -> char
    ensures { result ≡ times.high octet }
{
    HEX_DIGITS[(octet / 16) as usize]
}
