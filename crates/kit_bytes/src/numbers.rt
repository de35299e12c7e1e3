ghost use Rattle.std.specs.Prelude.{◌≡◌, ◌+◌, ◌≤◌, length};
ghost use Rattle.kit_bytes.specs.Numbers.{number_at, u16_bytes, u32_bytes};

use byteorder::{ByteOrder, LittleEndian};

/// The 16-bit number at a place, little endian.
pub fn u16_at(bytes: &[u8], at: usize) -> u16
    requires { at + 2 ≤ length bytes.now }
    ensures { result ≡ number_at bytes.now at 2 }
{
    LittleEndian::read_u16(&bytes[at..])
}

/// The 32-bit number at a place, little endian.
pub fn u32_at(bytes: &[u8], at: usize) -> u32
    requires { at + 4 ≤ length bytes.now }
    ensures { result ≡ number_at bytes.now at 4 }
{
    LittleEndian::read_u32(&bytes[at..])
}

/// The 64-bit number at a place, little endian.
pub fn u64_at(bytes: &[u8], at: usize) -> u64
    requires { at + 8 ≤ length bytes.now }
    ensures { result ≡ number_at bytes.now at 8 }
{
    LittleEndian::read_u64(&bytes[at..])
}

/// The bytes of a 16-bit number, little endian.
pub fn u16_bytes(number: u16) -> [u8; 2]
    ensures { result ≡ u16_bytes number }
{
    number.to_le_bytes()
}

/// The bytes of a 32-bit number, little endian.
pub fn u32_bytes(number: u32) -> [u8; 4]
    ensures { result ≡ u32_bytes number }
{
    number.to_le_bytes()
}
