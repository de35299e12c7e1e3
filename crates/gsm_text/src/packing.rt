ghost use Rattle.std.specs.Prelude.{◌≡◌, ◌%◌, ◌^◌, ◌≤◌, ◌<◌, length, slice_index, All, IfOk};
ghost use Rattle.gsm_text.specs.declared.packing.UnpackFault.TheVariants.{OutOfMemory};
ghost use Rattle.gsm_text.specs.Packing.{from_bit, pack, Unpacks};

use kit_bytes::Octets;
use std::alloc::{AllocError, AllocFailed, Global};
use thiserror::Error;

/// The most codes that are packed together.
pub const MOST_CODES: usize = 255;

/// Why octets aren't unpacked.
#[derive(Clone, Copy, Debug, PartialEq, Eq, Error)]
pub enum UnpackFault {
    /// There are fewer bits than the codes take.
    #[error("the octets have too few bits")]
    ShortBits,
    #[error("out of memory")]
    OutOfMemory,
}

impl From<AllocFailed<u8>> for UnpackFault {
    ghost from_gives = { λ _ fault. fault ≡ OutOfMemory };

    fn from(_: AllocFailed<u8>) -> Self {
        UnpackFault::OutOfMemory
    }
}

/// Packs codes of 7 bits one behind another, the lowest bit first, behind so many zero bits. The
/// bits of the last octet that are left are zero.
pub fn pack(alloc: Global, codes: &[u8], fill: u8) -> Result<Octets, AllocError>
    requires few { length codes.now ≤ MOST_CODES }
    requires small { All (λ code. code < 128) codes.now }
    requires fill { fill ≤ 6 }
    ensures { IfOk result (λ octets. octets ≡ pack codes.now fill) }
{
    let mut octets = Vec::with_capacity(alloc, (usize::from(fill) + 7 * codes.len()).div_ceil(8))?;
    let mut begun: u16 = 0;
    let mut bits = fill;
    for code in codes {
        begun += u16::from(*code) << bits;
        if bits == 0 {
            bits = 7;
        } else {
            octets.push((begun % 256) as u8)?;
            begun /= 256;
            bits -= 1;
        }
    }
    if 0 < bits {
        octets.push(begun as u8)?;
    }
    Ok(Octets::from(octets))
}

/// So many codes, from packed octets that begin with so many other bits.
pub fn unpack(alloc: Global, bytes: &[u8], fill: u8, count: usize) -> Result<Octets, UnpackFault>
    requires few { count ≤ MOST_CODES }
    requires fill { fill ≤ 6 }
    ensures codes { Unpacks bytes.now fill count result }
    ensures small { IfOk result (λ codes. All (λ code. code < 128) codes) }
{
    let end = usize::from(fill) + 7 * count;
    if bytes.len() < end.div_ceil(8) {
        return Err(UnpackFault::ShortBits);
    }
    let mut codes = Vec::new(alloc);
    for k in 0..count {
        codes.push(code_at(bytes, usize::from(fill) + 7 * k))?;
    }
    Ok(Octets::from(codes))
}

// The code that begins at a bit.
fn code_at(bytes: &[u8], bit: usize) -> u8
    requires { bit < 2 ^ 32 }
    ensures { result ≡ from_bit bytes.now bit % 128 }
{
    let low = octet_at(bytes, bit / 8);
    let high = octet_at(bytes, bit / 8 + 1);
    (((low + 256 * high) >> (bit % 8)) % 128) as u8
}

// The octet at a place, or 0 behind the last one.
fn octet_at(bytes: &[u8], at: usize) -> u16
    ensures octet { result ≡ slice_index bytes.now at }
    ensures small { result < 256 }
{
    match bytes.get(at) {
        Some(byte) => u16::from(*byte),
        None => 0,
    }
}
