ghost use Rattle.std.specs.Prelude.{◌<◌, length};
ghost use Rattle.tlv_codec.specs.Reading.{ReadsTlv, ReadsTlvs};

use crate::{Tlv, TlvFault, Tlvs};
use kit_bytes::u16_at;
use std::alloc::Global;

/// The TLVs that these bytes are, or where the first of them stands that isn't whole.
pub fn tlvs(alloc: Global, bytes: &[u8]) -> Result<Tlvs, TlvFault>
    ensures { ReadsTlvs bytes.now result }
{
    let mut list = Vec::new(alloc);
    let mut place = 0;
    while place < bytes.len() {
        let tlv = tlv_at(bytes, place)?;
        list.push(tlv)?;
        place = tlv.end;
    }
    Ok(Tlvs::from(list))
}

// The TLV that begins at this place.
pub(crate) fn tlv_at(bytes: &[u8], place: usize) -> Result<Tlv, TlvFault>
    requires { place < length bytes.now }
    ensures { ReadsTlv bytes.now place result }
{
    let left = bytes.len() - place;
    if left < 3 {
        return Err(TlvFault::ShortHead { place });
    }
    let count = usize::from(u16_at(bytes, place + 1));
    if left - 3 < count {
        return Err(TlvFault::ShortValue { place });
    }
    Ok(Tlv {
        kind: bytes[place],
        start: place + 3,
        end: place + 3 + count,
    })
}
