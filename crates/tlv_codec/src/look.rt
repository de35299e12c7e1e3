ghost use Rattle.std.specs.Prelude.{◌≡◌, [], ◌∷◌, option_copied};
ghost use Rattle.tlv_codec.specs.Tlv.{tlv_value};
ghost use Rattle.tlv_codec.specs.Reading.{first_tlv};
ghost use Rattle.tlv_codec.specs.Looking.{FindsFirst};

use crate::read::tlv_at;
use crate::{Tlv, Tlvs};

/// What a look for the first TLV of a kind gives.
#[derive(Clone, Copy, PartialEq, Eq)]
pub enum First {
    /// The first of the kind.
    Found(Tlv),
    /// The bytes are a list of TLVs that has none of the kind.
    Missing,
    /// The bytes are no list of TLVs.
    Unread,
}

/// The first TLV of this kind in a list.
pub fn find(tlvs: &Tlvs, kind: u8) -> Option<Tlv>
    ensures { result ≡ first_tlv kind tlvs.now }
{
    for tlv in tlvs.as_slice() {
        if tlv.kind == kind {
            return Some(*tlv);
        }
    }
    None
}

/// The first TLV of this kind in the list that these bytes are. It takes no memory.
pub fn first_of(bytes: &[u8], kind: u8) -> First
    ensures { FindsFirst bytes.now kind result }
{
    let mut first = None;
    let mut place = 0;
    while place < bytes.len() {
        let Ok(tlv) = tlv_at(bytes, place) else {
            return First::Unread;
        };
        first = first.or(of_kind(tlv, kind));
        place = tlv.end;
    }
    match first {
        Some(tlv) => First::Found(tlv),
        None => First::Missing,
    }
}

/// The value of the first TLV of a type, where these bytes are TLVs and have one.
pub fn tlv_value(tlvs: &[u8], kind: u8) -> Option<&[u8]>
    ensures { option_copied result ≡ tlv_value kind tlvs.now }
{
    match first_of(tlvs, kind) {
        First::Found(tlv) => Some(&tlvs[tlv.start..tlv.end]),
        First::Missing | First::Unread => None,
    }
}

// The TLV, where it is of this kind.
fn of_kind(tlv: Tlv, kind: u8) -> Option<Tlv>
    ensures { result ≡ first_tlv kind (tlv ∷ []) }
{
    if tlv.kind == kind { Some(tlv) } else { None }
}
