ghost use Rattle.std.specs.Prelude.{◌≡◌, Some};
ghost use Rattle.tlv_codec.specs.Outcome.{is_success, outcome_in};

use crate::look::tlv_value;
use kit_bytes::u16_at;

/// The type of the Result TLV, which tells of success or failure.
const RESULT: u8 = 0x02;

/// What the Result TLV says: a status, which is 0 for success, and an error.
#[derive(Clone, Copy, PartialEq, Eq)]
pub struct Outcome {
    pub status: u16,
    pub error: u16,
}

impl Outcome {
    pub fn is_success(self) -> bool
        ensures { result ≡ is_success (Some self) }
    {
        self.status == 0
    }
}

/// What the first Result TLV says.
pub fn outcome_in(tlvs: &[u8]) -> Option<Outcome>
    ensures { result ≡ outcome_in tlvs.now }
{
    let value = tlv_value(tlvs, RESULT)?;
    if value.len() != 4 {
        return None;
    }
    Some(Outcome {
        status: u16_at(value, 0),
        error: u16_at(value, 2),
    })
}
