ghost use Rattle.std.specs.Prelude.{◌≡◌, ◌++◌, ◌≤◌, length, OnOk, OnErr};
ghost use Rattle.tlv_codec.specs.Tlv.{entry_text};

use kit_bytes::{Octets, u16_bytes};
use std::alloc::AllocError;

/// Adds the bytes of a TLV, or none where the memory doesn't do for all.
pub fn write_tlv(out: &mut Octets, kind: u8, value: &[u8]) -> Result<(), AllocError>
    requires { length value.now ≤ 65535 }
    ensures ok { OnOk result (out.new ≡ out.old ++ entry_text (record { kind = kind; value = value.now })) }
    ensures err { OnErr result (out.new ≡ out.old) }
{
    let [low, high] = u16_bytes(value.len() as u16);
    out.extend_from_slices(&[kind, low, high], value)
}
