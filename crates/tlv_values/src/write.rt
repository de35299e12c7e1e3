ghost use Rattle.std.specs.Prelude.{◌≡◌, ◌++◌, OnOk, OnErr};
ghost use Rattle.tlv_codec.specs.Tlv.{entry_text};
ghost use Rattle.qmi_shapes.specs.View.{shape_view};
ghost use Rattle.qmi_shapes.specs.WellMade.{IsWellMade};
ghost use Rattle.qmi_values.specs.View.{val_view};
ghost use Rattle.tlv_values.specs.Spelling.{FitsTlv, spelling};

use kit_bytes::Octets;
use qmi_shapes::Shape;
use qmi_values::{EncodeFault, Val, encode};
use std::alloc::{AllocError, Global};
use tlv_codec::write_tlv;

/// Adds the TLV of a type whose value is spelled in a shape, or nothing where memory runs out.
pub fn write_value(
    alloc: Global,
    out: &mut Octets,
    kind: u8,
    shape: &Shape,
    val: &Val,
) -> Result<(), AllocError>
    requires well_made { IsWellMade (shape_view shape.now) }
    requires fits { FitsTlv (shape_view shape.now) (val_view val.now) }
    ensures ok { OnOk result (out.new ≡ out.old ++ entry_text (record { kind = kind; value = spelling (shape_view shape.now) (val_view val.now) })) }
    ensures err { OnErr result (out.new ≡ out.old) }
{
    match encode(alloc, shape, val) {
        Ok(value) => write_tlv(out, kind, value.as_slice()),
        Err(EncodeFault::OutOfMemory) => Err(AllocError),
        Err(EncodeFault::Misfit) => unreachable!(),
    }
}
