ghost use Rattle.std.specs.Prelude.{◌≡◌, IfOk, option_map};
ghost use Rattle.qmi_shapes.specs.View.{shape_view};
ghost use Rattle.qmi_shapes.specs.WellMade.{IsWellMade};
ghost use Rattle.qmi_values.specs.View.{val_view};
ghost use Rattle.tlv_values.specs.Reading.{reading, value_in};

use qmi_shapes::Shape;
use qmi_values::{Val, ValFault, decode};
use std::alloc::{AllocError, Global};
use tlv_codec::tlv_value;

/// The value that these bytes spell in a shape, if they spell one.
pub fn read_value(alloc: Global, shape: &Shape, bytes: &[u8]) -> Result<Option<Val>, AllocError>
    requires { IsWellMade (shape_view shape.now) }
    ensures { IfOk result (λ val. option_map val_view val ≡ reading (shape_view shape.now) bytes.now) }
{
    match decode(alloc, shape, bytes) {
        Ok(val) => Ok(Some(val)),
        Err(ValFault::Short { .. }) => Ok(None),
        Err(ValFault::Over { .. }) => Ok(None),
        Err(ValFault::OutOfMemory) => Err(AllocError),
    }
}

/// The value of the first TLV of a type, where these bytes are TLVs and have one whose value reads.
pub fn read_value_in(
    alloc: Global,
    kind: u8,
    shape: &Shape,
    tlvs: &[u8],
) -> Result<Option<Val>, AllocError>
    requires { IsWellMade (shape_view shape.now) }
    ensures { IfOk result (λ val. option_map val_view val ≡ value_in kind (shape_view shape.now) tlvs.now) }
{
    match tlv_value(tlvs, kind) {
        Some(value) => read_value(alloc, shape, value),
        None => Ok(None),
    }
}
