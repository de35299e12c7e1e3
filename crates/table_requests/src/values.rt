ghost use Rattle.std.specs.Prelude.{◌≡◌, List, ◌++◌, [], ◌∷◌, IfOk};
ghost use Rattle.serde_json.specs.View.{view};
ghost use Rattle.qmi_shapes.specs.WellMade.{IsWellMade};
ghost use Rattle.message_tables.specs.View.{tlv_view};
ghost use Rattle.json_values.specs.Answers.{Gives};
ghost use Rattle.table_requests.specs.Requests.{TlvValue, entry_of, spelled_by};
ghost use Rattle.table_requests.specs.Written.{IsWritten};

use json_values::{ValueFault, named_value};
use kit_bytes::Octets;
use message_tables::TlvShape;
use qmi_values::{EncodeFault, encode};
use qmux_frame::LONGEST_TLVS;
use serde_json::Value;
use std::alloc::{AllocError, Global};
use tlv_codec::write_tlv;

/// The bytes of the value that JSON gives a TLV.
pub(crate) fn value_bytes(alloc: Global, tlv: &TlvShape, json: &Value) -> Result<Octets, ValueFault>
    requires { IsWellMade (tlv_view tlv.now).form }
    ensures { Gives (λ octets. octets) (spelled_by (tlv_view tlv.now) (view json.now)) result }
{
    let val = named_value(alloc, &tlv.name, &tlv.shape, Some(json))?;
    match encode(alloc, &tlv.shape, &val) {
        Ok(octets) => Ok(octets),
        Err(EncodeFault::OutOfMemory) => Err(ValueFault::OutOfMemory),
        Err(EncodeFault::Misfit) => unreachable!(),
    }
}

/// TLVs and one more, or none once a message has no room for them.
pub(crate) fn with_tlv(
    written: Option<Octets>,
    kind: u8,
    value: &[u8],
) -> Result<Option<Octets>, AllocError>
    ensures { IfOk result (λ more. (done : List TlvValue) → (one : TlvValue) → entry_of one ≡ record { kind = kind; value = value.now }
        → IsWritten written done → IsWritten more (done ++ one ∷ [])) }
{
    let Some(mut out) = written else {
        return Ok(None);
    };
    if value.len() + 3 > LONGEST_TLVS.saturating_sub(out.as_slice().len()) {
        return Ok(None);
    }
    write_tlv(&mut out, kind, value)?;
    Ok(Some(out))
}
