ghost use Rattle.std.specs.Prelude.{◌≡◌, IfOk};
ghost use Rattle.serde_json.specs.View.{view};
ghost use Rattle.qmi_shapes.specs.View.{shape_view};
ghost use Rattle.json_values.specs.Texts.{digits_in, hex_in, octets_in};
ghost use Rattle.json_values.specs.Given.{digits_for};

use hex::FromHexError;
use kit_bytes::Octets;
use message_tables::is_byte;
use qmi_shapes::Shape;
use serde_json::Value;
use std::alloc::{AllocError, Global};

/// The bytes of a text: those of a JSON text, or any bytes by their digits.
#[tactic(auto, unfolding(crate::specs::Texts::octets_in))]
pub(crate) fn octets_in(alloc: Global, json: &Value) -> Result<Option<Octets>, AllocError>
    ensures { IfOk result (λ octets. octets ≡ octets_in (view json.now)) }
{
    match json.as_str() {
        Some(text) => Ok(Some(Octets::from_slice(alloc, text.as_bytes())?)),
        None => hex_in(alloc, json),
    }
}

// The bytes that an object gives as hexadecimal digits in `hex`, its only member.
#[tactic(auto, unfolding(crate::specs::Texts::hex_in))]
fn hex_in(alloc: Global, json: &Value) -> Result<Option<Octets>, AllocError>
    ensures { IfOk result (λ octets. octets ≡ hex_in (view json.now)) }
{
    let Some(members) = json.as_object() else {
        return Ok(None);
    };
    let Some(digits) = json.get("hex") else {
        return Ok(None);
    };
    if members.len() == 1 {
        digits_in(alloc, digits)
    } else {
        Ok(None)
    }
}

/// The bytes that a list of bytes is by its digits.
pub(crate) fn digits_for(
    alloc: Global,
    element: &Shape,
    json: &Value,
) -> Result<Option<Octets>, AllocError>
    ensures { IfOk result (λ octets. octets ≡ digits_for (shape_view element.now) (view json.now)) }
{
    if is_byte(element) {
        digits_in(alloc, json)
    } else {
        Ok(None)
    }
}

// The bytes of an even number of hexadecimal digits in either case.
#[tactic(auto, unfolding(crate::specs::Texts::digits_in))]
fn digits_in(alloc: Global, json: &Value) -> Result<Option<Octets>, AllocError>
    ensures { IfOk result (λ octets. octets ≡ digits_in (view json.now)) }
{
    let Some(text) = json.as_str() else {
        return Ok(None);
    };
    match hex::decode(alloc, text) {
        Ok(bytes) => Ok(Some(Octets::from(bytes))),
        Err(FromHexError::OutOfMemory) => Err(AllocError),
        Err(_) => Ok(None),
    }
}
