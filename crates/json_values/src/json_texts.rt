ghost use Rattle.std.specs.Prelude.{◌≡◌, ◌++◌, codes, map, IfOk, OnOk};
ghost use Rattle.std.specs.List.{flat_map};
ghost use Rattle.serde_json.specs.Data.{member, no_members, object, put as with_member};
ghost use Rattle.serde_json.specs.View.{members_view, view};
ghost use Rattle.qmi_values.specs.View.{val_view};
ghost use Rattle.json_values.specs.Json.{hexadecimal, low_byte, text_json};

use qmi_values::Val;
use serde_json::{Map, Value, put};
use std::alloc::{AllocError, Global};
use std::str;

/// Bytes that are UTF-8 as a text, others as the hexadecimal digits of an object.
#[tactic(auto, unfolding(crate::specs::Json::text_json))]
pub fn text_json(alloc: Global, octets: &[u8]) -> Result<Value, AllocError>
    ensures { IfOk result (λ json. view json ≡ text_json octets.now) }
{
    match str::from_utf8(octets) {
        Ok(text) => Value::try_from_str(alloc, text),
        Err(_) => hex_object(alloc, octets),
    }
}

#[tactic(auto, using(crate::proofs::Views::json_views))]
fn hex_object(alloc: Global, octets: &[u8]) -> Result<Value, AllocError>
    ensures { IfOk result (λ json. view json ≡ object (member (codes "hex") (hexadecimal octets.now) no_members)) }
{
    let mut members = Map::new(alloc);
    put(&mut members, alloc, "hex", hexadecimal(alloc, octets)?)?;
    Ok(Value::Object(members))
}

/// The two hexadecimal digits of each byte.
#[tactic(auto, using(crate::proofs::Views::json_views))]
pub fn hexadecimal(alloc: Global, bytes: &[u8]) -> Result<Value, AllocError>
    ensures { IfOk result (λ json. view json ≡ hexadecimal bytes.now) }
{
    Ok(Value::String(hex::encode_upper(alloc, bytes)?))
}

/// Adds bytes by their hexadecimal digits.
pub fn put_hexadecimal(
    alloc: Global,
    name: &str,
    bytes: &[u8],
    members: &mut Map<String, Value>,
) -> Result<(), AllocError>
    ensures { OnOk result (members_view members.new.entries ≡ with_member name.now (hexadecimal bytes.now) (members_view members.old.entries)) }
{
    put(members, alloc, name, hexadecimal(alloc, bytes)?)?;
    Ok(())
}

/// The digits of a list of bytes.
pub(crate) fn list_digits(alloc: Global, vals: &[Val]) -> Result<Value, AllocError>
    ensures { IfOk result (λ json. view json ≡ hexadecimal (flat_map low_byte (map val_view vals.now))) }
{
    let mut bytes = Vec::new(alloc);
    for val in vals {
        push_low_byte(&mut bytes, val)?;
    }
    hexadecimal(alloc, &bytes)
}

fn push_low_byte(bytes: &mut Vec<u8>, val: &Val) -> Result<(), AllocError>
    ensures { OnOk result (bytes.new.items ≡ bytes.old.items ++ low_byte (val_view val.now)) }
{
    if let Some(number) = val.as_u64() {
        bytes.push((number % 256) as u8)?;
    }
    Ok(())
}
