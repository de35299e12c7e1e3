ghost use Rattle.std.specs.Prelude.{◌≡◌, map, IfOk, OnOk, codes};
ghost use Rattle.serde_json.specs.Data.{put};
ghost use Rattle.serde_json.specs.View.{members_view, view};
ghost use Rattle.mbim_fields.specs.View.{fixed_view, value_view};
ghost use Rattle.fields_json.specs.Json.{address_json, bytes_json, fixed_json, number_json, pair_json, prefixed_json, string_json, uuid_json};

use json_values::{hexadecimal, text_json};
use mbim_fields::{FieldValue, Fixed};
use mbimcli_print::{Family, address_text, uuid_text};
use serde_json::{Map, Value, put};
use std::alloc::{AllocError, Global};

/// The JSON value of what has one size.
pub(crate) fn fixed_json(
    alloc: Global,
    fixed: Fixed,
    value: &FieldValue,
) -> Result<Value, AllocError>
    ensures { IfOk result (λ json. view json ≡ fixed_json (fixed_view fixed) (value_view value.now)) }
{
    match fixed {
        Fixed::U32 | Fixed::U64 => Ok(number_json(value)),
        Fixed::Uuid => uuid_json(alloc, value),
        Fixed::Ipv4 => address_json(alloc, Family::Ipv4, value),
        Fixed::Ipv6 => address_json(alloc, Family::Ipv6, value),
        Fixed::PrefixedIpv4 => prefixed_json(alloc, Family::Ipv4, value),
        Fixed::PrefixedIpv6 => prefixed_json(alloc, Family::Ipv6, value),
    }
}

#[tactic(auto, using(json_values::proofs::Views::json_views))]
fn number_json(value: &FieldValue) -> Value
    ensures { view result ≡ number_json (value_view value.now) }
{
    match value.as_number() {
        Some(number) => Value::from(number),
        None => Value::Null,
    }
}

#[tactic(auto, using(json_values::proofs::Views::json_views))]
fn uuid_json(alloc: Global, value: &FieldValue) -> Result<Value, AllocError>
    ensures { IfOk result (λ json. view json ≡ uuid_json (value_view value.now)) }
{
    let Some(uuid) = value.as_uuid() else {
        return Ok(Value::Null);
    };
    let text = uuid_text(alloc, uuid)?;
    text_json(alloc, text.as_slice())
}

#[tactic(auto, using(json_values::proofs::Views::json_views))]
fn address_json(alloc: Global, family: Family, value: &FieldValue) -> Result<Value, AllocError>
    ensures { IfOk result (λ json. view json ≡ address_json family (value_view value.now)) }
{
    let Some(bytes) = value.as_octets() else {
        return Ok(Value::Null);
    };
    let text = address_text(alloc, family, bytes.as_slice())?;
    text_json(alloc, text.as_slice())
}

// The length of a prefix, and an address.
#[tactic(auto, using(json_values::proofs::Views::json_views))]
fn prefixed_json(alloc: Global, family: Family, value: &FieldValue) -> Result<Value, AllocError>
    ensures { IfOk result (λ json. view json ≡ prefixed_json family (value_view value.now)) }
{
    match value.as_members() {
        Some(members) => pair_json(alloc, family, members.as_slice()),
        None => Ok(Value::Null),
    }
}

#[tactic(auto, using(json_values::proofs::Views::json_views))]
fn pair_json(alloc: Global, family: Family, values: &[FieldValue]) -> Result<Value, AllocError>
    ensures { IfOk result (λ json. view json ≡ pair_json family (map value_view values.now)) }
{
    let [prefix, address] = values else {
        return Ok(Value::Null);
    };
    let mut members = Map::new(alloc);
    put_pair(alloc, family, prefix, address, &mut members)?;
    Ok(Value::Object(members))
}

fn put_pair(
    alloc: Global,
    family: Family,
    prefix: &FieldValue,
    address: &FieldValue,
    members: &mut Map<String, Value>,
) -> Result<(), AllocError>
    ensures { OnOk result (members_view members.new.entries ≡ put (codes "Address") (address_json family (value_view address.now)) (put (codes "Prefix") (number_json (value_view prefix.now)) (members_view members.old.entries))) }
{
    put(members, alloc, "Prefix", number_json(prefix))?;
    put(
        members,
        alloc,
        "Address",
        address_json(alloc, family, address)?,
    )
}

/// The JSON value of a text.
#[tactic(auto, using(json_values::proofs::Views::json_views))]
pub(crate) fn string_json(alloc: Global, value: &FieldValue) -> Result<Value, AllocError>
    ensures { IfOk result (λ json. view json ≡ string_json (value_view value.now)) }
{
    match value.as_text() {
        Some(text) => Value::try_from_str(alloc, text.as_str()),
        None => Ok(Value::Null),
    }
}

/// The JSON value of bytes.
#[tactic(auto, using(json_values::proofs::Views::json_views))]
pub(crate) fn bytes_json(alloc: Global, value: &FieldValue) -> Result<Value, AllocError>
    ensures { IfOk result (λ json. view json ≡ bytes_json (value_view value.now)) }
{
    match value.as_octets() {
        Some(octets) => hexadecimal(alloc, octets.as_slice()),
        None => Ok(Value::Null),
    }
}
