ghost use Rattle.std.specs.Prelude.{◌≡◌, List, chars, map, MatchResult};
ghost use Rattle.std.specs.List.{AllByRecursion};
ghost use Rattle.serde_json.specs.View.{view};
ghost use Rattle.message_tables.specs.View.{tlv_view, tlvs_view};
ghost use Rattle.message_tables.specs.WellMade.{IsSoundTlv};
ghost use Rattle.json_values.specs.Answers.{Gives as ValueGives};
ghost use Rattle.table_requests.specs.Calls.{Gives, IsNoTlv};
ghost use Rattle.table_requests.specs.Requests.{TlvValue, request_of, tlvs_given};
ghost use Rattle.table_requests.specs.Written.{IsWritten};

use crate::RequestFault;
use crate::values::{value_bytes, with_tlv};
use json_values::{ValueFault, first_other};
use kit_bytes::{Octets, Text};
use message_tables::{TlvShape, TlvShapes};
use serde_json::Value;
use std::alloc::{AllocError, Global};

/// The TLVs that a JSON object gives to a message that takes these.
#[tactic(auto, unfolding(crate::specs::Requests::request_of))]
pub fn request_tlvs(alloc: Global, tlvs: &TlvShapes, json: &Value) -> Result<Octets, RequestFault>
    requires { AllByRecursion IsSoundTlv (tlvs_view tlvs.now) }
    ensures { Gives (λ octets. octets) (request_of (tlvs_view tlvs.now) (view json.now)) result }
{
    let Some(members) = json.as_object() else {
        return Err(RequestFault::Json);
    };
    let tlvs = tlvs.as_slice();
    if let Some(other) = first_other(tlvs, members) {
        return Err(no_tlv(alloc, other));
    }
    match tlvs_in(alloc, tlvs, json)? {
        Some(octets) => Ok(octets),
        None => Err(RequestFault::TooLong),
    }
}

// No TLV has this name.
fn no_tlv(alloc: Global, name: &str) -> RequestFault
    ensures { IsNoTlv name.now result }
{
    match Text::from_str(alloc, name) {
        Ok(name) => RequestFault::NoTlv(name),
        Err(AllocError) => RequestFault::OutOfMemory,
    }
}

// The TLVs whose names an object's members have, or none as they are too long.
fn tlvs_in(alloc: Global, tlvs: &[TlvShape], json: &Value) -> Result<Option<Octets>, ValueFault>
    requires { AllByRecursion IsSoundTlv (map tlv_view tlvs.now) }
    ensures { MatchResult result
        (λ written. (values : List TlvValue) × (tlvs_given (map tlv_view tlvs.now) (view json.now) ≡ Ok values) × IsWritten written values)
        (λ fault. ValueGives (λ (values : List TlvValue). values) (tlvs_given (map tlv_view tlvs.now) (view json.now)) (Err fault)) }
{
    let mut written = Some(Octets::new(alloc));
    for tlv in tlvs {
        if let Some(value) = json.get(tlv.name.as_str()) {
            let bytes = value_bytes(alloc, tlv, value)?;
            written = with_tlv(written, tlv.kind, bytes.as_slice())?;
        }
    }
    Ok(written)
}
