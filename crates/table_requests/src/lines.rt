ghost use Rattle.std.specs.Prelude.{◌≡◌, map, Some, IfOk, OnOk, codes, encode_utf8_all};
ghost use Rattle.std.specs.List.{AllByRecursion};
ghost use Rattle.message_tables.specs.View.{tlv_view};
ghost use Rattle.message_tables.specs.WellMade.{IsSoundTlv};
ghost use Rattle.serde_json.specs.Data.{put, string as quoted};
ghost use Rattle.serde_json.specs.Read.{read};
ghost use Rattle.serde_json.specs.View.{members_view};
ghost use Rattle.json_values.specs.Lines.{json_line, json_text};
ghost use Rattle.table_requests.specs.Messages.{answer_json, answer_members, ending_of, indication_json, indication_members};

use crate::put_tlvs;
use json_values::{Ending, Shows, object_line, put_ending, put_kept};
use kit_bytes::{Octets, Text};
use message_tables::TlvShape;
use serde_json::{Map, Value, put};
use std::alloc::{AllocError, Global};
use tlv_codec::Outcome;

/// The line of an answer by its table: its TLVs, the service and the client id that are kept, and its
/// result.
pub fn answer_line<S: Shows>(
    alloc: Global,
    shows: &S,
    forms: &[TlvShape],
    tlvs: &[u8],
    kept: Option<(u8, u8)>,
    outcome: Outcome,
) -> Result<Octets, AllocError>
    requires { AllByRecursion IsSoundTlv (map tlv_view forms.now) }
    ensures text { IfOk result (λ line. line ≡ json_line (answer_json (S.showing shows.now) (map tlv_view forms.now) tlvs.now kept outcome)) }
    ensures reads_back { IfOk result (λ _. read (json_text (answer_json (S.showing shows.now) (map tlv_view forms.now) tlvs.now kept outcome)) ≡ Some (answer_json (S.showing shows.now) (map tlv_view forms.now) tlvs.now kept outcome)) }
{
    let members = answer_members(alloc, shows, forms, tlvs, kept, outcome)?;
    object_line(alloc, members)
}

/// The line of an indication by its table: its TLVs, and its name.
pub fn indication_line<S: Shows>(
    alloc: Global,
    shows: &S,
    name: &Text,
    forms: &[TlvShape],
    tlvs: &[u8],
) -> Result<Octets, AllocError>
    requires { AllByRecursion IsSoundTlv (map tlv_view forms.now) }
    ensures text { IfOk result (λ line. line ≡ json_line (indication_json (S.showing shows.now) name.now (map tlv_view forms.now) tlvs.now)) }
    ensures reads_back { IfOk result (λ _. read (json_text (indication_json (S.showing shows.now) name.now (map tlv_view forms.now) tlvs.now)) ≡ Some (indication_json (S.showing shows.now) name.now (map tlv_view forms.now) tlvs.now)) }
{
    let members = indication_members(alloc, shows, name, forms, tlvs)?;
    object_line(alloc, members)
}

fn indication_members<S: Shows>(
    alloc: Global,
    shows: &S,
    name: &Text,
    forms: &[TlvShape],
    tlvs: &[u8],
) -> Result<Map<String, Value>, AllocError>
    requires { AllByRecursion IsSoundTlv (map tlv_view forms.now) }
    ensures { IfOk result (λ members. members_view members.entries ≡ indication_members (S.showing shows.now) name.now (map tlv_view forms.now) tlvs.now) }
{
    let mut members = Map::new(alloc);
    put_tlvs(alloc, shows, false, forms, tlvs, &mut members)?;
    put_name(alloc, name, &mut members)?;
    Ok(members)
}

// Adds the name of an indication.
fn put_name(alloc: Global, name: &Text, members: &mut Map<String, Value>) -> Result<(), AllocError>
    ensures { OnOk result (members_view members.new.entries ≡ put (codes "indication") (quoted (encode_utf8_all name.now)) (members_view members.old.entries)) }
{
    let name = Value::try_from_str(alloc, name.as_str())?;
    put(members, alloc, "indication", name)
}

fn answer_members<S: Shows>(
    alloc: Global,
    shows: &S,
    forms: &[TlvShape],
    tlvs: &[u8],
    kept: Option<(u8, u8)>,
    outcome: Outcome,
) -> Result<Map<String, Value>, AllocError>
    requires { AllByRecursion IsSoundTlv (map tlv_view forms.now) }
    ensures { IfOk result (λ members. members_view members.entries ≡ answer_members (S.showing shows.now) (map tlv_view forms.now) tlvs.now kept outcome) }
{
    let mut members = Map::new(alloc);
    put_tlvs(alloc, shows, true, forms, tlvs, &mut members)?;
    put_kept(alloc, kept, &mut members)?;
    put_ending(alloc, ending_of(outcome), &mut members)?;
    Ok(members)
}

fn ending_of(outcome: Outcome) -> Ending
    ensures { result ≡ ending_of outcome }
{
    if outcome.status == 0 {
        Ending::Success
    } else {
        Ending::Denied(u32::from(outcome.error))
    }
}
