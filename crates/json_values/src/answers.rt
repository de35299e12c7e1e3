ghost use Rattle.std.specs.Prelude.{◌≡◌, ◌≤◌, map, Some, IfOk, OnOk};
ghost use Rattle.serde_json.specs.Data.{depth, no_members};
ghost use Rattle.serde_json.specs.Read.{max_depth, read};
ghost use Rattle.serde_json.specs.View.{members_view};
ghost use Rattle.qmi_services.specs.Answers.{field_view};
ghost use Rattle.json_values.specs.Ends.{answer_members, end_json, failure_members, success_members, with_kept, with_values};
ghost use Rattle.json_values.specs.Lines.{json_line, json_text};

use crate::{Ending, Shows, object_line, put_ending, put_field};
use kit_bytes::Octets;
use qmi_services::{Field, QmiAnswer, QmiEnd};
use serde_json::{Map, Value, put};
use std::alloc::{AllocError, Global};

/// The line of a session's end: the fields of a success and what is kept, and then the result.
pub fn qmi_line<S: Shows>(alloc: Global, shows: &S, end: &QmiEnd) -> Result<Octets, AllocError>
    ensures text { IfOk result (λ line. line ≡ json_line (end_json (S.showing shows.now) end.now)) }
    ensures reads_back { IfOk result (λ _. depth (end_json (S.showing shows.now) end.now) ≤ max_depth → read (json_text (end_json (S.showing shows.now) end.now)) ≡ Some (end_json (S.showing shows.now) end.now)) }
{
    let members = answer_members(alloc, shows, &end.answer, end.kept)?;
    object_line(alloc, members)
}

// The members of an answer.
fn answer_members<S: Shows>(
    alloc: Global,
    shows: &S,
    answer: &QmiAnswer,
    kept: Option<(u8, u8)>,
) -> Result<Map<String, Value>, AllocError>
    ensures { IfOk result (λ members. members_view members.entries ≡ answer_members (S.showing shows.now) answer.now kept) }
{
    match answer {
        QmiAnswer::Success(fields) => success_members(alloc, shows, fields.as_slice(), kept),
        QmiAnswer::Failure(error) => failure_members(alloc, *error),
    }
}

fn success_members<S: Shows>(
    alloc: Global,
    shows: &S,
    fields: &[Field],
    kept: Option<(u8, u8)>,
) -> Result<Map<String, Value>, AllocError>
    ensures { IfOk result (λ members. members_view members.entries ≡ success_members (S.showing shows.now) (map field_view fields.now) kept) }
{
    let mut members = Map::new(alloc);
    put_values(alloc, shows, fields, &mut members)?;
    put_kept(alloc, kept, &mut members)?;
    put_ending(alloc, Ending::Success, &mut members)?;
    Ok(members)
}

fn failure_members(alloc: Global, error: u16) -> Result<Map<String, Value>, AllocError>
    ensures { IfOk result (λ members. members_view members.entries ≡ failure_members error) }
{
    let mut members = Map::new(alloc);
    put_ending(alloc, Ending::Denied(u32::from(error)), &mut members)?;
    Ok(members)
}

// Adds the fields of an answer.
#[tactic(auto, using(message_tables::proofs::Lists::taken))]
fn put_values<S: Shows>(
    alloc: Global,
    shows: &S,
    fields: &[Field],
    members: &mut Map<String, Value>,
) -> Result<(), AllocError>
    ensures { OnOk result (members_view members.new.entries ≡ with_values (S.showing shows.now) (map field_view fields.now) (members_view members.old.entries)) }
{
    for field in fields {
        let name = field.name.as_str();
        put_field(alloc, shows, name, &field.shape, &field.val, members)?;
    }
    Ok(())
}

/// Adds the service and the client id that are kept.
#[tactic(auto, using(crate::proofs::Views::json_views))]
pub fn put_kept(
    alloc: Global,
    kept: Option<(u8, u8)>,
    members: &mut Map<String, Value>,
) -> Result<(), AllocError>
    ensures { OnOk result (members_view members.new.entries ≡ with_kept kept (members_view members.old.entries)) }
{
    let Some((service, id)) = kept else {
        return Ok(());
    };
    let mut inner = Map::new(alloc);
    put(&mut inner, alloc, "service", Value::from(service))?;
    put(&mut inner, alloc, "id", Value::from(id))?;
    put(members, alloc, "client id kept", Value::Object(inner))?;
    Ok(())
}
