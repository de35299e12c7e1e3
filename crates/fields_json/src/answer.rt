ghost use Rattle.std.specs.Prelude.{◌≡◌, ◌≤◌, Some, IfOk};
ghost use Rattle.serde_json.specs.Data.{depth};
ghost use Rattle.serde_json.specs.Read.{max_depth, read};
ghost use Rattle.serde_json.specs.View.{members_view};
ghost use Rattle.json_values.specs.Lines.{json_line, json_text};
ghost use Rattle.fields_json.specs.Answers.{answer_json, answer_members};

use crate::put_fields;
use json_values::{Ending, object_line, put_ending};
use kit_bytes::Octets;
use mbim_services::MbimAnswer;
use serde_json::{Map, Value};
use std::alloc::{AllocError, Global};

/// The line of an answer: the fields of a success, and then the result.
pub fn mbim_line(alloc: Global, answer: &MbimAnswer) -> Result<Octets, AllocError>
    ensures text { IfOk result (λ line. line ≡ json_line (answer_json answer.now)) }
    ensures reads_back { IfOk result (λ _. depth (answer_json answer.now) ≤ max_depth → read (json_text (answer_json answer.now)) ≡ Some (answer_json answer.now)) }
{
    let members = answer_members(alloc, answer)?;
    object_line(alloc, members)
}

// The members of an answer.
fn answer_members(alloc: Global, answer: &MbimAnswer) -> Result<Map<String, Value>, AllocError>
    ensures { IfOk result (λ members. members_view members.entries ≡ answer_members answer.now) }
{
    let mut members = Map::new(alloc);
    let ending = match answer {
        MbimAnswer::Success(shape, val) => {
            put_fields(alloc, shape, val.as_slice(), &mut members)?;
            Ending::Success
        }
        MbimAnswer::Failure(status) => Ending::Denied(*status),
    };
    put_ending(alloc, ending, &mut members)?;
    Ok(members)
}
