ghost use Rattle.std.specs.Prelude.{◌≡◌, ◌++◌, map, IfOk, OnOk};
ghost use Rattle.std.specs.List.{flat_map};
ghost use Rattle.mbim_fields.specs.View.{value_view};
ghost use Rattle.sms_answers.specs.Mbim.{bodies_in, body_in, body_of, mbim_bodies};

use kit_bytes::Octets;
use mbim_fields::FieldValue;
use mbim_services::MbimAnswer;
use std::alloc::{AllocError, Global};

/// The bodies of the messages that the answer to an SMS Read holds.
#[tactic(auto, unfolding(crate::specs::Mbim::mbim_bodies))]
pub fn mbim_bodies(alloc: Global, answer: &MbimAnswer) -> Result<Vec<Octets>, AllocError>
    ensures { IfOk result (λ bodies. bodies.items ≡ mbim_bodies answer.now) }
{
    match answer {
        MbimAnswer::Success(_, val) => bodies_in(alloc, val.as_slice()),
        MbimAnswer::Failure(_) => Ok(Vec::new(alloc)),
    }
}

fn bodies_in(alloc: Global, values: &[FieldValue]) -> Result<Vec<Octets>, AllocError>
    ensures { IfOk result (λ bodies. bodies.items ≡ bodies_in (map value_view values.now)) }
{
    let [_, _, messages] = values else {
        return Ok(Vec::new(alloc));
    };
    match messages.as_list() {
        Some(messages) => bodies_of(alloc, messages.as_slice()),
        None => Ok(Vec::new(alloc)),
    }
}

fn bodies_of(alloc: Global, messages: &[FieldValue]) -> Result<Vec<Octets>, AllocError>
    ensures { IfOk result (λ bodies. bodies.items ≡ flat_map body_of (map value_view messages.now)) }
{
    let mut bodies = Vec::new(alloc);
    for message in messages {
        push_body(alloc, &mut bodies, message)?;
    }
    Ok(bodies)
}

// Adds the body of a message.
fn push_body(
    alloc: Global,
    bodies: &mut Vec<Octets>,
    message: &FieldValue,
) -> Result<(), AllocError>
    ensures { OnOk result (bodies.new.items ≡ bodies.old.items ++ body_of (value_view message.now)) }
{
    let Some(members) = message.as_members() else {
        return Ok(());
    };
    push_body_in(alloc, bodies, members.as_slice())
}

fn push_body_in(
    alloc: Global,
    bodies: &mut Vec<Octets>,
    members: &[FieldValue],
) -> Result<(), AllocError>
    ensures { OnOk result (bodies.new.items ≡ bodies.old.items ++ body_in (map value_view members.now)) }
{
    let [_, _, data] = members else {
        return Ok(());
    };
    let Some(octets) = data.as_octets() else {
        return Ok(());
    };
    bodies.push(Octets::from_slice(alloc, octets.as_slice())?)?;
    Ok(())
}
