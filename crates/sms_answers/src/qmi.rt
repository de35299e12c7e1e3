ghost use Rattle.std.specs.Prelude.{◌≡◌, ◌++◌, map, IfOk, OnOk};
ghost use Rattle.std.specs.List.{flat_map};
ghost use Rattle.qmi_services.specs.Answers.{field_view};
ghost use Rattle.qmi_values.specs.Value.{elements_in, list_of, members_in, number_in};
ghost use Rattle.qmi_values.specs.View.{val_view, vals_view};
ghost use Rattle.sms_answers.specs.Qmi.{body_in, field_body, is_pdu, members_body, octet_of, octets_body, qmi_bodies};

use kit_bytes::Octets;
use qmi_services::{Field, QmiAnswer, QmiEnd};
use qmi_values::{Val, Vals};
use std::alloc::{AllocError, Global};

// The format of a message that is a PDU of 3GPP.
const PDU: u64 = 6;

/// The body of the message that the answer to a Raw Read holds.
#[tactic(auto, unfolding(crate::specs::Qmi::qmi_bodies))]
pub fn qmi_bodies(alloc: Global, end: &QmiEnd) -> Result<Vec<Octets>, AllocError>
    ensures { IfOk result (λ bodies. bodies.items ≡ qmi_bodies end.now) }
{
    match &end.answer {
        QmiAnswer::Success(fields) => bodies_in(alloc, fields.as_slice()),
        QmiAnswer::Failure(_) => Ok(Vec::new(alloc)),
    }
}

fn bodies_in(alloc: Global, fields: &[Field]) -> Result<Vec<Octets>, AllocError>
    ensures { IfOk result (λ bodies. bodies.items ≡ flat_map field_body (map field_view fields.now)) }
{
    let mut bodies = Vec::new(alloc);
    for field in fields {
        push_field(alloc, &mut bodies, field)?;
    }
    Ok(bodies)
}

fn push_field(alloc: Global, bodies: &mut Vec<Octets>, field: &Field) -> Result<(), AllocError>
    ensures { OnOk result (bodies.new.items ≡ bodies.old.items ++ field_body (field_view field.now)) }
{
    push_body(alloc, bodies, &field.val)
}

// Adds the body of a message, if the value is one.
fn push_body(alloc: Global, bodies: &mut Vec<Octets>, val: &Val) -> Result<(), AllocError>
    ensures { OnOk result (bodies.new.items ≡ bodies.old.items ++ members_body (members_in (val_view val.now))) }
{
    match val.as_seq() {
        Some(members) => push_members(alloc, bodies, members),
        None => Ok(()),
    }
}

fn push_members(alloc: Global, bodies: &mut Vec<Octets>, members: &Vals) -> Result<(), AllocError>
    ensures { OnOk result (bodies.new.items ≡ bodies.old.items ++ body_in (list_of (vals_view members.now))) }
{
    push_body_in(alloc, bodies, members.as_slice())
}

fn push_body_in(alloc: Global, bodies: &mut Vec<Octets>, members: &[Val]) -> Result<(), AllocError>
    ensures { OnOk result (bodies.new.items ≡ bodies.old.items ++ body_in (map val_view members.now)) }
{
    let [_, format, octets] = members else {
        return Ok(());
    };
    if is_pdu(format) {
        push_octets(alloc, bodies, octets)
    } else {
        Ok(())
    }
}

fn is_pdu(format: &Val) -> bool
    ensures { result ≡ is_pdu (number_in (val_view format.now)) }
{
    match format.as_u64() {
        Some(format) => format == PDU,
        None => false,
    }
}

fn push_octets(alloc: Global, bodies: &mut Vec<Octets>, val: &Val) -> Result<(), AllocError>
    ensures { OnOk result (bodies.new.items ≡ bodies.old.items ++ octets_body (elements_in (val_view val.now))) }
{
    let Some(octets) = val.as_list() else {
        return Ok(());
    };
    bodies.push(octets_in(alloc, octets)?)?;
    Ok(())
}

fn octets_in(alloc: Global, octets: &Vals) -> Result<Octets, AllocError>
    ensures { IfOk result (λ all. all ≡ flat_map octet_of (list_of (vals_view octets.now))) }
{
    octets_of(alloc, octets.as_slice())
}

fn octets_of(alloc: Global, vals: &[Val]) -> Result<Octets, AllocError>
    ensures { IfOk result (λ octets. octets ≡ flat_map octet_of (map val_view vals.now)) }
{
    let mut octets = Octets::new(alloc);
    for val in vals {
        push_octet(&mut octets, val)?;
    }
    Ok(octets)
}

fn push_octet(octets: &mut Octets, val: &Val) -> Result<(), AllocError>
    ensures { OnOk result (octets.new ≡ octets.old ++ octet_of (val_view val.now)) }
{
    if let Some(number) = val.as_u64() {
        octets.extend_from_slice(&[(number % 256) as u8])?;
    }
    Ok(())
}
