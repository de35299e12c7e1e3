ghost use Rattle.std.specs.Prelude.{◌≡◌, ◌++◌, map, IfOk, OnOk};
ghost use Rattle.std.specs.List.{flat_map};
ghost use Rattle.qmi_services.specs.Answers.{field_view};
ghost use Rattle.qmicli_print.specs.Answer.{end_text, field_text, kept_line, kept_text};

use crate::print_field;
use kit_bytes::Octets;
use print_text::{or_ok, push_number};
use qmi_services::{Field, QmiAnswer, QmiEnd};
use std::alloc::{AllocError, Global};

/// What is printed of a session's end: the fields of a success, and what is kept.
pub fn qmi_text(alloc: Global, end: &QmiEnd) -> Result<Octets, AllocError>
    ensures { IfOk result (λ text. text ≡ end_text end.now) }
{
    let QmiAnswer::Success(fields) = &end.answer else {
        return Ok(Octets::new(alloc));
    };
    let mut text = or_ok(fields_text(alloc, fields.as_slice())?)?;
    push_kept(&mut text, end.kept)?;
    Ok(text)
}

// The texts of an answer's fields.
fn fields_text(alloc: Global, fields: &[Field]) -> Result<Octets, AllocError>
    ensures { IfOk result (λ text. text ≡ flat_map field_text (map field_view fields.now)) }
{
    let mut text = Octets::new(alloc);
    for field in fields {
        print_field(alloc, &mut text, 0, &field.name, &field.shape, &field.val)?;
    }
    Ok(text)
}

/// Adds the line on the service and the client id that are kept, where some are.
pub fn push_kept(text: &mut Octets, kept: Option<(u8, u8)>) -> Result<(), AllocError>
    ensures { OnOk result (text.new ≡ text.old ++ kept_text kept) }
{
    match kept {
        Some((service, id)) => push_kept_line(text, service, id),
        None => Ok(()),
    }
}

#[tactic(auto, unfolding(crate::specs::Answer::kept_line))]
fn push_kept_line(text: &mut Octets, service: u8, id: u8) -> Result<(), AllocError>
    ensures { OnOk result (text.new ≡ text.old ++ kept_line service id) }
{
    push_number(text, "client id kept: service ", u64::from(service))?;
    push_number(text, ", id ", u64::from(id))?;
    text.extend_from_slice(b"\n")?;
    Ok(())
}
