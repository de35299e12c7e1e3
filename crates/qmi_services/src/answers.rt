ghost use Rattle.std.specs.Prelude.{◌≡◌, map, IfOk, IfErr, OnOk};
ghost use Rattle.qmi_shapes.specs.WellMade.{IsWellMade};
ghost use Rattle.qmi_services.specs.declared.answers.AnswerFault.TheVariants.{OutOfMemory};
ghost use Rattle.tlv_codec.specs.Tlv.{tlv_value};
ghost use Rattle.qmi_services.specs.Answers.{AddsField, AllSay, Answers, AnyUnread, AreWellMade, IfUnread, IsUnread, field_view, fields_view};
ghost use Rattle.qmi_services.specs.Requests.{row_of};
ghost use Rattle.qmi_services.specs.View.{output_view};

use crate::requests::row_of;
use crate::table::{Output, TlvFormat, text};
use kit_bytes::Text;
use qmi_requests::QmiRequest;
use qmi_shapes::Shape;
use qmi_values::Val;
use std::alloc::{AllocError, AllocFailed, Global};
use thiserror::Error;
use tlv_codec::{outcome_in, tlv_value};
use tlv_values::read_value;

/// A value that an answer gives.
#[derive(Drop)]
pub struct Field {
    pub name: Text,
    pub shape: Shape,
    pub val: Val,
}

/// A list of fields.
#[derive(Drop)]
pub struct Fields {
    fields: Vec<Field>,
}

impl Fields {
    ghost use Rattle.std.specs.Prelude.{◌≡◌, map};
    ghost use Rattle.qmi_services.specs.Answers.{field_view, fields_view};

    pub fn as_slice(&self) -> &[Field]
        ensures { map field_view result.now ≡ fields_view self.now }
    {
        &self.fields
    }

    /// Gives the vector back that holds the fields.
    pub fn into_vec(self) -> Vec<Field>
        ensures { map field_view result.items ≡ fields_view self }
    {
        self.fields
    }
}

impl From<Vec<Field>> for Fields {
    ghost use Rattle.std.specs.Prelude.{◌≡◌, map};
    ghost use Rattle.qmi_services.specs.Answers.{field_view, fields_view};

    ghost from_gives = { λ fields list. fields_view list ≡ map field_view fields.items };

    fn from(fields: Vec<Field>) -> Self {
        Fields { fields }
    }
}

/// What an answer says.
#[derive(Drop)]
pub enum QmiAnswer {
    /// The values of the table's TLVs that are there, in the order of the table.
    Success(Fields),
    /// The modem's error.
    Failure(u16),
}

/// How a session with a QMI modem ended.
#[derive(Drop)]
pub struct QmiEnd {
    /// The command's answer, or the failure before it.
    pub answer: QmiAnswer,
    /// The service and the client id that are kept.
    pub kept: Option<(u8, u8)>,
}

/// Why the TLVs of an answer aren't read.
#[derive(Clone, Copy, Debug, PartialEq, Eq, Error)]
pub enum AnswerFault {
    /// They aren't whole, have no Result TLV of four bytes, or tell of success and lack a TLV that a
    /// success has, or have one whose value doesn't read.
    #[error("the answer doesn't read")]
    Unread,
    #[error("out of memory")]
    OutOfMemory,
}

impl From<AllocError> for AnswerFault {
    ghost from_gives = { λ _ fault. fault ≡ OutOfMemory };

    fn from(_: AllocError) -> Self {
        AnswerFault::OutOfMemory
    }
}

impl<T: Drop> From<AllocFailed<T>> for AnswerFault {
    ghost from_gives = { λ _ fault. fault ≡ OutOfMemory };

    fn from(_: AllocFailed<T>) -> Self {
        AnswerFault::OutOfMemory
    }
}

/// What the TLVs of an answer to a request say. Of several TLVs of a type the first counts.
pub fn answer(alloc: Global, body: &QmiRequest, tlvs: &[u8]) -> Result<QmiAnswer, AnswerFault>
    ensures { Answers (row_of body.now).output tlvs.now result }
{
    let Some(outcome) = outcome_in(tlvs) else {
        return Err(AnswerFault::Unread);
    };
    if outcome.status != 0 {
        return Ok(QmiAnswer::Failure(outcome.error));
    }
    let row = row_of(body);
    let fields = read_fields(alloc, row.output, tlvs)?;
    Ok(QmiAnswer::Success(fields))
}

// The fields of the TLVs of the table that are there.
fn read_fields(alloc: Global, outputs: &[Output], tlvs: &[u8]) -> Result<Fields, AnswerFault>
    requires { AreWellMade (map output_view outputs.now) }
    ensures ok { IfOk result (λ fields. AllSay (map output_view outputs.now) tlvs.now (fields_view fields)) }
    ensures err { IfErr result (IfUnread (AnyUnread (map output_view outputs.now) tlvs.now)) }
{
    let mut fields = Vec::new(alloc);
    for output in outputs {
        read_field(alloc, output, tlvs, &mut fields)?;
    }
    Ok(Fields::from(fields))
}

// Adds the field of a TLV of the table, where it is there.
fn read_field(
    alloc: Global,
    output: &Output,
    tlvs: &[u8],
    fields: &mut Vec<Field>,
) -> Result<(), AnswerFault>
    requires { IsWellMade (output_view output.now).tlv.form }
    ensures ok { OnOk result (AddsField (output_view output.now) tlvs.now (map field_view fields.old.items) (map field_view fields.new.items)) }
    ensures err { IfErr result (IfUnread (IsUnread (output_view output.now) (tlv_value (output_view output.now).tlv.kind tlvs.now))) }
{
    let TlvFormat(kind, name, format) = output.tlv();
    let Some(value) = tlv_value(tlvs, *kind) else {
        return if output.is_needed() {
            Err(AnswerFault::Unread)
        } else {
            Ok(())
        };
    };
    let shape = format.shape(alloc)?;
    let Some(val) = read_value(alloc, &shape, value)? else {
        return Err(AnswerFault::Unread);
    };
    let name = text(alloc, name)?;
    fields.push(Field { name, shape, val })?;
    Ok(())
}
