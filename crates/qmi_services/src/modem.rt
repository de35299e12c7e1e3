//! The messages of the table as a modem reads their requests and writes their successes.

ghost use Rattle.std.specs.Prelude.{◌≡◌, ◌++◌, map, option_map, IfOk, IfSome, OnOk, find, is_some};
ghost use Rattle.tlv_codec.specs.Tlv.{tlv_text};
ghost use Rattle.qmi_shapes.specs.WellMade.{IsWellMade};
ghost use Rattle.qmi_values.specs.View.{val_view};
ghost use Rattle.tlv_values.specs.Spelling.{FitsTlv};
ghost use Rattle.qmi_services.specs.Answers.{AreWellMade};
ghost use Rattle.qmi_services.specs.Modem.{FitOutputs, input_at, input_of, is_at, output_tlv, output_tlvs, row_at};
ghost use Rattle.qmi_services.specs.View.{output_view, row_view, tlv_view};

use crate::messages::rows;
use crate::table::{Output, Row, TlvFormat};
use kit_bytes::Octets;
use qmi_values::Val;
use std::alloc::{AllocError, Global};
use std::marker::Model;
use tlv_values::{read_value_in, write_value};

/// A message of the table.
#[derive(Drop)]
pub struct Message {
    row: &'static Row,
}

impl Model for Message {
    ghost use Rattle.std.specs.Coded.{codes};
    ghost use Rattle.qmi_services.specs.contracts.table.Format as format;
    ghost use Rattle.qmi_services.specs.declared.table.Row.{Row};
    ghost use Rattle.qmi_services.specs.View.{row_view};
    ghost use Rattle.qmi_services.specs.Modem.{IsWellMadeRow};

    ghost Value = { Row };

    ghost view = { λ message. message.row.now };

    ghost coded = { Prim.hlevel (codes, format.the_row.coded) };

    ghost invariant = { λ message. IsWellMadeRow (row_view message.row.now) };
}

/// The message of a service that has this id, if the table has one.
pub fn message_at(service: u8, id: u16) -> Option<Message>
    ensures { option_map row_view result ≡ row_at service id }
{
    let row = row_in(&rows(), service, id)?;
    Some(Message { row })
}

/// The line of a table with this service and this id.
pub(crate) fn row_in(rows: &[&'static Row], service: u8, id: u16) -> Option<&'static Row>
    ensures { option_map (λ row. row_view row.now) result ≡ find (is_at service id) (map (λ row. row_view row.now) rows.now) }
{
    for row in rows {
        if row.service == service && row.id == id {
            return Some(*row);
        }
    }
    None
}

impl Message {
    pub fn service(&self) -> u8
        ensures { result ≡ (row_view self.now).service }
    {
        self.row.service
    }

    pub fn id(&self) -> u16
        ensures { result ≡ (row_view self.now).id }
    {
        self.row.id
    }

    /// Whether a request may have a TLV of this type.
    pub fn has_input(&self, kind: u8) -> bool
        ensures { result ≡ is_some (input_at kind (row_view self.now).input) }
    {
        input_at(self.row.input, kind).is_some()
    }

    /// The value of the first TLV of a type in a request's TLVs, where the message has an input of
    /// this type and the value reads.
    pub fn input(&self, alloc: Global, kind: u8, tlvs: &[u8]) -> Result<Option<Val>, AllocError>
        ensures { IfOk result (λ val. option_map val_view val ≡ input_of (row_view self.now) kind tlvs.now) }
    {
        let Some(TlvFormat(_, _, format)) = input_at(self.row.input, kind) else {
            return Ok(None);
        };
        let shape = format.shape(alloc)?;
        read_value_in(alloc, kind, &shape, tlvs)
    }

    /// Adds the TLVs of a success: those of the outputs whose values are given, in the order of the
    /// table.
    pub fn write_outputs(
        &self,
        alloc: Global,
        out: &mut Octets,
        values: &[Option<Val>],
    ) -> Result<(), AllocError>
        requires { FitOutputs (row_view self.now).output (map (option_map val_view) values.now) }
        ensures { OnOk result (out.new ≡ out.old ++ tlv_text (output_tlvs (row_view self.now).output (map (option_map val_view) values.now))) }
    {
        write_tlvs(alloc, out, self.row.output, values)
    }
}

// The input of a type.
fn input_at(inputs: &[TlvFormat], kind: u8) -> Option<&TlvFormat>
    ensures { option_map (λ input. tlv_view input.now) result ≡ input_at kind (map tlv_view inputs.now) }
{
    for input in inputs {
        if input.0 == kind {
            return Some(input);
        }
    }
    None
}

fn write_tlvs(
    alloc: Global,
    out: &mut Octets,
    outputs: &[Output],
    values: &[Option<Val>],
) -> Result<(), AllocError>
    requires well_made { AreWellMade (map output_view outputs.now) }
    requires fits { FitOutputs (map output_view outputs.now) (map (option_map val_view) values.now) }
    ensures { OnOk result (out.new ≡ out.old ++ tlv_text (output_tlvs (map output_view outputs.now) (map (option_map val_view) values.now))) }
{
    for (index, output) in outputs.iter().enumerate() {
        write_output(alloc, out, output, &values[index])?;
    }
    Ok(())
}

// Adds the TLV of an output, where its value is given.
fn write_output(
    alloc: Global,
    out: &mut Octets,
    output: &Output,
    value: &Option<Val>,
) -> Result<(), AllocError>
    requires well_made { IsWellMade (output_view output.now).tlv.form }
    requires fits { IfSome (option_map val_view value.now) (FitsTlv (output_view output.now).tlv.form) }
    ensures { OnOk result (out.new ≡ out.old ++ tlv_text (output_tlv (output_view output.now) (option_map val_view value.now))) }
{
    let Some(val) = value else {
        return Ok(());
    };
    let TlvFormat(kind, _, format) = output.tlv();
    let shape = format.shape(alloc)?;
    write_value(alloc, out, *kind, &shape, val)
}
