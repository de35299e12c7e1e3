ghost use Rattle.std.specs.Prelude.{◌≡◌, ◌++◌, map, IfOk, OnOk};
ghost use Rattle.std.specs.List.{flat_map};
ghost use Rattle.message_tables.specs.View.{message_view, messages_in, tlv_view, tlvs_view};
ghost use Rattle.message_tables.specs.WellMade.{AreSound};
ghost use Rattle.qmi_services.specs.BuiltIn.{built_in, form_of, forms_of};
ghost use Rattle.qmi_services.specs.View.{output_view, row_view};
ghost use Rattle.qmi_services.specs.View.{tlv_view as format_tlv_view};

use crate::messages::rows;
use crate::table::{Output, Row, TlvFormat, text};
use message_tables::{Message, Tables, TlvShape, TlvShapes};
use std::alloc::{AllocError, Global};

/// The messages that requests send, each with its indication behind it where there is one.
pub fn built_in(alloc: Global) -> Result<Tables, AllocError>
    ensures exact { IfOk result (λ tables. messages_in tables ≡ built_in) }
    ensures sound { IfOk result (λ tables. AreSound (messages_in tables)) }
{
    let messages = all_messages(alloc, &rows())?;
    Tables::from_messages(alloc, messages)
}

fn all_messages(alloc: Global, rows: &[&Row]) -> Result<Vec<Message>, AllocError>
    ensures { IfOk result (λ messages. map message_view messages.items ≡ flat_map forms_of (map (λ row. row_view row.now) rows.now)) }
{
    let mut messages = Vec::new(alloc);
    for row in rows {
        push_messages(alloc, &mut messages, row)?;
    }
    Ok(messages)
}

// Adds a message, and its indication where there is one.
fn push_messages(alloc: Global, messages: &mut Vec<Message>, row: &Row) -> Result<(), AllocError>
    ensures { OnOk result (map message_view messages.new.items ≡ map message_view messages.old.items ++ forms_of (row_view row.now)) }
{
    messages.push(message(alloc, row, row.input, false)?)?;
    if row.indicated {
        messages.push(message(alloc, row, &[], true)?)?;
    }
    Ok(())
}

fn message(
    alloc: Global,
    row: &Row,
    input: &[TlvFormat],
    indication: bool,
) -> Result<Message, AllocError>
    ensures { IfOk result (λ message. message_view message ≡ form_of (row_view row.now) indication (map format_tlv_view input.now)) }
{
    Ok(Message {
        name: text(alloc, row.name)?,
        service: row.service,
        id: row.id,
        indication,
        input: inputs(alloc, input)?,
        output: outputs(alloc, row.output)?,
    })
}

fn inputs(alloc: Global, tlvs: &[TlvFormat]) -> Result<TlvShapes, AllocError>
    ensures { IfOk result (λ shapes. tlvs_view shapes ≡ map format_tlv_view tlvs.now) }
{
    let mut shapes = Vec::new(alloc);
    for tlv in tlvs {
        let shape = tlv_shape(alloc, tlv)?;
        shapes.push(shape)?;
    }
    Ok(TlvShapes::from(shapes))
}

fn outputs(alloc: Global, outputs: &[Output]) -> Result<TlvShapes, AllocError>
    ensures { IfOk result (λ shapes. tlvs_view shapes ≡ map (λ output. output.tlv) (map output_view outputs.now)) }
{
    let mut shapes = Vec::new(alloc);
    for output in outputs {
        let shape = tlv_shape(alloc, output.tlv())?;
        shapes.push(shape)?;
    }
    Ok(TlvShapes::from(shapes))
}

fn tlv_shape(alloc: Global, tlv: &TlvFormat) -> Result<TlvShape, AllocError>
    ensures { IfOk result (λ shape. tlv_view shape ≡ format_tlv_view tlv.now) }
{
    let TlvFormat(kind, name, format) = tlv;
    let name = text(alloc, name)?;
    let shape = format.shape(alloc)?;
    Ok(TlvShape {
        kind: *kind,
        name,
        shape,
    })
}
