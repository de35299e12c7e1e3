ghost use Rattle.std.specs.Prelude.{◌≡◌, ◌++◌, option_map, OnOk};
ghost use Rattle.mbim_fields.specs.Reading.{read};
ghost use Rattle.mbim_fields.specs.View.{shape_view};
ghost use Rattle.mbim_frame.specs.Bodies.{read_command, read_done, read_indication};
ghost use Rattle.dissect.specs.Mbim.{body_line, body_lines, buffer_lines, bytes_lines, command_lines, done_lines, indication_lines, layout_done, read_lines, took_lines};

use crate::parts::push_hex_line;
use kit_bytes::Octets;
use mbim_fields::{FieldFault, FieldShape, decode_fields};
use mbim_fragments::Took;
use mbim_frame::{
    CommandHead, DoneHead, IndicationHead, MessageKind, buffer_in, indicated_buffer_in,
};
use mbim_services::{Way, layout};
use mbimcli_print::{fields_text, uuid_text};
use print_text::push_number;
use std::alloc::{AllocError, Global};
use uuid::Uuid;

/// Adds what a fragment of a kind comes to, which may have completed this body.
pub(crate) fn push_joined(
    alloc: Global,
    text: &mut Octets,
    kind: MessageKind,
    took: Took,
    body: &[u8],
) -> Result<(), AllocError>
    ensures { OnOk result (text.new ≡ text.old ++ took_lines kind took body.now) }
{
    match took {
        Took::Message => push_body(alloc, text, kind, body),
        Took::More => Ok(()),
        Took::OutOfSequence | Took::TooLong => text.extend_from_slice(b"  refused\n"),
    }
}

fn push_body(
    alloc: Global,
    text: &mut Octets,
    kind: MessageKind,
    body: &[u8],
) -> Result<(), AllocError>
    ensures { OnOk result (text.new ≡ text.old ++ body_lines kind body.now) }
{
    match kind {
        MessageKind::Command => push_command(alloc, text, body),
        MessageKind::CommandDone => push_done(alloc, text, body),
        MessageKind::IndicateStatus => push_indication(alloc, text, body),
        _ => Ok(()),
    }
}

fn push_command(alloc: Global, text: &mut Octets, body: &[u8]) -> Result<(), AllocError>
    ensures { OnOk result (text.new ≡ text.old ++ command_lines body.now (read_command body.now)) }
{
    let Some(head) = CommandHead::read(body) else {
        return Ok(());
    };
    let (word, way) = if head.set {
        (" set", Way::Set)
    } else {
        (" query", Way::Query)
    };
    push_body_line(alloc, text, head.uuid, head.cid, word.as_bytes())?;
    push_buffer(
        alloc,
        text,
        layout(head.uuid, head.cid, way),
        buffer_in(body),
    )?;
    Ok(())
}

fn push_done(alloc: Global, text: &mut Octets, body: &[u8]) -> Result<(), AllocError>
    ensures { OnOk result (text.new ≡ text.old ++ done_lines body.now (read_done body.now)) }
{
    let Some(head) = DoneHead::read(body) else {
        return Ok(());
    };
    let mut status = Octets::new(alloc);
    push_number(&mut status, " status ", u64::from(head.status))?;
    push_body_line(alloc, text, head.uuid, head.cid, status.as_slice())?;
    push_buffer(alloc, text, layout_done(head), buffer_in(body))?;
    Ok(())
}

// The buffer of a failure has no layout.
fn layout_done(head: DoneHead) -> Option<FieldShape>
    ensures { option_map shape_view result ≡ layout_done head }
{
    if head.status == 0 {
        layout(head.uuid, head.cid, Way::Done)
    } else {
        None
    }
}

fn push_indication(alloc: Global, text: &mut Octets, body: &[u8]) -> Result<(), AllocError>
    ensures { OnOk result (text.new ≡ text.old ++ indication_lines body.now (read_indication body.now)) }
{
    let Some(head) = IndicationHead::read(body) else {
        return Ok(());
    };
    push_body_line(alloc, text, head.uuid, head.cid, b"")?;
    push_buffer(
        alloc,
        text,
        layout(head.uuid, head.cid, Way::Done),
        indicated_buffer_in(body),
    )?;
    Ok(())
}

// Adds the line of a body's head.
fn push_body_line(
    alloc: Global,
    text: &mut Octets,
    uuid: Uuid,
    cid: u32,
    more: &[u8],
) -> Result<(), AllocError>
    ensures { OnOk result (text.new ≡ text.old ++ body_line uuid cid more.now) }
{
    let name = uuid_text(alloc, uuid)?;
    text.extend_from_slices(b"  ", name.as_slice())?;
    push_number(text, " cid ", u64::from(cid))?;
    text.extend_from_slices(more, b"\n")?;
    Ok(())
}

// Adds the fields of a buffer of this layout, or its bytes where it has none.
fn push_buffer(
    alloc: Global,
    text: &mut Octets,
    shape: Option<FieldShape>,
    buffer: &[u8],
) -> Result<(), AllocError>
    ensures { OnOk result (text.new ≡ text.old ++ buffer_lines (option_map shape_view shape) buffer.now) }
{
    match shape {
        Some(shape) => push_fields(alloc, text, &shape, buffer),
        None => push_bytes(text, buffer),
    }
}

// Adds the fields of a buffer that reads, else its bytes.
fn push_fields(
    alloc: Global,
    text: &mut Octets,
    shape: &FieldShape,
    buffer: &[u8],
) -> Result<(), AllocError>
    ensures { OnOk result (text.new ≡ text.old ++ read_lines (shape_view shape.now) buffer.now (read (shape_view shape.now) buffer.now)) }
{
    let val = match decode_fields(alloc, shape, buffer) {
        Ok(val) => val,
        Err(FieldFault::TooLarge | FieldFault::OutOfMemory) => return Err(AllocError),
        Err(FieldFault::OutOfRange { .. } | FieldFault::Lone { .. }) => {
            push_bytes(text, buffer)?;
            return Ok(());
        }
    };
    let lines = fields_text(alloc, 1, shape, &val)?;
    text.extend_from_slice(lines.as_slice())?;
    Ok(())
}

// Adds the bytes of a buffer, where there are some.
fn push_bytes(text: &mut Octets, buffer: &[u8]) -> Result<(), AllocError>
    ensures { OnOk result (text.new ≡ text.old ++ bytes_lines buffer.now) }
{
    if buffer.is_empty() {
        return Ok(());
    }
    push_hex_line(text, "buffer", buffer)
}
