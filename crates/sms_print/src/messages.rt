ghost use Rattle.std.specs.Prelude.{◌≡◌, ◌++◌, IfOk, OnOk};
ghost use Rattle.std.specs.List.{flat_map};
ghost use Rattle.sms_pdu.specs.Reading.{pdu};
ghost use Rattle.sms_print.specs.Printed.{message_text, read_ones, read_or_none};

use crate::pdu::{push_pdu, push_short};
use kit_bytes::Octets;
use print_text::push_line;
use sms_pdu::{Pdu, PduFault, read_pdu};
use std::alloc::{AllocError, Global};

/// What is printed for a message of these bytes: what it is, or why it isn't read.
pub fn message_text(alloc: Global, bytes: &[u8]) -> Result<Octets, AllocError>
    ensures { IfOk result (λ text. text ≡ message_text bytes.now) }
{
    let mut text = Octets::new(alloc);
    push_message(alloc, &mut text, bytes)?;
    Ok(text)
}

/// What is printed for messages of these bytes, one behind the other.
pub fn messages_text(alloc: Global, bodies: &[Octets]) -> Result<Octets, AllocError>
    ensures { IfOk result (λ text. text ≡ flat_map message_text bodies.now) }
{
    let mut text = Octets::new(alloc);
    push_messages(alloc, &mut text, bodies)?;
    Ok(text)
}

/// Adds what is printed for messages of these bytes, and gives those that are read.
pub(crate) fn push_messages(
    alloc: Global,
    text: &mut Octets,
    bodies: &[Octets],
) -> Result<Vec<Pdu>, AllocError>
    ensures text { OnOk result (text.new ≡ text.old ++ flat_map message_text bodies.now) }
    ensures read { IfOk result (λ pdus. pdus.items ≡ read_ones bodies.now) }
{
    let mut pdus = Vec::new(alloc);
    for body in bodies {
        if let Some(pdu) = push_message(alloc, text, body.as_slice())? {
            pdus.push(pdu)?;
        }
    }
    Ok(pdus)
}

// Adds what is printed for a message of these bytes, and gives it if it is read.
fn push_message(alloc: Global, text: &mut Octets, bytes: &[u8]) -> Result<Option<Pdu>, AllocError>
    ensures text { OnOk result (text.new ≡ text.old ++ message_text bytes.now) }
    ensures read { IfOk result (λ read. read ≡ read_or_none (pdu bytes.now)) }
{
    match read_pdu(alloc, bytes) {
        Ok(pdu) => {
            push_pdu(alloc, text, &pdu)?;
            Ok(Some(pdu))
        }
        Err(PduFault::Kind) => {
            push_line(text, b"", "PDU", b"kind")?;
            Ok(None)
        }
        Err(PduFault::Short { place }) => {
            push_short(alloc, text, place)?;
            Ok(None)
        }
        Err(PduFault::OutOfMemory) => Err(AllocError),
    }
}
