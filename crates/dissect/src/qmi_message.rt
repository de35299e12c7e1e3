ghost use Rattle.std.specs.Prelude.{◌≡◌, ◌≤◌, ◌++◌, length, map, option_map, encode_utf8_all, option_copied, [], IfOk, OnOk};
ghost use Rattle.std.specs.List.{AllByRecursion};
ghost use Rattle.message_tables.specs.View.{message_view, messages_in, tlv_view};
ghost use Rattle.message_tables.specs.WellMade.{AreSound, IsSoundTlv};
ghost use Rattle.qmicli_print.specs.declared.shown.Shown.{Shown};
ghost use Rattle.qmicli_print.specs.Words.{word_of};
ghost use Rattle.tlv_codec.specs.Tlv.{tlvs_of};
ghost use Rattle.dissect.specs.Qmi.{described, entry_lines, forms_for, framed_lines, head_kind, head_line, id_digits, is_indication, kind_word, lines_at, service_by, title, unframed_line};

use crate::parts::{push_decimal, push_hex_line};
use crate::qmi_tlvs::push_each;
use kit_bytes::{Octets, u16_bytes};
use message_tables::{Message, Tables, TlvShape};
use print_text::{push_hex, push_number};
use qmicli_print::service_word;
use qmux_frame::{Head, MessageKind, tlvs_in};
use std::alloc::{AllocError, Global};
use tlv_codec::{TlvFault, tlvs};

/// Adds the lines of a message that stands at a place and has this head.
pub(crate) fn push_message(
    alloc: Global,
    tables: &Tables,
    text: &mut Octets,
    place: u64,
    head: Head,
    message: &[u8],
) -> Result<(), AllocError>
    requires whole { 12 ≤ length message.now }
    requires sound { AreSound (messages_in tables.now) }
    ensures { OnOk result (text.new ≡ text.old ++ lines_at (messages_in tables.now) place head message.now) }
{
    if head.framed {
        push_framed(alloc, tables, text, place, head, tlvs_in(message))
    } else {
        push_unframed(text, place, message)
    }
}

fn push_unframed(text: &mut Octets, place: u64, message: &[u8]) -> Result<(), AllocError>
    ensures { OnOk result (text.new ≡ text.old ++ unframed_line place message.now) }
{
    push_decimal(text, place)?;
    text.extend_from_slice(b" unframed: ")?;
    push_hex(text, message)?;
    text.extend_from_slice(b"\n")?;
    Ok(())
}

fn push_framed(
    alloc: Global,
    tables: &Tables,
    text: &mut Octets,
    place: u64,
    head: Head,
    bytes: &[u8],
) -> Result<(), AllocError>
    requires { AreSound (messages_in tables.now) }
    ensures { OnOk result (text.new ≡ text.old ++ framed_lines (described (messages_in tables.now) head) place head bytes.now) }
{
    let kind = head.kind();
    let form = tables.message(head.service, head.message, is_indication(kind));
    push_head(text, place, head, form)?;
    push_tlvs(alloc, text, kind, forms_for(kind, form), bytes)?;
    Ok(())
}

fn is_indication(kind: MessageKind) -> bool
    ensures { result ≡ is_indication kind }
{
    matches!(kind, MessageKind::Indication)
}

// The TLVs that a message of a kind may have.
fn forms_for<'a>(kind: MessageKind, form: Option<&'a Message>) -> &'a [TlvShape]
    ensures { map tlv_view result.now ≡ forms_for kind (option_map (λ message. message_view message.now) form.entry) }
{
    let Some(message) = form else {
        return &[];
    };
    match kind {
        MessageKind::Request => message.input.as_slice(),
        MessageKind::Response | MessageKind::Indication => message.output.as_slice(),
    }
}

// Adds the line of the head.
fn push_head(
    text: &mut Octets,
    place: u64,
    head: Head,
    form: Option<&Message>,
) -> Result<(), AllocError>
    ensures { OnOk result (text.new ≡ text.old ++ head_line (option_map (λ message. message_view message.now) form.entry) place head) }
{
    push_decimal(text, place)?;
    text.extend_from_slice(b" ")?;
    push_service(text, head.service, service_word(head.service))?;
    text.extend_from_slice(b" 0x")?;
    push_id(text, head.message)?;
    push_number(text, kind_word(head.kind()), u64::from(head.cid))?;
    push_number(text, " number ", u64::from(head.number))?;
    push_title(text, form)?;
    text.extend_from_slice(b"\n")?;
    Ok(())
}

// Adds a service's word, or its number where it has none.
fn push_service(text: &mut Octets, service: u8, word: Option<&str>) -> Result<(), AllocError>
    ensures { OnOk result (text.new ≡ text.old ++ service_by service (option_copied word.entry)) }
{
    match word {
        Some(word) => text.extend_from_slice(word.as_bytes()),
        None => push_decimal(text, u64::from(service)),
    }
}

// Adds a message id in four digits.
fn push_id(text: &mut Octets, id: u16) -> Result<(), AllocError>
    ensures { OnOk result (text.new ≡ text.old ++ id_digits id) }
{
    let [low, high] = u16_bytes(id);
    push_hex(text, &[high, low])
}

fn kind_word(kind: MessageKind) -> &'static str
    ensures { result.now ≡ kind_word kind }
{
    match kind {
        MessageKind::Request => " request client ",
        MessageKind::Response => " response client ",
        MessageKind::Indication => " indication client ",
    }
}

// Adds the message's name, where the tables have one.
fn push_title(text: &mut Octets, form: Option<&Message>) -> Result<(), AllocError>
    ensures { OnOk result (text.new ≡ text.old ++ title (option_map (λ message. message_view message.now) form.entry)) }
{
    if let Some(message) = form {
        text.extend_from_slices(b": ", message.name.as_str().as_bytes())?;
    }
    Ok(())
}

/// Adds the lines of the TLVs of a message of a kind by their table, or their bytes where they aren't
/// whole.
pub fn push_tlvs(
    alloc: Global,
    text: &mut Octets,
    kind: MessageKind,
    forms: &[TlvShape],
    bytes: &[u8],
) -> Result<(), AllocError>
    requires { AllByRecursion IsSoundTlv (map tlv_view forms.now) }
    ensures { OnOk result (text.new ≡ text.old ++ entry_lines kind (map tlv_view forms.now) bytes.now (tlvs_of bytes.now)) }
{
    let list = match tlvs(alloc, bytes) {
        Ok(list) => list,
        Err(TlvFault::OutOfMemory) => return Err(AllocError),
        Err(TlvFault::ShortHead { .. } | TlvFault::ShortValue { .. }) => {
            push_hex_line(text, "tlvs", bytes)?;
            return Ok(());
        }
    };
    push_each(alloc, text, kind, forms, bytes, list.as_slice())?;
    Ok(())
}
