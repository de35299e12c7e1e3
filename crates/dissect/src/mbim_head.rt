ghost use Rattle.std.specs.Prelude.{◌≡◌, ◌++◌, OnOk};
ghost use Rattle.mbim_frame.specs.Kinds.{kind_numbered};
ghost use Rattle.dissect.specs.Mbim.{head_line, kind_by, kind_digits, kind_name, tail_lines};

use crate::parts::push_decimal;
use kit_bytes::{Octets, u32_bytes};
use mbim_frame::{MHead, MessageKind};
use print_text::{push_hex, push_number};
use std::alloc::AllocError;

/// Adds the line of the head.
pub(crate) fn push_head(text: &mut Octets, place: u64, head: MHead) -> Result<(), AllocError>
    ensures { OnOk result (text.new ≡ text.old ++ head_line place head) }
{
    push_decimal(text, place)?;
    text.extend_from_slice(b" ")?;
    push_kind(text, head.kind, head.message_kind())?;
    push_number(text, " number ", u64::from(head.number))?;
    text.extend_from_slice(b"\n")?;
    Ok(())
}

// Adds a kind's name, or its number.
fn push_kind(text: &mut Octets, number: u32, kind: Option<MessageKind>) -> Result<(), AllocError>
    ensures { OnOk result (text.new ≡ text.old ++ kind_by number kind) }
{
    match kind {
        Some(kind) => text.extend_from_slice(kind_name(kind).as_bytes()),
        None => {
            text.extend_from_slice(b"0x")?;
            push_digits(text, number)
        }
    }
}

// Adds a number in eight digits.
fn push_digits(text: &mut Octets, number: u32) -> Result<(), AllocError>
    ensures { OnOk result (text.new ≡ text.old ++ kind_digits number) }
{
    let bytes = u32_bytes(number);
    push_hex(text, &[bytes[3], bytes[2], bytes[1], bytes[0]])
}

fn kind_name(kind: MessageKind) -> &'static str
    ensures { result.now ≡ kind_name kind }
{
    match kind {
        MessageKind::Open => "OPEN",
        MessageKind::Close => "CLOSE",
        MessageKind::Command => "COMMAND",
        MessageKind::HostError => "HOST_ERROR",
        MessageKind::OpenDone => "OPEN_DONE",
        MessageKind::CloseDone => "CLOSE_DONE",
        MessageKind::CommandDone => "COMMAND_DONE",
        MessageKind::FunctionError => "FUNCTION_ERROR",
        MessageKind::IndicateStatus => "INDICATE_STATUS",
    }
}

/// Adds the bytes behind the head, where there are some.
pub(crate) fn push_tail(text: &mut Octets, bytes: &[u8]) -> Result<(), AllocError>
    ensures { OnOk result (text.new ≡ text.old ++ tail_lines bytes.now) }
{
    if bytes.is_empty() {
        return Ok(());
    }
    text.extend_from_slice(b"  ")?;
    push_hex(text, bytes)?;
    text.extend_from_slice(b"\n")?;
    Ok(())
}
