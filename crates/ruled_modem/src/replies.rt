ghost use Rattle.std.specs.Prelude.{◌≡◌, ◌≤◌, ◌++◌, [], length, IfOk};
ghost use Rattle.mbim_frame.specs.Head.{number_of};
ghost use Rattle.qmux_frame.specs.Reply.{reply_to, result_tlv};
ghost use Rattle.qmux_frame.specs.Writing.{message_text};
ghost use Rattle.ruled_modem.specs.Replies as spec;

use crate::requests::{command_in, request_in};
use kit_bytes::{Kind, Octets, u32_bytes};
use mbim_fragments::split;
use mbim_frame::{CommandHead, DoneHead, MHead};
use modem_rules::{LONGEST_DATA, RequestKind, RuleData};
use qmux_frame::{Head, MessageKind, NewMessage, Sender, reply_to, result_tlv};
use std::alloc::{AllocError, Global};
use uuid::Uuid;

// The client id of what goes to every client.
const EVERY_CLIENT: u8 = 255;

/// The reply to a request with this error, where 0 is a success, and these bytes. A message of MBIM has
/// at most so many.
pub(crate) fn reply(
    alloc: Global,
    kind: Kind,
    longest: u32,
    message: &[u8],
    error: u32,
    bytes: &[u8],
) -> Result<Octets, AllocError>
    requires short { length bytes.now ≤ LONGEST_DATA }
    requires least { 64 ≤ longest }
    requires most { longest ≤ 4096 }
    ensures { IfOk result (λ octets. octets ≡ spec.reply kind longest message.now error bytes.now) }
{
    match kind {
        Kind::Qmi => match request_in(message) {
            Some(head) => response(alloc, &head, (error % 0x1_0000) as u16, bytes),
            None => Ok(Octets::new(alloc)),
        },
        Kind::Mbim => match command_in(message) {
            Some(head) => {
                let number = MHead::read(message).number;
                done(alloc, longest, number, &head, error, bytes)
            }
            None => Ok(Octets::new(alloc)),
        },
    }
}

// The response that has these TLVs behind the Result TLV.
fn response(alloc: Global, head: &Head, error: u16, tlvs: &[u8]) -> Result<Octets, AllocError>
    requires { length tlvs.now ≤ LONGEST_DATA }
    ensures { IfOk result (λ octets. octets ≡ message_text (reply_to head.now) (result_tlv error ++ tlvs.now)) }
{
    let mut all = Octets::from_slice(alloc, &result_tlv(error))?;
    all.extend_from_slice(tlvs)?;
    reply_to(head).write(alloc, all.as_slice())
}

// The reply to a command with this status and buffer.
fn done(
    alloc: Global,
    longest: u32,
    number: u32,
    head: &CommandHead,
    status: u32,
    buffer: &[u8],
) -> Result<Octets, AllocError>
    requires short { length buffer.now ≤ LONGEST_DATA }
    requires least { 64 ≤ longest }
    requires most { longest ≤ 4096 }
    ensures { IfOk result (λ octets. octets ≡ spec.done longest number head.now status buffer.now) }
{
    let done = DoneHead {
        uuid: head.uuid,
        cid: head.cid,
        status,
    };
    let mut body = Octets::from_slice(alloc, &done.bytes(buffer.len() as u32))?;
    body.extend_from_slice(buffer)?;
    let kind = mbim_frame::MessageKind::CommandDone.number();
    split(alloc, kind, number, body.as_slice(), longest)
}

/// The indication of this kind with this data, which goes to every client. A message of MBIM has at most
/// so many bytes.
pub(crate) fn indication(
    alloc: Global,
    longest: u32,
    kind: &RequestKind,
    data: &RuleData,
) -> Result<Octets, AllocError>
    requires least { 64 ≤ longest }
    requires most { longest ≤ 4096 }
    ensures { IfOk result (λ octets. octets ≡ spec.indication longest kind.now «data».now) }
{
    match kind {
        RequestKind::Message { service, message } => message_told(alloc, *service, *message, data),
        RequestKind::Command { service, command } => {
            command_told(alloc, longest, *service, *command, data)
        }
    }
}

fn message_told(
    alloc: Global,
    service: u8,
    message: u16,
    data: &RuleData,
) -> Result<Octets, AllocError>
    ensures { IfOk result (λ octets. octets ≡ spec.message_told service message «data».now) }
{
    let told = NewMessage {
        sender: Sender::Modem,
        service,
        cid: EVERY_CLIENT,
        flags: MessageKind::Indication.flags(service),
        number: 0,
        message,
    };
    told.write(alloc, data.as_slice())
}

fn command_told(
    alloc: Global,
    longest: u32,
    service: Uuid,
    command: u32,
    data: &RuleData,
) -> Result<Octets, AllocError>
    requires least { 64 ≤ longest }
    requires most { longest ≤ 4096 }
    ensures { IfOk result (λ octets. octets ≡ spec.command_told longest service command «data».now) }
{
    let buffer = data.as_slice();
    let mut body = Octets::from_slice(alloc, service.as_bytes())?;
    body.extend_from_slice(&u32_bytes(command))?;
    body.extend_from_slices(&u32_bytes(buffer.len() as u32), buffer)?;
    let kind = mbim_frame::MessageKind::IndicateStatus.number();
    split(alloc, kind, 0, body.as_slice(), longest)
}
