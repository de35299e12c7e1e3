//! The messages of a reply.

ghost use Rattle.std.specs.Prelude.{◌≡◌, ◌+◌, ◌≤◌, ◌++◌, ◌&&◌, ◌==◌, bytes_eq, length, IfOk};
ghost use Rattle.mbim_frame.specs.declared.kind.MessageKind.TheVariants as kind;
ghost use Rattle.mbim_frame.specs.Kinds.{kind_number};
ghost use Rattle.mbim_frame.specs.Bodies as bodies;
ghost use Rattle.mbim_fragments.specs.Splitting as splitting;
ghost use Rattle.mbim_services.specs.Table.{radio_state};
ghost use Rattle.sim_mbim.specs.Writing as spec;

use crate::commands::Reply;
use kit_bytes::{Octets, u32_bytes};
use mbim_fragments::split;
use mbim_frame::status::SUCCESS;
use mbim_frame::{CommandHead, DoneHead, MessageKind};
use mbim_services::Service;
use std::alloc::{AllocError, Global};

// How many bytes a buffer may have, so that a message can say the length of its body.
const LONGEST_BUFFER: usize = 4_294_960_000;

// The length of a buffer.
fn length_of(buffer: &[u8]) -> Result<u32, AllocError>
    ensures { IfOk result (λ count. (count ≡ length buffer.now) × (count ≤ LONGEST_BUFFER)) }
{
    if buffer.len() > LONGEST_BUFFER {
        return Err(AllocError);
    }
    Ok(buffer.len() as u32)
}

/// The answer to a command, in messages of at most so many bytes.
pub(crate) fn reply_done(
    alloc: Global,
    number: u32,
    longest: u32,
    head: &CommandHead,
    reply: &Reply,
) -> Result<Octets, AllocError>
    requires least { 64 ≤ longest }
    requires most { longest ≤ 4096 }
    ensures { IfOk result (λ text. text ≡ spec.done number longest head.now reply.now.status reply.now.buffer) }
{
    let buffer = reply.buffer.as_slice();
    Ok(done(alloc, number, longest, head, reply.status, buffer)?)
}

/// The same, with this status and this buffer.
pub fn done(
    alloc: Global,
    number: u32,
    longest: u32,
    head: &CommandHead,
    status: u32,
    buffer: &[u8],
) -> Result<Octets, AllocError>
    requires least { 64 ≤ longest }
    requires most { longest ≤ 4096 }
    ensures { IfOk result (λ text. text ≡ spec.done number longest head.now status buffer.now) }
{
    let done = DoneHead {
        uuid: head.uuid,
        cid: head.cid,
        status,
    };
    let front = done.bytes(length_of(buffer)?);
    let mut body = Octets::from_slice(alloc, &front)?;
    body.extend_from_slice(buffer)?;
    let kind = MessageKind::CommandDone.number();
    split(alloc, kind, number, body.as_slice(), longest)
}

/// An indication to whoever listens to this command, with this buffer.
pub fn indication(
    alloc: Global,
    longest: u32,
    head: &CommandHead,
    buffer: &[u8],
) -> Result<Octets, AllocError>
    requires least { 64 ≤ longest }
    requires most { longest ≤ 4096 }
    ensures { IfOk result (λ text. text ≡ spec.indication longest head.now buffer.now) }
{
    let count = length_of(buffer)?;
    let mut body = Octets::from_slice(alloc, head.uuid.as_bytes())?;
    body.extend_from_slice(&u32_bytes(head.cid))?;
    body.extend_from_slices(&u32_bytes(count), buffer)?;
    let kind = MessageKind::IndicateStatus.number();
    split(alloc, kind, 0, body.as_slice(), longest)
}
