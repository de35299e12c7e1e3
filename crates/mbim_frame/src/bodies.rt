ghost use Rattle.std.specs.Prelude.{◌≡◌, ◌≤◌, length};
ghost use Rattle.mbim_frame.specs.Bodies.{body_head, buffer_of, command_head_text, done_head_text, indicated_buffer_of, read_command, read_done, read_indication};

use crate::number::three_u32_bytes;
use kit_bytes::{u32_at, uuid_at};
use uuid::Uuid;

/// The fields at the head of a command's body.
#[derive(Clone, Copy, PartialEq, Eq)]
pub struct CommandHead {
    /// The UUID of the service.
    pub uuid: Uuid,
    /// Which of the service's commands it is.
    pub cid: u32,
    /// Whether it is a set; else it is a query.
    pub set: bool,
}

impl CommandHead {
    /// The head of a command's body, or None where it isn't whole, the type is neither query nor
    /// set, or the buffer has another length than the head says.
    pub fn read(body: &[u8]) -> Option<CommandHead>
        ensures { result ≡ read_command body.now }
    {
        if body.len() < 28 {
            return None;
        }
        let kind = u32_at(body, 20);
        if kind > 1 || 28 + u32_at(body, 24) as usize != body.len() {
            return None;
        }
        Some(CommandHead {
            uuid: uuid_at(body, 0),
            cid: u32_at(body, 16),
            set: kind == 1,
        })
    }

    /// The bytes before a buffer of this length.
    pub fn bytes(&self, buffer_length: u32) -> [u8; 28]
        ensures { result ≡ command_head_text self.now buffer_length }
    {
        body_head(self.uuid, self.cid, u32::from(self.set), buffer_length)
    }
}

/// The fields at the head of the body of an answer to a command.
#[derive(Clone, Copy, PartialEq, Eq)]
pub struct DoneHead {
    /// The UUID of the service.
    pub uuid: Uuid,
    /// Which of the service's commands was answered.
    pub cid: u32,
    pub status: u32,
}

impl DoneHead {
    /// The head of an answer's body, or None where it isn't whole or the buffer has another length
    /// than the head says.
    pub fn read(body: &[u8]) -> Option<DoneHead>
        ensures { result ≡ read_done body.now }
    {
        if body.len() < 28 || 28 + u32_at(body, 24) as usize != body.len() {
            return None;
        }
        Some(DoneHead {
            uuid: uuid_at(body, 0),
            cid: u32_at(body, 16),
            status: u32_at(body, 20),
        })
    }

    /// The bytes before a buffer of this length.
    pub fn bytes(&self, buffer_length: u32) -> [u8; 28]
        ensures { result ≡ done_head_text self.now buffer_length }
    {
        body_head(self.uuid, self.cid, self.status, buffer_length)
    }
}

/// The fields at the head of an indication's body.
#[derive(Clone, Copy, PartialEq, Eq)]
pub struct IndicationHead {
    /// The UUID of the service.
    pub uuid: Uuid,
    /// Which of the service's indications it is.
    pub cid: u32,
}

impl IndicationHead {
    /// The head of an indication's body, or None where it isn't whole or the buffer has another
    /// length than the head says.
    pub fn read(body: &[u8]) -> Option<IndicationHead>
        ensures { result ≡ read_indication body.now }
    {
        if body.len() < 24 || 24 + u32_at(body, 20) as usize != body.len() {
            return None;
        }
        Some(IndicationHead {
            uuid: uuid_at(body, 0),
            cid: u32_at(body, 16),
        })
    }
}

/// The buffer in the body of a command or of its answer.
pub fn buffer_in(body: &[u8]) -> &[u8]
    requires { 28 ≤ length body.now }
    ensures { result.now ≡ buffer_of body.now }
{
    &body[28..]
}

/// The buffer in the body of an indication.
pub fn indicated_buffer_in(body: &[u8]) -> &[u8]
    requires { 24 ≤ length body.now }
    ensures { result.now ≡ indicated_buffer_of body.now }
{
    &body[24..]
}

// A UUID, a CID, the number behind them, and the length of the buffer.
fn body_head(uuid: Uuid, cid: u32, field: u32, buffer_length: u32) -> [u8; 28]
    ensures { result ≡ body_head uuid cid field buffer_length }
{
    let mut bytes = [0; 28];
    bytes[..16].copy_from_slice(uuid.as_bytes());
    bytes[16..].copy_from_slice(&three_u32_bytes(cid, field, buffer_length));
    bytes
}
