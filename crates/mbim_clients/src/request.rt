ghost use Rattle.std.specs.Prelude.{◌≡◌, ◌≤◌, length};
ghost use Rattle.mbim_clients.specs.Requests.{request_of};

use kit_bytes::u32_at;
use mbim_frame::error::{LENGTH_MISMATCH, UNKNOWN_KIND};
use mbim_frame::{MHead, MessageKind};

/// What a client's message asks for.
#[derive(Clone, Copy)]
pub enum Request {
    /// Nothing: it tells of an error.
    HostError,
    /// The modem is to be opened, and fragments are to have this length.
    Open(u32),
    Close,
    /// A fragment of a command, with both heads.
    Command,
    /// It can't be served, for which this is the code of the error.
    Wrong(u32),
}

impl Request {
    /// Reads a message, which has its head at least.
    pub fn read(message: &[u8]) -> Self
        requires { 12 ≤ length message.now }
        ensures { result ≡ request_of message.now }
    {
        match MHead::read(message).message_kind() {
            Some(MessageKind::HostError) => Request::HostError,
            Some(MessageKind::Open) if message.len() == 16 => Request::Open(u32_at(message, 12)),
            Some(MessageKind::Close) if message.len() == 12 => Request::Close,
            Some(MessageKind::Command) if message.len() >= 20 => Request::Command,
            Some(MessageKind::Open | MessageKind::Close | MessageKind::Command) => {
                Request::Wrong(LENGTH_MISMATCH)
            }
            _ => Request::Wrong(UNKNOWN_KIND),
        }
    }
}
