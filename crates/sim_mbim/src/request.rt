ghost use Rattle.std.specs.Prelude.{◌≡◌, ◌≤◌, length};
ghost use Rattle.sim_mbim.specs.Answers.{request_of};

use kit_bytes::u32_at;
use mbim_frame::{MHead, MessageKind};

/// What a message asks for.
#[derive(Clone, Copy)]
pub enum Request {
    /// The modem is to be opened, and its messages are to have at most so many bytes.
    Open(u32),
    Close,
    /// A fragment of a command, with both heads.
    Command,
    /// It hasn't the length of its kind.
    Wrong,
    /// Nothing: it is of a kind that a host has no answer to.
    Other,
}

impl Request {
    /// Reads a message, which has its head at least.
    pub fn read(message: &[u8]) -> Self
        requires { 12 ≤ length message.now }
        ensures { result ≡ request_of message.now }
    {
        match MHead::read(message).message_kind() {
            Some(MessageKind::Open) if message.len() == 16 => Request::Open(u32_at(message, 12)),
            Some(MessageKind::Close) if message.len() == 12 => Request::Close,
            Some(MessageKind::Command) if message.len() >= 20 => Request::Command,
            Some(MessageKind::Open | MessageKind::Close | MessageKind::Command) => Request::Wrong,
            _ => Request::Other,
        }
    }
}
