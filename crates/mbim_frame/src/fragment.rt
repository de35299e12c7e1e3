ghost use Rattle.std.specs.Prelude.{◌≡◌, ◌≤◌, length};
ghost use Rattle.mbim_frame.specs.Fragment.{body_of, fragment_head_of};

use kit_bytes::u32_at;

/// The fields of the head that a fragment has behind the head of a message.
#[derive(Clone, Copy, PartialEq, Eq)]
pub struct FragmentHead {
    /// How many fragments the message has.
    pub total: u32,
    /// Which of them this one is, counted from 0.
    pub current: u32,
}

impl FragmentHead {
    /// The head of a fragment, which has at least 20 bytes.
    pub fn read(message: &[u8]) -> FragmentHead
        requires { 20 ≤ length message.now }
        ensures { result ≡ fragment_head_of message.now }
    {
        FragmentHead {
            total: u32_at(message, 12),
            current: u32_at(message, 16),
        }
    }
}

/// A fragment's part of the body, which stands behind both heads.
pub fn body_in(message: &[u8]) -> &[u8]
    requires { 20 ≤ length message.now }
    ensures { result.now ≡ body_of message.now }
{
    &message[20..]
}
