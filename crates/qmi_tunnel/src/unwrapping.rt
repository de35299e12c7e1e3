ghost use Rattle.std.specs.Prelude.{◌≡◌};
ghost use Rattle.qmux_frame.specs.Frame.{size_of};
ghost use Rattle.qmi_tunnel.specs.Tunnel.{unwrapped};

use framing::{Framing, Size};
use qmux_frame::{Head, Qmux};

/// A buffer isn't one whole QMUX message.
#[derive(Clone, Copy, PartialEq, Eq)]
pub struct Ragged {
    /// Where it isn't: behind its first message, and at its start where it begins with none.
    pub place: usize,
}

/// The head of the QMUX message that a buffer is, if it is one.
pub fn unwrap(buffer: &[u8]) -> Result<Head, Ragged>
    ensures { result ≡ unwrapped buffer.now }
{
    match Qmux::size(buffer) {
        Size::Known(count) => unwrap_sized(buffer, count),
        Size::Unknown | Size::Invalid => Err(Ragged { place: 0 }),
    }
}

// The same, where the message that it begins has so many bytes.
fn unwrap_sized(buffer: &[u8], count: usize) -> Result<Head, Ragged>
    requires { size_of buffer.now ≡ Size.Known count }
    ensures { result ≡ unwrapped buffer.now }
{
    if count == buffer.len() {
        Ok(Head::read(buffer))
    } else if count < buffer.len() {
        Err(Ragged { place: count })
    } else {
        Err(Ragged { place: 0 })
    }
}
