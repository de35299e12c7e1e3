ghost use Rattle.std.specs.Prelude.{◌≡◌, ◌≤◌, length, IfOk};
ghost use Rattle.rig_trace.specs.Rows as rows;

use kit_bytes::Octets;
use rig_trace::Key;
use std::alloc::{AllocError, Global};

/// How many bytes a message has at least, of either protocol.
pub const SHORTEST: usize = 12;

/// How a protocol's messages are read by whoever runs its proxy.
pub trait Reading {
    ghost reading: { rows.Reading };

    /// How long a request waits for its answer, in milliseconds.
    fn time_limit() -> u64
        ensures { result ≡ reading.time_limit };

    /// What a request, as the modem sees it, has in common with its answer.
    fn of_request(message: &[u8]) -> Key
        requires { SHORTEST ≤ length message.now }
        ensures { result ≡ reading.of_request message.now };

    /// What an answer has in common with its request.
    fn of_answer(message: &[u8]) -> Key
        requires { SHORTEST ≤ length message.now }
        ensures { result ≡ reading.of_answer message.now };

    /// Whether the proxy makes this request by itself.
    fn is_own(message: &[u8]) -> bool
        requires { SHORTEST ≤ length message.now }
        ensures { result ≡ reading.is_own message.now };

    /// Whether a client opens the device by this message.
    fn opens(message: &[u8]) -> bool
        requires { SHORTEST ≤ length message.now }
        ensures { result ≡ reading.opens message.now };

    /// What the modem says to a client that says this and is alone, where beside others it is asked
    /// nothing.
    fn at_once(alloc: Global, message: &[u8]) -> Result<Option<Octets>, AllocError>
        requires { SHORTEST ≤ length message.now }
        ensures { IfOk result (λ answer. answer ≡ reading.at_once message.now) };

    /// An answer under another number. It fails too where the number is too large for it.
    fn with_number(alloc: Global, number: u32, message: &[u8]) -> Result<Octets, AllocError>
        requires { SHORTEST ≤ length message.now }
        ensures { IfOk result (λ answer. answer ≡ reading.with_number number message.now) };
}
