ghost use Rattle.std.specs.Prelude.{◌≡◌, ◌≤◌, length};
ghost use Rattle.request_session.specs.Requests.{answers};

use device_core::Wanted;
use link_session::{Awaits, Meaning};
use qmux_frame::{Head, Qmux};

/// The service, the client id, the number and the message id that an answer has.
#[derive(Clone, Copy, PartialEq, Eq)]
pub struct WantedAnswer {
    pub wanted: Wanted,
    /// The message id.
    pub message: u16,
}

impl WantedAnswer {
    // Whether a whole message is the answer.
    fn is_answered_by(self, message: &[u8]) -> bool
        requires { 12 ≤ length message.now }
        ensures { result ≡ answers self message.now }
    {
        self.wanted.is_answered_by(message) && Head::read(message).message == self.message
    }
}

impl Awaits<Qmux> for WantedAnswer {
    ghost use Rattle.request_session.specs.Requests.{judge_by};
    ghost use Rattle.device_core.specs.Hearing.{KeepsNothing};

    ghost number = { λ wanted. wanted.wanted.number };

    ghost judge = { judge_by };

    ghost has_heard = { λ wanted before. Unit {0} };

    ghost has_answer = { λ wanted. KeepsNothing };

    fn hear(&mut self, _place: u64, message: &[u8]) -> Meaning {
        if self.is_answered_by(message) {
            Meaning::Answer
        } else {
            Meaning::NoAnswer
        }
    }
}
