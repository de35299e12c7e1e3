ghost use Rattle.std.specs.Prelude.{◌≡◌, ◌≤◌, length};
ghost use Rattle.device_core.specs.Requests.{answers};

use link_session::{Awaits, Meaning};
use qmux_frame::{Head, Qmux};

/// The service, the client id and the number that an answer has.
#[derive(Clone, Copy, PartialEq, Eq)]
pub struct Wanted {
    pub service: u8,
    pub cid: u8,
    pub number: u8,
}

impl Wanted {
    /// Whether a whole message is the answer.
    pub fn is_answered_by(self, message: &[u8]) -> bool
        requires { 12 ≤ length message.now }
        ensures { result ≡ answers self message.now }
    {
        let head = Head::read(message);
        head.kind().is_response()
            && head.service == self.service
            && head.cid == self.cid
            && head.number == u16::from(self.number)
    }
}

impl Awaits<Qmux> for Wanted {
    ghost use Rattle.device_core.specs.Requests.{judge_by};
    ghost use Rattle.device_core.specs.Hearing.{KeepsNothing};

    ghost number = { λ wanted. wanted.number };

    ghost judge = { judge_by };

    ghost has_heard = { λ wanted before. Unit {0} };

    ghost has_answer = { λ wanted. KeepsNothing };

    fn hear(&mut self, _place: u64, message: &[u8]) -> Meaning {
        if self.is_answered_by(message) {
            Meaning::Answer
        } else {
            Meaning::NoAnswer
        }
    }
}
