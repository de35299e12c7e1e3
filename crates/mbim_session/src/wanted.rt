ghost use Rattle.std.specs.Prelude.{◌≡◌, ◌≤◌, length};
ghost use Rattle.mbim_session.specs.Requests.{is_of};

use link_session::{Awaits, Meaning};
use mbim_frame::{MHead, Mbim, MessageKind};

/// Whether a message is of this kind and has this number.
pub(crate) fn is_of(kind: MessageKind, number: u32, message: &[u8]) -> bool
    requires { 12 ≤ length message.now }
    ensures { result ≡ is_of kind number message.now }
{
    let head = MHead::read(message);
    head.kind == kind.number() && head.number == number
}

/// The kind of DONE and the number that the answer to an OPEN or to a CLOSE has.
#[derive(Clone, Copy, PartialEq, Eq)]
pub(crate) struct Wanted {
    pub(crate) done: MessageKind,
    pub(crate) number: u32,
}

impl Awaits<Mbim> for Wanted {
    ghost use Rattle.mbim_session.specs.Requests.{judge_by};
    ghost use Rattle.mbim_session.specs.Hearing.{KeepsNothing};

    ghost number = { λ wanted. wanted.number };

    ghost judge = { λ wanted. judge_by wanted.done wanted.number };

    ghost has_heard = { λ wanted before. Unit {0} };

    ghost has_answer = { λ wanted. KeepsNothing };

    fn hear(&mut self, _place: u64, message: &[u8]) -> Meaning {
        if is_of(self.done, self.number, message)
            || is_of(MessageKind::FunctionError, self.number, message)
        {
            Meaning::Answer
        } else {
            Meaning::NoAnswer
        }
    }
}
