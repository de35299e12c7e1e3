ghost use Rattle.std.specs.Prelude.{◌≡◌, ◌≤◌, ◌==◌, ◌&&◌, true, length};
ghost use Rattle.framing.specs.Framing.{AreBytes};
ghost use Rattle.qmux_frame.specs.Head.{head_of, is_control, service_of, cid_of, number_of};
ghost use Rattle.qmux_frame.specs.Control.{is_allocate, is_release};
ghost use Rattle.qmux_frame.specs.Reply.{result_reply};

use qmux_frame::{Head, Reply, control};

/// What is kept of a request that went to the modem: as much of the sender's message as its answer
/// needs.
#[derive(Clone, Copy, PartialEq, Eq)]
pub struct Asked {
    /// The first bytes of the message: service, client id, number and message id are among them.
    pub head: [u8; 12],
    /// The client id that the message uses, with its service.
    pub service: u8,
    pub cid: u8,
}

impl Asked {
    /// The sender's own transaction number.
    pub fn number(&self) -> u16
        ensures number { result ≡ number_of self.now.head }
        ensures small { is_control self.now.head ≡ true → result ≤ 255 }
    {
        read(&self.head).number
    }

    /// The response to the request that tells this error alone.
    pub fn reply(&self, error: u16) -> Reply
        ensures { result ≡ result_reply self.now.head error }
    {
        qmux_frame::result_reply(&read(&self.head), error)
    }

    /// Whether a response with this service and client id may answer it.
    pub fn fits(&self, service: u8, cid: u8) -> bool
        ensures { result ≡ (service_of self.now.head == service && (cid_of self.now.head == cid)) }
    {
        let head = read(&self.head);
        head.service == service && head.cid == cid
    }

    /// Whether it asks for a client id.
    pub fn is_allocate(&self) -> bool
        ensures { result ≡ is_allocate self.now.head }
    {
        read(&self.head).is_command(control::ALLOCATE)
    }

    /// Whether it gives a client id back.
    pub fn is_release(&self) -> bool
        ensures { result ≡ is_release self.now.head }
    {
        read(&self.head).is_command(control::RELEASE)
    }
}

// The head of a message, from its first bytes.
fn read(head: &[u8]) -> Head
    requires { 12 ≤ length head.now }
    ensures head { result ≡ head_of head.now }
    ensures bytes { AreBytes head.now }
    ensures small { is_control head.now ≡ true → result.number ≤ 255 }
{
    Head::read(head)
}
