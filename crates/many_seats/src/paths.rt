ghost use Rattle.std.specs.Prelude.{◌≡◌, ◌<◌, ◌≤◌, ℕ, List, Option, bytes_eq, length, map, option_copied, position, IfOk, IfSome, IsNone};
ghost use Rattle.qmux_frame.specs.Frame.{size_of};
ghost use Rattle.many_history.specs.Devices.{choice_on};
ghost use Rattle.qmi_proxy.specs.Messages.{equals};
ghost use Rattle.qmi_many.specs.Devices.{chooses, choice_among, qmi_devices};

use framing::{Framing, Size};
use kit_bytes::Octets;
use qmux_frame::{Head, Qmux, control, tlvs_in};
use std::alloc::{AllocError, Global};
use std::marker::Model;
use tlv_codec::tlv_value;

/// The paths of the devices, in their order, by which clients choose them.
#[derive(Drop)]
pub struct Paths {
    paths: Vec<Octets>,
}

impl Model for Paths {
    ghost use Rattle.std.specs.Prelude.{ℕ, List};

    ghost Value = { List (List ℕ) };

    ghost view = { λ p. p.paths.items };
}

impl Paths {
    /// A copy of these paths.
    pub fn copy_of(alloc: Global, paths: &[&str]) -> Result<Self, AllocError>
        ensures { IfOk result (λ p. p ≡ map (λ path. path.now) paths.now) }
    {
        let mut copies = Vec::with_capacity(alloc, paths.len())?;
        for path in paths {
            copies.push_reserved(Octets::from_slice(alloc, path.as_bytes())?);
        }
        Ok(Paths { paths: copies })
    }

    /// The device that a client chooses that has said this; none yet where no message is whole.
    pub fn choice(&self, stream: &[u8]) -> Option<usize>
        ensures choice { (time_limit : ℕ) (release : Option ℕ) → result ≡ choice_on (qmi_devices self.now time_limit release) stream.now }
        ensures within { 0 < length self.now → IfSome result (λ device. device < length self.now) }
        ensures bounded { IsNone result → length stream.now < 65536 }
    {
        match Qmux::size(stream) {
            Size::Invalid => Some(0),
            Size::Unknown => None,
            Size::Known(count) => self.choice_in(stream, count),
        }
    }

    // The same where so many bytes are the first message.
    fn choice_in(&self, stream: &[u8], count: usize) -> Option<usize>
        requires { size_of stream.now ≡ Size.Known count }
        ensures choice { (time_limit : ℕ) (release : Option ℕ) → result ≡ choice_on (qmi_devices self.now time_limit release) stream.now }
        ensures within { 0 < length self.now → IfSome result (λ device. device < length self.now) }
        ensures bounded { IsNone result → length stream.now < 65536 }
    {
        if count <= stream.len() {
            Some(self.device_of(&stream[..count]))
        } else {
            None
        }
    }

    // The device that a first message opens, and the first one where it opens none.
    fn device_of(&self, message: &[u8]) -> usize
        requires { 12 ≤ length message.now }
        ensures choice { result ≡ choice_among self.now message.now }
        ensures within { 0 < length self.now → result < length self.now }
    {
        match opened_path(message) {
            Some(path) => self.find(path).unwrap_or(0),
            None => 0,
        }
    }

    fn find(&self, path: &[u8]) -> Option<usize>
        ensures place { result ≡ position (λ other. bytes_eq path.now other) self.now }
        ensures within { IfSome result (λ place. place < length self.now) }
    {
        self.paths.iter().position(|other| path == other.as_slice())
    }
}

// The path that a well-formed Proxy Open names.
fn opened_path(message: &[u8]) -> Option<&[u8]>
    requires { 12 ≤ length message.now }
    ensures { (path : List ℕ) → chooses message.now path ≡ equals path (option_copied result) }
{
    let head = Head::read(message);
    if head.framed && head.flags == 0 && head.cid == 0 && head.is_command(control::PROXY_OPEN) {
        tlv_value(tlvs_in(message), 0x01)
    } else {
        None
    }
}
