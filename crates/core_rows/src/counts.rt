use framing::{Framing, Size};
use kit_bytes::Kind;
use mbim_frame::Mbim;
use qmux_frame::Qmux;
use row_text::RowFault;
use std::alloc::Global;

/// What brought the bytes that clients take.
#[derive(Clone, Copy)]
pub enum Cause {
    Client,
    Modem,
    Clock,
}

/// How many messages of a proxy's clients and of its modem came to what, as it is seen from outside.
#[derive(Clone, Copy)]
pub struct Counts {
    /// Messages of the modem, each of which is for one client at most.
    arrived: u64,
    /// Those of them of which a client took something.
    heard: u64,
    /// And that weren't the answer to the proxy's own request to open the modem.
    pub answered: u64,
    /// Messages that the clock brought.
    pub expired: u64,
    /// Answers of the proxy itself that tell of an error.
    pub refused: u64,
}

impl Counts {
    pub fn none() -> Self {
        Counts {
            arrived: 0,
            heard: 0,
            answered: 0,
            expired: 0,
            refused: 0,
        }
    }

    /// A message of the modem arrives.
    pub fn arrive(&mut self) {
        self.arrived = self.arrived.saturating_add(1);
    }

    /// A client takes a message.
    pub fn take(&mut self, kind: Kind, cause: Cause, message: &[u8]) {
        match cause {
            Cause::Client => add(&mut self.refused, is_refusal(kind, message)),
            Cause::Clock => add(&mut self.expired, true),
            Cause::Modem => {
                add(&mut self.heard, true);
                add(&mut self.answered, !is_open_done(kind, message));
            }
        }
    }

    /// How many messages of the modem nobody took anything of.
    pub fn late(&self) -> u64 {
        self.arrived.saturating_sub(self.heard)
    }
}

fn add(count: &mut u64, counts: bool) {
    *count = count.saturating_add(u64::from(counts));
}

/// The messages of some bytes, all of which are whole.
pub fn messages_in(alloc: Global, kind: Kind, bytes: &[u8]) -> Result<Vec<&[u8]>, RowFault> {
    let mut messages = Vec::new(alloc);
    let mut rest = bytes;
    for _ in 0..bytes.len() {
        let length = length_in(kind, rest);
        if length == 0 || rest.len() < length {
            break;
        }
        let (message, more) = rest.split_at(length);
        messages.push(message)?;
        rest = more;
    }
    if !rest.is_empty() {
        return Err(RowFault::new("less than a message was taken"));
    }
    Ok(messages)
}

// How long the message is that begins so, or 0.
fn length_in(kind: Kind, bytes: &[u8]) -> usize {
    let size = match kind {
        Kind::Qmi => Qmux::size(bytes),
        Kind::Mbim => Mbim::size(bytes),
    };
    match size {
        Size::Known(length) => length,
        Size::Unknown | Size::Invalid => 0,
    }
}

/// Whether a message is a request to open the modem.
pub fn is_open(kind: Kind, message: &[u8]) -> bool {
    kind == Kind::Mbim && message.starts_with(&[1, 0, 0, 0])
}

// Whether it is the answer to one.
fn is_open_done(kind: Kind, message: &[u8]) -> bool {
    kind == Kind::Mbim && message.starts_with(&[1, 0, 0, 0x80])
}

// Whether an answer of the proxy itself tells of an error. With QMI it ends with the TLV of its result, a
// status and an error of two bytes each; with MBIM a status stands behind the head, or behind the command.
fn is_refusal(kind: Kind, message: &[u8]) -> bool {
    let status = match kind {
        Kind::Qmi => message.len().saturating_sub(4),
        Kind::Mbim if is_command_done(message) => 40,
        Kind::Mbim => 12,
    };
    message.iter().skip(status).take(4).any(|byte| *byte != 0)
}

fn is_command_done(message: &[u8]) -> bool {
    message.starts_with(&[3, 0, 0, 0x80])
}
