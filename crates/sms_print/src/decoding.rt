ghost use Rattle.std.specs.Prelude.{◌≡◌, ◌++◌, OnOk};
ghost use Rattle.sms_print.specs.Printed.{decoded_text};

use crate::joined::push_all;
use crate::messages::push_messages;
use kit_bytes::Octets;
use std::alloc::{AllocError, Global};

/// How far a tool tells what the messages say that an answer holds.
#[derive(Clone, Copy, PartialEq, Eq)]
pub enum Decoding {
    /// Not at all.
    Nothing,
    /// What each message says.
    Each,
    /// What each message says, and behind that the whole messages among them.
    Joined,
}

/// Adds what is told so of messages of these bytes.
#[tactic(auto, unfolding(crate::specs::Printed::decoded_text))]
pub fn push_decoded(
    alloc: Global,
    text: &mut Octets,
    decoding: Decoding,
    bodies: &[Octets],
) -> Result<(), AllocError>
    ensures { OnOk result (text.new ≡ text.old ++ decoded_text decoding bodies.now) }
{
    match decoding {
        Decoding::Nothing => Ok(()),
        Decoding::Each => {
            push_messages(alloc, text, bodies)?;
            Ok(())
        }
        Decoding::Joined => push_all(alloc, text, bodies),
    }
}
