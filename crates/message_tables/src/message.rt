use crate::TlvShapes;
use crate::tlvs::{has_twice, nest_well};
use kit_bytes::Text;

/// A message or an indication of a service.
#[derive(Drop)]
pub struct Message {
    pub name: Text,
    pub service: u8,
    pub id: u16,
    pub indication: bool,
    /// The TLVs of the request; an indication has none.
    pub input: TlvShapes,
    /// The TLVs of the answer or of the indication.
    pub output: TlvShapes,
}

/// What tells a message from the others.
#[derive(PartialEq, Eq, Hash, Drop)]
pub(crate) struct MessageKey {
    pub(crate) service: u8,
    pub(crate) id: u16,
    pub(crate) indication: bool,
}

impl Message {
    ghost use Rattle.std.specs.Prelude.{◌≡◌, ◌||◌};
    ghost use Rattle.message_tables.specs.Tlvs.{has_twice};
    ghost use Rattle.message_tables.specs.Messages.{is_deep};
    ghost use Rattle.message_tables.specs.View.{message_view};
    ghost use Rattle.message_tables.specs.Keys.{key_of};

    /// Whether an id stands twice in one of the lists of TLVs.
    pub fn has_id_twice(&self) -> bool
        ensures { result ≡ (has_twice (message_view self.now).input
            || has_twice (message_view self.now).output) }
    {
        has_twice(self.input.as_slice()) || has_twice(self.output.as_slice())
    }

    /// Whether too many formats stand inside each other.
    pub fn is_deep(&self) -> bool
        ensures { result ≡ is_deep (message_view self.now) }
    {
        !nest_well(self.input.as_slice()) || !nest_well(self.output.as_slice())
    }

    /// What tells the message from the others.
    pub(crate) fn key(&self) -> MessageKey
        ensures { result ≡ key_of (message_view self.now) }
    {
        MessageKey {
            service: self.service,
            id: self.id,
            indication: self.indication,
        }
    }
}
