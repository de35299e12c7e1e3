use crate::Message;
use crate::message::MessageKey;
use indexmap::IndexMap;
use std::alloc::{AllocError, Global};
use std::marker::Model;

/// A list of messages, each found by its service, its id and its kind.
#[derive(Drop)]
pub struct Tables {
    messages: IndexMap<MessageKey, Message>,
}

impl Model for Tables {
    ghost use Rattle.std.specs.Prelude.{List};
    ghost use Rattle.std.specs.Coded.{codes};
    ghost use Rattle.qmi_shapes.specs.contracts.shape.Shape as shape;
    ghost use Rattle.indexmap.specs.IndexMap.{values};
    ghost use Rattle.message_tables.specs.declared.message.Message.{Message};
    ghost use Rattle.message_tables.specs.Keys.{AreKeyed};

    ghost Value = { List Message };

    ghost coded = { Prim.hlevel (codes, shape.the_row.coded) };

    ghost view = { λ tables. values tables.messages };

    ghost invariant = { λ tables. AreKeyed tables.messages.entries };
}

impl Tables {
    ghost use Rattle.std.specs.Prelude.{◌≡◌, ◌<◌, [], ◌∷◌, ◌++◌, false, Some, length, slice_get, option_map, find, IfOk, OnOk, OnErr};
    ghost use Rattle.message_tables.specs.Messages.{is_key, is_among};
    ghost use Rattle.message_tables.specs.WellMade.{again_behind};
    ghost use Rattle.message_tables.specs.View.{message_view, messages_in};

    /// The empty list, which takes no memory.
    pub(crate) fn new(alloc: Global) -> Tables
        ensures { result ≡ [] }
    {
        Tables {
            messages: IndexMap::new(alloc),
        }
    }

    /// These messages, in their order.
    pub fn from_messages(alloc: Global, messages: Vec<Message>) -> Result<Tables, AllocError>
        requires { again_behind [] (messages_in messages.items) ≡ false }
        ensures { IfOk result (λ tables. tables ≡ messages.items) }
    {
        let mut tables = Tables::new(alloc);
        for message in messages {
            tables.push(message)?;
        }
        Ok(tables)
    }

    /// Adds a message behind the others.
    pub(crate) fn push(&mut self, message: Message) -> Result<(), AllocError>
        requires { is_among (message_view message) (messages_in self.old) ≡ false }
        ensures ok { OnOk result (self.new ≡ self.old ++ message ∷ []) }
        ensures err { OnErr result (self.new ≡ self.old) }
    {
        drop(self.messages.insert(message.key(), message)?);
        Ok(())
    }

    /// Whether one of the messages has the service, the id and the kind of this one.
    pub(crate) fn has(&self, message: &Message) -> bool
        ensures { result ≡ is_among (message_view message.now) (messages_in self.now) }
    {
        self.messages.contains_key(&message.key())
    }

    /// The message of a service that has this id, or the indication.
    pub fn message(&self, service: u8, id: u16, indication: bool) -> Option<&Message>
        ensures { option_map (λ message. message_view message.now) result
            ≡ find (is_key service id indication) (messages_in self.now) }
    {
        self.messages.get(&MessageKey {
            service,
            id,
            indication,
        })
    }

    pub fn len(&self) -> usize
        ensures { result ≡ length (messages_in self.now) }
    {
        self.messages.len()
    }

    pub fn at(&self, index: usize) -> &Message
        requires { index < length (messages_in self.now) }
        ensures { slice_get (messages_in self.now) index ≡ Some (message_view result.now) }
    {
        &self.messages[index]
    }
}
