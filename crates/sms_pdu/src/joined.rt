ghost use Rattle.std.specs.Prelude.{◌≡◌};

use crate::Pdu;
use kit_bytes::Text;
use std::marker::Model;

/// A whole message: who sent it, or to whom it goes, and what it says.
#[derive(Drop)]
pub struct Joined {
    pub address: Text,
    pub text: Text,
}

/// Messages that may be parts of longer ones, in any order.
#[derive(Drop)]
pub struct Pdus {
    pdus: Vec<Pdu>,
}

impl Model for Pdus {
    ghost use Rattle.std.specs.Prelude.{List};
    ghost use Rattle.sms_pdu.specs.declared.pdu.Pdu.{Pdu};

    ghost Value = { List Pdu };

    ghost view = { λ list. list.pdus.items };
}

impl Pdus {
    pub fn as_slice(&self) -> &[Pdu]
        ensures { result.now ≡ self.now }
    {
        &self.pdus
    }
}

impl From<Vec<Pdu>> for Pdus {
    ghost from_gives = { λ pdus list. list ≡ pdus.items };

    fn from(pdus: Vec<Pdu>) -> Self {
        Pdus { pdus }
    }
}

/// Whole messages.
#[derive(Drop)]
pub struct JoinedList {
    messages: Vec<Joined>,
}

impl Model for JoinedList {
    ghost use Rattle.std.specs.Prelude.{List};
    ghost use Rattle.sms_pdu.specs.declared.joined.Joined.{Joined};

    ghost Value = { List Joined };

    ghost view = { λ list. list.messages.items };
}

impl JoinedList {
    pub fn as_slice(&self) -> &[Joined]
        ensures { result.now ≡ self.now }
    {
        &self.messages
    }
}

impl From<Vec<Joined>> for JoinedList {
    ghost from_gives = { λ messages list. list ≡ messages.items };

    fn from(messages: Vec<Joined>) -> Self {
        JoinedList { messages }
    }
}
