ghost use Rattle.std.specs.Prelude.{◌≡◌, ◌+◌, ◌≤◌, [], ◌++◌, length, vec_capacity, IfOk};
ghost use Rattle.mbim_frame.specs.declared.kind.MessageKind.TheVariants as kind;
ghost use Rattle.mbim_frame.specs.Kinds.{kind_number};
ghost use Rattle.mbim_frame.specs.Bodies.{command_text, done_text};
ghost use Rattle.mbim_fragments.specs.Splitting.{split};
ghost use Rattle.mbim_services.specs.SubscribeLists.{list_buffer};

use crate::client::LONGEST_FRAGMENT;
use kit_bytes::append;
use mbim_fragments::{LONGEST_BODY, LONGEST_SPLIT, split_into};
use mbim_frame::{CommandHead, DoneHead, MessageKind};
use mbim_services::{LONGEST_LIST, write_events};
use std::alloc::{AllocError, Global};
use std::marker::Model;
use subscriptions::{ClientList, PairList};

/// Writes messages into memory that is taken once. It is seen as the bytes that it wrote last.
#[derive(Drop)]
pub struct Writer {
    text: Vec<u8>,
    // a body that is written, and the buffer of a list
    body: Vec<u8>,
    buffer: Vec<u8>,
}

impl Model for Writer {
    ghost use Rattle.std.specs.Prelude.{◌≡◌, ◌≤◌, ℕ, List, vec_len, vec_capacity};

    ghost Value = { List ℕ };

    ghost view = { λ w. w.text.items };

    ghost invariant = { λ w. record {
      text : 95336 ≤ vec_capacity w.text;
      body : 65536 ≤ vec_capacity w.body;
      buffer : vec_len w.buffer ≡ 61444;
    } };
}

impl Writer {
    /// It wrote nothing. It has the room that it will ever need.
    pub fn open(alloc: Global) -> Result<Self, AllocError>
        ensures { IfOk result (λ writer. writer ≡ []) }
    {
        let mut buffer = Vec::new(alloc);
        buffer.resize(LONGEST_LIST, 0)?;
        Ok(Writer {
            text: Vec::with_capacity(alloc, LONGEST_SPLIT)?,
            body: Vec::with_capacity(alloc, LONGEST_BODY)?,
            buffer,
        })
    }

    /// The bytes that it wrote last.
    pub fn text(&self) -> &[u8]
        ensures { result.now ≡ self.now }
    {
        &self.text
    }

    /// The messages of at most `max` bytes that carry a body.
    pub fn split(&mut self, kind: u32, number: u32, max: u32, body: &[u8])
        requires least { 64 ≤ max }
        requires most { max ≤ 4096 }
        requires short { length body.now ≤ LONGEST_BODY }
        ensures { self.new ≡ split kind number max body.now }
    {
        split_into(&mut self.text, kind, number, max, body);
    }

    /// The answer to a command, without a buffer.
    pub fn done(&mut self, number: u32, max: u32, head: &DoneHead)
        requires least { 64 ≤ max }
        requires most { max ≤ 4096 }
        ensures { self.new ≡ split (kind_number kind.CommandDone) number max (done_text head.now []) }
    {
        self.split(
            MessageKind::CommandDone.number(),
            number,
            max,
            &head.bytes(0),
        );
    }

    /// The answer to a list of subscriptions.
    pub fn list_done(&mut self, number: u32, max: u32, head: &DoneHead, list: &ClientList)
        requires least { 64 ≤ max }
        requires most { max ≤ 4096 }
        ensures { self.new ≡ split (kind_number kind.CommandDone) number max (done_text head.now (list_buffer list.now)) }
    {
        let count = write_events(list.pairs(), &mut self.buffer);
        put_both(
            &mut self.body,
            &head.bytes(count as u32),
            &self.buffer[..count],
        );
        let kind = MessageKind::CommandDone.number();
        split_into(&mut self.text, kind, number, max, &self.body);
    }

    /// A command that sets a list of subscriptions.
    pub fn list_set(&mut self, number: u32, head: &CommandHead, list: &PairList)
        ensures { self.new ≡ split (kind_number kind.Command) number LONGEST_FRAGMENT (command_text head.now (list_buffer list.now)) }
    {
        let count = write_events(list.pairs(), &mut self.buffer);
        put_both(
            &mut self.body,
            &head.bytes(count as u32),
            &self.buffer[..count],
        );
        let kind = MessageKind::Command.number();
        split_into(&mut self.text, kind, number, LONGEST_FRAGMENT, &self.body);
    }
}

// Puts both runs of bytes, one behind the other, in the place of what the buffer has.
fn put_both(buffer: &mut Vec<u8>, head: &[u8], rest: &[u8])
    requires { length head.now + length rest.now ≤ vec_capacity buffer.old }
    ensures items { buffer.new.items ≡ head.now ++ rest.now }
    ensures capacity { vec_capacity buffer.old ≤ vec_capacity buffer.new }
{
    buffer.clear();
    append(buffer, head);
    append(buffer, rest);
}
