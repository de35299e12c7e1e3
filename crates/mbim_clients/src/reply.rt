ghost use Rattle.std.specs.Prelude.{◌≡◌};
ghost use Rattle.outbox.specs.Queue.{has_room, queues};
ghost use Rattle.mbim_clients.specs.Replies.{reply_text};

use crate::client::Client;
use crate::writer::Writer;
use mbim_frame::status::SUCCESS;
use mbim_frame::{DoneHead, close_done, function_error, open_done};
use outbox::Outbox;

/// A reply to a client's message.
#[derive(Clone, Copy)]
pub enum Reply {
    /// No bytes.
    Silent,
    /// A FUNCTION_ERROR with this code.
    Error(u32),
    /// An OPEN_DONE with this status.
    Opened(u32),
    /// A CLOSE_DONE.
    Closed,
    /// A COMMAND_DONE without a buffer.
    Done(DoneHead),
    /// A COMMAND_DONE with the client's list of subscriptions.
    Listed(DoneHead),
}

impl Reply {
    /// Queues it for the client, to its message with this number, and says whether it finds room.
    pub fn queue(
        self,
        number: u32,
        client: &Client,
        writer: &mut Writer,
        outbox: &mut Outbox,
    ) -> bool
        ensures room { result ≡ has_room (reply_text client.now number self) outbox.old }
        ensures queue { outbox.new ≡ queues (reply_text client.now number self) outbox.old }
    {
        match self {
            Reply::Silent => outbox.queue(&[]),
            Reply::Error(code) => outbox.queue(&function_error(number, code)),
            Reply::Opened(status) => outbox.queue(&open_done(number, status)),
            Reply::Closed => outbox.queue(&close_done(number, SUCCESS)),
            Reply::Done(head) => {
                writer.done(number, client.fragment(), &head);
                outbox.queue(writer.text())
            }
            Reply::Listed(head) => {
                writer.list_done(number, client.fragment(), &head, client.list());
                outbox.queue(writer.text())
            }
        }
    }
}
