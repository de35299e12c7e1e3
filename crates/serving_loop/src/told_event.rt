ghost use Rattle.std.specs.Prelude.{◌≡◌, ℕ, length, Some};
ghost use Rattle.hub_io.specs.Hub.{FitsBuffer, NamesRise};
ghost use Rattle.many_io.specs.Hub.{IsOfDevice, event_call, told_without_device};
ghost use Rattle.serving_loop.specs.Progress.{call_of, TellsEvent};

use hub_io::NEXT_ROOM;
use kit_bytes::ConnId;
use many_io::{ManyEvent, ManyHubEvent};

/// What a hub told.
#[derive(Clone, Copy)]
pub enum ToldEvent<'a> {
    /// Something for the proxy to meet.
    Event(ManyEvent<'a>),
    /// A client's socket takes bytes again.
    Room(ConnId),
    /// The modem of a device takes bytes again.
    ModemRoom(usize),
    /// The serving is to end.
    Stop,
}

impl<'a> ToldEvent<'a> {
    /// Reads an answer, whose bytes stand at the buffer's front.
    pub fn read(told: ManyHubEvent, buffer: &'a [u8]) -> Self
        requires room { length buffer.now ≡ NEXT_ROOM }
        requires fits { FitsBuffer (told_without_device told) NEXT_ROOM }
        ensures call { call_of result ≡ event_call told buffer.now }
        ensures names { (devices before after : ℕ) → IsOfDevice told devices → NamesRise (Some (told_without_device told)) before after → TellsEvent devices before result after }
    {
        match told {
            ManyHubEvent::Joined(conn) => ToldEvent::Event(ManyEvent::Joined(conn)),
            ManyHubEvent::Piece(conn, size) => ToldEvent::Event(ManyEvent::Piece(
                conn,
                &buffer[..size],
            )),
            ManyHubEvent::Left(conn) => ToldEvent::Event(ManyEvent::Left(conn)),
            ManyHubEvent::ModemPiece(device, size) => {
                ToldEvent::Event(ManyEvent::ModemPiece(device, &buffer[..size]))
            }
            ManyHubEvent::ModemGone(device) => ToldEvent::Event(ManyEvent::ModemGone(device)),
            ManyHubEvent::Now(time) => ToldEvent::Event(ManyEvent::Now(time)),
            ManyHubEvent::Room(conn) => ToldEvent::Room(conn),
            ManyHubEvent::ModemRoom(device) => ToldEvent::ModemRoom(device),
            ManyHubEvent::Stop => ToldEvent::Stop,
        }
    }
}
