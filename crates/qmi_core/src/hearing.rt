ghost use Rattle.std.specs.Prelude.{◌≡◌, ◌||◌, if◌then◌else◌};
ghost use Rattle.outbox.specs.Queue.{has_room, queues};
ghost use Rattle.qmux_frame.specs.Reply.{result_reply};

use crate::message::Message;
use crate::side::ModemSide;
use connections::Hears;
use kit_bytes::ConnId;
use outbox::Outbox;
use qmi_state::Client;
use qmux_frame::Qmux;

impl Hears<Qmux, Client> for ModemSide {
    ghost use Rattle.qmi_state.specs.Transitions.{hear_client};
    ghost use Rattle.qmi_core.specs.Hearing.{hear_client-capacity};

    ghost hears = { hear_client };

    ghost capacity = { hear_client-capacity };

    fn hear(
        &mut self,
        name: ConnId,
        message: &[u8],
        client: &mut Client,
        outbox: &mut Outbox,
    ) -> bool {
        let message = Message::read(message);
        if let Some(error) = message.own_reply(self.device.as_slice(), client.opened) {
            let opens = message.is_opening(self.device.as_slice());
            return reply(&message, error, opens, client, outbox);
        }
        let deadline = self.deadline();
        if let Some(error) = self.traffic.forward(self.away, deadline, name, &message) {
            return reply(&message, error, false, client, outbox);
        }
        true
    }
}

// Replies with this error alone, and says whether the reply finds room; where it does, the message
// has opened the device if it opens it.
fn reply(
    message: &Message<'_>,
    error: u16,
    opens: bool,
    client: &mut Client,
    outbox: &mut Outbox,
) -> bool
    ensures room { result ≡ has_room (result_reply message.now error) outbox.old }
    ensures client { client.new ≡ record { opened = if has_room (result_reply message.now error) outbox.old then opens || client.old.opened else client.old.opened } }
    ensures outbox { outbox.new ≡ queues (result_reply message.now error) outbox.old }
{
    let reply = message.reply(error);
    if !outbox.queue(reply.bytes()) {
        return false;
    }
    client.opened = opens | client.opened;
    true
}
