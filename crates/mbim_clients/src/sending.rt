ghost use Rattle.std.specs.Prelude.{◌≡◌, ◌+◌, ◌≤◌, length};
ghost use Rattle.mbim_frame.specs.declared.kind.MessageKind.TheVariants as kind;
ghost use Rattle.mbim_frame.specs.Kinds.{kind_number};
ghost use Rattle.mbim_frame.specs.Writing.{open_request};
ghost use Rattle.mbim_fragments.specs.Splitting.{split, split_size};
ghost use Rattle.mbim_state.specs.declared.asked.Asked.TheVariants as asked;
ghost use Rattle.mbim_clients.specs.Traffic.{number_for, queues};
ghost use Rattle.mbim_clients.specs.Commands.{list_text, own_list, sends};

use crate::client::LONGEST_FRAGMENT;
use crate::command::SUBSCRIBE_LIST;
use crate::traffic::{OUTBOX_LIMIT, Traffic};
use crate::writer::Writer;
use kit_bytes::ConnId;
use mbim_fragments::{Body, LONGEST_BODY, split_length, unsplit_head};
use mbim_frame::{CommandHead, MessageKind, open_request};
use mbim_services::Service;
use mbim_state::{Asked, CommandName};
use subscriptions::PairList;

/// Sends the proxy's own request to open the modem, under the number that it gets, if it gets one.
pub fn send_open(traffic: &mut Traffic, deadline: u64) -> Option<u32>
    ensures number { result ≡ number_for 16 traffic.old }
    ensures traffic { traffic.new ≡ sends result 0 asked.Open deadline (λ number. open_request number 4096) traffic.old }
{
    let number = traffic.give(16, 0, Asked::Open, deadline)?;
    traffic.queue(&open_request(number, LONGEST_FRAGMENT));
    Some(number)
}

/// Sends a command of the connection of this name, under the number that it gets, if it gets one.
pub fn send_command(
    traffic: &mut Traffic,
    writer: &mut Writer,
    name: ConnId,
    kept: CommandName,
    body: &Body,
    deadline: u64,
) -> Option<u32>
    ensures number { result ≡ number_for (split_size 4096 (length body.now)) traffic.old }
    ensures traffic { traffic.new ≡ sends result name (asked.Command kept) deadline (λ number. split (kind_number kind.Command) number 4096 body.now) traffic.old }
{
    let command = body.as_slice();
    let count = split_length(LONGEST_FRAGMENT, command.len());
    let number = traffic.give(count, name, Asked::Command(kept), deadline)?;
    queue_command(traffic, writer, number, command);
    Some(number)
}

// A command waits for the modem under this number.
fn queue_command(traffic: &mut Traffic, writer: &mut Writer, number: u32, command: &[u8])
    requires short { length command.now ≤ LONGEST_BODY }
    requires room { length traffic.old.outbox.bytes + split_size 4096 (length command.now) ≤ OUTBOX_LIMIT }
    ensures { traffic.new ≡ queues (split (kind_number kind.Command) number 4096 command.now) traffic.old }
{
    let kind = MessageKind::Command.number();
    let Some(head) = unsplit_head(kind, number, LONGEST_FRAGMENT, command) else {
        writer.split(kind, number, LONGEST_FRAGMENT, command);
        traffic.queue(writer.text());
        return;
    };
    traffic.queue_both(&head, command);
}

/// Sends a list of subscriptions of the proxy itself, under the number that it gets, if it gets one.
pub fn send_list(
    traffic: &mut Traffic,
    writer: &mut Writer,
    list: &PairList,
    deadline: u64,
) -> Option<u32>
    ensures number { result ≡ number_for (length (list_text list.now 0)) traffic.old }
    ensures traffic { traffic.new ≡ sends result 0 (asked.Command own_list) deadline (list_text list.now) traffic.old }
{
    let head = CommandHead {
        uuid: Service::BasicConnect.uuid(),
        cid: SUBSCRIBE_LIST,
        set: true,
    };
    let kept = CommandName {
        number: 0,
        uuid: head.uuid,
        cid: head.cid,
    };
    writer.list_set(0, &head, list);
    let count = writer.text().len();
    let number = traffic.give(count, 0, Asked::Command(kept), deadline)?;
    writer.list_set(number, &head, list);
    traffic.queue(writer.text());
    Some(number)
}
