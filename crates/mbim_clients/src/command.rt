ghost use Rattle.std.specs.Prelude.{◌≡◌, ◌≤◌, ◌==◌, ◌&&◌, bytes_eq, ℕ, List, length, IsNone};
ghost use Rattle.kit_bytes.specs.declared.services.TheConstants.{BASIC_CONNECT};
ghost use Rattle.mbim_frame.specs.Bodies.{command_head_of};
ghost use Rattle.mbim_proxy.specs.Services.{proxy_control, subscribe_list_cid};
ghost use Rattle.mbim_proxy.specs.OwnReplies.{configures, reply_to_configuration, reply_to_subscribe_list};
ghost use Rattle.mbim_clients.specs.Replies.{reply_as};
ghost use Rattle.mbim_clients.specs.Commands.{served, own_reply_to, replied_with, left_with};

use crate::client::Client;
use crate::device::Device;
use crate::reply::Reply;
use mbim_fragments::Body;
use mbim_frame::error::{LENGTH_MISMATCH, NOT_OPENED};
use mbim_frame::status::{INVALID_PARAMETERS, SUCCESS};
use mbim_frame::{CommandHead, DoneHead, buffer_in};
use mbim_services::Service;
use subscribe_lists::read_list;
use subscriptions::PairList;
use uuid::Uuid;

/// By which a client names its device, a command of the proxy's own service.
const CONFIGURATION: u32 = 1;

/// By which a client sets its list of subscriptions, a command of Basic Connect.
pub const SUBSCRIBE_LIST: u32 = 19;

/// The reply to a whole command that the client's own view decides, and what it changes; none to a
/// command that is for the modem. `list` is room for a list.
pub fn own_reply(
    client: &mut Client,
    device: &Device,
    body: &Body,
    list: &mut PairList,
) -> Option<Reply>
    ensures reply { result ≡ own_reply_to device.now body.now client.old }
    ensures client { client.new ≡ left_with device.now body.now client.old }
    ensures long { IsNone result → 28 ≤ length body.now }
{
    let command = body.as_slice();
    let Some(head) = CommandHead::read(command) else {
        return Some(Reply::Error(LENGTH_MISMATCH));
    };
    if is_for_proxy(head.uuid) {
        return Some(configure(client, device, &head, command));
    }
    if !client.opened() {
        return Some(Reply::Error(NOT_OPENED));
    }
    if is_subscribe_list(head.uuid, head.cid) {
        return Some(subscribe(client, &head, command, list));
    }
    None
}

fn is_for_proxy(uuid: Uuid) -> bool
    ensures { result ≡ bytes_eq uuid proxy_control }
{
    uuid == Service::ProxyControl.uuid()
}

fn is_subscribe_list(uuid: Uuid, cid: u32) -> bool
    ensures { result ≡ (bytes_eq uuid BASIC_CONNECT && cid == subscribe_list_cid) }
{
    uuid == Service::BasicConnect.uuid() && cid == SUBSCRIBE_LIST
}

// The client names a device.
fn configure(client: &mut Client, device: &Device, head: &CommandHead, command: &[u8]) -> Reply
    requires long { 28 ≤ length command.now }
    requires head { head.now ≡ command_head_of command.now }
    ensures reply { result ≡ reply_as (reply_to_configuration (served device.now) command.now) }
    ensures client { client.new ≡ replied_with (reply_to_configuration (served device.now) command.now) client.old }
{
    if !names_device(device, head, command) {
        return Reply::Done(done_to(head, INVALID_PARAMETERS));
    }
    client.configure();
    Reply::Done(done_to(head, SUCCESS))
}

fn names_device(device: &Device, head: &CommandHead, command: &[u8]) -> bool
    requires long { 28 ≤ length command.now }
    requires head { head.now ≡ command_head_of command.now }
    ensures { result ≡ configures (served device.now) command.now }
{
    head.cid == CONFIGURATION && head.set && device.is_named_by(buffer_in(command))
}

// The client sets its list of subscriptions.
fn subscribe(client: &mut Client, head: &CommandHead, command: &[u8], list: &mut PairList) -> Reply
    requires long { 28 ≤ length command.now }
    requires head { head.now ≡ command_head_of command.now }
    ensures reply { (device : List ℕ) → result ≡ reply_as (reply_to_subscribe_list (served device) command.now) }
    ensures client { (device : List ℕ) → client.new ≡ replied_with (reply_to_subscribe_list (served device) command.now) client.old }
{
    if !head.set {
        return Reply::Done(done_to(head, INVALID_PARAMETERS));
    }
    if !read_list(buffer_in(command), list) {
        return Reply::Done(done_to(head, INVALID_PARAMETERS));
    }
    client.subscribe(list);
    Reply::Listed(done_to(head, SUCCESS))
}

// The head of the answer to a command.
fn done_to(head: &CommandHead, status: u32) -> DoneHead
    ensures { result ≡ record { uuid = head.now.uuid; cid = head.now.cid; status = status } }
{
    DoneHead {
        uuid: head.uuid,
        cid: head.cid,
        status,
    }
}
