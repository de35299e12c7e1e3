ghost use Rattle.std.specs.Prelude.{◌≡◌, ◌≤◌, ◌==◌, ◌&&◌, true, length, map, IfOk, Some, is_some, option_map};
ghost use Rattle.std.specs.List.{AllByRecursion};
ghost use Rattle.sim_qmi.specs.State.{are_stored, fresh, free_id, is_any_given, is_given, is_stored, message_at, IsSound};
ghost use Rattle.sim_qmi.specs.Requests.{is_known};
ghost use Rattle.sim_qmi.specs.Ctl.{allocates, releases};
ghost use Rattle.sim_qmi.specs.Wds.{handle_after, starts, stops};
ghost use Rattle.sim_qmi.specs.Wms.{deletes, sends};
ghost use Rattle.sim_qmi.specs.Values.{number_after};

use crate::ClientId;
use kit_bytes::Octets;
use modem_profile::Profile;
use qmi_services::messages::CTL;
use qmux_frame::Head;
use std::alloc::{AllocError, Global};
use std::marker::Model;

/// What the modem keeps from one request to the next.
#[derive(Drop)]
pub(crate) struct ModemState {
    /// The client ids that are given.
    clients: Vec<ClientId>,
    /// The operating mode.
    mode: u8,
    /// The packet data handle that was given last, 0 before the first.
    handle: u32,
    connected: bool,
    /// The stored messages by their index, None where one was deleted.
    messages: Vec<Option<Octets>>,
    /// The number of the message that was sent last, 0 before the first.
    sent: u16,
}

impl Model for ModemState {
    ghost use Rattle.std.specs.Prelude.{◌≡◌, ◌<◌, true};
    ghost use Rattle.sim_qmi.specs.State.{State, are_stored};

    ghost Value = { State };

    ghost view = { λ s. record {
      clients = s.clients.items;
      mode = s.mode;
      handle = s.handle;
      connected = s.connected;
      messages = s.messages.items;
      sent = s.sent;
    } };

    ghost invariant = { λ s. record {
      mode : s.mode < 256;
      stored : are_stored s.messages.items ≡ true;
    } };
}

impl ModemState {
    /// Before any request.
    pub(crate) fn fresh(alloc: Global, profile: &Profile) -> Result<Self, AllocError>
        ensures { IfOk result (λ state. state ≡ fresh profile.now) }
    {
        let messages = stored(alloc, profile.sms())?;
        Ok(ModemState {
            clients: Vec::new(alloc),
            mode: 0,
            handle: 0,
            connected: false,
            messages,
            sent: 0,
        })
    }

    /// Tells what is always so, and does nothing else.
    pub(crate) fn tell_sound(&self)
        ensures { IsSound self.now }
    {
        // A function knows the invariant where it uses a field.
        let _ = &self.messages;
    }

    /// Whether this id of a service is given.
    pub(crate) fn is_given(&self, service: u8, id: u8) -> bool
        ensures { result ≡ is_given self.now.clients service id }
    {
        self.clients
            .iter()
            .any(|client| *client == ClientId { service, id })
    }

    /// Whether a request with this head comes from a client whose id is given. Service 0 needs none.
    pub(crate) fn is_known(&self, head: &Head) -> bool
        ensures { result ≡ is_known self.now head.now }
    {
        head.service == CTL || self.is_given(head.service, head.cid)
    }

    /// Whether any id of a service is given.
    pub(crate) fn is_any_given(&self, service: u8) -> bool
        ensures { result ≡ is_any_given self.now.clients service }
    {
        self.clients.iter().any(|client| client.service == service)
    }

    /// The least id of a service that isn't given.
    #[tactic(auto, using(crate::proofs::ClientIds::first_free, crate::proofs::ClientIds::given_isnt_free, crate::proofs::ClientIds::free_here, crate::proofs::ClientIds::none_free))]
    fn free_id(&self, service: u8) -> Option<u8>
        ensures { result ≡ free_id self.now.clients service }
    {
        for id in 1..255 {
            if !self.is_given(service, id) {
                return Some(id);
            }
        }
        None
    }

    /// Gives the least free id of a service, if there is one.
    pub(crate) fn allocate(&mut self, service: u8) -> Result<Option<u8>, AllocError>
        ensures id { IfOk result (λ id. id ≡ free_id self.old.clients service) }
        ensures state { IfOk result (λ id. self.new ≡ (allocates self.old service id).state) }
    {
        let Some(id) = self.free_id(service) else {
            return Ok(None);
        };
        self.clients.push(ClientId { service, id })?;
        Ok(Some(id))
    }

    /// Takes an id of a service back, where it is given.
    pub(crate) fn release(&mut self, service: u8, id: u8) -> bool
        ensures released { result ≡ is_given self.old.clients service id }
        ensures state { self.new ≡ (releases self.old service id).state }
    {
        if !self.is_given(service, id) {
            return false;
        }
        self.clients
            .retain(|client| *client != ClientId { service, id });
        true
    }

    /// The operating mode.
    pub(crate) fn mode(&self) -> u8
        ensures { result ≡ self.now.mode }
    {
        self.mode
    }

    pub(crate) fn set_mode(&mut self, mode: u8)
        ensures { self.new ≡ record self.old { mode = mode } }
    {
        self.mode = mode;
    }

    /// Connects, and gives the handle of the connection.
    pub(crate) fn start(&mut self) -> u32
        ensures handle { result ≡ handle_after self.old.handle }
        ensures state { self.new ≡ (starts self.old result).state }
    {
        self.handle = self.handle % u32::MAX + 1;
        self.connected = true;
        self.handle
    }

    /// Ends the connection with this handle, if there is one.
    pub(crate) fn stop(&mut self, handle: u32) -> bool
        ensures stopped { result ≡ (self.old.connected && handle == self.old.handle) }
        ensures state { self.new ≡ (stops self.old handle).state }
    {
        if self.connected && handle == self.handle {
            self.connected = false;
            true
        } else {
            false
        }
    }

    pub(crate) fn is_connected(&self) -> bool
        ensures { result ≡ self.now.connected }
    {
        self.connected
    }

    /// The number of a message that is sent.
    pub(crate) fn send(&mut self) -> u16
        ensures number { result ≡ number_after 65535 self.old.sent }
        ensures state { self.new ≡ (sends self.old result).state }
    {
        self.sent = self.sent % u16::MAX + 1;
        self.sent
    }

    /// The stored messages by their index, None where one was deleted.
    pub(crate) fn messages(&self) -> &[Option<Octets>]
        ensures { result.now ≡ self.now.messages }
    {
        &self.messages
    }

    /// The message that is stored with this index.
    pub(crate) fn message(&self, index: u32) -> Option<&Octets>
        ensures { option_map (λ message. message.now) result ≡ message_at self.now index }
    {
        self.messages.get(index as usize)?.as_ref()
    }

    /// Deletes the message with this index, if there is one. The others keep their indexes.
    pub(crate) fn delete(&mut self, index: u32) -> bool
        ensures deleted { result ≡ is_some (message_at self.old index) }
        ensures state { self.new ≡ (deletes self.old index (message_at self.old index)).state }
    {
        if self.message(index).is_none() {
            return false;
        }
        self.messages[index as usize] = None;
        true
    }
}

// A copy of each message.
fn stored(alloc: Global, messages: &[Octets]) -> Result<Vec<Option<Octets>>, AllocError>
    requires short { AllByRecursion (λ message. length message ≤ 255) messages.now }
    requires count { length messages.now ≤ 100 }
    ensures copies { IfOk result (λ stored. stored.items ≡ map Some messages.now) }
    ensures stored { IfOk result (λ stored. are_stored stored.items ≡ true) }
{
    let mut stored = Vec::new(alloc);
    for message in messages {
        let copy = copy(alloc, message.as_slice())?;
        stored.push(Some(copy))?;
    }
    Ok(stored)
}

fn copy(alloc: Global, message: &[u8]) -> Result<Octets, AllocError>
    requires { length message.now ≤ 255 }
    ensures copy { IfOk result (λ copy. copy ≡ message.now) }
    ensures stored { is_stored (Some message.now) ≡ true }
{
    Octets::from_slice(alloc, message)
}
