ghost use Rattle.std.specs.Prelude.{◌≡◌, ℕ, Bool, Some, None, reverse, IfOk};
ghost use Rattle.hub_io.specs.Hub.{FitsBuffer, NamesRise, ToldOfThose};
ghost use Rattle.many_io.specs.Hub.{told_without_device, IsOfDevice};

use hub_io::{Hub, HubCall, HubEvent};
use kit_io::{Failed, Log};
use link_io::Target;
use many_io::{ManyHub, ManyHubEvent};
use std::alloc::{AllocError, Global};

/// The calls on a hub of several devices, and the device of each. One that is of no device, or of all,
/// is of device 0.
#[derive(Drop)]
pub struct DeviceCalls {
    calls: Log<HubCall>,
    devices: Log<usize>,
}

/// A hub of several devices, made of a hub in memory of one: what that tells of its modem, it tells of
/// the modem of the device that is next in a list. It tells that the serving is to end in place of what
/// is told of a device that there isn't.
///
/// Its calls are told to whoever compares them, by its log, and not to proofs.
#[derive(Drop)]
pub struct MemManyHub<H> {
    devices: usize,
    hub: H,
    // The device of each event that is still to come, the next one last.
    coming: Vec<usize>,
    log: DeviceCalls,
}

impl DeviceCalls {
    fn new(alloc: Global, room: usize, bytes_room: usize) -> Result<Self, AllocError> {
        Ok(DeviceCalls {
            calls: Log::new(alloc, room, bytes_room)?,
            devices: Log::new(alloc, room, 0)?,
        })
    }

    /// The calls so far, the oldest first.
    pub fn calls(&self) -> &Log<HubCall> {
        &self.calls
    }

    /// The device of each.
    pub fn devices(&self) -> &Log<usize> {
        &self.devices
    }

    fn note(&mut self, device: usize, call: HubCall, bytes: &[u8]) {
        self.calls.note(call, bytes);
        self.devices.note(device, &[]);
    }

    // An opening, and the devices that it named.
    fn note_opening(&mut self, socket: &str, targets: &[Target], ok: bool) {
        self.note(0, HubCall::Opened { ok }, socket.as_bytes());
        for (device, target) in targets.iter().enumerate() {
            match target {
                Target::Socket(path) => {
                    self.note(device, HubCall::ToSocket, path.as_str().as_bytes());
                }
                Target::Bridge(path) => {
                    self.note(device, HubCall::ToBridge, path.as_str().as_bytes());
                }
            }
        }
    }
}

impl<H: Drop> MemManyHub<H> {
    /// A hub of so many devices. Its events are those of a hub of one, each of the device that stands at
    /// the same place in a list, and of device 0 where the list has ended. It has room to tell of so many
    /// calls, and of so many bytes of theirs in all; each device that is opened is as a call.
    pub fn new(
        alloc: Global,
        devices: usize,
        hub: H,
        mut coming: Vec<usize>,
        room: usize,
        bytes_room: usize,
    ) -> Result<Self, AllocError>
        ensures devices { IfOk result (λ many. many.devices ≡ devices) }
        ensures hub { IfOk result (λ many. many.hub ≡ hub) }
        ensures coming { IfOk result (λ many. many.coming.items ≡ reverse coming.items) }
    {
        coming.reverse();
        Ok(MemManyHub {
            devices,
            hub,
            coming,
            log: DeviceCalls::new(alloc, room, bytes_room)?,
        })
    }

    /// The calls so far.
    pub fn log(&self) -> &DeviceCalls {
        &self.log
    }

    /// For how many devices it has room.
    pub fn devices(&self) -> usize
        ensures { result ≡ self.now.devices }
    {
        self.devices
    }
}

// What a hub of one device tells, as it is told of this one of so many devices.
fn of_device(told: HubEvent, device: usize, devices: usize) -> ManyHubEvent
    ensures fits { (room : ℕ) → FitsBuffer told room → FitsBuffer (told_without_device result) room }
    ensures device { IsOfDevice result devices }
    ensures names { (old new : ℕ) → NamesRise (Some told) old new → NamesRise (Some (told_without_device result)) old new }
    ensures clients { (old new : ℕ → Bool) → ToldOfThose (Some told) old new → ToldOfThose (Some (told_without_device result)) old new }
{
    match told {
        HubEvent::Joined(conn) => ManyHubEvent::Joined(conn),
        HubEvent::Piece(conn, size) => ManyHubEvent::Piece(conn, size),
        HubEvent::Left(conn) => ManyHubEvent::Left(conn),
        HubEvent::Now(time) => ManyHubEvent::Now(time),
        HubEvent::Room(conn) => ManyHubEvent::Room(conn),
        HubEvent::ModemPiece(size) if device < devices => ManyHubEvent::ModemPiece(device, size),
        HubEvent::ModemGone if device < devices => ManyHubEvent::ModemGone(device),
        HubEvent::ModemRoom if device < devices => ManyHubEvent::ModemRoom(device),
        _ => ManyHubEvent::Stop,
    }
}

// The bytes of an event, which stand at the buffer's front.
fn bytes_of(event: HubEvent, buf: &[u8]) -> &[u8] {
    match event {
        HubEvent::Piece(_, size) | HubEvent::ModemPiece(size) => buf.get(..size).unwrap_or(&[]),
        _ => &[],
    }
}

impl<H: Hub> ManyHub for MemManyHub<H> {
    ghost calls = { λ _. None };

    ghost faults = { λ s. H.Hub.faults s.hub };

    ghost conn_faults = { λ s. H.Hub.conn_faults s.hub };

    ghost modem_faults = { λ s device. H.Hub.modem_faults s.hub };

    ghost greatest = { λ s. H.Hub.greatest s.hub };

    ghost is_connected = { λ s. H.Hub.is_connected s.hub };

    ghost devices = { λ s. s.devices };

    ghost made = { λ s. H.Hub.made s.hub };

    fn made(&self) -> u64 {
        Hub::made(&self.hub)
    }

    fn open(&mut self, socket: &str, targets: &[Target]) -> Result<(), Failed> {
        let opened = Hub::open(&mut self.hub, socket, targets.first());
        self.log.note_opening(socket, targets, opened.is_ok());
        opened
    }

    fn pair(&mut self) -> Result<(), Failed> {
        let paired = Hub::pair(&mut self.hub);
        let ok = paired.is_ok();
        self.log.note(0, HubCall::Paired { ok }, &[]);
        paired
    }

    fn next(&mut self, buf: &mut [u8]) -> Result<ManyHubEvent, Failed> {
        let device = self.coming.pop().unwrap_or(0);
        match Hub::next(&mut self.hub, buf) {
            Ok(told) => {
                let call = HubCall::Told(told);
                self.log.note(device, call, bytes_of(told, buf));
                Ok(of_device(told, device, self.devices))
            }
            Err(Failed) => {
                self.log.note(0, HubCall::NextFailed, &[]);
                Err(Failed)
            }
        }
    }

    fn send(&mut self, conn: u64, bytes: &[u8]) -> Result<usize, Failed> {
        let sent = Hub::send(&mut self.hub, conn, bytes);
        let call = match sent {
            Ok(taken) => HubCall::Sent { conn, taken },
            Err(Failed) => HubCall::SendFailed { conn },
        };
        self.log.note(0, call, bytes);
        sent
    }

    fn send_modem(&mut self, device: usize, bytes: &[u8]) -> Result<usize, Failed> {
        let sent = Hub::send_modem(&mut self.hub, bytes);
        let call = match sent {
            Ok(taken) => HubCall::SentModem { taken },
            Err(Failed) => HubCall::SendModemFailed,
        };
        self.log.note(device, call, bytes);
        sent
    }

    fn reopen_modem(&mut self, device: usize) -> Result<(), Failed> {
        let reopened = Hub::reopen_modem(&mut self.hub);
        let call = match reopened {
            Ok(()) => HubCall::Reopened,
            Err(Failed) => HubCall::ReopenFailed,
        };
        self.log.note(device, call, &[]);
        reopened
    }

    fn hang_up(&mut self, conn: u64) {
        Hub::hang_up(&mut self.hub, conn);
        self.log.note(0, HubCall::HungUp { conn }, &[]);
    }
}
