//! The sockets of a hub, and what is told of them. No clause says what a socket gives or takes.
ghost use Rattle.std.specs.Prelude.{◌≡◌, ◌<◌, ◌≤◌, ℕ, true, false, None, length, is_ok, IsSome, IfSome, IfOk, OnOk};
ghost use Rattle.std.specs.Option.{option_map};
ghost use Rattle.std.specs.Result.{result_ok};
ghost use Rattle.hub_io.specs.Clients.{is_there, TellsOf};
ghost use Rattle.hub_io.specs.Hub.{FitsBuffer, GoesAlone, NamesRise, ToldOfThose};
ghost use Rattle.hub_io.specs.declared.hub.HubEvent.TheVariants.{Joined};
ghost use Rattle.many_io.specs.Hub.{IsOfDevice, told_without_device};
ghost use Rattle.mio_hub.specs.Routes.{OthersStay, modem_of};

use crate::peer::{Gave, Peer};
use crate::resting::Resting;
use crate::routes::{OfModem, Routes, without_waiting};
use crate::ticker::Ticker;
use crate::tokens::{LISTENER, device_of};
use hub_io::{NEXT_ROOM, Names, PLACES, place_of};
use kit_bytes::{ConnId, Text};
use link_io::Target;
use many_io::ManyHubEvent;
use mio::event::Event;
use mio::net::UnixStream;
use mio::unix::SourceFd;
use mio::{Events, Interest, Poll, Token};
use slab::Slab;
use std::alloc::Global;
use std::fs::{File, Files};
use std::io;
use std::io::ErrorKind;
use std::net::Net;
use std::os::fd::AsRawFd;
use std::rt::Clock;
use unix_link::{Bridge, Listening, are_same, left_over};

/// The sockets of a hub. One wait finds many events, which are then told one by one.
#[derive(Drop)]
pub(crate) struct Sockets<'a, R: Files> {
    rt: &'a R,
    alloc: Global,
    poll: Poll,
    events: Events,
    /// Which of the events is told next.
    at: usize,
    ticker: Ticker,
    listening: Option<Listening<'a, R>>,
    /// A client may wait that wasn't let in.
    is_crowded: bool,
    /// One wasn't let in though nobody is there, and so none ever will be.
    is_barred: bool,
    /// By the places of their names.
    clients: Slab<Peer>,
    /// Who is there.
    pub(crate) names: Names,
    resting: Resting,
    /// To the modems, by their devices.
    pub(crate) routes: Routes,
    /// Where the pumps of devices connect that are reached over them.
    bridges: Vec<(usize, Bridge<'a, R>)>,
}

impl<'a, R: Net + Clock + Files<File = File>> Sockets<'a, R> {
    /// Sockets for so many devices that aren't open. They take the memory of their tables here.
    pub(crate) fn new(rt: &'a R, alloc: Global, devices: usize) -> io::Result<Self> {
        Ok(Sockets {
            rt,
            alloc,
            poll: Poll::new(rt)?,
            events: Events::with_capacity(alloc, PLACES)?,
            at: 0,
            ticker: Ticker::start(rt)?,
            listening: None,
            is_crowded: false,
            is_barred: false,
            clients: Slab::with_capacity(alloc, PLACES)?,
            names: Names::none(alloc)?,
            resting: Resting::nobody(),
            routes: Routes::closed(alloc, devices)?,
            bridges: Vec::with_capacity(alloc, devices)?,
        })
    }

    /// Opens the device, where one is named, and listens on a socket of its owner alone. What stands
    /// at its path stays as it is, but for a socket to which nobody listens.
    pub(crate) fn open(&mut self, socket: &str, target: Option<&Target>) -> io::Result<()>
        ensures listens { OnOk result (IsSome self.new.listening) }
        ensures names { self.new.names ≡ self.old.names }
    {
        if let Some(target) = target {
            look_apart(self.rt, socket, target)?;
        }
        left_over(self.rt, socket)?;
        if let Some(target) = target
            && self.lead(0, target)?
        {
            self.open_device(0)?;
        }
        self.listen(socket)
    }

    /// The same with several devices, one that can't be opened being lost from the start.
    pub(crate) fn open_all(&mut self, socket: &str, targets: &[Target]) -> io::Result<()>
        ensures listens { OnOk result (IsSome self.new.listening) }
        ensures names { self.new.names ≡ self.old.names }
    {
        for target in targets {
            look_apart(self.rt, socket, target)?;
        }
        left_over(self.rt, socket)?;
        for device in 0..targets.len() {
            if self.lead(device, &targets[device])? && self.open_device(device).is_err() {
                self.routes.lose(device);
            }
        }
        self.listen(socket)
    }

    /// Names a device's socket, or listens for its pumps, and tells whether it has a socket.
    fn lead(&mut self, device: usize, target: &Target) -> io::Result<bool>
        ensures names { self.new.names ≡ self.old.names }
    {
        match target {
            Target::Socket(path) => {
                let path = Text::from_str(self.alloc, path.as_str())?;
                self.routes.lead(device, path);
                Ok(true)
            }
            Target::Bridge(path) => {
                let bridge = Bridge::listen(self.rt, self.alloc, path.as_str())?;
                self.bridges.push((device, bridge))?;
                Ok(false)
            }
        }
    }

    fn listen(&mut self, socket: &str) -> io::Result<()>
        ensures listens { OnOk result (IsSome self.new.listening) }
        ensures names { self.new.names ≡ self.old.names }
    {
        let listening = Listening::start(self.rt, self.alloc, socket)?;
        let registry = self.poll.registry();
        let mut source = SourceFd(&listening.as_raw_fd());
        registry.register(&mut source, LISTENER, Interest::READABLE)?;
        self.listening = Some(listening);
        self.ticker = Ticker::start(self.rt)?;
        Ok(())
    }

    /// Connects to a device whose socket was named at the opening. Where pumps reach it, what is left
    /// of their line is closed, so that they end.
    pub(crate) fn open_device(&mut self, device: usize) -> io::Result<()>
        ensures reached { OnOk result (IsSome (modem_of self.new.routes.routes.items device)) }
        ensures closed { is_ok result ≡ false → modem_of self.new.routes.routes.items device ≡ None }
        ensures others { OthersStay device self.old.routes.routes.items self.new.routes.routes.items }
        ensures names { self.new.names ≡ self.old.names }
    {
        self.routes
            .open(self.rt, self.alloc, self.poll.registry(), device)
    }

    /// Waits for the pumps of the first bridge that was named at the opening.
    pub(crate) fn pair(&mut self) -> io::Result<()>
        ensures reached { OnOk result (IsSome (modem_of self.new.routes.routes.items 0)) }
        ensures names { self.new.names ≡ self.old.names }
    {
        let Some((_, bridge)) = self.bridges.first() else {
            return Err(ErrorKind::NotFound.into());
        };
        let pumps = bridge.pair()?;
        self.routes.pair(self.alloc, self.poll.registry(), 0, pumps)
    }

    /// Waits for the pumps of each bridge that was named at the opening, one after the other. A device
    /// whose pumps don't come is lost.
    pub(crate) fn pair_all(&mut self) -> io::Result<()>
        ensures names { self.new.names ≡ self.old.names }
    {
        if self.bridges.is_empty() {
            return Err(ErrorKind::NotFound.into());
        }
        for (device, bridge) in &self.bridges {
            let paired = match bridge.pair() {
                Ok(pumps) => self
                    .routes
                    .pair(self.alloc, self.poll.registry(), *device, pumps),
                Err(error) => Err(error),
            };
            if paired.is_err() {
                self.routes.lose(*device);
            }
        }
        Ok(())
    }

    /// Waits for the next event, of one of so many devices where it is of a modem.
    pub(crate) fn next(&mut self, devices: usize, buf: &mut [u8]) -> io::Result<ManyHubEvent>
        requires { length buf.old ≡ NEXT_ROOM }
        ensures fits { IfOk result (λ event. FitsBuffer (told_without_device event) NEXT_ROOM) }
        ensures device { IfOk result (λ event. IsOfDevice event devices) }
        ensures names { NamesRise (option_map told_without_device (result_ok result)) self.old.names.greatest self.new.names.greatest }
        ensures clients { ToldOfThose (option_map told_without_device (result_ok result)) (is_there self.old.names) (is_there self.new.names) }
    {
        for _ in 0..u64::MAX {
            if self.is_barred {
                break;
            }
            if let Some(device) = self.routes.next_lost(devices) {
                return Ok(ManyHubEvent::ModemGone(device));
            }
            if let Some(event) = self.events.iter().nth(self.at) {
                let event = *event;
                if let Some(told) = self.tell(event, devices, buf) {
                    return Ok(told);
                }
            } else if let Some(time) = self.ticker.tell() {
                // behind all that came before the clock was read
                return Ok(ManyHubEvent::Now(time));
            } else {
                self.wait()?;
            }
        }
        Err(ErrorKind::Other.into())
    }

    /// Waits for events, at most until the time is to be told.
    fn wait(&mut self) -> io::Result<()>
        ensures names { self.new.names ≡ self.old.names }
    {
        self.at = 0;
        self.routes.write_gathered();
        self.wake_next();
        let left = self.ticker.left(self.resting.is_empty());
        match self.poll.poll(&mut self.events, Some(left)) {
            Ok(()) => {}
            // a signal came: nothing was found
            Err(error) if error.kind() == ErrorKind::Interrupted => self.events.clear(),
            Err(error) => return Err(error),
        }
        self.ticker.read(self.rt)
    }

    /// What there is to tell of an event. It is asked again until it is done with.
    fn tell(&mut self, event: Event, devices: usize, buf: &mut [u8]) -> Option<ManyHubEvent>
        requires { length buf.old ≡ NEXT_ROOM }
        ensures fits { IfSome result (λ event. FitsBuffer (told_without_device event) NEXT_ROOM) }
        ensures device { IfSome result (λ event. IsOfDevice event devices) }
        ensures len { length buf.new ≡ length buf.old }
        ensures names { TellsOf (option_map told_without_device result) self.old.names self.new.names }
    {
        if let Some(device) = device_of(event.token(), devices) {
            return self.tell_modem(device, event, buf);
        }
        match event.token() {
            LISTENER => match self.accept() {
                Some(name) => Some(ManyHubEvent::Joined(name)),
                None => None,
            },
            Token(name) => self.tell_client(name as u64, event, buf),
        }
    }

    /// The event at hand has told all.
    fn done(&mut self)
        ensures names { self.new.names ≡ self.old.names }
    {
        self.at = self.at.saturating_add(1);
    }

    /// Lets the next client in, and tells its name. One that can't be let in is closed, or waits.
    fn accept(&mut self) -> Option<u64>
        ensures names { TellsOf (option_map Joined result) self.old.names self.new.names }
    {
        let place = self.clients.vacant_key();
        if place >= PLACES {
            self.is_crowded = true;
            self.done();
            return None;
        }
        let Some(stream) = self.take_waiting() else {
            self.done();
            return None;
        };
        let name = self.names.next(place)?;
        let peer = Peer::new(self.poll.registry(), stream, Token(name as usize)).ok()?;
        self.clients.insert(peer).ok()?;
        self.names.join(name);
        Some(name)
    }

    /// The stream of the client that waits first.
    fn take_waiting(&mut self) -> Option<UnixStream>
        ensures names { self.new.names ≡ self.old.names }
    {
        match self.listening.as_ref()?.accept().and_then(without_waiting) {
            Ok(stream) => Some(stream),
            Err(error) => {
                let is_refused = !is_passing(error.kind());
                self.is_crowded = self.is_crowded || is_refused;
                self.is_barred = is_refused && self.clients.is_empty();
                None
            }
        }
    }

    fn tell_modem(&mut self, device: usize, event: Event, buf: &mut [u8]) -> Option<ManyHubEvent>
        requires { length buf.old ≡ NEXT_ROOM }
        ensures fits { IfSome result (λ event. FitsBuffer (told_without_device event) NEXT_ROOM) }
        ensures device { (devices : ℕ) → device < devices → IfSome result (λ event. IsOfDevice event devices) }
        ensures len { length buf.new ≡ length buf.old }
        ensures names { TellsOf (option_map told_without_device result) self.old.names self.new.names }
    {
        let told = self.routes.tell(device, self.poll.registry(), &event, buf);
        if told.is_last {
            self.done();
        }
        match told.of {
            OfModem::Piece(count) => Some(ManyHubEvent::ModemPiece(device, count)),
            OfModem::Room => Some(ManyHubEvent::ModemRoom(device)),
            OfModem::Gone => Some(ManyHubEvent::ModemGone(device)),
            OfModem::Nothing => None,
        }
    }

    fn tell_client(&mut self, name: ConnId, event: Event, buf: &mut [u8]) -> Option<ManyHubEvent>
        requires { length buf.old ≡ NEXT_ROOM }
        ensures fits { IfSome result (λ event. FitsBuffer (told_without_device event) NEXT_ROOM) }
        ensures device { (devices : ℕ) → IfSome result (λ event. IsOfDevice event devices) }
        ensures len { length buf.new ≡ length buf.old }
        ensures names { TellsOf (option_map told_without_device result) self.old.names self.new.names }
    {
        let Some(peer) = peer_of(&mut self.clients, &self.names, name) else {
            self.done();
            return None;
        };
        if peer.finds_room(&event) {
            return Some(ManyHubEvent::Room(name));
        }
        let began = peer.pace.begin(self.rt);
        let registry = self.poll.registry();
        let reading = peer.read(registry, &event, buf);
        let rests = match reading.gave {
            Gave::Bytes(count) => peer.rests_behind(self.rt, registry, count, began),
            Gave::Nothing | Gave::End => false,
        };
        if reading.is_last {
            self.done();
        }
        match reading.gave {
            Gave::Bytes(count) => {
                if rests {
                    self.rest(name);
                }
                Some(ManyHubEvent::Piece(name, count))
            }
            Gave::Nothing => None,
            Gave::End => {
                self.hang_up(name);
                Some(ManyHubEvent::Left(name))
            }
        }
    }

    /// Leaves a client alone that sends few bytes at a time, so that others needn't wait for it. Where
    /// no more can be left alone, it is read on.
    fn rest(&mut self, name: ConnId)
        ensures names { self.new.names ≡ self.old.names }
    {
        let Some(peer) = peer_of(&mut self.clients, &self.names, name) else {
            return;
        };
        if self.resting.add(name, self.ticker.micros()) {
            peer.rest(self.poll.registry());
        } else {
            peer.wake(self.poll.registry());
        }
    }

    /// Has the next client that was left alone be read again, once it is time. The others follow when
    /// the sockets were asked again.
    fn wake_next(&mut self)
        ensures names { self.new.names ≡ self.old.names }
    {
        if let Some(name) = self.resting.next(self.ticker.micros())
            && let Some(peer) = peer_of(&mut self.clients, &self.names, name)
        {
            peer.wake(self.poll.registry());
        }
    }

    /// Writes to a client's socket.
    pub(crate) fn send(&mut self, name: ConnId, bytes: &[u8]) -> io::Result<usize>
        ensures there { OnOk result (is_there self.old.names name ≡ true) }
        ensures within { IfOk result (λ count. count ≤ length bytes.now) }
        ensures names { self.new.names ≡ self.old.names }
    {
        match peer_of(&mut self.clients, &self.names, name) {
            Some(peer) => peer.write(bytes),
            None => Err(ErrorKind::NotConnected.into()),
        }
    }

    /// Takes bytes for a device's modem. One that fails is closed.
    pub(crate) fn send_modem(&mut self, device: usize, bytes: &[u8]) -> io::Result<usize>
        ensures reached { OnOk result (IsSome (modem_of self.old.routes.routes.items device)) }
        ensures lost { is_ok result ≡ false → modem_of self.new.routes.routes.items device ≡ None }
        ensures others { OthersStay device self.old.routes.routes.items self.new.routes.routes.items }
        ensures within { IfOk result (λ count. count ≤ length bytes.now) }
        ensures names { self.new.names ≡ self.old.names }
    {
        let is_last = self.at >= self.events.iter().len();
        self.routes.send(device, bytes, is_last)
    }

    /// Closes a client's socket, and asks again for clients that wait.
    pub(crate) fn hang_up(&mut self, name: ConnId)
        ensures clients { GoesAlone name (is_there self.old.names) (is_there self.new.names) }
        ensures names { self.new.names.greatest ≡ self.old.names.greatest }
    {
        if !self.names.has(name) {
            return;
        }
        self.names.leave(name);
        self.clients.try_remove(place_of(name));
        if let Some(listening) = &self.listening
            && self.is_crowded
        {
            self.is_crowded = false;
            let registry = self.poll.registry();
            let mut source = SourceFd(&listening.as_raw_fd());
            let _ = registry.reregister(&mut source, LISTENER, Interest::READABLE);
        }
    }
}

/// Nobody waits, or who waited went, or a signal came. Any other fault stays, as where no descriptor is
/// left.
fn is_passing(kind: ErrorKind) -> bool {
    matches!(
        kind,
        ErrorKind::WouldBlock | ErrorKind::ConnectionAborted | ErrorKind::Interrupted
    )
}

/// Fails where the path leads to a device's socket.
fn look_apart<R: Net + Files>(rt: &R, socket: &str, target: &Target) -> io::Result<()> {
    if let Target::Socket(path) = target
        && are_same(rt, socket, path.as_str())
    {
        return Err(ErrorKind::AlreadyExists.into());
    }
    Ok(())
}

/// The socket of the client of this name, where it is there.
fn peer_of<'a>(clients: &'a mut Slab<Peer>, names: &Names, name: ConnId) -> Option<&'a mut Peer>
    ensures { IsSome result → is_there names.now name ≡ true }
{
    if names.has(name) {
        clients.get_mut(place_of(name))
    } else {
        None
    }
}
