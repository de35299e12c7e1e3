//! The routes to a hub's modems, by their devices.
ghost use Rattle.std.specs.Prelude.{◌≡◌, ◌<◌, ◌≤◌, ℕ, false, None, length, is_ok, IsSome, IfOk, IfSome, OnOk};
ghost use Rattle.mio_hub.specs.Routes.{OfModemFits, OthersStay, modem_of};

use crate::line::Line;
use crate::modem::Modem;
use crate::peer::{Gave, Peer};
use crate::tokens::{modem_token, output_token};
use kit_bytes::Text;
use mio::Registry;
use mio::event::Event;
use mio::net::UnixStream;
use std::alloc::{AllocError, Global};
use std::io;
use std::io::ErrorKind;
use std::net::Net;
use std::os::unix::net;
use unix_link::Pumps;

/// What there is to tell of a modem.
#[derive(Clone, Copy)]
pub(crate) enum OfModem {
    /// So many bytes of it stand at the front of the buffer.
    Piece(usize),
    /// It takes bytes again.
    Room,
    Gone,
    Nothing,
}

/// What an event tells of a modem.
#[derive(Clone, Copy)]
pub(crate) struct Telling {
    pub(crate) of: OfModem,
    /// The event has told all.
    pub(crate) is_last: bool,
}

impl Telling {
    // There is no modem that it would tell of.
    fn nothing() -> Self
        ensures { (room : ℕ) → OfModemFits result.of room }
    {
        Telling {
            of: OfModem::Nothing,
            is_last: true,
        }
    }
}

/// The route to one modem.
#[derive(Drop)]
pub(crate) struct Route {
    /// The path of its socket, where it has one.
    path: Option<Text>,
    pub(crate) modem: Option<Modem>,
    /// The modem was lost, which isn't told yet.
    is_lost: bool,
}

impl Route {
    fn closed() -> Self {
        Route {
            path: None,
            modem: None,
            is_lost: false,
        }
    }

    fn open<R: Net>(
        &mut self,
        rt: &R,
        alloc: Global,
        registry: &Registry,
        device: usize,
    ) -> io::Result<()>
        ensures reached { OnOk result (IsSome self.new.modem) }
        ensures closed { is_ok result ≡ false → self.new.modem ≡ None }
    {
        drop(self.modem.take());
        let Some(path) = &self.path else {
            return Err(ErrorKind::NotFound.into());
        };
        let stream = UnixStream::connect(rt, path.as_str())?;
        let peer = Peer::new(registry, stream, modem_token(device))?;
        self.modem = Some(Modem::new(alloc, Line::of_socket(peer))?);
        self.is_lost = false;
        Ok(())
    }

    fn pair(
        &mut self,
        alloc: Global,
        registry: &Registry,
        device: usize,
        pumps: Pumps,
    ) -> io::Result<()>
        ensures reached { OnOk result (IsSome self.new.modem) }
    {
        let input = without_waiting(pumps.read)?;
        let input = Peer::new(registry, input, modem_token(device))?;
        let output = without_waiting(pumps.write)?;
        let output = Peer::new(registry, output, output_token(device))?;
        self.modem = Some(Modem::new(alloc, Line::of_pumps(input, output))?);
        Ok(())
    }

    fn send(&mut self, bytes: &[u8], is_last: bool) -> io::Result<usize>
        ensures reached { OnOk result (IsSome self.old.modem) }
        ensures lost { is_ok result ≡ false → self.new.modem ≡ None }
        ensures within { IfOk result (λ count. count ≤ length bytes.now) }
    {
        let sent = match &mut self.modem {
            Some(modem) => modem.take(bytes, is_last),
            None => Err(ErrorKind::NotConnected.into()),
        };
        if sent.is_err() {
            self.modem = None;
        }
        sent
    }

    // It is asked again until the event is done with.
    fn tell(&mut self, registry: &Registry, event: &Event, buf: &mut [u8]) -> Telling
        requires { 0 < length buf.old }
        ensures fits { OfModemFits result.of (length buf.new) }
        ensures len { length buf.new ≡ length buf.old }
    {
        let Some(modem) = &mut self.modem else {
            return Telling::nothing();
        };
        match modem.finds_room(event) {
            Ok(false) => {}
            Ok(true) => {
                return Telling {
                    of: OfModem::Room,
                    is_last: false,
                };
            }
            Err(_) => {
                self.modem = None;
                return Telling {
                    of: OfModem::Gone,
                    is_last: false,
                };
            }
        }
        let reading = modem.read(registry, event, buf);
        let of = match reading.gave {
            Gave::Bytes(count) => OfModem::Piece(count),
            Gave::Nothing => OfModem::Nothing,
            Gave::End => OfModem::Gone,
        };
        if matches!(of, OfModem::Gone) {
            self.modem = None;
        }
        Telling {
            of,
            is_last: reading.is_last,
        }
    }

    // Writes what was gathered, and tells whether the modem was lost by that.
    fn write_gathered(&mut self) -> bool {
        if let Some(modem) = &mut self.modem
            && modem.write_gathered().is_err()
        {
            self.modem = None;
            self.is_lost = true;
        }
        self.is_lost
    }
}

/// The routes to all devices.
#[derive(Drop)]
pub(crate) struct Routes {
    pub(crate) routes: Vec<Route>,
    /// Some modem may have been lost, which isn't told yet.
    has_lost: bool,
    /// Bytes may be gathered for some modem.
    has_gathered: bool,
}

impl Routes {
    /// The routes to so many devices, none of which is open. It takes the memory for them here.
    pub(crate) fn closed(alloc: Global, devices: usize) -> Result<Self, AllocError> {
        let mut routes = Vec::with_capacity(alloc, devices)?;
        for _ in 0..devices {
            routes.push(Route::closed())?;
        }
        Ok(Routes {
            routes,
            has_lost: false,
            has_gathered: false,
        })
    }

    /// Names a device's socket, to which its route leads from here on.
    pub(crate) fn lead(&mut self, device: usize, path: Text) {
        if let Some(route) = self.routes.get_mut(device) {
            route.path = Some(path);
        }
    }

    /// Connects to the device whose socket was named. What is left of a line to it is closed.
    pub(crate) fn open<R: Net>(
        &mut self,
        rt: &R,
        alloc: Global,
        registry: &Registry,
        device: usize,
    ) -> io::Result<()>
        ensures reached { OnOk result (IsSome (modem_of self.new.routes.items device)) }
        ensures closed { is_ok result ≡ false → modem_of self.new.routes.items device ≡ None }
        ensures others { OthersStay device self.old.routes.items self.new.routes.items }
    {
        match self.routes.get_mut(device) {
            Some(route) => route.open(rt, alloc, registry, device),
            None => Err(ErrorKind::NotFound.into()),
        }
    }

    /// Has a device be reached over its pumps.
    pub(crate) fn pair(
        &mut self,
        alloc: Global,
        registry: &Registry,
        device: usize,
        pumps: Pumps,
    ) -> io::Result<()>
        ensures reached { OnOk result (IsSome (modem_of self.new.routes.items device)) }
        ensures others { OthersStay device self.old.routes.items self.new.routes.items }
    {
        match self.routes.get_mut(device) {
            Some(route) => route.pair(alloc, registry, device, pumps),
            None => Err(ErrorKind::NotFound.into()),
        }
    }

    /// Takes bytes for a device's modem. One that fails is closed.
    pub(crate) fn send(&mut self, device: usize, bytes: &[u8], is_last: bool) -> io::Result<usize>
        ensures reached { OnOk result (IsSome (modem_of self.old.routes.items device)) }
        ensures lost { is_ok result ≡ false → modem_of self.new.routes.items device ≡ None }
        ensures others { OthersStay device self.old.routes.items self.new.routes.items }
        ensures within { IfOk result (λ count. count ≤ length bytes.now) }
    {
        self.has_gathered = self.has_gathered || !is_last;
        match self.routes.get_mut(device) {
            Some(route) => route.send(bytes, is_last),
            None => Err(ErrorKind::NotConnected.into()),
        }
    }

    /// What there is to tell of a device's modem by an event. It is asked again until the event is done
    /// with. A modem that is gone is closed.
    pub(crate) fn tell(
        &mut self,
        device: usize,
        registry: &Registry,
        event: &Event,
        buf: &mut [u8],
    ) -> Telling
        requires { 0 < length buf.old }
        ensures fits { OfModemFits result.of (length buf.new) }
        ensures len { length buf.new ≡ length buf.old }
        ensures others { OthersStay device self.old.routes.items self.new.routes.items }
    {
        match self.routes.get_mut(device) {
            Some(route) => route.tell(registry, event, buf),
            None => Telling::nothing(),
        }
    }

    /// Closes what is left of a device's line, whose loss is told later.
    pub(crate) fn lose(&mut self, device: usize)
        ensures closed { modem_of self.new.routes.items device ≡ None }
        ensures others { OthersStay device self.old.routes.items self.new.routes.items }
    {
        if let Some(route) = self.routes.get_mut(device) {
            route.modem = None;
            route.is_lost = true;
            self.has_lost = true;
        }
    }

    /// A device whose modem was lost, which wasn't told before: the first of them.
    pub(crate) fn next_lost(&mut self, devices: usize) -> Option<usize>
        ensures { IfSome result (λ device. device < devices) }
    {
        if !self.has_lost {
            return None;
        }
        for device in 0..devices {
            if let Some(route) = self.routes.get_mut(device)
                && route.is_lost
            {
                route.is_lost = false;
                return Some(device);
            }
        }
        self.has_lost = false;
        None
    }

    /// Writes what was gathered for the modems. A loss is told later.
    pub(crate) fn write_gathered(&mut self) {
        if !self.has_gathered {
            return;
        }
        self.has_gathered = false;
        for device in 0..self.routes.len() {
            if let Some(route) = self.routes.get_mut(device)
                && route.write_gathered()
            {
                self.has_lost = true;
            }
        }
    }
}

/// A stream that is read and written without waiting.
pub(crate) fn without_waiting(stream: net::UnixStream) -> io::Result<UnixStream> {
    stream.set_nonblocking(true)?;
    Ok(UnixStream::from_std(stream))
}
