ghost use Rattle.std.specs.Prelude.{◌≡◌, ◌<◌, ◌≤◌, ◌+◌, ◌%◌, true, false, None, length, is_ok, IsSome, IfOk, OnOk};
ghost use Rattle.kit_io.specs.Causes.{HasCause};
ghost use Rattle.kit_io.specs.Counts.{one_more};
ghost use Rattle.hub_io.specs.Clients.{fault_of, is_there};
ghost use Rattle.hub_io.specs.Hub.{NoneFell, SameClients};
ghost use Rattle.hub_io.specs.Record.{Records};
ghost use Rattle.many_io.specs.Hub.{opened_call, reopen_call, send_call, send_modem_call};
ghost use Rattle.many_io.specs.Record.{Paired};
ghost use Rattle.mio_hub.specs.Routes.{OthersStay, modem_fault_of, modem_of};

use crate::sockets::Sockets;
use hub_io::{ConnFaults, PLACES};
use kit_bytes::ConnId;
use kit_io::{CallCount, Failed, Faults};
use link_io::Target;
use many_io::{ManyHub, ManyHubEvent};
use std::alloc::Global;
use std::fs::{File, Files};
use std::io;
use std::net::Net;
use std::rt::Clock;

/// A hub of several devices over Unix sockets: as `MioHub`, with a modem for each of them. It tells no
/// content, and is trusted with it.
///
/// A device that can't be opened costs the others nothing: it is lost from the start, which is told
/// first, and can be reopened. One whose pumps don't come is lost too, and the pairing fails only where
/// there is no bridge. The pumps of one device are waited for behind those of another.
///
/// What `send_modem` took is written at the last of the events that one wait found, or when it waits
/// next. A silent device is asked nothing.
#[derive(Drop)]
pub struct MioManyHub<'a, R: Files> {
    devices: usize,
    sockets: Sockets<'a, R>,
    faults: Faults,
    conn_faults: ConnFaults,
    /// By names that the devices have there.
    modem_faults: ConnFaults,
    made: CallCount,
}

impl<'a, R: Net + Clock + Files<File = File>> MioManyHub<'a, R> {
    /// A hub for so many devices that isn't open. It takes the memory of its tables here.
    pub fn new(rt: &'a R, alloc: Global, devices: usize) -> io::Result<Self>
        ensures { IfOk result (λ hub. hub.devices ≡ devices) }
    {
        Ok(MioManyHub {
            devices,
            sockets: Sockets::new(rt, alloc, devices)?,
            faults: Faults::none(),
            conn_faults: ConnFaults::none(alloc)?,
            modem_faults: ConnFaults::none(alloc)?,
            made: CallCount::none(),
        })
    }
}

// The name under which the faults of a device's modem are counted, as if it were a client's.
fn name_of(device: usize) -> u64
    ensures { result ≡ (device % PLACES) + 1 }
{
    (device % PLACES) as u64 + 1
}

impl<R: Net + Clock + Files<File = File>> ManyHub for MioManyHub<'_, R> {
    ghost calls = { λ _. None };

    ghost faults = { λ s. s.faults };

    ghost conn_faults = { λ s conn. fault_of s.conn_faults conn };

    ghost modem_faults = { λ s device. modem_fault_of s.modem_faults device };

    ghost greatest = { λ s. s.sockets.names.greatest };

    ghost is_connected = { λ s conn. is_there s.sockets.names conn };

    ghost devices = { λ s. s.devices };

    ghost made = { λ s. s.made };

    fn made(&self) -> u64 {
        self.made.value()
    }

    fn open(&mut self, socket: &str, targets: &[Target]) -> Result<(), Failed>
        ensures calls { Records None (opened_call result socket.now targets.now) None }
        ensures cause { HasCause self.old.faults self.new.faults result }
        ensures conns { NoneFell (fault_of self.old.conn_faults) (fault_of self.new.conn_faults) }
        ensures modems { NoneFell (modem_fault_of self.old.modem_faults) (modem_fault_of self.new.modem_faults) }
        ensures names { self.new.sockets.names.greatest ≡ self.old.sockets.names.greatest }
        ensures clients { SameClients (is_there self.old.sockets.names) (is_there self.new.sockets.names) }
        ensures devices { self.new.devices ≡ self.old.devices }
        ensures made { self.new.made ≡ one_more self.old.made }
        ensures listens { OnOk result (IsSome self.new.sockets.listening) }
    {
        self.made.add();
        match self.sockets.open_all(socket, targets) {
            Ok(()) => Ok(()),
            Err(_) => Err(self.faults.fail()),
        }
    }

    fn pair(&mut self) -> Result<(), Failed> {
        self.made.add();
        match self.sockets.pair_all() {
            Ok(()) => Ok(()),
            Err(_) => Err(self.faults.fail()),
        }
    }

    fn next(&mut self, buf: &mut [u8]) -> Result<ManyHubEvent, Failed> {
        self.made.add();
        match self.sockets.next(self.devices, buf) {
            Ok(event) => Ok(event),
            Err(_) => Err(self.faults.fail()),
        }
    }

    fn send(&mut self, conn: ConnId, bytes: &[u8]) -> Result<usize, Failed>
        ensures within { IfOk result (λ count. count ≤ length bytes.now) }
        ensures calls { Records None (send_call result conn bytes.now) None }
        ensures cause { HasCause (fault_of self.old.conn_faults conn) (fault_of self.new.conn_faults conn) result }
        ensures own { self.old.faults ≤ self.new.faults }
        ensures conns { NoneFell (fault_of self.old.conn_faults) (fault_of self.new.conn_faults) }
        ensures modems { NoneFell (modem_fault_of self.old.modem_faults) (modem_fault_of self.new.modem_faults) }
        ensures names { self.new.sockets.names.greatest ≡ self.old.sockets.names.greatest }
        ensures clients { SameClients (is_there self.old.sockets.names) (is_there self.new.sockets.names) }
        ensures devices { self.new.devices ≡ self.old.devices }
        ensures made { self.new.made ≡ one_more self.old.made }
        ensures there { OnOk result (is_there self.old.sockets.names conn ≡ true) }
    {
        self.made.add();
        match self.sockets.send(conn, bytes) {
            Ok(count) => Ok(count),
            Err(_) => Err(self.conn_faults.fail(conn)),
        }
    }

    fn send_modem(&mut self, device: usize, bytes: &[u8]) -> Result<usize, Failed>
        requires device { device < self.old.devices }
        ensures within { IfOk result (λ count. count ≤ length bytes.now) }
        ensures calls { Records None (send_modem_call result device bytes.now) None }
        ensures cause { HasCause (modem_fault_of self.old.modem_faults device) (modem_fault_of self.new.modem_faults device) result }
        ensures own { self.old.faults ≤ self.new.faults }
        ensures conns { NoneFell (fault_of self.old.conn_faults) (fault_of self.new.conn_faults) }
        ensures modems { NoneFell (modem_fault_of self.old.modem_faults) (modem_fault_of self.new.modem_faults) }
        ensures names { self.new.sockets.names.greatest ≡ self.old.sockets.names.greatest }
        ensures clients { SameClients (is_there self.old.sockets.names) (is_there self.new.sockets.names) }
        ensures devices { self.new.devices ≡ self.old.devices }
        ensures made { self.new.made ≡ one_more self.old.made }
        ensures reached { OnOk result (IsSome (modem_of self.old.sockets.routes.routes.items device)) }
        ensures lost { is_ok result ≡ false → modem_of self.new.sockets.routes.routes.items device ≡ None }
        ensures others { OthersStay device self.old.sockets.routes.routes.items self.new.sockets.routes.routes.items }
    {
        self.made.add();
        match self.sockets.send_modem(device, bytes) {
            Ok(count) => Ok(count),
            Err(_) => Err(self.modem_faults.fail(name_of(device))),
        }
    }

    fn reopen_modem(&mut self, device: usize) -> Result<(), Failed>
        requires { device < self.old.devices }
        ensures calls { Records None (reopen_call result device) None }
        ensures cause { HasCause (modem_fault_of self.old.modem_faults device) (modem_fault_of self.new.modem_faults device) result }
        ensures own { self.old.faults ≤ self.new.faults }
        ensures conns { NoneFell (fault_of self.old.conn_faults) (fault_of self.new.conn_faults) }
        ensures modems { NoneFell (modem_fault_of self.old.modem_faults) (modem_fault_of self.new.modem_faults) }
        ensures names { self.new.sockets.names.greatest ≡ self.old.sockets.names.greatest }
        ensures clients { SameClients (is_there self.old.sockets.names) (is_there self.new.sockets.names) }
        ensures devices { self.new.devices ≡ self.old.devices }
        ensures made { self.new.made ≡ one_more self.old.made }
        ensures reached { OnOk result (IsSome (modem_of self.new.sockets.routes.routes.items device)) }
        ensures closed { is_ok result ≡ false → modem_of self.new.sockets.routes.routes.items device ≡ None }
        ensures others { OthersStay device self.old.sockets.routes.routes.items self.new.sockets.routes.routes.items }
    {
        self.made.add();
        match self.sockets.open_device(device) {
            Ok(()) => Ok(()),
            Err(_) => Err(self.modem_faults.fail(name_of(device))),
        }
    }

    fn hang_up(&mut self, conn: ConnId) {
        self.made.add();
        self.sockets.hang_up(conn);
    }
}
