ghost use Rattle.std.specs.Prelude.{◌≡◌, ◌≤◌, true, false, None, length, is_ok, IsSome, IfOk, OnOk};
ghost use Rattle.std.specs.Option.{option_copied};
ghost use Rattle.kit_io.specs.Causes.{HasCause};
ghost use Rattle.kit_io.specs.Counts.{one_more};
ghost use Rattle.hub_io.specs.Clients.{fault_of, is_there};
ghost use Rattle.hub_io.specs.Hub.{NoneFell, SameClients, opened_call, reopen_call, send_call, send_modem_call};
ghost use Rattle.hub_io.specs.Record.{Paired, Records};
ghost use Rattle.many_io.specs.Hub.{told_without_device};
ghost use Rattle.mio_hub.specs.Routes.{modem_of};

use crate::sockets::Sockets;
use hub_io::{ConnFaults, Hub, HubEvent};
use kit_bytes::ConnId;
use kit_io::{CallCount, Failed, Faults};
use link_io::Target;
use many_io::ManyHubEvent;
use std::alloc::Global;
use std::fs::{File, Files};
use std::io;
use std::net::Net;
use std::rt::Clock;

/// A hub over Unix sockets. It tells no content, and is trusted with it.
///
/// Its socket is its owner's alone from its first moment on, and the file goes with the hub. An
/// opening replaces a socket to which nobody listens. It fails where anything else stands at the
/// path, or where the path leads to the device. At most 128 clients are there at a time, and others
/// wait; where one can't be let in though nobody is there, as where no descriptor is left, `next`
/// fails. It tells the time at least every 100 ms, and never `Stop`.
///
/// A device behind a bridge is away from the loss of a pump on. Its reopening fails, and closes what
/// is left of the line to its pumps.
///
/// A client that twice in turn sent fewer than 6 bytes, which are no head of a message, is read again
/// some 2 ms later, and 16 bytes of it. Behind those that were cheap to read, since they were sent at
/// once, 64 are read at once, and so on, until a reading finds all that there was; behind others, 16
/// are, some 2 ms later. So one that sends byte by byte costs the others little time.
///
/// What `send_modem` took is written at the last of the events that one wait found. A modem that is
/// lost before then is told by `next`.
#[derive(Drop)]
pub struct MioHub<'a, R: Files> {
    sockets: Sockets<'a, R>,
    faults: Faults,
    conn_faults: ConnFaults,
    modem_faults: Faults,
    made: CallCount,
}

impl<'a, R: Net + Clock + Files<File = File>> MioHub<'a, R> {
    /// A hub that isn't open. It takes the memory of its tables here.
    pub fn new(rt: &'a R, alloc: Global) -> io::Result<Self> {
        Ok(MioHub {
            sockets: Sockets::new(rt, alloc, 1)?,
            faults: Faults::none(),
            conn_faults: ConnFaults::none(alloc)?,
            modem_faults: Faults::none(),
            made: CallCount::none(),
        })
    }
}

// What is told of the one device, which needs no name.
fn of_no_device(told: ManyHubEvent) -> HubEvent
    ensures { result ≡ told_without_device told }
{
    match told {
        ManyHubEvent::Joined(conn) => HubEvent::Joined(conn),
        ManyHubEvent::Piece(conn, size) => HubEvent::Piece(conn, size),
        ManyHubEvent::Left(conn) => HubEvent::Left(conn),
        ManyHubEvent::ModemPiece(_, size) => HubEvent::ModemPiece(size),
        ManyHubEvent::ModemGone(_) => HubEvent::ModemGone,
        ManyHubEvent::Now(time) => HubEvent::Now(time),
        ManyHubEvent::Room(conn) => HubEvent::Room(conn),
        ManyHubEvent::ModemRoom(_) => HubEvent::ModemRoom,
        ManyHubEvent::Stop => HubEvent::Stop,
    }
}

impl<R: Net + Clock + Files<File = File>> Hub for MioHub<'_, R> {
    ghost calls = { λ _. None };

    ghost faults = { λ s. s.faults };

    ghost conn_faults = { λ s conn. fault_of s.conn_faults conn };

    ghost modem_faults = { λ s. s.modem_faults };

    ghost greatest = { λ s. s.sockets.names.greatest };

    ghost is_connected = { λ s conn. is_there s.sockets.names conn };

    ghost made = { λ s. s.made };

    fn made(&self) -> u64 {
        self.made.value()
    }

    fn open(&mut self, socket: &str, device: Option<&Target>) -> Result<(), Failed>
        ensures calls { Records None (opened_call result socket.now (option_copied device.entry)) None }
        ensures cause { HasCause self.old.faults self.new.faults result }
        ensures conns { NoneFell (fault_of self.old.conn_faults) (fault_of self.new.conn_faults) }
        ensures modem { self.old.modem_faults ≤ self.new.modem_faults }
        ensures names { self.new.sockets.names.greatest ≡ self.old.sockets.names.greatest }
        ensures clients { SameClients (is_there self.old.sockets.names) (is_there self.new.sockets.names) }
        ensures made { self.new.made ≡ one_more self.old.made }
        ensures listens { OnOk result (IsSome self.new.sockets.listening) }
    {
        self.made.add();
        match self.sockets.open(socket, device) {
            Ok(()) => Ok(()),
            Err(_) => Err(self.faults.fail()),
        }
    }

    fn pair(&mut self) -> Result<(), Failed>
        ensures calls { Records None (Paired (is_ok result)) None }
        ensures cause { HasCause self.old.faults self.new.faults result }
        ensures conns { NoneFell (fault_of self.old.conn_faults) (fault_of self.new.conn_faults) }
        ensures modem { self.old.modem_faults ≤ self.new.modem_faults }
        ensures names { self.new.sockets.names.greatest ≡ self.old.sockets.names.greatest }
        ensures clients { SameClients (is_there self.old.sockets.names) (is_there self.new.sockets.names) }
        ensures made { self.new.made ≡ one_more self.old.made }
        ensures reached { OnOk result (IsSome (modem_of self.new.sockets.routes.routes.items 0)) }
    {
        self.made.add();
        match self.sockets.pair() {
            Ok(()) => Ok(()),
            Err(_) => Err(self.faults.fail()),
        }
    }

    fn next(&mut self, buf: &mut [u8]) -> Result<HubEvent, Failed> {
        self.made.add();
        match self.sockets.next(1, buf) {
            Ok(event) => Ok(of_no_device(event)),
            Err(_) => Err(self.faults.fail()),
        }
    }

    fn send(&mut self, conn: ConnId, bytes: &[u8]) -> Result<usize, Failed>
        ensures within { IfOk result (λ count. count ≤ length bytes.now) }
        ensures calls { Records None (send_call result conn bytes.now) None }
        ensures cause { HasCause (fault_of self.old.conn_faults conn) (fault_of self.new.conn_faults conn) result }
        ensures own { self.old.faults ≤ self.new.faults }
        ensures conns { NoneFell (fault_of self.old.conn_faults) (fault_of self.new.conn_faults) }
        ensures modem { self.old.modem_faults ≤ self.new.modem_faults }
        ensures names { self.new.sockets.names.greatest ≡ self.old.sockets.names.greatest }
        ensures clients { SameClients (is_there self.old.sockets.names) (is_there self.new.sockets.names) }
        ensures made { self.new.made ≡ one_more self.old.made }
        ensures there { OnOk result (is_there self.old.sockets.names conn ≡ true) }
    {
        self.made.add();
        match self.sockets.send(conn, bytes) {
            Ok(count) => Ok(count),
            Err(_) => Err(self.conn_faults.fail(conn)),
        }
    }

    fn send_modem(&mut self, bytes: &[u8]) -> Result<usize, Failed>
        ensures within { IfOk result (λ count. count ≤ length bytes.now) }
        ensures calls { Records None (send_modem_call result bytes.now) None }
        ensures cause { HasCause self.old.modem_faults self.new.modem_faults result }
        ensures own { self.old.faults ≤ self.new.faults }
        ensures conns { NoneFell (fault_of self.old.conn_faults) (fault_of self.new.conn_faults) }
        ensures names { self.new.sockets.names.greatest ≡ self.old.sockets.names.greatest }
        ensures clients { SameClients (is_there self.old.sockets.names) (is_there self.new.sockets.names) }
        ensures made { self.new.made ≡ one_more self.old.made }
        ensures reached { OnOk result (IsSome (modem_of self.old.sockets.routes.routes.items 0)) }
        ensures lost { is_ok result ≡ false → modem_of self.new.sockets.routes.routes.items 0 ≡ None }
    {
        self.made.add();
        match self.sockets.send_modem(0, bytes) {
            Ok(count) => Ok(count),
            Err(_) => Err(self.modem_faults.fail()),
        }
    }

    fn reopen_modem(&mut self) -> Result<(), Failed>
        ensures calls { Records None (reopen_call result) None }
        ensures cause { HasCause self.old.modem_faults self.new.modem_faults result }
        ensures own { self.old.faults ≤ self.new.faults }
        ensures conns { NoneFell (fault_of self.old.conn_faults) (fault_of self.new.conn_faults) }
        ensures names { self.new.sockets.names.greatest ≡ self.old.sockets.names.greatest }
        ensures clients { SameClients (is_there self.old.sockets.names) (is_there self.new.sockets.names) }
        ensures made { self.new.made ≡ one_more self.old.made }
        ensures reached { OnOk result (IsSome (modem_of self.new.sockets.routes.routes.items 0)) }
        ensures closed { is_ok result ≡ false → modem_of self.new.sockets.routes.routes.items 0 ≡ None }
    {
        self.made.add();
        match self.sockets.open_device(0) {
            Ok(()) => Ok(()),
            Err(_) => Err(self.modem_faults.fail()),
        }
    }

    fn hang_up(&mut self, conn: ConnId) {
        self.made.add();
        self.sockets.hang_up(conn);
    }
}
