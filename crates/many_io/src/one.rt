ghost use Rattle.std.specs.Prelude.{◌≡◌, ℕ, List, map};
ghost use Rattle.std.specs.Option.{option_map};
ghost use Rattle.hub_io.specs.Hub.{event_call as one_event_call};
ghost use Rattle.many_io.specs.Hub.{told_without_device, IsOfDevice, event_call};
ghost use Rattle.many_io.specs.One.{call_of};

use crate::hub::{ManyHub, ManyHubEvent};
use hub_io::{Hub, HubEvent};
use kit_bytes::ConnId;
use kit_io::Failed;
use link_io::Target;

// What a hub of one device tells, as one of several tells it.
fn of_the_only(told: HubEvent) -> ManyHubEvent
    ensures without_device { told_without_device result ≡ told }
    ensures device { IsOfDevice result 1 }
    ensures call { (buffer : List ℕ) → event_call result buffer ≡ call_of (one_event_call told buffer) }
{
    match told {
        HubEvent::Joined(conn) => ManyHubEvent::Joined(conn),
        HubEvent::Piece(conn, size) => ManyHubEvent::Piece(conn, size),
        HubEvent::Left(conn) => ManyHubEvent::Left(conn),
        HubEvent::ModemPiece(size) => ManyHubEvent::ModemPiece(0, size),
        HubEvent::ModemGone => ManyHubEvent::ModemGone(0),
        HubEvent::Now(time) => ManyHubEvent::Now(time),
        HubEvent::Room(conn) => ManyHubEvent::Room(conn),
        HubEvent::ModemRoom => ManyHubEvent::ModemRoom(0),
        HubEvent::Stop => ManyHubEvent::Stop,
    }
}

// A hub of one device is one of several: its modem is that of device 0.
impl<H: Hub> ManyHub for H {
    ghost calls = { λ hub. option_map (map call_of) (H.Hub.calls hub) };

    ghost faults = { λ hub. H.Hub.faults hub };

    ghost conn_faults = { λ hub. H.Hub.conn_faults hub };

    ghost modem_faults = { λ hub device. H.Hub.modem_faults hub };

    ghost greatest = { λ hub. H.Hub.greatest hub };

    ghost is_connected = { λ hub. H.Hub.is_connected hub };

    ghost devices = { λ hub. 1 };

    ghost made = { λ hub. H.Hub.made hub };

    fn made(&self) -> u64 {
        Hub::made(self)
    }

    fn open(&mut self, socket: &str, targets: &[Target]) -> Result<(), Failed> {
        Hub::open(self, socket, targets.first())
    }

    fn pair(&mut self) -> Result<(), Failed> {
        Hub::pair(self)
    }

    fn next(&mut self, buf: &mut [u8]) -> Result<ManyHubEvent, Failed> {
        match Hub::next(self, buf) {
            Ok(told) => Ok(of_the_only(told)),
            Err(Failed) => Err(Failed),
        }
    }

    fn send(&mut self, conn: ConnId, bytes: &[u8]) -> Result<usize, Failed> {
        Hub::send(self, conn, bytes)
    }

    fn send_modem(&mut self, _device: usize, bytes: &[u8]) -> Result<usize, Failed> {
        Hub::send_modem(self, bytes)
    }

    fn reopen_modem(&mut self, _device: usize) -> Result<(), Failed> {
        Hub::reopen_modem(self)
    }

    fn hang_up(&mut self, conn: ConnId) {
        Hub::hang_up(self, conn)
    }
}
