ghost use Rattle.std.specs.Prelude.{◌≡◌, ◌<◌, ◌≤◌, ℕ, Bool, List, Option, length, is_ok, IfOk};
ghost use Rattle.std.specs.Option.{option_map};
ghost use Rattle.std.specs.Result.{result_ok};
ghost use Rattle.kit_io.specs.Causes.{HasCause};
ghost use Rattle.kit_io.specs.Counts.{one_more};

use hub_io::NEXT_ROOM;
use kit_bytes::ConnId;
use kit_io::Failed;
use link_io::Target;

/// What a hub of several devices tells of its clients, its modems and the time. Devices are counted
/// from 0.
#[derive(Clone, Copy, PartialEq, Eq)]
pub enum ManyHubEvent {
    /// A client came.
    Joined(ConnId),
    /// So many bytes of a client stand at the front of the buffer.
    Piece(ConnId, usize),
    /// A client is gone.
    Left(ConnId),
    /// So many bytes of a device's modem stand at the front of the buffer.
    ModemPiece(usize, usize),
    ModemGone(usize),
    /// The milliseconds since the opening.
    Now(u64),
    /// A client that took nothing takes bytes again.
    Room(ConnId),
    /// A device's modem, which took nothing, takes bytes again.
    ModemRoom(usize),
    /// The serving is to end.
    Stop,
}

/// The clients of a server, and the modems of its devices. A client goes by the name with which it
/// joined, and a modem by its device.
pub trait ManyHub {
    ghost use Rattle.hub_io.specs.Record.{Records};
    ghost use Rattle.hub_io.specs.Hub.{FitsBuffer, NamesRise, SameClients, GoesAlone, ToldOfThose, NoneFell};
    ghost use Rattle.many_io.specs.Record.{ManyCall, HungUp, Paired};
    ghost use Rattle.many_io.specs.Hub.{told_without_device, IsOfDevice, opened_call, next_call, send_call, send_modem_call, reopen_call};

    /// The calls so far, where recorded, the newest first.
    ghost calls: { Self → Option (List ManyCall) };

    /// How many of the hub's own calls have failed.
    ghost faults: { Self → ℕ };

    /// How many sends to a client have failed, by its name.
    ghost conn_faults: { Self → ℕ → ℕ };

    /// How many calls on a modem have failed, by its device.
    ghost modem_faults: { Self → ℕ → ℕ };

    /// The greatest name that was told.
    ghost greatest: { Self → ℕ };

    /// Whether a client is there: it joined, and since then it didn't leave and wasn't hung up.
    ghost is_connected: { Self → ℕ → Bool };

    /// For how many devices it has room.
    ghost devices: { Self → ℕ };

    /// How many calls were made on it. At its type's end the count stands still.
    ghost made: { Self → ℕ };

    fn made(&self) -> u64
        ensures { result ≡ made self.now };

    /// Listens on a socket, and opens the devices. Bridges have to be paired then.
    fn open(&mut self, socket: &str, targets: &[Target]) -> Result<(), Failed>
        requires { length targets.now ≤ devices self.old }
        ensures calls { Records (calls self.old) (opened_call result socket.now targets.now) (calls self.new) }
        ensures cause { HasCause (faults self.old) (faults self.new) result }
        ensures conns { NoneFell (conn_faults self.old) (conn_faults self.new) }
        ensures modems { NoneFell (modem_faults self.old) (modem_faults self.new) }
        ensures names { greatest self.new ≡ greatest self.old }
        ensures clients { SameClients (is_connected self.old) (is_connected self.new) }
        ensures devices { devices self.new ≡ devices self.old }
        ensures made { made self.new ≡ one_more (made self.old) };

    /// Waits for both pumps of each device.
    fn pair(&mut self) -> Result<(), Failed>
        ensures calls { Records (calls self.old) (Paired (is_ok result)) (calls self.new) }
        ensures cause { HasCause (faults self.old) (faults self.new) result }
        ensures conns { NoneFell (conn_faults self.old) (conn_faults self.new) }
        ensures modems { NoneFell (modem_faults self.old) (modem_faults self.new) }
        ensures names { greatest self.new ≡ greatest self.old }
        ensures clients { SameClients (is_connected self.old) (is_connected self.new) }
        ensures devices { devices self.new ≡ devices self.old }
        ensures made { made self.new ≡ one_more (made self.old) };

    /// Waits for the next event.
    fn next(&mut self, buf: &mut [u8]) -> Result<ManyHubEvent, Failed>
        requires { length buf.old ≡ NEXT_ROOM }
        ensures fits { IfOk result (λ event. FitsBuffer (told_without_device event) NEXT_ROOM) }
        ensures device { IfOk result (λ event. IsOfDevice event (devices self.old)) }
        ensures calls { Records (calls self.old) (next_call result buf.new) (calls self.new) }
        ensures cause { HasCause (faults self.old) (faults self.new) result }
        ensures conns { NoneFell (conn_faults self.old) (conn_faults self.new) }
        ensures modems { NoneFell (modem_faults self.old) (modem_faults self.new) }
        ensures names { NamesRise (option_map told_without_device (result_ok result)) (greatest self.old) (greatest self.new) }
        ensures clients { ToldOfThose (option_map told_without_device (result_ok result)) (is_connected self.old) (is_connected self.new) }
        ensures devices { devices self.new ≡ devices self.old }
        ensures made { made self.new ≡ one_more (made self.old) };

    /// Hands bytes to a client's socket, which takes a front of them: no byte where it takes none
    /// now.
    fn send(&mut self, conn: ConnId, bytes: &[u8]) -> Result<usize, Failed>
        requires { 0 < length bytes.now }
        ensures within { IfOk result (λ count. count ≤ length bytes.now) }
        ensures calls { Records (calls self.old) (send_call result conn bytes.now) (calls self.new) }
        ensures cause { HasCause (conn_faults self.old conn) (conn_faults self.new conn) result }
        ensures own { faults self.old ≤ faults self.new }
        ensures conns { NoneFell (conn_faults self.old) (conn_faults self.new) }
        ensures modems { NoneFell (modem_faults self.old) (modem_faults self.new) }
        ensures names { greatest self.new ≡ greatest self.old }
        ensures clients { SameClients (is_connected self.old) (is_connected self.new) }
        ensures devices { devices self.new ≡ devices self.old }
        ensures made { made self.new ≡ one_more (made self.old) };

    /// Hands bytes to a device's modem, which takes a front of them: no byte where it takes none now.
    fn send_modem(&mut self, device: usize, bytes: &[u8]) -> Result<usize, Failed>
        requires some { 0 < length bytes.now }
        requires device { device < devices self.old }
        ensures within { IfOk result (λ count. count ≤ length bytes.now) }
        ensures calls { Records (calls self.old) (send_modem_call result device bytes.now) (calls self.new) }
        ensures cause { HasCause (modem_faults self.old device) (modem_faults self.new device) result }
        ensures own { faults self.old ≤ faults self.new }
        ensures conns { NoneFell (conn_faults self.old) (conn_faults self.new) }
        ensures modems { NoneFell (modem_faults self.old) (modem_faults self.new) }
        ensures names { greatest self.new ≡ greatest self.old }
        ensures clients { SameClients (is_connected self.old) (is_connected self.new) }
        ensures devices { devices self.new ≡ devices self.old }
        ensures made { made self.new ≡ one_more (made self.old) };

    /// Opens a device of the opening again. One that is reached over a bridge stays away.
    fn reopen_modem(&mut self, device: usize) -> Result<(), Failed>
        requires { device < devices self.old }
        ensures calls { Records (calls self.old) (reopen_call result device) (calls self.new) }
        ensures cause { HasCause (modem_faults self.old device) (modem_faults self.new device) result }
        ensures own { faults self.old ≤ faults self.new }
        ensures conns { NoneFell (conn_faults self.old) (conn_faults self.new) }
        ensures modems { NoneFell (modem_faults self.old) (modem_faults self.new) }
        ensures names { greatest self.new ≡ greatest self.old }
        ensures clients { SameClients (is_connected self.old) (is_connected self.new) }
        ensures devices { devices self.new ≡ devices self.old }
        ensures made { made self.new ≡ one_more (made self.old) };

    /// Ends a client's connection. The client isn't there any more, so no event of it follows.
    fn hang_up(&mut self, conn: ConnId)
        ensures calls { Records (calls self.old) (HungUp conn) (calls self.new) }
        ensures own { faults self.old ≤ faults self.new }
        ensures conns { NoneFell (conn_faults self.old) (conn_faults self.new) }
        ensures modems { NoneFell (modem_faults self.old) (modem_faults self.new) }
        ensures names { greatest self.new ≡ greatest self.old }
        ensures clients { GoesAlone conn (is_connected self.old) (is_connected self.new) }
        ensures devices { devices self.new ≡ devices self.old }
        ensures made { made self.new ≡ one_more (made self.old) };
}
