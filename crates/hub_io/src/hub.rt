ghost use Rattle.std.specs.Prelude.{◌≡◌, ◌<◌, ◌≤◌, ℕ, Bool, false, List, Option, length, is_ok, IfOk};
ghost use Rattle.std.specs.Option.{option_copied};
ghost use Rattle.std.specs.Result.{result_ok};
ghost use Rattle.kit_io.specs.Causes.{HasCause};
ghost use Rattle.kit_io.specs.Counts.{one_more};

use kit_bytes::ConnId;
use kit_io::Failed;
use link_io::Target;

/// How many bytes the buffer of a `next` has.
pub const NEXT_ROOM: usize = 16_384;

/// What a hub tells of its clients, its modem and the time.
#[derive(Clone, Copy, Debug, PartialEq, Eq)]
pub enum HubEvent {
    /// A client came.
    Joined(ConnId),
    /// So many bytes of a client stand at the front of the buffer.
    Piece(ConnId, usize),
    /// A client is gone.
    Left(ConnId),
    /// So many bytes of the modem stand at the front of the buffer.
    ModemPiece(usize),
    ModemGone,
    /// The milliseconds since the opening.
    Now(u64),
    /// A client that took nothing takes bytes again.
    Room(ConnId),
    /// The modem, which took nothing, takes bytes again.
    ModemRoom,
    /// The serving is to end.
    Stop,
}

/// The clients of a server, and its modem. A client goes by the name with which it joined.
pub trait Hub {
    ghost use Rattle.hub_io.specs.Record.{Call, HungUp, Paired, Records};
    ghost use Rattle.hub_io.specs.Hub.{FitsBuffer, NamesRise, SameClients, GoesAlone, ToldOfThose, NoneFell, opened_call, next_call, send_call, send_modem_call, reopen_call};

    /// The calls so far, where recorded, the newest first.
    ghost calls: { Self → Option (List Call) };

    /// How many of the hub's own calls have failed.
    ghost faults: { Self → ℕ };

    /// How many sends to a client have failed, by its name.
    ghost conn_faults: { Self → ℕ → ℕ };

    /// How many calls on the modem have failed.
    ghost modem_faults: { Self → ℕ };

    /// The greatest name that was told.
    ghost greatest: { Self → ℕ };

    /// Whether a client is there: it joined, and since then it didn't leave and wasn't hung up.
    ghost is_connected: { Self → ℕ → Bool };

    /// How many calls were made on it. At its type's end the count stands still.
    ghost made: { Self → ℕ };

    fn made(&self) -> u64
        ensures { result ≡ made self.now };

    /// Listens on a socket, and opens the device where one is named. A bridge has to be paired then.
    fn open(&mut self, socket: &str, device: Option<&Target>) -> Result<(), Failed>
        ensures calls { Records (calls self.old) (opened_call result socket.now (option_copied device.entry)) (calls self.new) }
        ensures cause { HasCause (faults self.old) (faults self.new) result }
        ensures conns { NoneFell (conn_faults self.old) (conn_faults self.new) }
        ensures modem { modem_faults self.old ≤ modem_faults self.new }
        ensures names { greatest self.new ≡ greatest self.old }
        ensures clients { SameClients (is_connected self.old) (is_connected self.new) }
        ensures made { made self.new ≡ one_more (made self.old) };

    /// Waits for both pumps of the device.
    fn pair(&mut self) -> Result<(), Failed>
        ensures calls { Records (calls self.old) (Paired (is_ok result)) (calls self.new) }
        ensures cause { HasCause (faults self.old) (faults self.new) result }
        ensures conns { NoneFell (conn_faults self.old) (conn_faults self.new) }
        ensures modem { modem_faults self.old ≤ modem_faults self.new }
        ensures names { greatest self.new ≡ greatest self.old }
        ensures clients { SameClients (is_connected self.old) (is_connected self.new) }
        ensures made { made self.new ≡ one_more (made self.old) };

    /// Waits for the next event.
    fn next(&mut self, buf: &mut [u8]) -> Result<HubEvent, Failed>
        requires { length buf.old ≡ NEXT_ROOM }
        ensures fits { IfOk result (λ event. FitsBuffer event NEXT_ROOM) }
        ensures calls { Records (calls self.old) (next_call result buf.new) (calls self.new) }
        ensures cause { HasCause (faults self.old) (faults self.new) result }
        ensures conns { NoneFell (conn_faults self.old) (conn_faults self.new) }
        ensures modem { modem_faults self.old ≤ modem_faults self.new }
        ensures names { NamesRise (result_ok result) (greatest self.old) (greatest self.new) }
        ensures clients { ToldOfThose (result_ok result) (is_connected self.old) (is_connected self.new) }
        ensures made { made self.new ≡ one_more (made self.old) };

    /// Hands bytes to a client's socket, which takes a front of them: no byte where it takes none
    /// now.
    fn send(&mut self, conn: ConnId, bytes: &[u8]) -> Result<usize, Failed>
        requires { 0 < length bytes.now }
        ensures within { IfOk result (λ count. count ≤ length bytes.now) }
        ensures calls { Records (calls self.old) (send_call result conn bytes.now) (calls self.new) }
        ensures cause { HasCause (conn_faults self.old conn) (conn_faults self.new conn) result }
        ensures own { faults self.old ≤ faults self.new }
        ensures conns { NoneFell (conn_faults self.old) (conn_faults self.new) }
        ensures modem { modem_faults self.old ≤ modem_faults self.new }
        ensures names { greatest self.new ≡ greatest self.old }
        ensures clients { SameClients (is_connected self.old) (is_connected self.new) }
        ensures made { made self.new ≡ one_more (made self.old) };

    /// Hands bytes to the modem, which takes a front of them: no byte where it takes none now.
    fn send_modem(&mut self, bytes: &[u8]) -> Result<usize, Failed>
        requires { 0 < length bytes.now }
        ensures within { IfOk result (λ count. count ≤ length bytes.now) }
        ensures calls { Records (calls self.old) (send_modem_call result bytes.now) (calls self.new) }
        ensures cause { HasCause (modem_faults self.old) (modem_faults self.new) result }
        ensures own { faults self.old ≤ faults self.new }
        ensures conns { NoneFell (conn_faults self.old) (conn_faults self.new) }
        ensures names { greatest self.new ≡ greatest self.old }
        ensures clients { SameClients (is_connected self.old) (is_connected self.new) }
        ensures made { made self.new ≡ one_more (made self.old) };

    /// Opens the device of the opening again. One that is reached over a bridge stays away.
    fn reopen_modem(&mut self) -> Result<(), Failed>
        ensures calls { Records (calls self.old) (reopen_call result) (calls self.new) }
        ensures cause { HasCause (modem_faults self.old) (modem_faults self.new) result }
        ensures own { faults self.old ≤ faults self.new }
        ensures conns { NoneFell (conn_faults self.old) (conn_faults self.new) }
        ensures names { greatest self.new ≡ greatest self.old }
        ensures clients { SameClients (is_connected self.old) (is_connected self.new) }
        ensures made { made self.new ≡ one_more (made self.old) };

    /// Ends a client's connection. The client isn't there any more, so no event of it follows.
    fn hang_up(&mut self, conn: ConnId)
        ensures calls { Records (calls self.old) (HungUp conn) (calls self.new) }
        ensures own { faults self.old ≤ faults self.new }
        ensures conns { NoneFell (conn_faults self.old) (conn_faults self.new) }
        ensures modem { modem_faults self.old ≤ modem_faults self.new }
        ensures names { greatest self.new ≡ greatest self.old }
        ensures clients { GoesAlone conn (is_connected self.old) (is_connected self.new) }
        ensures made { made self.new ≡ one_more (made self.old) };
}
