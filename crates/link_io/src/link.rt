ghost use Rattle.std.specs.Prelude.{◌≡◌, ◌≤◌, ℕ, Bool, true, List, [], ◌∷◌, Option, length, is_ok, IfOk};
ghost use Rattle.kit_io.specs.Causes.{HasCause};
ghost use Rattle.kit_io.specs.Counts.{one_more};
ghost use Rattle.kit_io.specs.Growth.{Grows};

use kit_bytes::Text;
use kit_io::Failed;

/// How many bytes the buffer of a take has.
pub const TAKE_ROOM: usize = 16_384;

/// Where a link leads.
#[derive(Drop)]
pub enum Target {
    /// A Unix socket, by its path.
    Socket(Text),
    /// A device node behind two pumps, which meet the link at a socket of this path: what the first
    /// reads of the node comes in, and what goes out the second writes to it.
    Bridge(Text),
}

/// What a take gives.
#[derive(Clone, Copy, PartialEq, Eq)]
pub enum Taken {
    /// So many bytes stand at the front of the buffer.
    Bytes(usize),
    /// Nothing came in one tick.
    Quiet,
    /// Nothing will come any more.
    End,
}

/// A way to one modem or proxy.
pub trait Link {
    ghost use Rattle.link_io.specs.Calls.{Call, Opened, Paired, Closed, take_call, Sends, EndsForGood};
    ghost use Rattle.link_io.specs.Target.{address_of, IsWithin};

    /// The calls so far, where recorded.
    ghost calls: { Self → Option (List Call) };

    /// Whether a take has found the end.
    ghost ended: { Self → Bool };

    /// How many calls of `open` have failed.
    ghost open_faults: { Self → ℕ };

    /// How many other calls have failed.
    ghost faults: { Self → ℕ };

    /// How many calls were made on it. At its type's end the count stands still.
    ghost made: { Self → ℕ };

    fn made(&self) -> u64
        ensures { result ≡ made self.now };

    /// Opens the link. A bridge listens then, and has to be paired before anything is sent or taken.
    fn open(&mut self, target: &Target) -> Result<(), Failed>
        ensures calls { Grows (calls self.old) (Opened (address_of target.now) (is_ok result) ∷ []) (calls self.new) }
        ensures ended { ended self.old ≡ true → ended self.new ≡ true }
        ensures cause { HasCause (open_faults self.old) (open_faults self.new) result }
        ensures later { faults self.old ≤ faults self.new }
        ensures made { made self.new ≡ one_more (made self.old) };

    /// Waits for both pumps of a bridge.
    fn pair(&mut self) -> Result<(), Failed>
        ensures calls { Grows (calls self.old) (Paired (is_ok result) ∷ []) (calls self.new) }
        ensures ended { ended self.old ≡ true → ended self.new ≡ true }
        ensures cause { HasCause (faults self.old) (faults self.new) result }
        ensures later { open_faults self.old ≤ open_faults self.new }
        ensures made { made self.new ≡ one_more (made self.old) };

    /// Sends all the bytes, or a front of them where it fails.
    fn send(&mut self, bytes: &[u8]) -> Result<(), Failed>
        ensures calls { Sends (calls self.old) bytes.now result (calls self.new) }
        ensures ended { ended self.old ≡ true → ended self.new ≡ true }
        ensures cause { HasCause (faults self.old) (faults self.new) result }
        ensures later { open_faults self.old ≤ open_faults self.new }
        ensures made { made self.new ≡ one_more (made self.old) };

    /// Waits for bytes, for at most one tick.
    fn take(&mut self, buffer: &mut [u8]) -> Result<Taken, Failed>
        requires { length buffer.old ≡ TAKE_ROOM }
        ensures within { IfOk result (λ taken. IsWithin taken TAKE_ROOM) }
        ensures calls { Grows (calls self.old) (take_call result buffer.new ∷ []) (calls self.new) }
        ensures ended { EndsForGood (ended self.old) result (ended self.new) }
        ensures cause { HasCause (faults self.old) (faults self.new) result }
        ensures later { open_faults self.old ≤ open_faults self.new }
        ensures made { made self.new ≡ one_more (made self.old) };

    /// Closes the link.
    fn close(&mut self)
        ensures calls { Grows (calls self.old) (Closed ∷ []) (calls self.new) }
        ensures ended { ended self.old ≡ true → ended self.new ≡ true }
        ensures later { faults self.old ≤ faults self.new }
        ensures later_open { open_faults self.old ≤ open_faults self.new }
        ensures made { made self.new ≡ one_more (made self.old) };
}
