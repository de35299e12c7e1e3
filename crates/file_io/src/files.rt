ghost use Rattle.std.specs.Prelude.{◌≡◌, ◌<◌, ◌≤◌, ℕ, List, [], ◌∷◌, Option, length, is_ok, IfOk};
ghost use Rattle.kit_io.specs.Causes.{HasCause};
ghost use Rattle.kit_io.specs.Growth.{Grows};

use kit_io::Failed;

/// How many bytes the buffer of a read has.
pub const READ_ROOM: usize = 16_384;

/// What a file is opened for.
#[derive(Clone, Copy, Debug, PartialEq, Eq)]
pub enum Side {
    Read,
    Write,
}

/// Files, of which one is open at a time.
pub trait Files {
    ghost use Rattle.file_io.specs.Calls.{Call, Opened, Closed, read_call, write_call};

    /// The calls so far, where recorded.
    ghost calls: { Self → Option (List Call) };

    /// How many calls of `open` and `read` have failed.
    ghost read_faults: { Self → ℕ };

    /// How many calls of `write` have failed.
    ghost write_faults: { Self → ℕ };

    /// Opens the file at a path, in place of the one that is open.
    fn open(&mut self, path: &str, side: Side) -> Result<(), Failed>
        ensures calls { Grows (calls self.old) (Opened path.now side (is_ok result) ∷ []) (calls self.new) }
        ensures cause { HasCause (read_faults self.old) (read_faults self.new) result }
        ensures later { write_faults self.old ≤ write_faults self.new };

    /// Gives the next bytes of the open file at the front of the buffer, and how many; none is the
    /// file's end.
    fn read(&mut self, buffer: &mut [u8]) -> Result<usize, Failed>
        requires { length buffer.old ≡ READ_ROOM }
        ensures within { IfOk result (λ count. count ≤ READ_ROOM) }
        ensures calls { Grows (calls self.old) (read_call result buffer.new ∷ []) (calls self.new) }
        ensures cause { HasCause (read_faults self.old) (read_faults self.new) result }
        ensures later { write_faults self.old ≤ write_faults self.new };

    /// Writes some of the bytes to the open file, from their front on: at least one, where there is
    /// one.
    fn write(&mut self, bytes: &[u8]) -> Result<usize, Failed>
        ensures within { IfOk result (λ count. count ≤ length bytes.now) }
        ensures some { IfOk result (λ count. 0 < length bytes.now → 0 < count) }
        ensures calls { Grows (calls self.old) (write_call result bytes.now ∷ []) (calls self.new) }
        ensures cause { HasCause (write_faults self.old) (write_faults self.new) result }
        ensures later { read_faults self.old ≤ read_faults self.new };

    /// Closes the open file.
    fn close(&mut self)
        ensures calls { Grows (calls self.old) (Closed ∷ []) (calls self.new) }
        ensures later_read { read_faults self.old ≤ read_faults self.new }
        ensures later_write { write_faults self.old ≤ write_faults self.new };
}
