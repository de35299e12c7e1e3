ghost use Rattle.std.specs.Prelude.{◌≡◌, ℕ, List, [], ◌∷◌, Option, map, string_bytes, is_ok};
ghost use Rattle.kit_io.specs.Causes.{HasCause};
ghost use Rattle.kit_io.specs.Growth.{Grows};

use kit_io::Failed;

/// Starts this program again, as child processes, which it names by numbers.
pub trait Spawner {
    ghost use Rattle.child_io.specs.Calls.{Call, Stopped, start_call, end_call};

    /// The calls so far, where recorded.
    ghost calls: { Self → Option (List Call) };

    /// How many calls have failed.
    ghost faults: { Self → ℕ };

    /// Starts this program with these words, and names the child.
    fn start(&mut self, words: &[String]) -> Result<u32, Failed>
        ensures calls { Grows (calls self.old) (start_call (map string_bytes words.now) result ∷ []) (calls self.new) }
        ensures cause { HasCause (faults self.old) (faults self.new) result };

    /// Waits for a child's end, and gives its status: what it exited with, from 0 to 255, or a
    /// number below 0 where it didn't exit by itself.
    fn ended(&mut self, child: u32) -> Result<i32, Failed>
        ensures calls { Grows (calls self.old) (end_call child result ∷ []) (calls self.new) }
        ensures cause { HasCause (faults self.old) (faults self.new) result };

    /// Stops a child, and waits for its end. So many calls were made before on what the child serves,
    /// which is only recorded.
    fn stop(&mut self, child: u32, after: u64) -> Result<(), Failed>
        ensures calls { Grows (calls self.old) (Stopped child (is_ok result) after ∷ []) (calls self.new) }
        ensures cause { HasCause (faults self.old) (faults self.new) result };
}
