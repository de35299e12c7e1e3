ghost use Rattle.std.specs.Prelude.{◌≡◌, ◌<◌, ◌≤◌, [], ◌∷◌, ◌++◌, List, length, map, string_bytes, Contains, IfOk, OnOk, OnErr};
ghost use Rattle.kit_io.specs.Causes.{HasCause};
ghost use Rattle.kit_io.specs.Growth.{Grows};
ghost use Rattle.child_io.specs.Calls.{Call, start_call, end_call};
ghost use Rattle.child_io.specs.Alive.{StandsFor};
ghost use Rattle.child_io.specs.Kids.{without, StopsEach};

use crate::Spawner;
use arrayvec::ArrayVec;
use kit_io::Failed;
use std::marker::Model;

/// How many children may be kept: two for each of eight devices.
pub const KIDS_LIMIT: usize = 16;

/// The children that were started and neither ended nor stopped. It takes no memory.
///
/// It can't be dropped: who has it has to hand it to `stop_all` in the end.
pub struct Kids {
    children: ArrayVec<u32, KIDS_LIMIT>,
}

impl Model for Kids {
    ghost use Rattle.std.specs.Prelude.{ℕ, List};

    ghost Value = { List ℕ };

    ghost view = { λ kids. kids.children.items };
}

impl Kids {
    /// No child is kept.
    pub fn none() -> Self
        ensures { result ≡ [] }
    {
        Kids {
            children: ArrayVec::new(),
        }
    }

    /// Starts a child, and keeps it.
    pub fn start<P: Spawner>(&mut self, spawner: &mut P, words: &[String]) -> Result<u32, Failed>
        requires { length self.old < KIDS_LIMIT }
        ensures ok { IfOk result (λ child. self.new ≡ self.old ++ child ∷ []) }
        ensures err { OnErr result (self.new ≡ self.old) }
        ensures stands { (calls : List Call) → StandsFor calls self.old → StandsFor (calls ++ start_call (map string_bytes words.now) result ∷ []) self.new }

        ensures calls { Grows (P.calls spawner.old) (start_call (map string_bytes words.now) result ∷ []) (P.calls spawner.new) }
        ensures cause { HasCause (P.faults spawner.old) (P.faults spawner.new) result }
    {
        let child = spawner.start(words)?;
        self.children.push(child);
        Ok(child)
    }

    /// Waits for the end of a child that is kept, and gives its status. After `Failed` it is still
    /// kept.
    pub fn ended<P: Spawner>(&mut self, spawner: &mut P, child: u32) -> Result<i32, Failed>
        requires { Contains self.old child }
        ensures ok { OnOk result (self.new ≡ without child self.old) }
        ensures err { OnErr result (self.new ≡ self.old) }
        ensures stands { (calls : List Call) → StandsFor calls self.old → StandsFor (calls ++ end_call child result ∷ []) self.new }

        ensures calls { Grows (P.calls spawner.old) (end_call child result ∷ []) (P.calls spawner.new) }
        ensures cause { HasCause (P.faults spawner.old) (P.faults spawner.new) result }
    {
        let status = spawner.ended(child)?;
        self.children.retain(|other| child != *other);
        Ok(status)
    }

    /// Stops each child that is kept, in the order of their starts. So many calls were made before on
    /// what the children serve. `Failed` comes exactly where a stop failed.
    pub fn stop_all<P: Spawner>(self, spawner: &mut P, after: u64) -> Result<(), Failed>
        ensures stops { StopsEach self after (P.calls spawner.old) result (P.calls spawner.new) }
        ensures cause { HasCause (P.faults spawner.old) (P.faults spawner.new) result }
    {
        let Kids { children } = self;
        let mut result = Ok(());
        for child in children.as_slice() {
            result = result.and(spawner.stop(*child, after));
        }
        result
    }
}
