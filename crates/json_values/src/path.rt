use kit_bytes::Text;
use std::alloc::{AllocError, Global};
use std::marker::Model;

/// A step from a JSON value to one inside it.
#[derive(Debug, Drop)]
pub enum Step {
    /// To the member of this name.
    Member(Text),
    /// To the element of this number, counted from 0.
    Element(usize),
}

/// The steps that lead to a part of a JSON value, the outermost first.
#[derive(Debug, Drop)]
pub struct Path {
    steps: Vec<Step>,
}

impl Model for Path {
    ghost use Rattle.std.specs.Prelude.{List};
    ghost use Rattle.json_values.specs.declared.path.Step.{Step};

    ghost Value = { List Step };

    ghost view = { λ path. path.steps.items };
}

impl Path {
    ghost use Rattle.std.specs.Prelude.{◌≡◌, [], ◌∷◌, IfOk};

    /// The path to the whole value, which takes no memory.
    pub fn new(alloc: Global) -> Path
        ensures { result ≡ [] }
    {
        Path {
            steps: Vec::new(alloc),
        }
    }

    /// The same, seen from one step further out.
    pub fn under(self, step: Step) -> Result<Path, AllocError>
        ensures { IfOk result (λ path. path ≡ step ∷ self) }
    {
        let mut steps = self.steps;
        match steps.insert(0, step) {
            Ok(()) => Ok(Path { steps }),
            Err(_) => Err(AllocError),
        }
    }

    pub fn as_slice(&self) -> &[Step]
        ensures { result.now ≡ self.now }
    {
        &self.steps
    }
}
