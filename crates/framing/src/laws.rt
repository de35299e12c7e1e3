ghost use Rattle.framing.specs.Cutting.{IsPieceless, IsOnlyCut};

use crate::Framing;

/// The law that the messages of a stream don't depend on the pieces in which it comes.
pub fn pieces_make_no_difference<F: Framing>()
    ensures { IsPieceless F.size }
{}

/// The law that a stream splits into messages and a rest in one way alone.
pub fn cutting_is_the_only_one<F: Framing>()
    ensures { IsOnlyCut F.size }
{}
