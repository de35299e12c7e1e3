//! Worked examples, byte for byte.
ghost use Rattle.mbim_fragments.specs.Examples.{BodiesAreSplit, FragmentsAreJoined};

pub fn fragments_are_joined()
    ensures { FragmentsAreJoined }
{}

pub fn bodies_are_split()
    ensures { BodiesAreSplit }
{}
