ghost use Rattle.kit_bytes.specs.Laws.{GivesBackChars, GivesBackBytes, AllTakesSinglesIn};

/// The law that reading gives back the characters that were written.
pub fn characters_are_given_back()
    ensures { GivesBackChars }
{}

/// The law that writing gives back the bytes that were read.
pub fn bytes_are_given_back()
    ensures { GivesBackBytes }
{}

/// An example of merged subscriptions: all CIDs of a service take in its single ones.
pub fn all_takes_singles_in()
    ensures { AllTakesSinglesIn }
{}
