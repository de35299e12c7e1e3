ghost use Rattle.std.specs.Prelude.{◌≡◌, ◌++◌, ◌≤◌, ℕ, List, [], length, take};
ghost use Rattle.framing.specs.declared.framing.Size.{Size};
ghost use Rattle.framing.specs.Framing.{AreBytes, IsKept, IsPartial, IsPositive, IsWithin};

/// What the first bytes of a message say of its length.
#[derive(Clone, Copy, PartialEq, Eq)]
pub enum Size {
    /// They are too few to tell.
    Unknown,
    /// It has so many bytes.
    Known(usize),
    /// No message begins like this.
    Invalid,
}

/// How the messages of a protocol tell their lengths.
pub trait Framing {
    ghost LONGEST: { ℕ };

    ghost size: { List ℕ → Size };

    /// The length of the longest message, in bytes.
    const LONGEST: u32;

    /// What these bytes say of the length of the message that they begin.
    fn size(bytes: &[u8]) -> Size
        ensures { result ≡ size bytes.now };

    // What some bytes say of the length, they say with more behind them too.
    ghost kept: { (front more : List ℕ) → IsKept (size front) (size (front ++ more)) };

    // The length stands in the message itself.
    ghost told: { (bytes : List ℕ) (count : ℕ) → size bytes ≡ Size.Known count → count ≤ length bytes → size (take count bytes) ≡ Size.Known count };

    // No message is empty.
    ghost positive: { (bytes : List ℕ) → IsPositive (size bytes) };

    // A stream may begin.
    ghost begins: { IsPartial size [] };

    // A message is at most so long, and the length is open only within so many bytes.
    ghost bounded: { (bytes : List ℕ) → AreBytes bytes → IsWithin LONGEST (size bytes) (length bytes) };
}
