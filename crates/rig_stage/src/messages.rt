ghost use Rattle.std.specs.Prelude.{◌≡◌, IfOk, ◌++◌, ◌≤◌, [], length, MatchOption};
ghost use Rattle.framing.specs.Cutting.{cut};
ghost use Rattle.rig_stage.specs.Messages.{Splits};

use framing::{Framing, Size};
use kit_bytes::Octets;
use std::alloc::{AllocError, Global};

/// The length of the first message of some bytes, if they begin with a whole one.
pub fn first_message<F: Framing>(bytes: &[u8]) -> Option<usize>
    ensures { MatchOption result ((cut F.size bytes.now).messages ≡ []) (λ count. Splits F.size bytes.now count) }
{
    match F::size(bytes) {
        Size::Known(count) => {
            if count <= bytes.len() {
                Some(count)
            } else {
                None
            }
        }
        Size::Unknown => None,
        Size::Invalid => None,
    }
}

/// A copy of all bytes of these two parts.
pub fn joined(alloc: Global, first: &[u8], second: &[u8]) -> Result<Octets, AllocError>
    ensures { IfOk result (λ all. all ≡ first.now ++ second.now) }
{
    let mut all = Octets::new(alloc);
    all.extend_from_slices(first, second)?;
    Ok(all)
}
