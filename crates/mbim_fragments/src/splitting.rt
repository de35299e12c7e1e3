ghost use Rattle.std.specs.Prelude.{◌≡◌, ◌+◌, ◌≤◌, ◌++◌, ℕ, List, length, vec_capacity, IfOk};
ghost use Rattle.mbim_fragments.specs.Splitting.{part_count, split, split_size};

use crate::assembly::LONGEST_BODY;
use kit_bytes::{Octets, append};
use mbim_frame::NewFragment;
use std::alloc::{AllocError, Global};

/// How many bytes the messages have at most that carry a body, however short they must be.
pub const LONGEST_SPLIT: usize = 95_336;

/// The messages of at most `max` bytes that carry this body.
pub fn split(
    alloc: Global,
    kind: u32,
    number: u32,
    body: &[u8],
    max: u32,
) -> Result<Octets, AllocError>
    requires least { 64 ≤ max }
    requires most { max ≤ 4096 }
    requires short { length body.now ≤ 4294967295 }
    ensures { IfOk result (λ octets. octets ≡ split kind number max body.now) }
{
    let mut bytes = Vec::with_capacity(alloc, split_length(max, body.len()))?;
    split_into(&mut bytes, kind, number, max, body);
    Ok(Octets::from(bytes))
}

/// Writes the messages of at most `max` bytes that carry this body, in the place of what the buffer has.
/// It takes no memory.
pub fn split_into(into: &mut Vec<u8>, kind: u32, number: u32, max: u32, body: &[u8])
    requires least { 64 ≤ max }
    requires most { max ≤ 4096 }
    requires short { length body.now ≤ 4294967295 }
    requires room { split_size max (length body.now) ≤ vec_capacity into.old }
    ensures items { into.new.items ≡ split kind number max body.now }
    ensures capacity { vec_capacity into.old ≤ vec_capacity into.new }
{
    let size = max as usize - 20;
    let total = part_count(size, body.len());
    let mut rest = body;
    into.clear();
    for current in 0..total {
        let (part, behind) = rest.split_at(size.min(rest.len()));
        let fragment = NewFragment {
            kind,
            number,
            total,
            current,
        };
        append_both(into, &fragment.head(part.len() as u32), part);
        rest = behind;
    }
}

/// How many bytes the messages have that carry a body of this length.
pub fn split_length(max: u32, body_length: usize) -> usize
    requires least { 64 ≤ max }
    requires short { body_length ≤ 4294967295 }
    ensures size { result ≡ split_size max body_length }
    ensures length { (kind number : ℕ) (body : List ℕ) → length body ≡ body_length → length (split kind number max body) ≡ result }
    ensures limit { body_length ≤ LONGEST_BODY → result ≤ LONGEST_SPLIT }
{
    body_length + 20 * part_count(max as usize - 20, body_length) as usize
}

// How many parts of this size so many bytes have, the last with what remains. No byte has one.
fn part_count(size: usize, length: usize) -> u32
    requires size { 44 ≤ size }
    requires length { length ≤ 4294967295 }
    ensures { result ≡ part_count size length }
{
    length.div_ceil(size).max(1) as u32
}

// Adds these bytes and then those to a buffer that has the room for them.
fn append_both(into: &mut Vec<u8>, front: &[u8], back: &[u8])
    requires { length into.old.items + length front.now + length back.now ≤ vec_capacity into.old }
    ensures items { into.new.items ≡ into.old.items ++ (front.now ++ back.now) }
    ensures capacity { vec_capacity into.old ≤ vec_capacity into.new }
{
    append(into, front);
    append(into, back);
}
