ghost use Rattle.std.specs.Prelude.{◌≡◌, ◌+◌, ◌≤◌, ◌==◌, ◌&&◌, ◌++◌, true, is_some, nat_le, length, IfSome};
ghost use Rattle.mbim_frame.specs.Fragment.{total_of, current_of};
ghost use Rattle.mbim_frame.specs.Writing.{unsplit};
ghost use Rattle.mbim_fragments.specs.Assembling.{fresh, joining_behind, assembled_after, body_given};
ghost use Rattle.mbim_fragments.specs.Runs.{told, longest_body};
ghost use Rattle.mbim_fragments.specs.Splitting.{split};

use crate::assembly::{LONGEST_BODY, Took};
use crate::body::Body;
use mbim_frame::{FragmentHead, NewFragment, body_in};

/// Whether the fragment, which has both heads, is the only one of its message.
pub fn is_unsplit(fragment: &[u8]) -> bool
    requires { 20 ≤ length fragment.now }
    ensures { result ≡ (total_of fragment.now == 1 && current_of fragment.now == 0) }
{
    let FragmentHead { total, current } = FragmentHead::read(fragment);
    total == 1 && current == 0
}

/// Takes such a fragment where no message has begun, and gives the body that it carries.
pub fn take_unsplit(fragment: &[u8], whole: &mut Body) -> Took
    requires heads { 20 ≤ length fragment.now }
    requires only { (total_of fragment.now == 1 && current_of fragment.now == 0) ≡ true }
    ensures told { result ≡ told (joining_behind longest_body fresh fragment.now) }
    ensures left { assembled_after longest_body fresh fragment.now ≡ fresh }
    ensures given { whole.new ≡ body_given (joining_behind longest_body fresh fragment.now) whole.old }
{
    let part = body_in(fragment);
    if LONGEST_BODY < part.len() {
        return Took::TooLong;
    }
    whole.set(part);
    Took::Message
}

/// Both heads of the message of at most `max` bytes that carries this body by itself, where it has the room.
/// With the body behind them it is all that `split` writes.
pub fn unsplit_head(kind: u32, number: u32, max: u32, body: &[u8]) -> Option<[u8; 20]>
    requires least { 64 ≤ max }
    requires most { max ≤ 4096 }
    ensures fits { is_some result ≡ nat_le (20 + length body.now) max }
    ensures head { IfSome result (λ head. head ++ body.now ≡ split kind number max body.now) }
{
    if max as usize - 20 < body.len() {
        return None;
    }
    Some(head_before(kind, number, body))
}

// Both heads of the only fragment of a message with this body.
fn head_before(kind: u32, number: u32, body: &[u8]) -> [u8; 20]
    requires { 20 + length body.now ≤ 4294967295 }
    ensures { result ++ body.now ≡ unsplit kind number body.now }
{
    let only = NewFragment {
        kind,
        number,
        total: 1,
        current: 0,
    };
    only.head(body.len() as u32)
}
