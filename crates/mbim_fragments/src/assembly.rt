ghost use Rattle.std.specs.Prelude.{◌≡◌, ◌≤◌, length, IfOk, IfSome};

use crate::body::Body;
use crate::unsplit::{is_unsplit, take_unsplit};
use mbim_frame::{FragmentHead, MHead, body_in};
use std::alloc::{AllocError, Global};
use std::marker::Model;
use std::mem;

/// How many bytes the body of a message in fragments has at most.
pub const LONGEST_BODY: usize = 65_536;

/// What a fragment comes to.
#[derive(Clone, Copy, Debug, PartialEq, Eq)]
pub enum Took {
    /// It is the last of its message, whose body is there.
    Message,
    /// More fragments are to follow.
    More,
    /// It isn't the one that is due.
    OutOfSequence,
    /// The body would be too long.
    TooLong,
}

/// How far a message has come.
#[derive(Clone, Copy, PartialEq, Eq)]
struct Progress {
    // The number and the total of its fragments.
    number: u32,
    total: u32,
    // How many of them came.
    count: u32,
}

/// Joins the fragments of messages, one message at a time.
#[derive(Drop)]
pub struct Assembly {
    progress: Option<Progress>,
    // What the fragments that came carry: nothing where no message has begun.
    body: Body,
}

impl Model for Assembly {
    ghost use Rattle.std.specs.Prelude.{◌≡◌, ◌<◌, [], MatchOption};
    ghost use Rattle.mbim_fragments.specs.Assembling.{Assembled};

    ghost Value = { Assembled };

    ghost view = { λ a. record { progress = a.progress; body = a.body } };

    ghost invariant = { λ a. MatchOption a.progress (a.body ≡ []) (λ p. p.count < p.total) };
}

impl Assembly {
    ghost use Rattle.mbim_fragments.specs.Assembling.{assembled_after, body_given, fresh, joining_behind, progress_behind};
    ghost use Rattle.mbim_fragments.specs.Runs.{told, longest_body};

    /// An assembly before the first fragment, with the room that it will ever need.
    pub fn open(alloc: Global) -> Result<Self, AllocError>
        ensures { IfOk result (λ assembly. assembly ≡ fresh) }
    {
        Ok(Assembly {
            progress: None,
            body: Body::open(alloc)?,
        })
    }

    /// Takes the next fragment, which has both heads, and gives the body that the last one of a message
    /// completes. What isn't taken is dropped, and the fragments before it with it.
    #[inline(always)]
    pub fn take(&mut self, fragment: &[u8], whole: &mut Body) -> Took
        requires heads { 20 ≤ length fragment.now }
        ensures told { result ≡ told (joining_behind longest_body self.old fragment.now) }
        ensures left { self.new ≡ assembled_after longest_body self.old fragment.now }
        ensures given { whole.new ≡ body_given (joining_behind longest_body self.old fragment.now) whole.old }
    {
        if self.progress.is_some() || !is_unsplit(fragment) {
            return self.take_part(fragment, whole);
        }
        take_unsplit(fragment, whole)
    }

    // Takes the next fragment, as any.
    #[inline(never)]
    fn take_part(&mut self, fragment: &[u8], whole: &mut Body) -> Took
        requires heads { 20 ≤ length fragment.now }
        ensures told { result ≡ told (joining_behind longest_body self.old fragment.now) }
        ensures left { self.new ≡ assembled_after longest_body self.old fragment.now }
        ensures given { whole.new ≡ body_given (joining_behind longest_body self.old fragment.now) whole.old }
    {
        let Some(progress) = self.progress_with(fragment) else {
            self.restart();
            return Took::OutOfSequence;
        };
        let part = body_in(fragment);
        if LONGEST_BODY - self.body.len() < part.len() {
            self.restart();
            return Took::TooLong;
        }
        self.body.append(part);
        if progress.count < progress.total {
            self.progress = Some(progress);
            return Took::More;
        }
        mem::swap(&mut self.body, whole);
        self.body.clear();
        self.progress = None;
        Took::Message
    }

    /// Forgets the fragments that came.
    pub fn restart(&mut self)
        ensures { self.new ≡ fresh }
    {
        self.progress = None;
        self.body.clear();
    }

    // How far the message has come with this fragment, where it is the one that is due.
    fn progress_with(&self, fragment: &[u8]) -> Option<Progress>
        requires heads { 20 ≤ length fragment.now }
        ensures due { result ≡ progress_behind self.now.progress fragment.now }
        ensures within { IfSome result (λ p. p.count ≤ p.total) }
    {
        let number = MHead::read(fragment).number;
        let FragmentHead { total, current } = FragmentHead::read(fragment);
        let due = match self.progress {
            None => current == 0 && total > 0,
            Some(before) => {
                number == before.number && total == before.total && current == before.count
            }
        };
        if due {
            Some(Progress {
                number,
                total,
                count: current + 1,
            })
        } else {
            None
        }
    }
}
