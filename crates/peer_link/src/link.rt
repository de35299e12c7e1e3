ghost use Rattle.std.specs.Prelude.{◌≡◌, ◌≤◌, [], ◌∷◌, ◌++◌, ℕ, List, Some, None, false, true, is_some, length, OnOk, IfOk};
ghost use Rattle.link_io.specs.Calls.{Call};
ghost use Rattle.link_session.specs.Peer.{texts_in};
ghost use Rattle.peer_link.specs.Made.{call_of};

use crate::Answerer;
use kit_bytes::Octets;
use kit_io::{CallCount, Failed, Faults};
use link_io::{Link, Taken, Target};
use std::alloc::{AllocError, Global};
use std::marker::Model;

/// A call that was made on a link.
#[derive(Drop)]
pub(crate) enum Made {
    Sent(Octets),
    Took(Octets),
    WasQuiet,
}

/// A link to a peer that answers each text at once.
///
/// A text is answered when it is sent, and the answer is kept until it is taken. All calls are kept too,
/// and told as long as they are: once memory ran out, and once the link was opened, paired or closed,
/// it tells nothing any more.
#[derive(Drop)]
pub struct PeerLink<A: Answerer> {
    alloc: Global,
    answerer: A,
    made: Vec<Made>,
    tells: bool,
    // all that the peer said, and how many bytes of it were taken
    said: Vec<u8>,
    taken: usize,
    faults: Faults,
    count: CallCount,
}

impl<A: Answerer> Model for PeerLink<A> {
    ghost use Rattle.std.specs.Prelude.{◌≡◌, ◌≤◌, true, Some, None, map, vec_len, if◌then◌else◌};
    ghost use Rattle.peer_link.specs.Linked.{Linked, IsAtPeer};
    ghost use Rattle.peer_link.specs.Made.{call_of};

    ghost Value = { Linked A };

    ghost view = { λ l. record {
      answerer = l.answerer;
      recorded = (if l.tells then Some (map call_of l.made.items) else None);
      faults = l.faults;
      count = l.count;
    } };

    ghost invariant = { λ l. (l.taken ≤ vec_len l.said) × (l.tells ≡ true → IsAtPeer A.peer A.has_met l.answerer (map call_of l.made.items) l.said.items l.taken) };
}

impl<A: Answerer> PeerLink<A> {
    ghost use Rattle.std.specs.Prelude.{IsTrue};
    ghost use Rattle.link_session.specs.Marks.{bytes_in};
    ghost use Rattle.link_session.specs.Peer.{LeadsTo, said};

    /// A link to a peer to which no text has come.
    pub fn to(alloc: Global, answerer: A) -> Self
        requires { A.has_met [] answerer }
        ensures answerer { result.answerer ≡ answerer }
        ensures recorded { result.recorded ≡ Some [] }
    {
        PeerLink {
            alloc,
            answerer,
            made: Vec::new(alloc),
            tells: true,
            said: Vec::new(alloc),
            taken: 0,
            faults: Faults::none(),
            count: CallCount::none(),
        }
    }

    /// Whether all its calls are told.
    pub fn is_recorded(&self) -> bool
        ensures recorded { result ≡ is_some self.now.recorded }
        ensures leads { (calls : List Call) → self.now.recorded ≡ Some calls → LeadsTo (A.peer self.now.answerer) [] [] calls }
    {
        self.tells
    }

    /// Whether all that the peer said was taken.
    pub fn is_drained(&self) -> bool
        ensures { IsTrue result → (calls : List Call) → self.now.recorded ≡ Some calls → said (A.peer self.now.answerer) [] (texts_in calls) ≡ bytes_in calls }
    {
        self.taken == self.said.len()
    }

    /// The texts that were sent, the oldest first.
    pub fn texts(&self) -> Result<Vec<Octets>, AllocError>
        ensures { IfOk result (λ texts. (calls : List Call) → self.now.recorded ≡ Some calls → texts.items ≡ texts_in calls) }
    {
        let mut texts = Vec::new(self.alloc);
        for made in &self.made {
            add_text(self.alloc, &mut texts, made)?;
        }
        Ok(texts)
    }
}

// Adds the text of a call that sent one.
#[tactic(auto, unfolding(link_session::specs::Peer::texts_in))]
fn add_text(alloc: Global, texts: &mut Vec<Octets>, made: &Made) -> Result<(), AllocError>
    ensures { OnOk result (texts.new.items ≡ texts.old.items ++ texts_in (call_of made.now ∷ [])) }
{
    if let Made::Sent(text) = made {
        let copy = Octets::from_slice(alloc, text.as_slice())?;
        texts.push(copy)?;
    }
    Ok(())
}

impl<A: Answerer> PeerLink<A> {
    ghost use Rattle.std.specs.Prelude.{OnErr};
    ghost use Rattle.kit_io.specs.Growth.{Grows};
    ghost use Rattle.link_io.specs.Calls as calls;
    ghost use Rattle.link_io.specs.Calls.{take_call};
    ghost use Rattle.link_io.specs.Target.{IsWithin};
    ghost use Rattle.peer_link.specs.Linked.{IsNoEnd};

    // The peer answers a text, and the answer is kept.
    fn ask(&mut self, text: &[u8]) -> Result<(), AllocError>
        ensures recorded { OnOk result (Grows self.old.recorded (calls.Sent text.now true ∷ []) self.new.recorded) }
        ensures named { OnOk result ((calls : List Call) → A.named self.new.answerer calls ≡ A.named self.old.answerer calls) }
        ensures err { OnErr result (self.new.recorded ≡ None) }
        ensures faults { self.new.faults ≡ self.old.faults }
        ensures count { self.new.count ≡ self.old.count }
    {
        let tells = self.tells;
        self.tells = false;
        let reply = self.answerer.answer(text)?;
        self.said.extend_from_slice(reply.as_slice())?;
        let text = Octets::from_slice(self.alloc, text)?;
        self.made.push(Made::Sent(text))?;
        self.tells = tells;
        Ok(())
    }

    // Brings as many of the bytes that wait as the buffer takes.
    fn bring(&mut self, buffer: &mut [u8]) -> Result<Taken, AllocError>
        ensures within { IfOk result (λ taken. IsWithin taken (length buffer.old)) }
        ensures no_end { IfOk result IsNoEnd }
        ensures recorded { OnOk result (Grows self.old.recorded (take_call result buffer.new ∷ []) self.new.recorded) }
        ensures same { self.new.answerer ≡ self.old.answerer }
        ensures err { OnErr result (self.new.recorded ≡ None) }
        ensures faults { self.new.faults ≡ self.old.faults }
        ensures count { self.new.count ≡ self.old.count }
    {
        let tells = self.tells;
        self.tells = false;
        let start = self.taken;
        let count = (self.said.len() - start).min(buffer.len());
        if count == 0 {
            self.made.push(Made::WasQuiet)?;
            self.tells = tells;
            return Ok(Taken::Quiet);
        }
        let piece = &self.said[start..start + count];
        buffer[..count].copy_from_slice(piece);
        let piece = Octets::from_slice(self.alloc, piece)?;
        self.made.push(Made::Took(piece))?;
        self.taken = start + count;
        self.tells = tells;
        Ok(Taken::Bytes(count))
    }
}

impl<A: Answerer> Link for PeerLink<A> {
    ghost use Rattle.std.specs.Option.{option_map};

    ghost calls = { λ s. option_map (A.named s.answerer) s.recorded };

    ghost ended = { λ s. false };

    ghost open_faults = { λ s. 0 };

    ghost faults = { λ s. s.faults };

    ghost made = { λ s. s.count };

    fn made(&self) -> u64 {
        self.count.value()
    }

    fn open(&mut self, _target: &Target) -> Result<(), Failed> {
        self.count.add();
        self.tells = false;
        Ok(())
    }

    fn pair(&mut self) -> Result<(), Failed> {
        self.count.add();
        self.tells = false;
        Ok(())
    }

    fn send(&mut self, bytes: &[u8]) -> Result<(), Failed> {
        self.count.add();
        match self.ask(bytes) {
            Ok(()) => Ok(()),
            Err(AllocError) => Err(self.faults.fail()),
        }
    }

    fn take(&mut self, buffer: &mut [u8]) -> Result<Taken, Failed> {
        self.count.add();
        match self.bring(buffer) {
            Ok(taken) => Ok(taken),
            Err(AllocError) => Err(self.faults.fail()),
        }
    }

    fn close(&mut self) {
        self.count.add();
        self.tells = false;
    }
}
