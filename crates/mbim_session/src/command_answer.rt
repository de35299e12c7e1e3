ghost use Rattle.std.specs.Prelude.{◌≡◌, ◌≢◌, ◌≤◌, [], List, None, Err, IfOk, length};
ghost use Rattle.std.specs.Option.{unwrap_or};
ghost use Rattle.mbim_fragments.specs.Assembling.{fresh};
ghost use Rattle.link_session.specs.Marks.{Placed};
ghost use Rattle.link_session.specs.Hearing.{Hears};
ghost use Rattle.mbim_session.specs.Requests.{is_error, judge_piece};
ghost use Rattle.mbim_session.specs.Answers.{Reads, ReadsBody, ReadsError, body_with};
ghost use Rattle.mbim_session.specs.Hearing.{HasBody, HasPieces, HasReply};

use crate::plan::MbimEnd;
use crate::wanted::is_of;
use kit_bytes::u32_at;
use link_session::{Awaits, Meaning, SessionFault};
use mbim_fragments::{Assembly, Body, Took};
use mbim_frame::{DoneHead, Mbim, MessageKind, buffer_in};
use mbim_requests::MbimRequest;
use mbim_services::{AnswerFault, done};
use std::alloc::{AllocError, Global};

/// The answer to a command, as it comes in.
#[derive(Drop)]
pub struct CommandAnswer {
    number: u32,
    assembly: Assembly,
    // What its fragments carry, once all have come.
    body: Body,
    // Where its first fragment begins, once that has come.
    first: Option<u64>,
}

impl CommandAnswer {
    /// The answer to the command with this number, of which nothing has come.
    pub fn open(alloc: Global, number: u32) -> Result<Self, AllocError>
        ensures { IfOk result (λ answer. answer ≡ record { number = number; assembly = fresh; body = []; first = None }) }
    {
        Ok(CommandAnswer {
            number,
            assembly: Assembly::open(alloc)?,
            body: Body::open(alloc)?,
            first: None,
        })
    }

    // Takes the next message of the kind COMMAND_DONE with its number.
    fn take(&mut self, place: u64, message: &[u8]) -> Meaning
        ensures hears { (pieces : List Placed) → HasPieces self.old pieces
            → Hears judge_piece (HasPieces self.new) (HasBody self.new) pieces (record { place = place; bytes = message.now }) result }
        ensures number { self.new.number ≡ self.old.number }
    {
        let first = self.first.unwrap_or(place);
        self.first = Some(first);
        if message.len() < 20 {
            return Meaning::Broken { place: first };
        }
        match self.assembly.take(message, &mut self.body) {
            Took::More => Meaning::NoAnswer,
            Took::Message => Meaning::Answer,
            Took::OutOfSequence | Took::TooLong => Meaning::Broken { place },
        }
    }

    /// Whether a message is a FUNCTION_ERROR in place of the answer.
    pub fn is_error(&self, message: &[u8]) -> bool
        requires { 12 ≤ length message.now }
        ensures { result ≡ is_error self.now.number message.now }
    {
        is_of(MessageKind::FunctionError, self.number, message)
    }

    /// Where the answer begins, if not at this place.
    pub fn begin(&self, place: u64) -> u64
        ensures { result ≡ unwrap_or self.now.first place }
    {
        self.first.unwrap_or(place)
    }

    /// What its fragments carry, once all have come.
    pub fn body(&self) -> &[u8]
        ensures { result.now ≡ self.now.body }
    {
        self.body.as_slice()
    }

    /// What the answer says to a request. Its last message begins at this place.
    pub(crate) fn read(
        &self,
        alloc: Global,
        request: &MbimRequest,
        place: u64,
        message: &[u8],
    ) -> Result<MbimEnd, SessionFault>
        requires { 12 ≤ length message.now }
        ensures reads { (before : List Placed) → HasReply self.now before (record { place = place; bytes = message.now })
            → Reads request.now self.now.number before (record { place = place; bytes = message.now }) result }
        ensures no_link_fault { result ≢ Err SessionFault.LinkFault }
    {
        if is_of(MessageKind::FunctionError, self.number, message) {
            return read_error(place, message);
        }
        let begin = self.first.unwrap_or(place);
        read_body(alloc, request, begin, self.body.as_slice())
    }
}

impl Awaits<Mbim> for CommandAnswer {
    ghost use Rattle.mbim_session.specs.Requests.{judge_command, pieces};
    ghost use Rattle.mbim_session.specs.Hearing.{HasPieces, HasReply};

    ghost number = { λ answer. answer.number };

    ghost judge = { λ answer. judge_command answer.number };

    ghost has_heard = { λ answer before. HasPieces answer (pieces answer.number before) };

    ghost has_answer = { HasReply };

    fn hear(&mut self, place: u64, message: &[u8]) -> Meaning {
        if is_of(MessageKind::FunctionError, self.number, message) {
            Meaning::Answer
        } else if is_of(MessageKind::CommandDone, self.number, message) {
            self.take(place, message)
        } else {
            Meaning::NoAnswer
        }
    }
}

// What a FUNCTION_ERROR says that begins at this place.
fn read_error(place: u64, message: &[u8]) -> Result<MbimEnd, SessionFault>
    ensures { ReadsError (record { place = place; bytes = message.now }) result }
{
    if message.len() != 16 {
        return Err(SessionFault::Broken { place });
    }
    Ok(MbimEnd::FunctionError(u32_at(message, 12)))
}

// What the body of an answer says that begins at this place.
fn read_body(
    alloc: Global,
    request: &MbimRequest,
    begin: u64,
    body: &[u8],
) -> Result<MbimEnd, SessionFault>
    ensures { ReadsBody request.now begin body.now result }
{
    let Some(head) = DoneHead::read(body) else {
        return Err(SessionFault::Broken { place: begin });
    };
    match done(alloc, request, head.status, buffer_in(body)) {
        Ok(answer) => Ok(MbimEnd::Answer(answer)),
        Err(AnswerFault::Unread) => Err(SessionFault::Broken { place: begin }),
        // (Values that are too many are told as want of memory.)
        Err(AnswerFault::TooLarge | AnswerFault::OutOfMemory) => Err(SessionFault::OutOfMemory),
    }
}
