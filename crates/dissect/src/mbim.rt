ghost use Rattle.std.specs.Prelude.{◌≡◌, ◌≤◌, ◌++◌, [], length, IfOk};
ghost use Rattle.dissect.specs.Mbim.{mbim_lines};
ghost use Rattle.dissect.specs.Runs.{StandsForRuns};

use crate::mbim_body::push_joined;
use crate::mbim_head::{push_head, push_tail};
use kit_bytes::Octets;
use mbim_fragments::{Assembly, Body};
use mbim_frame::{MHead, Mbim, MessageKind};
use std::alloc::{AllocError, Global};
use stream_lines::Shows;

/// Shows MBIM messages, and joins those that come in fragments, each kind by itself.
#[derive(Drop)]
pub struct MbimLines {
    commands: Assembly,
    answers: Assembly,
    indications: Assembly,
    // the body that was completed last
    body: Body,
}

impl MbimLines {
    /// No message has come.
    pub fn open(alloc: Global) -> Result<Self, AllocError>
        ensures { IfOk result (λ state. StandsForRuns state []) }
    {
        Ok(MbimLines {
            commands: Assembly::open(alloc)?,
            answers: Assembly::open(alloc)?,
            indications: Assembly::open(alloc)?,
            body: Body::open(alloc)?,
        })
    }
}

impl Shows for MbimLines {
    type Frames = Mbim;

    ghost shows = { λ shown before state. (shown ≡ mbim_lines) × StandsForRuns state before };

    fn show(
        &mut self,
        alloc: Global,
        lines: &mut Octets,
        place: u64,
        message: &[u8],
    ) -> Result<(), AllocError> {
        let head = MHead::read(message);
        push_head(lines, place, head)?;
        if message.len() < 20 {
            push_tail(lines, &message[12..])?;
            return Ok(());
        }
        let Some(kind) = head.message_kind() else {
            push_tail(lines, &message[12..])?;
            return Ok(());
        };
        match kind {
            MessageKind::Command => {
                let took = self.commands.take(message, &mut self.body);
                push_joined(alloc, lines, kind, took, self.body.as_slice())?;
                Ok(())
            }
            MessageKind::CommandDone => {
                let took = self.answers.take(message, &mut self.body);
                push_joined(alloc, lines, kind, took, self.body.as_slice())?;
                Ok(())
            }
            MessageKind::IndicateStatus => {
                let took = self.indications.take(message, &mut self.body);
                push_joined(alloc, lines, kind, took, self.body.as_slice())?;
                Ok(())
            }
            _ => {
                push_tail(lines, &message[12..])?;
                Ok(())
            }
        }
    }
}
