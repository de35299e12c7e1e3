ghost use Rattle.std.specs.Prelude.{◌≡◌, ◌++◌, List, ℕ, OnOk, IfOk};
ghost use Rattle.std.specs.List.{concat};
ghost use Rattle.framing.specs.Cutting.{cut};
ghost use Rattle.sim_modem.specs.Sim.{Answering};
ghost use Rattle.transparency.specs.Asking.{Hears};

use framing::Framing;
use kit_bytes::Octets;
use rig_stage::first_message;
use sim_modem::Sim;
use std::alloc::{AllocError, Global};

/// The modem is asked each whole message of these bytes. Gives the messages that it sends for them.
pub(crate) fn ask_all<S: Sim>(
    alloc: Global,
    sim: &mut S,
    bytes: &[u8],
) -> Result<Vec<Octets>, AllocError>
    ensures { IfOk result (λ messages. (modem : Answering) (asked : List (List ℕ)) → S.keeps modem asked sim.old
        → Hears S.keeps S.Framing.size modem asked (cut S.Framing.size bytes.now).messages messages.items sim.new) }
{
    let mut messages = Vec::new(alloc);
    let mut rest = bytes;
    while let Some(count) = first_message::<S::Framing>(rest) {
        let (message, more) = rest.split_at(count);
        let answer = sim.ask(message)?;
        add_messages::<S::Framing>(alloc, &mut messages, answer.as_slice())?;
        rest = more;
    }
    Ok(messages)
}

// Adds each whole message of these bytes.
fn add_messages<F: Framing>(
    alloc: Global,
    messages: &mut Vec<Octets>,
    bytes: &[u8],
) -> Result<(), AllocError>
    ensures { OnOk result (messages.new.items ≡ messages.old.items ++ (cut F.size bytes.now).messages) }
{
    let mut rest = bytes;
    while let Some(count) = first_message::<F>(rest) {
        let (message, more) = rest.split_at(count);
        let copy = Octets::from_slice(alloc, message)?;
        messages.push(copy)?;
        rest = more;
    }
    Ok(())
}

/// Messages one behind the other.
pub(crate) fn joined(alloc: Global, messages: &[Octets]) -> Result<Octets, AllocError>
    ensures { IfOk result (λ bytes. bytes ≡ concat messages.now) }
{
    let mut bytes = Octets::new(alloc);
    for message in messages {
        bytes.extend_from_slice(message.as_slice())?;
    }
    Ok(bytes)
}
