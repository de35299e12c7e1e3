//! What the modem says for the messages that the QMI modem sends.

ghost use Rattle.std.specs.Prelude.{◌≡◌, ◌≤◌, ◌++◌, [], IfOk, MatchOption, OnOk};
ghost use Rattle.qmux_frame.specs.Frame.{qmux_cut};
ghost use Rattle.sim_tunnel.specs.Carrying as spec;
ghost use Rattle.sim_tunnel.specs.Cutting.{Begins};

use crate::carrying::carrier;
use kit_bytes::Octets;
use mbim_frame::status::{INVALID_PARAMETERS, SUCCESS};
use qmi_tunnel::{QMI_MESSAGE, QMI_SERVICE, Ragged, unwrap};
use sim_mbim::{MbimSim, done, indication};
use std::alloc::{AllocError, Global};
use uuid::Uuid;

/// The answer to the command with this number for which the QMI modem sent these messages, and the
/// indications behind it.
pub(crate) fn answer(
    alloc: Global,
    mbim: &MbimSim,
    number: u32,
    messages: &[u8],
) -> Result<Octets, AllocError>
    ensures { IfOk result (λ text. text ≡ spec.answer number mbim.now.modem (qmux_cut messages.now).messages) }
{
    let longest = mbim.longest();
    let Some(count) = first_length(messages) else {
        return done(alloc, number, longest, &carrier(), INVALID_PARAMETERS, &[]);
    };
    let (response, more) = messages.split_at(count);
    let mut text = done(alloc, number, longest, &carrier(), SUCCESS, response)?;
    if !mbim.is_heard(Uuid::from_bytes(QMI_SERVICE), QMI_MESSAGE) {
        return Ok(text);
    }
    add_indications(alloc, &mut text, longest, more)?;
    Ok(text)
}

// The length of the first message, if there is one.
fn first_length(messages: &[u8]) -> Option<usize>
    ensures { MatchOption result ((qmux_cut messages.now).messages ≡ []) (λ count. Begins messages.now count) }
{
    match unwrap(messages) {
        Ok(_) => Some(messages.len()),
        Err(Ragged { place }) => { if place == 0 { None } else { Some(place) } }
    }
}

// Adds an indication for each of these messages.
fn add_indications(
    alloc: Global,
    text: &mut Octets,
    longest: u32,
    messages: &[u8],
) -> Result<(), AllocError>
    requires least { 64 ≤ longest }
    requires most { longest ≤ 4096 }
    ensures { OnOk result (text.new ≡ text.old ++ spec.indications longest (qmux_cut messages.now).messages) }
{
    let mut rest = messages;
    while let Some(count) = first_length(rest) {
        let (message, more) = rest.split_at(count);
        let told = indication(alloc, longest, &carrier(), message)?;
        text.extend_from_slice(told.as_slice())?;
        rest = more;
    }
    Ok(())
}
