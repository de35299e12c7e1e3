ghost use Rattle.std.specs.Prelude.{◌≡◌, ◌≤◌, [], length, IfOk};
ghost use Rattle.tlv_codec.specs.Tlv.{tlv_text};
ghost use Rattle.qmi_services.specs.Modem.{output_tlvs};
ghost use Rattle.qmi_services.specs.Table.{get_serving_system};
ghost use Rattle.sim_qmi.specs.Nas.{serving_system};
ghost use Rattle.qmux_frame.specs.Reply.{reply_to};
ghost use Rattle.qmi_services.specs.View.{row_view};
ghost use Rattle.modem_profile.specs.Limits.{IsWithin};
ghost use Rattle.sim_qmi.specs.Fits.{Fits};
ghost use Rattle.sim_qmi.specs.Modem.{indication, response};
ghost use Rattle.sim_qmi.specs.Step.{failure};
ghost use Rattle.sim_qmi.specs.View.{answer_view};

use crate::answer::Answer;
use crate::nas::serving_system;
use kit_bytes::Octets;
use modem_profile::Profile;
use qmi_services::messages::{GET_SERVING_SYSTEM_ID, NAS};
use qmi_services::{Message, message_at};
use qmux_frame::{Head, MessageKind, NewMessage, Sender, reply_to, result_reply};
use std::alloc::{AllocError, Global};

// The Result TLV of a success.
const SUCCESS: [u8; 7] = [0x02, 0x04, 0x00, 0x00, 0x00, 0x00, 0x00];

// The client id of what goes to every client.
const EVERY_CLIENT: u8 = 255;

/// The response to a request of a message with this head.
pub(crate) fn response(
    alloc: Global,
    head: &Head,
    message: &Message,
    answer: &Answer,
) -> Result<Octets, AllocError>
    requires { Fits (row_view message.now).output (answer_view answer.now) }
    ensures { IfOk result (λ octets. octets ≡ response head.now (row_view message.now).output (answer_view answer.now)) }
{
    match answer {
        Answer::Failure(error) => failure(alloc, head, *error),
        Answer::Success(values) => {
            let mut tlvs = Octets::from_slice(alloc, &SUCCESS)?;
            message.write_outputs(alloc, &mut tlvs, values)?;
            reply_to(head).write(alloc, tlvs.as_slice())
        }
    }
}

/// The response that tells an error alone.
#[tactic(auto, unfolding(qmux_frame::specs::Reply::reply_of))]
pub(crate) fn failure(alloc: Global, head: &Head, error: u16) -> Result<Octets, AllocError>
    ensures { IfOk result (λ octets. octets ≡ response head.now [] (failure error)) }
{
    let reply = result_reply(head, error);
    Octets::from_slice(alloc, reply.bytes())
}

/// The Serving System indication in this operating mode, which goes to every client.
pub(crate) fn indication(alloc: Global, profile: &Profile, mode: u8) -> Result<Octets, AllocError>
    requires { IsWithin profile.now }
    ensures { IfOk result (λ octets. octets ≡ indication profile.now mode) }
{
    let tlvs = system_tlvs(alloc, profile, mode)?;
    let indication = NewMessage {
        sender: Sender::Modem,
        service: NAS,
        cid: EVERY_CLIENT,
        flags: MessageKind::Indication.flags(NAS),
        number: 0,
        // Its indication has the id of the request.
        message: GET_SERVING_SYSTEM_ID,
    };
    indication.write(alloc, tlvs.as_slice())
}

// The TLVs of the serving system in this operating mode.
fn system_tlvs(alloc: Global, profile: &Profile, mode: u8) -> Result<Octets, AllocError>
    requires { IsWithin profile.now }
    ensures exact { IfOk result (λ tlvs. tlvs ≡ tlv_text (output_tlvs get_serving_system.output (serving_system profile.now mode))) }
    ensures short { IfOk result (λ tlvs. length tlvs ≤ 4096) }
{
    let message = message_at(NAS, GET_SERVING_SYSTEM_ID).unwrap();
    let values = serving_system(alloc, profile, mode)?;
    let mut tlvs = Octets::new(alloc);
    message.write_outputs(alloc, &mut tlvs, &values)?;
    Ok(tlvs)
}
