//! Service 1 (WDS), which connects to a packet data network.

ghost use Rattle.std.specs.Prelude.{◌≡◌, IfOk, OnOk, map, option_map};
ghost use Rattle.qmi_values.specs.View.{val_view};
ghost use Rattle.sim_qmi.specs.View.{answer_view};
ghost use Rattle.sim_qmi.specs.Wds.{rates, settings, wds_request, wds_step};

use crate::answer::Answer;
use crate::errors::INVALID_CLIENT_ID;
use crate::inputs::word_in;
use crate::state::ModemState;
use crate::values::{MAX_RX, MAX_TX, address};
use qmi_services::messages;
use qmi_values::Val;
use std::alloc::{AllocError, Global};
use tlv_values::sequence;

/// What a request to service 1 asks.
#[derive(Clone, Copy, PartialEq, Eq)]
pub(crate) enum WdsRequest {
    StartNetwork,
    /// To end the connection with this packet data handle.
    StopNetwork { handle: u32 },
    GetPacketServiceStatus,
    GetChannelRates,
    GetCurrentSettings,
}

impl WdsRequest {
    /// The request with this message id and this value of TLV 0x01, or None where the message has
    /// this input, and it is missing or unreadable.
    pub(crate) fn read(id: u16, input: &Option<Val>) -> Option<WdsRequest>
        ensures { result ≡ wds_request id (option_map val_view input.now) }
    {
        match id {
            messages::START_NETWORK_ID => Some(WdsRequest::StartNetwork),
            messages::STOP_NETWORK_ID => {
                let handle = word_in(input.as_ref()?)?;
                Some(WdsRequest::StopNetwork { handle })
            }
            messages::GET_PACKET_SERVICE_STATUS_ID => Some(WdsRequest::GetPacketServiceStatus),
            messages::GET_CHANNEL_RATES_ID => Some(WdsRequest::GetChannelRates),
            messages::GET_CURRENT_SETTINGS_ID => Some(WdsRequest::GetCurrentSettings),
            _ => None,
        }
    }
}

/// Answers a request.
pub(crate) fn answer(
    alloc: Global,
    state: &mut ModemState,
    request: WdsRequest,
) -> Result<Answer, AllocError>
    ensures answer { IfOk result (λ answer. answer_view answer ≡ (wds_step state.old request).answer) }
    ensures state { OnOk result (state.new ≡ (wds_step state.old request).state) }
{
    match request {
        WdsRequest::StartNetwork => {
            let handle = state.start();
            Answer::with(alloc, Val::U(u64::from(handle)))
        }
        WdsRequest::StopNetwork { handle } => {
            if state.stop(handle) {
                Ok(Answer::done(alloc))
            } else {
                Ok(Answer::Failure(INVALID_CLIENT_ID))
            }
        }
        WdsRequest::GetPacketServiceStatus => {
            let connection = if state.is_connected() { 2 } else { 1 };
            Answer::with(alloc, Val::U(connection))
        }
        WdsRequest::GetChannelRates => Answer::with(alloc, rates(alloc)?),
        WdsRequest::GetCurrentSettings => Ok(Answer::Success(settings(alloc)?)),
    }
}

// The rates, and the greatest ones.
fn rates(alloc: Global) -> Result<Val, AllocError>
    ensures { IfOk result (λ val. val_view val ≡ rates) }
{
    sequence(
        alloc,
        [
            Val::U(MAX_TX),
            Val::U(MAX_RX),
            Val::U(MAX_TX),
            Val::U(MAX_RX),
        ],
    )
}

// The primary name server and no secondary one, the address, the gateway, the mask, and the MTU.
fn settings(alloc: Global) -> Result<Vec<Option<Val>>, AllocError>
    ensures { IfOk result (λ values. map (option_map val_view) values.items ≡ settings) }
{
    let values = Vec::from_array(
        alloc,
        [
            Some(address(10, 0, 0, 1)),
            None,
            Some(address(10, 0, 0, 2)),
            Some(address(10, 0, 0, 1)),
            Some(address(255, 255, 255, 0)),
            Some(Val::U(1500)),
        ],
    )?;
    Ok(values)
}
