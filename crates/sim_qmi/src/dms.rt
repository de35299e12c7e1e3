//! Service 2 (DMS): what device it is, and its operating mode.

ghost use Rattle.std.specs.Prelude.{◌≡◌, [], ◌∷◌, None, Some, IfOk, OnOk, option_map};
ghost use Rattle.qmi_values.specs.View.{val_view};
ghost use Rattle.qmi_values.specs.Value.{text};
ghost use Rattle.sim_qmi.specs.Dms.{capabilities, dms_request, dms_step};
ghost use Rattle.sim_qmi.specs.Step.{success};
ghost use Rattle.sim_qmi.specs.View.{answer_view};

use crate::answer::Answer;
use crate::inputs::byte_in;
use crate::state::ModemState;
use crate::values::{LTE, MAX_RX, MAX_TX, list_of_one, text};
use modem_profile::{AsciiText, Profile};
use qmi_services::messages;
use qmi_values::Val;
use std::alloc::{AllocError, Global};
use tlv_values::sequence;

// A data service in the circuit-switched domain.
const DATA_SERVICE_CS: u64 = 1;

const SIM_SUPPORTED: u64 = 2;

/// What a request to service 2 asks.
#[derive(Clone, Copy, PartialEq, Eq)]
pub(crate) enum DmsRequest {
    GetCapabilities,
    GetManufacturer,
    GetModel,
    GetRevision,
    GetMsisdn,
    GetIds,
    GetOperatingMode,
    SetOperatingMode { mode: u8 },
}

impl DmsRequest {
    /// The request with this message id and this value of TLV 0x01, or None where the message has
    /// this input, and it is missing or unreadable.
    pub(crate) fn read(id: u16, input: &Option<Val>) -> Option<DmsRequest>
        ensures { result ≡ dms_request id (option_map val_view input.now) }
    {
        match id {
            messages::GET_CAPABILITIES_ID => Some(DmsRequest::GetCapabilities),
            messages::GET_MANUFACTURER_ID => Some(DmsRequest::GetManufacturer),
            messages::GET_MODEL_ID => Some(DmsRequest::GetModel),
            messages::GET_REVISION_ID => Some(DmsRequest::GetRevision),
            messages::GET_MSISDN_ID => Some(DmsRequest::GetMsisdn),
            messages::GET_IDS_ID => Some(DmsRequest::GetIds),
            messages::GET_OPERATING_MODE_ID => Some(DmsRequest::GetOperatingMode),
            messages::SET_OPERATING_MODE_ID => {
                let mode = byte_in(input.as_ref()?)?;
                Some(DmsRequest::SetOperatingMode { mode })
            }
            _ => None,
        }
    }
}

/// Answers a request.
pub(crate) fn answer(
    alloc: Global,
    profile: &Profile,
    state: &mut ModemState,
    request: DmsRequest,
) -> Result<Answer, AllocError>
    ensures answer { IfOk result (λ answer. answer_view answer ≡ (dms_step profile.now state.old request).answer) }
    ensures state { OnOk result (state.new ≡ (dms_step profile.now state.old request).state) }
{
    match request {
        DmsRequest::GetCapabilities => Answer::with(alloc, capabilities(alloc)?),
        DmsRequest::GetManufacturer => told(alloc, profile.manufacturer()),
        DmsRequest::GetModel => told(alloc, profile.model()),
        DmsRequest::GetRevision => told(alloc, profile.revision()),
        DmsRequest::GetMsisdn => told(alloc, profile.msisdn()),
        DmsRequest::GetIds => ids(alloc, profile.imei()),
        DmsRequest::GetOperatingMode => Answer::with(alloc, Val::U(u64::from(state.mode()))),
        DmsRequest::SetOperatingMode { mode } => {
            state.set_mode(mode);
            Ok(Answer::done(alloc))
        }
    }
}

// A success that tells a text.
fn told(alloc: Global, told: &AsciiText) -> Result<Answer, AllocError>
    ensures { IfOk result (λ answer. answer_view answer ≡ success (Some (text told.now) ∷ [])) }
{
    let told = text(alloc, told)?;
    Answer::with(alloc, told)
}

// An IMEI, and neither an ESN nor an MEID.
fn ids(alloc: Global, imei: &AsciiText) -> Result<Answer, AllocError>
    ensures { IfOk result (λ answer. answer_view answer ≡ success (None ∷ Some (text imei.now) ∷ None ∷ [])) }
{
    let imei = text(alloc, imei)?;
    let ids = Vec::from_array(alloc, [None, Some(imei), None])?;
    Ok(Answer::Success(ids))
}

// The rates, a data service, a SIM, and LTE alone.
fn capabilities(alloc: Global) -> Result<Val, AllocError>
    ensures { IfOk result (λ val. val_view val ≡ capabilities) }
{
    let interfaces = list_of_one(alloc, Val::U(u64::from(LTE)))?;
    sequence(
        alloc,
        [
            Val::U(MAX_TX),
            Val::U(MAX_RX),
            Val::U(DATA_SERVICE_CS),
            Val::U(SIM_SUPPORTED),
            interfaces,
        ],
    )
}
