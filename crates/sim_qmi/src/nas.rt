//! Service 3 (NAS): the network that the modem is registered in.

ghost use Rattle.std.specs.Prelude.{◌≡◌, map, option_map, IfOk};
ghost use Rattle.qmi_values.specs.View.{val_view};
ghost use Rattle.sim_qmi.specs.Nas.{nas_request, nas_step, networks, plmn, registration, serving_system, signal, system};
ghost use Rattle.sim_qmi.specs.View.{answer_view};

use crate::answer::Answer;
use crate::state::ModemState;
use crate::values::{LTE, list_of_one, text};
use modem_profile::Profile;
use qmi_services::messages;
use qmi_values::Val;
use std::alloc::{AllocError, Global};
use tlv_values::sequence;

// The status of a network that serves.
const CURRENT_SERVING: u64 = 1;

const NOT_REGISTERED: u64 = 0;

const REGISTERED: u64 = 1;

const ATTACHED: u64 = 1;

const NETWORK_3GPP: u64 = 2;

// It listens every 32 frames.
const DRX: u64 = 6;

/// What a request to service 3 asks.
#[derive(Clone, Copy, PartialEq, Eq)]
pub(crate) enum NasRequest {
    GetSignalStrength,
    NetworkScan,
    GetServingSystem,
    GetHomeNetwork,
    GetDrx,
}

impl NasRequest {
    /// The request with this message id.
    pub(crate) fn read(id: u16) -> Option<NasRequest>
        ensures { result ≡ nas_request id }
    {
        match id {
            messages::GET_SIGNAL_STRENGTH_ID => Some(NasRequest::GetSignalStrength),
            messages::NETWORK_SCAN_ID => Some(NasRequest::NetworkScan),
            messages::GET_SERVING_SYSTEM_ID => Some(NasRequest::GetServingSystem),
            messages::GET_HOME_NETWORK_ID => Some(NasRequest::GetHomeNetwork),
            messages::GET_DRX_ID => Some(NasRequest::GetDrx),
            _ => None,
        }
    }
}

/// The answer to a request.
pub(crate) fn answer(
    alloc: Global,
    profile: &Profile,
    state: &ModemState,
    request: NasRequest,
) -> Result<Answer, AllocError>
    ensures { IfOk result (λ answer. answer_view answer ≡ (nas_step profile.now state.now request).answer) }
{
    match request {
        NasRequest::GetSignalStrength => Answer::with(alloc, signal(alloc, profile)?),
        NasRequest::NetworkScan => Answer::with(alloc, networks(alloc, profile)?),
        NasRequest::GetServingSystem => {
            let values = serving_system(alloc, profile, state.mode())?;
            Ok(Answer::Success(values))
        }
        NasRequest::GetHomeNetwork => Answer::with(alloc, plmn(alloc, profile)?),
        NasRequest::GetDrx => Answer::with(alloc, Val::U(DRX)),
    }
}

/// How it is registered in this operating mode, and where.
pub(crate) fn serving_system(
    alloc: Global,
    profile: &Profile,
    mode: u8,
) -> Result<Vec<Option<Val>>, AllocError>
    ensures { IfOk result (λ values. map (option_map val_view) values.items ≡ serving_system profile.now mode) }
{
    let system = system(alloc, mode)?;
    let plmn = plmn(alloc, profile)?;
    Ok(Vec::from_array(alloc, [Some(system), None, Some(plmn)])?)
}

fn system(alloc: Global, mode: u8) -> Result<Val, AllocError>
    ensures { IfOk result (λ val. val_view val ≡ system mode) }
{
    let registration = if mode == 0 {
        REGISTERED
    } else {
        NOT_REGISTERED
    };
    let interfaces = list_of_one(alloc, Val::I(i64::from(LTE)))?;
    sequence(
        alloc,
        [
            Val::U(registration),
            Val::U(ATTACHED),
            Val::U(ATTACHED),
            Val::U(NETWORK_3GPP),
            interfaces,
        ],
    )
}

fn signal(alloc: Global, profile: &Profile) -> Result<Val, AllocError>
    ensures { IfOk result (λ val. val_view val ≡ signal profile.now) }
{
    sequence(
        alloc,
        [Val::I(i64::from(profile.signal())), Val::I(i64::from(LTE))],
    )
}

// The one network.
fn networks(alloc: Global, profile: &Profile) -> Result<Val, AllocError>
    ensures { IfOk result (λ val. val_view val ≡ networks profile.now) }
{
    let name = text(alloc, profile.operator())?;
    let network = sequence(
        alloc,
        [
            Val::U(u64::from(profile.mcc())),
            Val::U(u64::from(profile.mnc())),
            Val::U(CURRENT_SERVING),
            name,
        ],
    )?;
    list_of_one(alloc, network)
}

fn plmn(alloc: Global, profile: &Profile) -> Result<Val, AllocError>
    ensures { IfOk result (λ val. val_view val ≡ plmn profile.now) }
{
    let name = text(alloc, profile.operator())?;
    sequence(
        alloc,
        [
            Val::U(u64::from(profile.mcc())),
            Val::U(u64::from(profile.mnc())),
            name,
        ],
    )
}
