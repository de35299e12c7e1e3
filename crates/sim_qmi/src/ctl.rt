//! Service 0 (CTL), which gives client ids of the services.

ghost use Rattle.std.specs.Prelude.{◌≡◌, [], ◌∷◌, Some, IfOk, OnOk, option_map};
ghost use Rattle.qmi_values.specs.View.{val_view};
ghost use Rattle.sim_qmi.specs.Ctl.{client_id, ctl_request, ctl_step, release_in, versions};
ghost use Rattle.sim_qmi.specs.Step.{success};
ghost use Rattle.sim_qmi.specs.View.{answer_view};

use crate::answer::Answer;
use crate::errors::{CLIENT_IDS_EXHAUSTED, INVALID_CLIENT_ID};
use crate::inputs::{byte_in, first_in, second_in};
use crate::services::SERVICES;
use crate::state::ModemState;
use qmi_values::Val;
use qmux_frame::control;
use std::alloc::{AllocError, Global};
use tlv_values::{list, sequence};

/// What a request to service 0 asks.
#[derive(Clone, Copy, PartialEq, Eq)]
pub(crate) enum CtlRequest {
    GetVersionInfo,
    /// A client id of this service.
    Allocate { service: u8 },
    /// To give a client id back.
    Release { service: u8, id: u8 },
    Sync,
    ProxyOpen,
}

impl CtlRequest {
    /// The request with this message id and this value of TLV 0x01, or None where the message has
    /// this input, and it is missing or unreadable.
    pub(crate) fn read(id: u16, input: &Option<Val>) -> Option<CtlRequest>
        ensures { result ≡ ctl_request id (option_map val_view input.now) }
    {
        match id {
            control::GET_VERSION_INFO => Some(CtlRequest::GetVersionInfo),
            control::ALLOCATE => {
                let service = byte_in(input.as_ref()?)?;
                Some(CtlRequest::Allocate { service })
            }
            control::RELEASE => release_in(input.as_ref()?),
            control::SYNC => Some(CtlRequest::Sync),
            control::PROXY_OPEN => {
                let _path = input.as_ref()?;
                Some(CtlRequest::ProxyOpen)
            }
            _ => None,
        }
    }
}

fn release_in(value: &Val) -> Option<CtlRequest>
    ensures { result ≡ release_in (val_view value.now) }
{
    let service = byte_in(first_in(value)?)?;
    let id = byte_in(second_in(value)?)?;
    Some(CtlRequest::Release { service, id })
}

/// Answers a request.
pub(crate) fn answer(
    alloc: Global,
    state: &mut ModemState,
    request: CtlRequest,
) -> Result<Answer, AllocError>
    ensures answer { IfOk result (λ answer. answer_view answer ≡ (ctl_step state.old request).answer) }
    ensures state { OnOk result (state.new ≡ (ctl_step state.old request).state) }
{
    match request {
        CtlRequest::GetVersionInfo => Answer::with(alloc, versions(alloc)?),
        CtlRequest::Allocate { service } => match state.allocate(service)? {
            Some(id) => given(alloc, service, id),
            None => Ok(Answer::Failure(CLIENT_IDS_EXHAUSTED)),
        },
        CtlRequest::Release { service, id } => {
            if state.release(service, id) {
                given(alloc, service, id)
            } else {
                Ok(Answer::Failure(INVALID_CLIENT_ID))
            }
        }
        CtlRequest::Sync | CtlRequest::ProxyOpen => Ok(Answer::done(alloc)),
    }
}

// A success that names a client id.
fn given(alloc: Global, service: u8, id: u8) -> Result<Answer, AllocError>
    ensures { IfOk result (λ answer. answer_view answer ≡ success (Some (client_id service id) ∷ [])) }
{
    let id = sequence(alloc, [Val::U(u64::from(service)), Val::U(u64::from(id))])?;
    Answer::with(alloc, id)
}

// The services, each in version 1.0.
fn versions(alloc: Global) -> Result<Val, AllocError>
    ensures { IfOk result (λ val. val_view val ≡ versions) }
{
    let mut versions = Vec::new(alloc);
    for service in SERVICES {
        let version = sequence(alloc, [Val::U(u64::from(service)), Val::U(1), Val::U(0)])?;
        versions.push(version)?;
    }
    Ok(list(versions))
}
