ghost use Rattle.tool_runs.specs.Tunnel.{bodies, printed, refused};
ghost use Rattle.tunnel_session.specs.Session.{Session as TunnelSession};

use crate::session::{Refusal, Session};
use device_core::QmiPlan;
use kit_bytes::Octets;
use link_io::Link;
use link_session::SessionFault;
use qmicli_print::qmi_text;
use sms_answers::qmi_bodies;
use std::alloc::{AllocError, Global};
use std::marker::Model;
use tunnel_session::{TunnelEnd, tunnel_session};

/// What a session is to do with a QMI modem that an MBIM modem carries messages to.
#[derive(Drop)]
pub struct TunnelPlan {
    pub qmi: QmiPlan,
}

impl Model for TunnelPlan {
    ghost use Rattle.device_core.specs.declared.plan.QmiPlan.{QmiPlan};

    ghost Value = { QmiPlan };

    ghost view = { λ plan. plan.qmi };
}

impl Session for TunnelPlan {
    type End = TunnelEnd;

    ghost session = { λ plan calls result. TunnelSession plan calls result };

    ghost refused = { refused };

    ghost printed = { printed };

    ghost bodies = { bodies };

    fn hold<L: Link>(&self, alloc: Global, link: &mut L) -> Result<TunnelEnd, SessionFault> {
        tunnel_session(alloc, link, &self.qmi)
    }

    fn refusal(end: &TunnelEnd) -> Option<Refusal> {
        match end {
            TunnelEnd::Qmi(end) => QmiPlan::refusal(end),
            TunnelEnd::Mbim(status) => Some(Refusal {
                function: false,
                code: *status,
            }),
            TunnelEnd::FunctionError(code) => Some(Refusal {
                function: true,
                code: *code,
            }),
        }
    }

    fn text(alloc: Global, end: &TunnelEnd) -> Result<Octets, AllocError> {
        match end {
            TunnelEnd::Qmi(end) => qmi_text(alloc, end),
            TunnelEnd::Mbim(_) | TunnelEnd::FunctionError(_) => Ok(Octets::new(alloc)),
        }
    }

    fn bodies(alloc: Global, end: &TunnelEnd) -> Result<Vec<Octets>, AllocError> {
        match end {
            TunnelEnd::Qmi(end) => qmi_bodies(alloc, end),
            TunnelEnd::Mbim(_) | TunnelEnd::FunctionError(_) => Ok(Vec::new(alloc)),
        }
    }
}
