ghost use Rattle.std.specs.Prelude.{◌≡◌, ℕ, List, IfOk};
ghost use Rattle.tool_runs.specs.Json.{end_line, inside_line, mbim_line, no_bodies};

use crate::session::{Refusal, Session};
use crate::tunnel::TunnelPlan;
use device_core::QmiPlan;
use fields_json::mbim_line;
use json_values::{AsPrinted, qmi_line};
use kit_bytes::Octets;
use link_io::Link;
use link_session::SessionFault;
use mbim_session::{MbimEnd, MbimPlan};
use qmi_services::QmiEnd;
use std::alloc::{AllocError, Global};
use tunnel_session::TunnelEnd;

/// A session whose end can be printed as one JSON object, on a line.
pub trait JsonSession: Session {
    ghost line: { Self.End → List ℕ };

    /// The line of its end.
    fn line(alloc: Global, end: &Self::End) -> Result<Octets, AllocError>
        ensures { IfOk result (λ text. text ≡ line end.now) };
}

/// A plan whose answer is printed so, and nothing of the messages that it holds.
#[derive(Drop)]
pub struct JsonPlan<'a, S> {
    pub asked: &'a S,
}

impl<'a, S: JsonSession> Session for JsonPlan<'a, S> {
    type End = S::End;

    ghost session = { λ plan calls result. S.session plan.asked.now calls result };

    ghost refused = { S.refused };

    ghost printed = { S.line };

    ghost bodies = { no_bodies };

    fn hold<L: Link>(&self, alloc: Global, link: &mut L) -> Result<S::End, SessionFault> {
        self.asked.hold(alloc, link)
    }

    fn refusal(end: &S::End) -> Option<Refusal> {
        S::refusal(end)
    }

    fn text(alloc: Global, end: &S::End) -> Result<Octets, AllocError> {
        S::line(alloc, end)
    }

    fn bodies(alloc: Global, _end: &S::End) -> Result<Vec<Octets>, AllocError> {
        Ok(Vec::new(alloc))
    }
}

impl JsonSession for QmiPlan {
    ghost line = { end_line };

    fn line(alloc: Global, end: &QmiEnd) -> Result<Octets, AllocError> {
        qmi_line(alloc, &AsPrinted, end)
    }
}

impl JsonSession for TunnelPlan {
    ghost line = { inside_line };

    fn line(alloc: Global, end: &TunnelEnd) -> Result<Octets, AllocError> {
        match end {
            TunnelEnd::Qmi(end) => qmi_line(alloc, &AsPrinted, end),
            TunnelEnd::Mbim(_) | TunnelEnd::FunctionError(_) => Ok(Octets::new(alloc)),
        }
    }
}

impl JsonSession for MbimPlan {
    ghost line = { mbim_line };

    fn line(alloc: Global, end: &MbimEnd) -> Result<Octets, AllocError> {
        match end {
            MbimEnd::Answer(answer) => mbim_line(alloc, answer),
            MbimEnd::FunctionError(_) => Ok(Octets::new(alloc)),
        }
    }
}
