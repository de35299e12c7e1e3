ghost use Rattle.device_core.specs.Session.{Session as QmiSession};
ghost use Rattle.qmicli_print.specs.Answer.{end_text};
ghost use Rattle.sms_answers.specs.Qmi.{qmi_bodies};
ghost use Rattle.tool_runs.specs.Qmi.{refused};

use crate::session::{Refusal, Session};
use device_core::{QmiPlan, qmi_session};
use kit_bytes::Octets;
use link_io::Link;
use link_session::SessionFault;
use qmi_services::{QmiAnswer, QmiEnd};
use qmicli_print::qmi_text;
use sms_answers::qmi_bodies;
use std::alloc::{AllocError, Global};

impl Session for QmiPlan {
    type End = QmiEnd;

    ghost session = { λ plan calls result. QmiSession plan calls result };

    ghost refused = { refused };

    ghost printed = { end_text };

    ghost bodies = { qmi_bodies };

    fn hold<L: Link>(&self, alloc: Global, link: &mut L) -> Result<QmiEnd, SessionFault> {
        qmi_session(alloc, link, self)
    }

    fn refusal(end: &QmiEnd) -> Option<Refusal> {
        match &end.answer {
            QmiAnswer::Failure(error) => Some(Refusal {
                function: false,
                code: u32::from(*error),
            }),
            QmiAnswer::Success(_) => None,
        }
    }

    fn text(alloc: Global, end: &QmiEnd) -> Result<Octets, AllocError> {
        qmi_text(alloc, end)
    }

    fn bodies(alloc: Global, end: &QmiEnd) -> Result<Vec<Octets>, AllocError> {
        qmi_bodies(alloc, end)
    }
}
