ghost use Rattle.table_requests.specs.Session.{Session as TableSession};
ghost use Rattle.tool_runs.specs.Json.{no_bodies};
ghost use Rattle.tool_runs.specs.Tables.{printed, refused};

use crate::session::{Refusal, Session};
use kit_bytes::Octets;
use link_io::Link;
use link_session::SessionFault;
use std::alloc::{AllocError, Global};
use table_requests::{TableEnd, TablePlan, table_session};

impl Session for TablePlan {
    type End = TableEnd;

    ghost session = { λ plan calls result. TableSession plan calls result };

    ghost refused = { refused };

    ghost printed = { printed };

    ghost bodies = { no_bodies };

    fn hold<L: Link>(&self, alloc: Global, link: &mut L) -> Result<TableEnd, SessionFault> {
        table_session(alloc, link, self)
    }

    fn refusal(end: &TableEnd) -> Option<Refusal> {
        match end {
            TableEnd::Refused(error) => Some(Refusal {
                function: false,
                code: u32::from(*error),
            }),
            TableEnd::Printed(_) => None,
        }
    }

    fn text(alloc: Global, end: &TableEnd) -> Result<Octets, AllocError> {
        match end {
            TableEnd::Refused(_) => Ok(Octets::new(alloc)),
            TableEnd::Printed(text) => Octets::from_slice(alloc, text.as_slice()),
        }
    }

    fn bodies(alloc: Global, _end: &TableEnd) -> Result<Vec<Octets>, AllocError> {
        Ok(Vec::new(alloc))
    }
}
