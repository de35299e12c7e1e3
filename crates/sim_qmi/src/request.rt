ghost use Rattle.std.specs.Prelude.{◌≡◌, IfOk};
ghost use Rattle.qmi_services.specs.View.{row_view};
ghost use Rattle.sim_qmi.specs.Requests.{request_in};

use crate::{CtlRequest, DmsRequest, NasRequest, WdsRequest, WmsRequest};
use qmi_services::Message;
use qmi_services::messages::{CTL, DMS, NAS, WDS};
use std::alloc::{AllocError, Global};

// An input that each message with it needs.
const MAIN_INPUT: u8 = 0x01;

// The index that Delete names.
const INDEX_INPUT: u8 = 0x10;

/// What a request asks.
#[derive(Clone, Copy, PartialEq, Eq)]
pub(crate) enum Request {
    Ctl(CtlRequest),
    Wds(WdsRequest),
    Dms(DmsRequest),
    Nas(NasRequest),
    Wms(WmsRequest),
}

impl Request {
    /// What a request of a message asks with these TLVs, or None where the message has the input
    /// 0x01, and it is missing or unreadable.
    pub(crate) fn read(
        alloc: Global,
        message: &Message,
        tlvs: &[u8],
    ) -> Result<Option<Request>, AllocError>
        ensures { IfOk result (λ request. request ≡ request_in (row_view message.now) tlvs.now) }
    {
        let id = message.id();
        let input = message.input(alloc, MAIN_INPUT, tlvs)?;
        match message.service() {
            CTL => Ok(CtlRequest::read(id, &input).map(Request::Ctl)),
            WDS => Ok(WdsRequest::read(id, &input).map(Request::Wds)),
            DMS => Ok(DmsRequest::read(id, &input).map(Request::Dms)),
            NAS => Ok(NasRequest::read(id).map(Request::Nas)),
            _ => {
                let index = message.input(alloc, INDEX_INPUT, tlvs)?;
                Ok(WmsRequest::read(id, &input, &index).map(Request::Wms))
            }
        }
    }
}
