//! Service 5 (WMS): the short messages that the modem stores.

ghost use Rattle.std.specs.Prelude.{◌≡◌, ◌++◌, map, IfOk, OnOk, option_map, option_and_then};
ghost use Rattle.std.specs.Option.{option_to_list};
ghost use Rattle.qmi_values.specs.View.{val_view};
ghost use Rattle.sim_qmi.specs.Inputs.{word_in};
ghost use Rattle.sim_qmi.specs.View.{answer_view};
ghost use Rattle.sim_qmi.specs.Wms.{index_in, listed, listing, raw, wms_request, wms_step};

use crate::answer::Answer;
use crate::errors::INVALID_CLIENT_ID;
use crate::inputs::{second_in, word_in};
use crate::state::ModemState;
use kit_bytes::Octets;
use qmi_services::messages;
use qmi_values::Val;
use std::alloc::{AllocError, Global};
use tlv_values::{list, list_of_bytes, sequence};

// The tag of a message that was received and read.
const TAG: u64 = 0;

// The format of 3GPP's point-to-point messages.
const POINT_TO_POINT: u64 = 6;

/// What a request to service 5 asks.
#[derive(Clone, Copy, PartialEq, Eq)]
pub(crate) enum WmsRequest {
    RawSend,
    RawRead { index: u32 },
    /// To delete the message with this index, if it names one.
    Delete { index: Option<u32> },
    ListMessages,
}

impl WmsRequest {
    /// The request with this message id and these values of TLV 0x01 and of TLV 0x10, or None where
    /// the message has the input 0x01, and it is missing or unreadable.
    pub(crate) fn read(id: u16, input: &Option<Val>, index: &Option<Val>) -> Option<WmsRequest>
        ensures { result ≡ wms_request id (option_map val_view input.now) (option_map val_view index.now) }
    {
        let input = input.as_ref();
        match id {
            messages::RAW_SEND_ID => input.map(|_| WmsRequest::RawSend),
            messages::RAW_READ_ID => {
                let index = index_in(input?)?;
                Some(WmsRequest::RawRead { index })
            }
            messages::DELETE_ID => {
                let _storage = input?;
                let index = number_in(index);
                Some(WmsRequest::Delete { index })
            }
            messages::LIST_MESSAGES_ID => input.map(|_| WmsRequest::ListMessages),
            _ => None,
        }
    }
}

// The index behind the storage.
fn index_in(value: &Val) -> Option<u32>
    ensures { result ≡ index_in (val_view value.now) }
{
    word_in(second_in(value)?)
}

fn number_in(value: &Option<Val>) -> Option<u32>
    ensures { result ≡ option_and_then word_in (option_map val_view value.now) }
{
    word_in(value.as_ref()?)
}

/// Answers a request.
pub(crate) fn answer(
    alloc: Global,
    state: &mut ModemState,
    request: WmsRequest,
) -> Result<Answer, AllocError>
    ensures answer { IfOk result (λ answer. answer_view answer ≡ (wms_step state.old request).answer) }
    ensures state { OnOk result (state.new ≡ (wms_step state.old request).state) }
{
    match request {
        WmsRequest::RawSend => {
            let number = state.send();
            Answer::with(alloc, Val::U(u64::from(number)))
        }
        WmsRequest::RawRead { index } => match state.message(index) {
            Some(message) => Answer::with(alloc, raw(alloc, message.as_slice())?),
            None => Ok(Answer::Failure(INVALID_CLIENT_ID)),
        },
        WmsRequest::Delete { index: Some(index) } => {
            if state.delete(index) {
                Ok(Answer::done(alloc))
            } else {
                Ok(Answer::Failure(INVALID_CLIENT_ID))
            }
        }
        WmsRequest::Delete { index: None } => Ok(Answer::Failure(INVALID_CLIENT_ID)),
        WmsRequest::ListMessages => Answer::with(alloc, listing(alloc, state)?),
    }
}

fn raw(alloc: Global, message: &[u8]) -> Result<Val, AllocError>
    ensures { IfOk result (λ val. val_view val ≡ raw message.now) }
{
    let octets = list_of_bytes(alloc, message)?;
    sequence(alloc, [Val::U(TAG), Val::U(POINT_TO_POINT), octets])
}

// The index and the tag of each message that is stored.
fn listing(alloc: Global, state: &ModemState) -> Result<Val, AllocError>
    ensures { IfOk result (λ val. val_view val ≡ listing state.now) }
{
    let messages = state.messages();
    let mut entries = Vec::new(alloc);
    for (index, message) in messages.iter().enumerate() {
        push_entry(alloc, &mut entries, index, message)?;
    }
    Ok(list(entries))
}

// Adds what is listed of a place of the storage.
fn push_entry(
    alloc: Global,
    entries: &mut Vec<Val>,
    index: usize,
    message: &Option<Octets>,
) -> Result<(), AllocError>
    ensures { OnOk result (map val_view entries.new.items ≡ map val_view entries.old.items ++ option_to_list (listed (index, message.now))) }
{
    let Some(_) = message else {
        return Ok(());
    };
    let entry = sequence(alloc, [Val::U(index as u64), Val::U(TAG)])?;
    entries.push(entry)?;
    Ok(())
}
