ghost use Rattle.std.specs.Prelude.{◌≡◌, ◌≤◌, Some, IfOk, length};
ghost use Rattle.serde_json.specs.Data.{Data};
ghost use Rattle.message_tables.specs.Tables.{value_of};
ghost use Rattle.message_tables.specs.View.{message_view};
ghost use Rattle.message_tables.specs.WellMade.{IsSoundMessage};
ghost use Rattle.table_requests.specs.Calls.{Gives};
ghost use Rattle.table_requests.specs.Laws.{ReadsBack};
ghost use Rattle.table_requests.specs.Requests.{request_by, request_with};
ghost use Rattle.table_requests.specs.View.{asked_view};

use crate::RequestFault;
use crate::input_tlvs::request_tlvs;
use kit_bytes::Octets;
use message_tables::{Message, TableFault, json_value};
use named_messages::read_message;
use qmux_frame::LONGEST_TLVS;
use std::alloc::Global;

/// A message of tables, and the TLVs of a request of it.
#[derive(Drop)]
pub struct Asked {
    pub message: Message,
    pub tlvs: Octets,
}

/// The request of the one message of a name in tables, with the values that a text in JSON gives.
#[tactic(auto, unfolding(crate::specs::Requests::request_by))]
pub fn request_by(
    alloc: Global,
    tables: &[u8],
    name: &str,
    json: &[u8],
) -> Result<Asked, RequestFault>
    ensures exact { Gives asked_view (request_by tables.now name.now json.now) result }
    // A message has room for the TLVs, and the forms of the answer are sound.
    ensures short { IfOk result (λ asked. length asked.tlvs ≤ LONGEST_TLVS) }
    ensures sound { IfOk result (λ asked. IsSoundMessage (message_view asked.message)) }
    ensures reads_back { IfOk result (λ asked. (object : Data) × (value_of json.now ≡ Some object) × ReadsBack (message_view asked.message).input object asked.tlvs) }
{
    let message = read_message(alloc, tables, name)?;
    let tlvs = tlvs_of(alloc, &message, json)?;
    Ok(Asked { message, tlvs })
}

fn tlvs_of(alloc: Global, message: &Message, json: &[u8]) -> Result<Octets, RequestFault>
    requires { IsSoundMessage (message_view message.now) }
    ensures { Gives (λ octets. octets) (request_with (message_view message.now).input (value_of json.now)) result }
{
    match json_value(alloc, json) {
        Ok(value) => request_tlvs(alloc, &message.input, &value),
        Err(TableFault::OutOfMemory) => Err(RequestFault::OutOfMemory),
        Err(_) => Err(RequestFault::Json),
    }
}
