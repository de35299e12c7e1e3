//! The reply to a whole command.

ghost use Rattle.std.specs.Prelude.{◌≡◌, [], Option, map, option_map, IfOk, OnOk};
ghost use Rattle.mbim_fields.specs.View.{value_view};
ghost use Rattle.sim_mbim.specs.Commands as spec;
ghost use Rattle.sim_mbim.specs.Modem.{Modem, Outcome, values_told, modem_left};

use crate::modem::Modem;
use crate::ussd::set_ussd;
use kit_bytes::{Octets, services};
use mbim_fields::{EncodeFault, FieldFault, FieldVal, FieldValue, decode_fields, encode_fields};
use mbim_frame::CommandHead;
use mbim_frame::status::{INVALID_PARAMETERS, NO_DEVICE_SUPPORT, SUCCESS};
use mbim_services::commands::SUBSCRIBE_LIST_CID;
use mbim_services::{Service, Way, layout};
use std::alloc::{AllocError, Global};
use uuid::Uuid;

/// The status of an answer, and its buffer.
#[derive(Drop)]
pub struct Reply {
    pub(crate) status: u32,
    pub(crate) buffer: Octets,
}

// Without a buffer.
fn refused(alloc: Global, status: u32) -> Reply
    ensures status { result.status ≡ status }
    ensures buffer { result.buffer ≡ [] }
{
    Reply {
        status,
        buffer: Octets::new(alloc),
    }
}

fn way(set: bool) -> Way
    ensures { result ≡ spec.way set }
{
    if set { Way::Set } else { Way::Query }
}

impl Modem {
    /// Replies to a command with this buffer.
    pub(crate) fn reply_to(
        &mut self,
        alloc: Global,
        head: &CommandHead,
        buffer: &[u8],
    ) -> Result<Reply, AllocError>
        ensures { IfOk result (λ reply. spec.reply_to head.now buffer.now self.old ≡ record { status = reply.status; buffer = reply.buffer; modem = self.new }) }
    {
        if is_list_set(head) {
            let told = self.set_list(alloc, buffer)?;
            return replied(alloc, head, told);
        }
        let Some(shape) = layout(head.uuid, head.cid, way(head.set)) else {
            return Ok(refused(alloc, NO_DEVICE_SUPPORT));
        };
        match decode_fields(alloc, &shape, buffer) {
            Ok(asked) => Ok(self.reply_to_values(alloc, head, asked.as_slice())?),
            Err(FieldFault::TooLarge | FieldFault::OutOfMemory) => Err(AllocError),
            Err(FieldFault::OutOfRange { .. } | FieldFault::Lone { .. }) => {
                Ok(refused(alloc, INVALID_PARAMETERS))
            }
        }
    }

    // Replies to a command whose fields have these values.
    fn reply_to_values(
        &mut self,
        alloc: Global,
        head: &CommandHead,
        asked: &[FieldValue],
    ) -> Result<Reply, AllocError>
        ensures { IfOk result (λ reply. spec.replied head.now self.old (spec.outcome head.now (map value_view asked.now) self.old) ≡ record { status = reply.status; buffer = reply.buffer; modem = self.new }) }
    {
        let told = self.outcome(alloc, head, asked)?;
        replied(alloc, head, told)
    }

    // What a command comes to: the values of its answer's fields, or None where it has no meaning.
    #[tactic(auto, using(crate::proofs::Outcomes::unchanged_outcomes))]
    fn outcome(
        &mut self,
        alloc: Global,
        head: &CommandHead,
        asked: &[FieldValue],
    ) -> Result<Option<Vec<FieldValue>>, AllocError>
        ensures told { IfOk result (λ told. option_map (λ values. map value_view values.items) told ≡ values_told (spec.outcome head.now (map value_view asked.now) self.old)) }
        ensures left { OnOk result (self.new ≡ modem_left self.old (spec.outcome head.now (map value_view asked.now) self.old)) }
    {
        if head.set {
            Ok(self.answer_set(alloc, head.uuid, head.cid, asked)?)
        } else {
            Ok(self.answer_query(alloc, head.uuid, head.cid, asked)?)
        }
    }

    fn answer_query(
        &self,
        alloc: Global,
        service: Uuid,
        cid: u32,
        asked: &[FieldValue],
    ) -> Result<Option<Vec<FieldValue>>, AllocError>
        ensures { IfOk result (λ told. option_map (λ values. map value_view values.items) told ≡ spec.answer_to_query service cid (map value_view asked.now) self.now) }
    {
        if service == Service::BasicConnect.uuid() {
            return self.query_basic_connect(alloc, cid, asked);
        }
        if service == Service::Sms.uuid() {
            return self.query_sms(alloc, cid, asked);
        }
        if service == Service::Phonebook.uuid() {
            return self.query_phonebook(alloc, cid, asked);
        }
        Ok(None)
    }

    #[tactic(auto, using(crate::proofs::Outcomes::unchanged_outcomes))]
    fn answer_set(
        &mut self,
        alloc: Global,
        service: Uuid,
        cid: u32,
        asked: &[FieldValue],
    ) -> Result<Option<Vec<FieldValue>>, AllocError>
        ensures told { IfOk result (λ told. option_map (λ values. map value_view values.items) told ≡ values_told (spec.answer_to_set service cid (map value_view asked.now) self.old)) }
        ensures left { OnOk result (self.new ≡ modem_left self.old (spec.answer_to_set service cid (map value_view asked.now) self.old)) }
    {
        if service == Service::BasicConnect.uuid() {
            return self.set_basic_connect(alloc, cid, asked);
        }
        if service == Service::Sms.uuid() {
            return self.set_sms(alloc, cid, asked);
        }
        if service == Service::Ussd.uuid() {
            return Ok(set_ussd(alloc, cid, asked)?);
        }
        if service == Service::Phonebook.uuid() {
            return self.set_phonebook(alloc, cid, asked);
        }
        Ok(Some(Vec::new(alloc)))
    }
}

// Whether a command sets the list to which the host listens.
fn is_list_set(head: &CommandHead) -> bool
    ensures { result ≡ spec.is_list_set head.now }
{
    head.set && head.uuid == Service::BasicConnect.uuid() && head.cid == SUBSCRIBE_LIST_CID
}

// The reply to a command that came to an outcome with these values.
fn replied(
    alloc: Global,
    head: &CommandHead,
    told: Option<Vec<FieldValue>>,
) -> Result<Reply, AllocError>
    ensures { IfOk result (λ reply. (m : Modem) (outcome : Option Outcome) → option_map (λ values. map value_view values.items) told ≡ values_told outcome
        → spec.replied head.now m outcome ≡ record { status = reply.status; buffer = reply.buffer; modem = modem_left m outcome }) }
{
    let Some(values) = told else {
        return Ok(refused(alloc, INVALID_PARAMETERS));
    };
    let buffer = encoded(alloc, head, values)?;
    Ok(Reply {
        status: SUCCESS,
        buffer,
    })
}

// The encoding of values in the layout of a command's answers, and nothing where they have none.
fn encoded(alloc: Global, head: &CommandHead, values: Vec<FieldValue>) -> Result<Octets, AllocError>
    ensures { IfOk result (λ buffer. buffer ≡ spec.encoded head.now (map value_view values.items)) }
{
    let Some(shape) = layout(head.uuid, head.cid, Way::Done) else {
        return Ok(Octets::new(alloc));
    };
    match encode_fields(alloc, &shape, &FieldVal::from(values)) {
        Ok(buffer) => Ok(buffer),
        Err(EncodeFault::OutOfMemory) => Err(AllocError),
        Err(EncodeFault::Misfit) => Ok(Octets::new(alloc)),
    }
}
