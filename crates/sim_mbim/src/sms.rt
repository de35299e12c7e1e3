//! The commands of the service SMS.

ghost use Rattle.std.specs.Prelude.{◌≡◌, map, option_map, IfOk, OnOk};
ghost use Rattle.mbim_fields.specs.View.{value_view};
ghost use Rattle.sim_mbim.specs.Sms as spec;
ghost use Rattle.sim_mbim.specs.Modem.{values_told, modem_left};

use crate::modem::Modem;
use crate::places::{Kept, forget, values_asked};
use crate::values::{list, no_text, number, number_at, octets, structure, zero, zeros};
use kit_bytes::Octets;
use mbim_fields::FieldValue;
use mbim_services::commands;
use std::alloc::{AllocError, Global};

// The one format of messages.
const PDU: u64 = 0;

impl Modem {
    /// Answers a query of the service.
    pub(crate) fn query_sms(
        &self,
        alloc: Global,
        cid: u32,
        asked: &[FieldValue],
    ) -> Result<Option<Vec<FieldValue>>, AllocError>
        ensures { IfOk result (λ told. option_map (λ values. map value_view values.items) told ≡ spec.answer_to_query cid (map value_view asked.now) self.now) }
    {
        match cid {
            commands::SMS_CONFIGURATION_CID => Ok(Some(configuration(alloc)?)),
            commands::SMS_READ_CID => {
                let (format, flag) = (number_at(asked, 0), number_at(asked, 1));
                self.read_messages(alloc, format, flag, number_at(asked, 2))
            }
            commands::SMS_STORE_STATUS_CID => Ok(Some(zeros(alloc, 2)?)),
            _ => Ok(None),
        }
    }

    /// Answers a set of the service.
    pub(crate) fn set_sms(
        &mut self,
        alloc: Global,
        cid: u32,
        asked: &[FieldValue],
    ) -> Result<Option<Vec<FieldValue>>, AllocError>
        ensures told { IfOk result (λ told. option_map (λ values. map value_view values.items) told ≡ values_told (spec.answer_to_set cid (map value_view asked.now) self.old)) }
        ensures left { OnOk result (self.new ≡ modem_left self.old (spec.answer_to_set cid (map value_view asked.now) self.old)) }
    {
        match cid {
            commands::SMS_DELETE_CID => Ok(self.delete_messages(
                alloc,
                number_at(asked, 0),
                number_at(asked, 1),
            )),
            _ => Ok(None),
        }
    }

    fn read_messages(
        &self,
        alloc: Global,
        format: u64,
        flag: u64,
        index: u64,
    ) -> Result<Option<Vec<FieldValue>>, AllocError>
        ensures { IfOk result (λ told. option_map (λ values. map value_view values.items) told ≡ spec.read format flag index self.now) }
    {
        if format != PDU {
            return Ok(None);
        }
        let Some(messages) = values_asked(alloc, &self.messages, flag, index)? else {
            return Ok(None);
        };
        Ok(Some(list_of(alloc, messages)?))
    }

    fn delete_messages(&mut self, alloc: Global, flag: u64, index: u64) -> Option<Vec<FieldValue>>
        ensures told { option_map (λ values. map value_view values.items) result ≡ values_told (spec.delete flag index self.old) }
        ensures left { self.new ≡ modem_left self.old (spec.delete flag index self.old) }
    {
        forget(&mut self.messages, flag, index)?;
        Some(Vec::new(alloc))
    }
}

fn configuration(alloc: Global) -> Result<Vec<FieldValue>, AllocError>
    ensures { IfOk result (λ values. map value_view values.items ≡ spec.configuration) }
{
    Ok(vec![in alloc; zero(), zero(), zero(), zero(), no_text(alloc)]?)
}

impl Kept for Octets {
    ghost use Rattle.sim_mbim.specs.Sms as spec;

    ghost value = { spec.message };

    // Its index, no status, and its octets.
    fn value(&self, alloc: Global, index: u64) -> Result<FieldValue, AllocError> {
        let octets = octets(alloc, self.as_slice())?;
        Ok(structure(vec![in alloc; number(index), zero(), octets]?))
    }
}

// The fields of a list of messages.
fn list_of(alloc: Global, messages: Vec<FieldValue>) -> Result<Vec<FieldValue>, AllocError>
    ensures { IfOk result (λ values. map value_view values.items ≡ spec.list_of (map value_view messages.items)) }
{
    let count = messages.len() as u64;
    Ok(vec![in alloc; zero(), number(count), list(messages)]?)
}
