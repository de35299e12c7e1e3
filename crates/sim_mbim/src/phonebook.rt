//! The commands of the service Phonebook.

ghost use Rattle.std.specs.Prelude.{◌≡◌, ◌+◌, ◌<◌, length, map, option_map, position, is_none, IfOk, IfSome, OnOk};
ghost use Rattle.mbim_fields.specs.View.{value_view};
ghost use Rattle.sim_mbim.specs.Phonebook as spec;
ghost use Rattle.sim_mbim.specs.Modem.{values_told, modem_left};

use crate::modem::Modem;
use crate::places::{Kept, forget, values_asked};
use crate::values::{list, number, number_at, structure, text, text_at, zeros};
use mbim_fields::FieldValue;
use mbim_services::commands;
use modem_profile::{PhonebookEntry, is_phonebook_text};
use std::alloc::{AllocError, Global};

// Where an entry is to be kept: in a place that isn't used, or under an index.
const SAVE_UNUSED: u64 = 0;

const SAVE_INDEX: u64 = 1;

impl Modem {
    /// Answers a query of the service.
    pub(crate) fn query_phonebook(
        &self,
        alloc: Global,
        cid: u32,
        asked: &[FieldValue],
    ) -> Result<Option<Vec<FieldValue>>, AllocError>
        ensures { IfOk result (λ told. option_map (λ values. map value_view values.items) told ≡ spec.answer_to_query cid (map value_view asked.now) self.now) }
    {
        match cid {
            commands::PHONEBOOK_CONFIGURATION_CID => Ok(Some(zeros(alloc, 5)?)),
            commands::PHONEBOOK_READ_CID => self.read_entries(
                alloc,
                number_at(asked, 0),
                number_at(asked, 1),
            ),
            _ => Ok(None),
        }
    }

    /// Answers a set of the service.
    pub(crate) fn set_phonebook(
        &mut self,
        alloc: Global,
        cid: u32,
        asked: &[FieldValue],
    ) -> Result<Option<Vec<FieldValue>>, AllocError>
        ensures told { IfOk result (λ told. option_map (λ values. map value_view values.items) told ≡ values_told (spec.answer_to_set cid (map value_view asked.now) self.old)) }
        ensures left { OnOk result (self.new ≡ modem_left self.old (spec.answer_to_set cid (map value_view asked.now) self.old)) }
    {
        match cid {
            commands::PHONEBOOK_DELETE_CID => Ok(self.delete_entries(
                alloc,
                number_at(asked, 0),
                number_at(asked, 1),
            )),
            commands::PHONEBOOK_WRITE_CID => {
                let number = text_at(alloc, asked, 2)?;
                let name = text_at(alloc, asked, 3)?;
                let entry = PhonebookEntry { number, name };
                Ok(self.write_entry(alloc, number_at(asked, 0), number_at(asked, 1), entry))
            }
            _ => Ok(None),
        }
    }

    fn read_entries(
        &self,
        alloc: Global,
        flag: u64,
        index: u64,
    ) -> Result<Option<Vec<FieldValue>>, AllocError>
        ensures { IfOk result (λ told. option_map (λ values. map value_view values.items) told ≡ spec.read flag index self.now) }
    {
        let Some(entries) = values_asked(alloc, &self.entries, flag, index)? else {
            return Ok(None);
        };
        Ok(Some(list_of(alloc, entries)?))
    }

    fn delete_entries(&mut self, alloc: Global, flag: u64, index: u64) -> Option<Vec<FieldValue>>
        ensures told { option_map (λ values. map value_view values.items) result ≡ values_told (spec.delete flag index self.old) }
        ensures left { self.new ≡ modem_left self.old (spec.delete flag index self.old) }
    {
        forget(&mut self.entries, flag, index)?;
        Some(Vec::new(alloc))
    }

    fn write_entry(
        &mut self,
        alloc: Global,
        flag: u64,
        index: u64,
        entry: PhonebookEntry,
    ) -> Option<Vec<FieldValue>>
        ensures told { option_map (λ values. map value_view values.items) result ≡ values_told (spec.write flag index entry self.old) }
        ensures left { self.new ≡ modem_left self.old (spec.write flag index entry self.old) }
    {
        if !is_phonebook_text(&entry.number) || !is_phonebook_text(&entry.name) {
            return None;
        }
        let place = self.place_for(flag, index)?;
        self.entries[place] = Some(entry);
        Some(Vec::new(alloc))
    }

    // Where an entry is to be kept.
    fn place_for(&self, flag: u64, index: u64) -> Option<usize>
        ensures place { option_map (λ place. place + 1) result ≡ spec.index_for flag index self.now }
        ensures within { IfSome result (λ place. place < length self.now.entries) }
    {
        match flag {
            SAVE_UNUSED => unused(&self.entries),
            SAVE_INDEX => {
                let place = usize::try_from(index.checked_sub(1)?).ok()?;
                (place < self.entries.len()).then_some(place)
            }
            _ => None,
        }
    }
}

// The first place where nothing is kept.
fn unused(entries: &[Option<PhonebookEntry>]) -> Option<usize>
    ensures place { result ≡ position is_none entries.now }
    ensures within { IfSome result (λ place. place < length entries.now) }
{
    entries.iter().position(|place| place.is_none())
}

impl Kept for PhonebookEntry {
    ghost use Rattle.sim_mbim.specs.Phonebook as spec;

    ghost value = { spec.entry };

    // Its index, its number and its name.
    fn value(&self, alloc: Global, index: u64) -> Result<FieldValue, AllocError> {
        let phone = text(alloc, &self.number)?;
        let name = text(alloc, &self.name)?;
        Ok(structure(vec![in alloc; number(index), phone, name]?))
    }
}

// The fields of a list of entries.
fn list_of(alloc: Global, entries: Vec<FieldValue>) -> Result<Vec<FieldValue>, AllocError>
    ensures { IfOk result (λ values. map value_view values.items ≡ spec.list_of (map value_view entries.items)) }
{
    let count = entries.len() as u64;
    Ok(vec![in alloc; number(count), list(entries)]?)
}
