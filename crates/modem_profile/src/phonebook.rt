ghost use Rattle.std.specs.Prelude.{◌≡◌, IfOk};
ghost use Rattle.modem_profile.specs.Limits.{is_phonebook_text};

use crate::copies::copy_text;
use kit_bytes::Text;
use std::alloc::{AllocError, Global};

/// An entry of a phone book.
#[derive(Drop)]
pub struct PhonebookEntry {
    pub number: Text,
    pub name: Text,
}

impl PhonebookEntry {
    /// A copy of it.
    pub fn copy(&self, alloc: Global) -> Result<Self, AllocError>
        ensures { IfOk result (λ copy. copy ≡ self.now) }
    {
        let number = copy_text(alloc, &self.number)?;
        let name = copy_text(alloc, &self.name)?;
        Ok(PhonebookEntry { number, name })
    }
}

/// Whether a phone book takes the text: it has at most 100 units in UTF-16.
pub fn is_phonebook_text(text: &Text) -> bool
    ensures { result ≡ is_phonebook_text text.now }
{
    let mut units: usize = 0;
    for char in text.as_str().chars() {
        units = units.saturating_add(char.len_utf16());
    }
    units <= 100
}
