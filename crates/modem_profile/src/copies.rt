ghost use Rattle.std.specs.Prelude.{◌≡◌, IfOk, chars};

use crate::PhonebookEntry;
use kit_bytes::{Octets, Text};
use std::alloc::{AllocError, Global};

/// The text of a string.
pub(crate) fn text_of(alloc: Global, text: &str) -> Result<Text, AllocError>
    ensures { IfOk result (λ copy. copy ≡ chars text.now) }
{
    Text::from_str(alloc, text)
}

/// A copy of a text.
pub(crate) fn copy_text(alloc: Global, text: &Text) -> Result<Text, AllocError>
    ensures { IfOk result (λ copy. copy ≡ text.now) }
{
    Text::from_str(alloc, text.as_str())
}

/// A copy of messages.
pub(crate) fn copy_pdus(alloc: Global, pdus: &[Octets]) -> Result<Vec<Octets>, AllocError>
    ensures { IfOk result (λ copies. copies.items ≡ pdus.now) }
{
    let mut copies = Vec::new(alloc);
    for pdu in pdus {
        let copy = Octets::from_slice(alloc, pdu.as_slice())?;
        copies.push(copy)?;
    }
    Ok(copies)
}

/// A copy of the entries of a phone book.
pub(crate) fn copy_entries(
    alloc: Global,
    entries: &[PhonebookEntry],
) -> Result<Vec<PhonebookEntry>, AllocError>
    ensures { IfOk result (λ copies. copies.items ≡ entries.now) }
{
    let mut copies = Vec::new(alloc);
    for entry in entries {
        let copy = entry.copy(alloc)?;
        copies.push(copy)?;
    }
    Ok(copies)
}
