ghost use Rattle.json_values.specs.Showing.{by_qmicli, plainly};

use kit_bytes::Octets;
use qmicli_print::{push_address, shown_for, word};
use std::alloc::{AllocError, Global};

/// What a printed text shows of the fields of a name beside or in place of their values.
pub trait Shows {
    ghost use Rattle.std.specs.Prelude.{◌≡◌, IfOk};
    ghost use Rattle.json_values.specs.Showing.{Showing};

    ghost showing: { Self → Showing };

    /// The word for a number of this name.
    fn word(&self, alloc: Global, name: &str, number: u64) -> Result<Option<Octets>, AllocError>
        ensures { IfOk result (λ word. word ≡ (showing self.now).word name.now number) };

    /// Whether a list of bytes of this name is shown by its hexadecimal digits.
    fn has_digits(&self, name: &str) -> bool
        ensures { result ≡ (showing self.now).digits name.now };
}

/// No words, and lists of bytes with their elements.
#[derive(Clone, Copy)]
pub struct Plainly;

impl Shows for Plainly {
    ghost showing = { λ _. plainly };

    fn word(
        &self,
        _alloc: Global,
        _name: &str,
        _number: u64,
    ) -> Result<Option<Octets>, AllocError> {
        Ok(None)
    }

    fn has_digits(&self, _name: &str) -> bool {
        false
    }
}

/// As `qmicli` prints them: with a word, or an IPv4 address.
#[derive(Clone, Copy)]
pub struct AsPrinted;

impl Shows for AsPrinted {
    ghost showing = { λ _. by_qmicli };

    fn word(&self, alloc: Global, name: &str, number: u64) -> Result<Option<Octets>, AllocError> {
        let shown = shown_for(name);
        if shown.is_address() {
            let mut address = Octets::new(alloc);
            push_address(&mut address, number)?;
            return Ok(Some(address));
        }
        match word(shown, number) {
            Some(word) => Ok(Some(Octets::from_slice(alloc, word.as_bytes())?)),
            None => Ok(None),
        }
    }

    fn has_digits(&self, name: &str) -> bool {
        shown_for(name).is_bytes()
    }
}
