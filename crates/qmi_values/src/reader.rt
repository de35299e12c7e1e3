ghost use Rattle.std.specs.Prelude.{◌≡◌, ◌⊎◌, ◌↔◌, [], length, IfOk, IfErr, IsTrue};
ghost use Rattle.qmi_shapes.specs.declared.shape.Prefix.TheVariants.{Rest};
ghost use Rattle.qmi_shapes.specs.WellMade.{IsSize, IsBounded};
ghost use Rattle.qmi_values.specs.Numbers.{IsUnsigned, IsSigned};
ghost use Rattle.qmi_values.specs.Spelling.{IsCount, Follows};
ghost use Rattle.qmi_values.specs.Breaking.{IsListCount, IsText, fixed};
ghost use Rattle.qmi_values.specs.Reading.{Took, Takes, IsCutOff};

use crate::ValFault;
use crate::numbers::{signed_of, unsigned_of};
use qmi_shapes::Prefix;
use std::marker::Model;

// The bytes that are left of some, and how many stood before them.
#[derive(Drop)]
pub(crate) struct Reader<'a> {
    left: &'a [u8],
    place: usize,
}

impl<'a> Model for Reader<'a> {
    ghost use Rattle.std.specs.Prelude.{◌+◌, ◌^◌, ◌<◌, length};
    ghost use Rattle.qmi_values.specs.Reading.{Reading};

    ghost Value = { Reading };

    ghost view = { λ reader. record { place = reader.place; left = reader.left.now } };

    ghost invariant = { λ reader. reader.place + length reader.left.now < 2 ^ 64 };
}

impl<'a> Reader<'a> {
    pub(crate) fn new(bytes: &'a [u8]) -> Self
        ensures place { result.place ≡ 0 }
        ensures left { result.left ≡ bytes.now }
    {
        Reader {
            left: bytes,
            place: 0,
        }
    }

    pub(crate) fn place(&self) -> usize
        ensures { result ≡ self.now.place }
    {
        self.place
    }

    pub(crate) fn is_at_end(&self) -> bool
        ensures { IsTrue result ↔ (self.now.left ≡ []) }
    {
        self.left.is_empty()
    }

    // The next bytes, if there are so many.
    fn take(&mut self, count: usize) -> Result<&'a [u8], ValFault>
        ensures ok { IfOk result (λ bytes. (length bytes.now ≡ count) × Took bytes.now self.old self.new) }
        ensures err { IfErr result (IsCutOff (λ next. next ≡ fixed count) self.old) }
    {
        if self.left.len() < count {
            return Err(ValFault::Short { place: self.place });
        }
        let (front, back) = self.left.split_at(count);
        self.left = back;
        self.place += count;
        Ok(front)
    }

    pub(crate) fn unsigned(&mut self, size: u8) -> Result<u64, ValFault>
        requires { IsSize size }
        ensures ok { IfOk result (λ number. Takes (IsUnsigned size number) self.old self.new) }
        ensures err { IfErr result (λ fault. IsCutOff (λ next. next ≡ fixed size) self.old fault) }
    {
        let bytes = self.take(size.into())?;
        Ok(unsigned_of(bytes))
    }

    pub(crate) fn signed(&mut self, size: u8) -> Result<i64, ValFault>
        requires { IsSize size }
        ensures ok { IfOk result (λ number. Takes (IsSigned size number) self.old self.new) }
        ensures err { IfErr result (λ fault. IsCutOff (λ next. next ≡ fixed size) self.old fault) }
    {
        let bytes = self.take(size.into())?;
        Ok(signed_of(bytes))
    }

    // How many bytes or elements follow.
    pub(crate) fn count(&mut self, prefix: Prefix) -> Result<usize, ValFault>
        requires { (prefix ≡ Rest) ⊎ IsBounded prefix }
        ensures ok { IfOk result (λ count. Takes (IsCount prefix count) self.old self.new) }
        ensures rest { IfOk result (λ count. prefix ≡ Rest → count ≡ length self.new.left) }
        ensures err { IfErr result (IsCutOff (IsListCount prefix) self.old) }
    {
        match prefix {
            Prefix::Rest => Ok(self.left.len()),
            Prefix::Fixed(count) => Ok(count.into()),
            Prefix::Counted(size) => Ok(self.unsigned(size)? as usize),
        }
    }

    pub(crate) fn text(&mut self, prefix: Prefix) -> Result<&'a [u8], ValFault>
        requires { (prefix ≡ Rest) ⊎ IsBounded prefix }
        ensures ok { IfOk result (λ octets. Takes (Follows (IsCount prefix (length octets.now)) (λ back. back ≡ octets.now)) self.old self.new) }
        ensures err { IfErr result (IsCutOff (IsText prefix) self.old) }
    {
        let place = self.place;
        let count = self.count(prefix)?;
        let Ok(octets) = self.take(count) else {
            return Err(ValFault::Short { place });
        };
        Ok(octets)
    }
}
