ghost use Rattle.std.specs.Prelude.{◌≡◌, Some, option_map, OnOk, IfOk, IfErr};
ghost use Rattle.mbim_fields.specs.Canon as spec;
ghost use Rattle.mbim_fields.specs.Encoding.{IsMisfit};
ghost use Rattle.mbim_fields.specs.View.{fixed_view, value_view};

use crate::encoding::add_fixed;
use crate::numbers::four_bytes;
use crate::{EncodeFault, FieldValue, Fixed};
use kit_bytes::Octets;
use std::alloc::{AllocError, Global};
use std::marker::Model;

// So many bytes are taken at once for the fields of a structure, however many it is said to have.
const ROOM_AT_ONCE: usize = 1_024;

// What is laid out of a structure so far: its fields in place, and the data that they point at.
#[derive(Drop)]
pub(crate) struct Laid {
    front: Octets,
    back: Octets,
}

impl Model for Laid {
    ghost use Rattle.mbim_fields.specs.Canon.{Laid};

    ghost Value = { Laid };

    ghost view = { λ laid. record { front = laid.front; back = laid.back } };
}

impl Laid {
    // Nothing yet, with room for fields that take so many bytes in place; at most `ROOM_AT_ONCE` of
    // it is taken before they come.
    pub(crate) fn begin(alloc: Global, room: usize) -> Result<Self, AllocError>
        ensures { IfOk result (λ laid. laid ≡ spec.nothing) }
    {
        Ok(Laid {
            front: Octets::from(Vec::with_capacity(alloc, room.min(ROOM_AT_ONCE))?),
            back: Octets::new(alloc),
        })
    }

    // The bytes of the structure.
    pub(crate) fn into_octets(self) -> Result<Octets, AllocError>
        ensures { IfOk result (λ octets. octets ≡ spec.bytes_of self) }
    {
        let mut all = self.front;
        all.extend_from_slice(self.back.as_slice())?;
        Ok(all)
    }

    // Adds bytes in place.
    fn add(&mut self, bytes: &[u8]) -> Result<(), AllocError>
        ensures { OnOk result (self.new ≡ spec.add self.old bytes.now) }
    {
        self.front.extend_from_slice(bytes)
    }

    // Adds a value of one size in place.
    #[tactic(auto, using(crate::proofs::Writings::in_place_is))]
    pub(crate) fn add_fixed(&mut self, fixed: Fixed, value: &FieldValue) -> Result<(), EncodeFault>
        ensures ok { OnOk result (option_map (spec.add self.old) (spec.fixed_bytes (fixed_view fixed) (value_view value.now)) ≡ Some self.new) }
        ensures err { IfErr result (IsMisfit (spec.fixed_bytes (fixed_view fixed) (value_view value.now))) }
    {
        add_fixed(&mut self.front, fixed, value)
    }

    // Adds data, filled up with zeros to a multiple of 4.
    fn add_data(&mut self, bytes: &[u8]) -> Result<(), AllocError>
        ensures { OnOk result (self.new ≡ spec.add_data self.old bytes.now) }
    {
        let padding = [0; 3];
        let missing = (4 - bytes.len() % 4) % 4;
        self.back.extend_from_slices(bytes, &padding[..missing])
    }

    // Adds data, and in place the offset at which it stands, where all data begins at a place.
    pub(crate) fn point_at(&mut self, begin: usize, bytes: &[u8]) -> Result<(), EncodeFault>
        ensures ok { OnOk result (spec.point_at begin self.old bytes.now ≡ Some self.new) }
        ensures err { IfErr result (IsMisfit (spec.point_at begin self.old bytes.now)) }
    {
        if bytes.is_empty() {
            self.add(&[0; 4])?;
            return Ok(());
        }
        let Some(place) = begin.checked_add(self.back.as_slice().len()) else {
            return Err(EncodeFault::Misfit);
        };
        let Some(offset) = four_bytes(place as u64) else {
            return Err(EncodeFault::Misfit);
        };
        self.add(&offset)?;
        self.add_data(bytes)?;
        Ok(())
    }

    // The same with a pair of offset and size.
    pub(crate) fn point(&mut self, begin: usize, bytes: &[u8]) -> Result<(), EncodeFault>
        ensures ok { OnOk result (spec.point begin self.old bytes.now ≡ Some self.new) }
        ensures err { IfErr result (IsMisfit (spec.point begin self.old bytes.now)) }
    {
        self.point_at(begin, bytes)?;
        let Some(size) = four_bytes(bytes.len() as u64) else {
            return Err(EncodeFault::Misfit);
        };
        self.add(&size)?;
        Ok(())
    }
}
