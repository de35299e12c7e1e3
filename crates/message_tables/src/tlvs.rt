ghost use Rattle.std.specs.Prelude.{◌≡◌, ◌==◌, map};
ghost use Rattle.std.specs.List.{list_any};
ghost use Rattle.message_tables.specs.Tlvs.{has_twice, nest_well};
ghost use Rattle.message_tables.specs.View.{tlv_view};

use crate::MemberName;
use crate::copies::text_of;
use crate::definitions::Definitions;
use crate::fault::ObjectFault;
use crate::members::{member, objects_in, text_member, tlv_id};
use crate::nesting::nests_well;
use crate::shapes::both;
use crate::tlv::{TlvShape, TlvShapes};
use serde_json::Value;
use std::alloc::Global;

impl Definitions {
    ghost use Rattle.serde_json.specs.View.{view, items_view};
    ghost use Rattle.message_tables.specs.Reading.{listed};
    ghost use Rattle.message_tables.specs.Reads.{Reads};
    ghost use Rattle.message_tables.specs.Tlvs.{tlv_of, tlvs_in};
    ghost use Rattle.message_tables.specs.View.{names_in, tlv_view, tlvs_view};

    /// The TLVs that a member lists; None where a format isn't known.
    #[tactic(auto, unfolding(crate::specs::Tlvs::tlvs_in))]
    pub(crate) fn tlvs(
        &self,
        alloc: Global,
        object: &Value,
        name: MemberName,
    ) -> Result<Option<TlvShapes>, ObjectFault>
        ensures { Reads tlvs_view result (tlvs_in name (names_in self.now) (view object.now)) }
    {
        match member(object, name) {
            Some(value) => match objects_in(value) {
                Some(objects) => self.listed_tlvs(alloc, objects),
                None => Err(ObjectFault::Member(name)),
            },
            None => Ok(Some(TlvShapes::from(Vec::new(alloc)))),
        }
    }

    fn listed_tlvs(
        &self,
        alloc: Global,
        objects: &[Value],
    ) -> Result<Option<TlvShapes>, ObjectFault>
        ensures { Reads tlvs_view result
            (listed (tlv_of (names_in self.now)) (items_view objects.now)) }
    {
        let mut tlvs = Some(Vec::new(alloc));
        for object in objects {
            let tlv = self.tlv(alloc, object)?;
            tlvs = both(tlvs, tlv)?;
        }
        match tlvs {
            Some(tlvs) => Ok(Some(TlvShapes::from(tlvs))),
            None => Ok(None),
        }
    }

    #[tactic(auto, unfolding(crate::specs::Tlvs::tlv_of))]
    fn tlv(&self, alloc: Global, object: &Value) -> Result<Option<TlvShape>, ObjectFault>
        ensures { Reads tlv_view result (tlv_of (names_in self.now) (view object.now)) }
    {
        if let Some(reference) = member(object, MemberName::CommonRef) {
            return Ok(Some(self.referred_tlv(alloc, reference)?));
        }
        let name = text_of(alloc, text_member(object, MemberName::Name)?)?;
        let kind = tlv_id(object).ok_or(ObjectFault::Member(MemberName::Id))?;
        match self.shape(alloc, object)? {
            Some(shape) => Ok(Some(TlvShape { kind, name, shape })),
            None => Ok(None),
        }
    }
}

/// Whether an id stands twice.
#[tactic(auto, using(crate::proofs::Lists::taken))]
pub(crate) fn has_twice(tlvs: &[TlvShape]) -> bool
    ensures { result ≡ has_twice (map tlv_view tlvs.now) }
{
    for (index, tlv) in tlvs.iter().enumerate() {
        if has_kind(&tlvs[..index], tlv.kind) {
            return true;
        }
    }
    false
}

#[tactic(auto, using(crate::proofs::Lists::taken))]
fn has_kind(tlvs: &[TlvShape], kind: u8) -> bool
    ensures { result ≡ list_any (λ tlv. tlv.kind == kind) (map tlv_view tlvs.now) }
{
    for tlv in tlvs {
        if tlv.kind == kind {
            return true;
        }
    }
    false
}

/// Whether no more formats stand inside each other than may.
#[tactic(auto, using(crate::proofs::Lists::taken))]
pub(crate) fn nest_well(tlvs: &[TlvShape]) -> bool
    ensures { result ≡ nest_well (map tlv_view tlvs.now) }
{
    for tlv in tlvs {
        if !nests_well(&tlv.shape) {
            return false;
        }
    }
    true
}
