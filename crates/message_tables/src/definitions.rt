ghost use Rattle.std.specs.Prelude.{◌≡◌, IfOk, chars};
ghost use Rattle.qmi_shapes.specs.Form.{unsigned};
ghost use Rattle.qmi_shapes.specs.View.{field_view};

use crate::MemberName;
use crate::copies::{Allowance, copy_shape, copy_text, text_of};
use crate::fault::ObjectFault;
use crate::shapes::inside;
use crate::tlv::TlvShape;
use indexmap::IndexMap;
use kit_bytes::Text;
use qmi_shapes::{Shape, ShapeField, ShapeFields};
use serde_json::Value;
use std::alloc::{AllocError, Global};

/// What a name stands for: a TLV, whose name and id may be missing.
#[derive(Drop)]
pub struct Definition {
    pub name: Option<Text>,
    pub id: Option<u8>,
    pub shape: Shape,
}

/// The definitions so far.
#[derive(Drop)]
pub struct Definitions {
    named: IndexMap<String, Definition>,
    allowance: Allowance,
}

impl Definitions {
    ghost use Rattle.std.specs.Prelude.{◌≡◌, ℕ, List, Some, None, IfOk, OnOk, MatchResult, option_map, string_bytes, if◌then◌else◌};
    ghost use Rattle.std.specs.Str.{bytes_eq};
    ghost use Rattle.serde_json.specs.View.{view};
    ghost use Rattle.qmi_shapes.specs.View.{field_view};
    ghost use Rattle.message_tables.specs.Reads.{Gets};
    ghost use Rattle.message_tables.specs.Definitions.{first_definitions, named_by, referred};
    ghost use Rattle.message_tables.specs.Forms.{field_for};
    ghost use Rattle.message_tables.specs.Tlvs.{tlv_for};
    ghost use Rattle.message_tables.specs.View.{names_in, definition_view, tlv_view};

    /// The one definition that is there from the start, the result of an operation.
    pub fn open(alloc: Global) -> Result<Definitions, AllocError>
        ensures { IfOk result (λ definitions. (name : List ℕ)
            → names_in definitions name ≡ named_by first_definitions name) }
    {
        let mut definitions = Definitions::none(alloc);
        let reference = String::from_str(alloc, "Operation Result")?;
        definitions.define(reference, Definition::operation_result(alloc)?)?;
        Ok(definitions)
    }

    fn none(alloc: Global) -> Definitions
        ensures { (name : List ℕ) → names_in result name ≡ None }
    {
        Definitions {
            named: IndexMap::new(alloc),
            allowance: Allowance::full(),
        }
    }

    /// Lets a name stand for a definition from now on.
    pub fn define(&mut self, reference: String, definition: Definition) -> Result<(), AllocError>
        ensures { OnOk result ((name : List ℕ) → names_in self.new name
            ≡ (if bytes_eq (string_bytes reference) name then Some (definition_view definition)
            else names_in self.old name)) }
    {
        drop(self.named.insert(reference, definition)?);
        Ok(())
    }

    /// The definition that the value of a `common-ref` names.
    fn referred(&self, reference: &Value) -> Result<&Definition, ObjectFault>
        ensures { MatchResult result
            (λ definition. referred (names_in self.now) (view reference.now)
            ≡ Some (definition_view definition.now))
            (λ fault. (referred (names_in self.now) (view reference.now) ≡ None)
            × (fault ≡ ObjectFault.Member MemberName.CommonRef)) }
    {
        match self.find(reference) {
            Some(definition) => Ok(definition),
            None => Err(ObjectFault::Member(MemberName::CommonRef)),
        }
    }

    #[tactic(auto, unfolding(crate::specs::View::names_in))]
    fn find(&self, reference: &Value) -> Option<&Definition>
        ensures { option_map (λ definition. definition_view definition.now) result
            ≡ referred (names_in self.now) (view reference.now) }
    {
        self.named.get(reference.as_str()?)
    }

    /// The field that the value of a `common-ref` stands for.
    pub(crate) fn referred_field(
        &self,
        alloc: Global,
        reference: &Value,
    ) -> Result<ShapeField, ObjectFault>
        ensures { Gets field_view result
            (field_for (referred (names_in self.now) (view reference.now))) }
    {
        let definition = self.referred(reference)?;
        let name = definition.copy_name(alloc)?;
        let shape = inside(copy_shape(alloc, &self.allowance, &definition.shape)?);
        Ok(ShapeField { name, shape })
    }

    /// The TLV that the value of a `common-ref` stands for.
    pub(crate) fn referred_tlv(
        &self,
        alloc: Global,
        reference: &Value,
    ) -> Result<TlvShape, ObjectFault>
        ensures { Gets tlv_view result
            (tlv_for (referred (names_in self.now) (view reference.now))) }
    {
        let definition = self.referred(reference)?;
        let tlv = definition.copy_tlv(alloc, &self.allowance)?;
        Ok(tlv)
    }
}

impl Definition {
    ghost use Rattle.std.specs.Prelude.{◌≡◌, Some, IfOk};
    ghost use Rattle.message_tables.specs.Definitions.{operation_result};
    ghost use Rattle.message_tables.specs.Reading.{required};
    ghost use Rattle.message_tables.specs.Reads.{Gets, same};
    ghost use Rattle.message_tables.specs.Tlvs.{tlv_for};
    ghost use Rattle.message_tables.specs.View.{definition_view, tlv_view};

    // The TLV in which each answer tells its result.
    fn operation_result(alloc: Global) -> Result<Definition, AllocError>
        ensures { IfOk result (λ definition. definition_view definition ≡ operation_result) }
    {
        let name = text_of(alloc, "Result")?;
        let status = number_field(alloc, "Error Status")?;
        let code = number_field(alloc, "Error Code")?;
        let fields = Vec::from_array(alloc, [status, code])?;
        Ok(Definition {
            name: Some(name),
            id: Some(0x02),
            shape: Shape::Seq(ShapeFields::from(fields)),
        })
    }

    fn copy_tlv(&self, alloc: Global, allowance: &Allowance) -> Result<TlvShape, ObjectFault>
        ensures { Gets tlv_view result (tlv_for (Some (definition_view self.now))) }
    {
        let name = self.copy_name(alloc)?;
        let Some(kind) = self.id else {
            return Err(ObjectFault::Member(MemberName::Id));
        };
        let shape = copy_shape(alloc, allowance, &self.shape)?;
        Ok(TlvShape { kind, name, shape })
    }

    fn copy_name(&self, alloc: Global) -> Result<Text, ObjectFault>
        ensures { Gets same result (required MemberName.Name self.now.name) }
    {
        match &self.name {
            Some(name) => Ok(copy_text(alloc, name)?),
            None => Err(ObjectFault::Member(MemberName::Name)),
        }
    }
}

// A field with a number of two bytes.
#[tactic(auto, using(qmi_shapes::proofs::Views::shape_views))]
fn number_field(alloc: Global, name: &str) -> Result<ShapeField, AllocError>
    ensures { IfOk result (λ field. field_view field
        ≡ record { name = chars name.now; form = unsigned 2 }) }
{
    let name = text_of(alloc, name)?;
    Ok(ShapeField {
        name,
        shape: Shape::U(2),
    })
}
