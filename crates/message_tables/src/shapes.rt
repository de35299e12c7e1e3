ghost use Rattle.std.specs.Prelude.{◌≡◌, ◌+◌, ◌<◌, option_map, MatchResult, IfOk};
ghost use Rattle.serde_json.specs.Data.{depth, items_depth};
ghost use Rattle.serde_json.specs.View.{view, items_view};
ghost use Rattle.qmi_shapes.specs.View.{shape_view};
ghost use Rattle.message_tables.specs.Reads.{pushed};
ghost use Rattle.message_tables.specs.Reading.{faulty, listed};
ghost use Rattle.message_tables.specs.Definitions.{Names};
ghost use Rattle.message_tables.specs.Forms.{inside, inside_prefix, form_of, field_of, element_of, contents_of};

use crate::MemberName;
use crate::copies::text_of;
use crate::definitions::Definitions;
use crate::fault::ObjectFault;
use crate::format::{Format, format_of};
use crate::members::{member, objects_in, text_member};
use crate::sizes::{number_size, stated_prefix};
use qmi_shapes::{Prefix, Shape, ShapeField, ShapeFields};
use serde_json::Value;
use std::alloc::Global;

/// The shape that a value has inside another: a text that would be all the bytes has a count.
#[tactic(auto, using(qmi_shapes::proofs::Views::shape_views))]
pub(crate) fn inside(shape: Shape) -> Shape
    ensures { shape_view result ≡ inside (shape_view shape) }
{
    match shape {
        Shape::Str(prefix) => Shape::Str(inside_prefix(prefix)),
        Shape::U(bytes) => Shape::U(bytes),
        Shape::I(bytes) => Shape::I(bytes),
        Shape::List(prefix, element) => Shape::List(prefix, element),
        Shape::Seq(fields) => Shape::Seq(fields),
    }
}

// The object that the member `array-element` is.
#[tactic(auto, using(crate::proofs::Depths::shallow))]
fn array_element(object: &Value) -> Result<&Value, ObjectFault>
    ensures found { MatchResult result
        (λ element. (names : Names) → element_of names (view object.now) ≡ form_of names (view element.now))
        (λ fault. ((names : Names) → element_of names (view object.now) ≡ faulty MemberName.ArrayElement)
        × (fault ≡ ObjectFault.Member MemberName.ArrayElement)) }
    ensures within { IfOk result (λ element. depth (view element.now) < depth (view object.now)) }
{
    match member(object, MemberName::ArrayElement) {
        Some(element) if element.is_object() => Ok(element),
        _ => Err(ObjectFault::Member(MemberName::ArrayElement)),
    }
}

// The objects that the member `contents` lists, of which there are some.
#[tactic(auto, using(crate::proofs::Depths::shallow))]
fn contents(object: &Value) -> Result<&[Value], ObjectFault>
    ensures found { MatchResult result
        (λ objects. (names : Names) → contents_of names (view object.now)
        ≡ listed (field_of names) (items_view objects.now))
        (λ fault. ((names : Names) → contents_of names (view object.now) ≡ faulty MemberName.Contents)
        × (fault ≡ ObjectFault.Member MemberName.Contents)) }
    ensures within { IfOk result
        (λ objects. items_depth (items_view objects.now) + 1 < depth (view object.now)) }
{
    let Some(value) = member(object, MemberName::Contents) else {
        return Err(ObjectFault::Member(MemberName::Contents));
    };
    match objects_in(value) {
        Some(objects) if !objects.is_empty() => Ok(objects),
        _ => Err(ObjectFault::Member(MemberName::Contents)),
    }
}

fn inside_prefix(prefix: Prefix) -> Prefix
    ensures { result ≡ inside_prefix prefix }
{
    match prefix {
        Prefix::Rest => Prefix::Counted(1),
        Prefix::Fixed(count) => Prefix::Fixed(count),
        Prefix::Counted(bytes) => Prefix::Counted(bytes),
    }
}

impl Definitions {
    ghost use Rattle.std.specs.Prelude.{◌≡◌, map};
    ghost use Rattle.serde_json.specs.View.{view, items_view};
    ghost use Rattle.qmi_shapes.specs.Form.{sequence};
    ghost use Rattle.qmi_shapes.specs.View.{fields_of, field_view, shape_view};
    ghost use Rattle.message_tables.specs.Reading.{reading_map, listed};
    ghost use Rattle.message_tables.specs.Reads.{Reads};
    ghost use Rattle.message_tables.specs.Forms.{form_of, array_form, element_of, contents_of, field_of};
    ghost use Rattle.message_tables.specs.View.{names_in};

    /// The shape that an object describes, as the whole of a TLV; None where a format isn't known.
    #[cycle(shapes)]
    #[tactic(auto, using(crate::proofs::FormLaws::described), unfolding(crate::specs::Forms::form_with))]
    pub(crate) fn shape(&self, alloc: Global, object: &Value) -> Result<Option<Shape>, ObjectFault>
        ensures { Reads shape_view result (form_of (names_in self.now) (view object.now)) }
    {
        let name = text_member(object, MemberName::Format)?;
        match format_of(object, name) {
            Some(Format::Unsigned(bytes)) => Ok(Some(Shape::U(bytes))),
            Some(Format::Signed(bytes)) => Ok(Some(Shape::I(bytes))),
            Some(Format::Sized) => Ok(Some(Shape::U(number_size(object)?))),
            Some(Format::Text) => {
                let prefix = stated_prefix(object)?.unwrap_or(Prefix::Rest);
                Ok(Some(Shape::Str(prefix)))
            }
            Some(Format::Array) => self.array(alloc, object),
            Some(Format::Sequence) => self.sequence(alloc, object),
            None => Ok(None),
        }
    }

    #[cycle(shapes)]
    #[tactic(auto, using(crate::proofs::FormLaws::described))]
    fn array(&self, alloc: Global, object: &Value) -> Result<Option<Shape>, ObjectFault>
        ensures { Reads shape_view result (array_form (view object.now)
            (element_of (names_in self.now) (view object.now))) }
    {
        let element = self.shape(alloc, array_element(object)?)?;
        let prefix = stated_prefix(object)?.unwrap_or(Prefix::Counted(1));
        match element {
            Some(shape) => {
                let element = Box::new(alloc, inside(shape))?;
                Ok(Some(Shape::List(prefix, element)))
            }
            None => Ok(None),
        }
    }

    #[cycle(shapes)]
    #[tactic(auto, using(crate::proofs::FormLaws::described))]
    fn sequence(&self, alloc: Global, object: &Value) -> Result<Option<Shape>, ObjectFault>
        ensures { Reads shape_view result (reading_map (λ named. sequence (fields_of named))
            (contents_of (names_in self.now) (view object.now))) }
    {
        match self.fields(alloc, contents(object)?)? {
            Some(fields) => Ok(Some(Shape::Seq(ShapeFields::from(fields)))),
            None => Ok(None),
        }
    }

    #[cycle(shapes)]
    fn fields(
        &self,
        alloc: Global,
        objects: &[Value],
    ) -> Result<Option<Vec<ShapeField>>, ObjectFault>
        ensures { Reads (λ fields. map field_view fields.items) result
            (listed (field_of (names_in self.now)) (items_view objects.now)) }
    {
        let mut fields = Some(Vec::new(alloc));
        for object in objects {
            let field = self.field(alloc, object)?;
            fields = both(fields, field)?;
        }
        Ok(fields)
    }

    #[cycle(shapes)]
    #[tactic(auto, using(crate::proofs::FormLaws::described), unfolding(crate::specs::Forms::field_with))]
    fn field(&self, alloc: Global, object: &Value) -> Result<Option<ShapeField>, ObjectFault>
        ensures { Reads field_view result (field_of (names_in self.now) (view object.now)) }
    {
        if let Some(reference) = member(object, MemberName::CommonRef) {
            return Ok(Some(self.referred_field(alloc, reference)?));
        }
        let name = text_of(alloc, text_member(object, MemberName::Name)?)?;
        match self.shape(alloc, object)? {
            Some(shape) => Ok(Some(ShapeField {
                name,
                shape: inside(shape),
            })),
            None => Ok(None),
        }
    }
}

/// Parts and one part more, where all of them are known.
pub(crate) fn both<T: Drop>(
    parts: Option<Vec<T>>,
    part: Option<T>,
) -> Result<Option<Vec<T>>, ObjectFault>
    ensures { MatchResult result
        (λ all. option_map (λ v. v.items) all ≡ pushed (option_map (λ v. v.items) parts) part)
        (λ fault. fault ≡ ObjectFault.OutOfMemory) }
{
    match (parts, part) {
        (Some(mut parts), Some(part)) => {
            parts.push(part)?;
            Ok(Some(parts))
        }
        _ => Ok(None),
    }
}
