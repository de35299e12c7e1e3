ghost use Rattle.std.specs.Prelude.{◌≡◌, map, position, string_bytes, IfOk, OnOk};
ghost use Rattle.serde_json.specs.View.{view};
ghost use Rattle.message_tables.specs.Definitions.{named_by};
ghost use Rattle.message_tables.specs.Members.{text_in};
ghost use Rattle.message_tables.specs.Objects.{sort_of, definition_of};
ghost use Rattle.message_tables.specs.Reading.{known};
ghost use Rattle.message_tables.specs.View.{names_in, definition_view};
ghost use Rattle.named_messages.specs.Faults.{is_memory};
ghost use Rattle.named_messages.specs.Named.{is_definition, is_named, is_text};
ghost use Rattle.named_messages.specs.Reading.{Definitions as Defined, defined_by, defined_with, defined_in};

use message_tables::{
    Definition, Definitions, MemberName, ObjectFault, Sort, definition_of, nests_well, sort_of,
    text_member,
};
use serde_json::Value;
use std::alloc::{AllocError, Global};

/// Whether an object describes the message of this name.
pub(crate) fn is_named(name: &str, object: &Value) -> bool
    ensures { result ≡ is_named name.now (view object.now) }
{
    match sort_of(object) {
        Ok(Sort::Message { indication }) => !indication && is_text(object, name),
        Ok(Sort::Defines) | Ok(Sort::Other) => false,
        Err(_) => false,
    }
}

fn is_text(object: &Value, name: &str) -> bool
    ensures { result ≡ is_text (text_in MemberName.Name (view object.now)) name.now }
{
    match text_member(object, MemberName::Name) {
        Ok(text) => text == name,
        Err(_) => false,
    }
}

fn is_definition(object: &Value) -> bool
    ensures { result ≡ is_definition (sort_of (view object.now)) }
{
    match sort_of(object) {
        Ok(Sort::Defines) => true,
        Ok(Sort::Message { .. }) | Ok(Sort::Other) => false,
        Err(_) => false,
    }
}

/// The place of the first object that describes the message of this name.
pub(crate) fn first_named(name: &str, objects: &[Value]) -> Option<usize>
    ensures { result ≡ position (λ object. is_named name.now (view object)) objects.now }
{
    objects.iter().position(|object| is_named(name, object))
}

/// What objects define: one that can't be read defines nothing.
pub(crate) fn definitions_in(alloc: Global, objects: &[Value]) -> Result<Definitions, AllocError>
    ensures { IfOk result (λ definitions. names_in definitions ≡ named_by (defined_in (map view objects.now))) }
{
    let mut definitions = Definitions::open(alloc)?;
    for object in objects {
        take_in(&mut definitions, alloc, object)?;
    }
    Ok(definitions)
}

/// Takes in what one object more defines: one that can't be read defines nothing.
pub(crate) fn take_in(
    definitions: &mut Definitions,
    alloc: Global,
    object: &Value,
) -> Result<(), AllocError>
    ensures { OnOk result ((earlier : Defined) → names_in definitions.old ≡ named_by earlier
        → names_in definitions.new ≡ named_by (defined_with earlier (view object.now))) }
{
    if is_definition(object) {
        define(definitions, alloc, object)?;
        Ok(())
    } else {
        Ok(())
    }
}

fn define(definitions: &mut Definitions, alloc: Global, object: &Value) -> Result<(), AllocError>
    ensures { OnOk result ((earlier : Defined) → names_in definitions.old ≡ named_by earlier
        → names_in definitions.new ≡ named_by (defined_by earlier (definition_of (named_by earlier) (view object.now)))) }
{
    match definition_of(definitions, alloc, object) {
        Ok((reference, definition)) => {
            define_flat(definitions, reference, definition)?;
            Ok(())
        }
        Err(fault) => {
            if is_memory(&fault) {
                Err(AllocError)
            } else {
                Ok(())
            }
        }
    }
}

fn is_memory(fault: &ObjectFault) -> bool
    ensures { result ≡ is_memory fault.now }
{
    match fault {
        ObjectFault::OutOfMemory => true,
        ObjectFault::Member(_) | ObjectFault::Format | ObjectFault::Twice | ObjectFault::Deep => {
            false
        }
    }
}

// Lets a name stand for a definition in which no more formats stand inside each other than may.
fn define_flat(
    definitions: &mut Definitions,
    reference: String,
    definition: Definition,
) -> Result<(), AllocError>
    ensures { OnOk result ((earlier : Defined) → names_in definitions.old ≡ named_by earlier
        → names_in definitions.new ≡ named_by (defined_by earlier (known (string_bytes reference, definition_view definition)))) }
{
    if nests_well(&definition.shape) {
        definitions.define(reference, definition)?;
        Ok(())
    } else {
        Ok(())
    }
}
