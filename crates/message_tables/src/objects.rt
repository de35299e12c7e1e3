ghost use Rattle.std.specs.Prelude.{◌≡◌, IfOk, option_map, option_copied, string_bytes, chars};
ghost use Rattle.serde_json.specs.View.{view};
ghost use Rattle.message_tables.specs.Reads.{Finds};
ghost use Rattle.message_tables.specs.Messages.{service_named, message_of, message_with};
ghost use Rattle.message_tables.specs.Objects.{sort_of, defines, definition_of};
ghost use Rattle.message_tables.specs.View.{names_in, definition_view, message_view};

use crate::copies::text_of;
use crate::definitions::{Definition, Definitions};
use crate::fault::ObjectFault;
use crate::members::{id_member, member, text_member, tlv_id};
use crate::message::Message;
use crate::nesting::nests_well;
use crate::{MemberName, Tables};
use kit_bytes::Text;
use serde_json::Value;
use std::alloc::{AllocError, Global};

/// What the objects so far have described.
#[derive(Drop)]
pub(crate) struct Described {
    definitions: Definitions,
    tables: Tables,
}

/// What an object is, by its `type`.
#[derive(Drop)]
pub enum Sort {
    /// A message, or an indication.
    Message { indication: bool },
    /// A definition that later objects refer to.
    Defines,
    Other,
}

impl Described {
    ghost use Rattle.std.specs.Prelude.{◌≡◌, IfOk, map, option_map, string_bytes};
    ghost use Rattle.serde_json.specs.View.{view};
    ghost use Rattle.message_tables.specs.Reading.{known};
    ghost use Rattle.message_tables.specs.Objects.{Described as Stated, first_described, with_object, with_message, with_definition};
    ghost use Rattle.message_tables.specs.State.{StandsFor, GoesOn};
    ghost use Rattle.message_tables.specs.View.{message_view, definition_view};

    pub(crate) fn open(alloc: Global) -> Result<Described, AllocError>
        ensures { IfOk result (λ described. StandsFor described first_described) }
    {
        Ok(Described {
            definitions: Definitions::open(alloc)?,
            tables: Tables::new(alloc),
        })
    }

    pub(crate) fn into_tables(self) -> Tables
        ensures { result ≡ self.tables }
    {
        self.tables
    }

    /// Takes in what one object more describes.
    #[tactic(auto, unfolding(crate::specs::Objects::with_object))]
    pub(crate) fn read(&mut self, alloc: Global, object: &Value) -> Result<(), ObjectFault>
        ensures { (so_far : Stated) → StandsFor self.old so_far
            → GoesOn self.new result (with_object so_far (view object.now)) }
    {
        match sort_of(object)? {
            Sort::Message { indication } => {
                let message = message_of(&self.definitions, alloc, object, indication)?;
                self.take(message)
            }
            Sort::Defines => {
                let (reference, definition) = definition_of(&self.definitions, alloc, object)?;
                self.define(reference, definition)
            }
            Sort::Other => Ok(()),
        }
    }

    fn take(&mut self, message: Option<Message>) -> Result<(), ObjectFault>
        ensures { (so_far : Stated) → StandsFor self.old so_far
            → GoesOn self.new result (with_message so_far (known (option_map message_view message))) }
    {
        let Some(message) = message else {
            return Ok(());
        };
        if self.tables.has(&message) || message.has_id_twice() {
            return Err(ObjectFault::Twice);
        }
        if message.is_deep() {
            return Err(ObjectFault::Deep);
        }
        self.tables.push(message)?;
        Ok(())
    }

    fn define(&mut self, reference: String, definition: Definition) -> Result<(), ObjectFault>
        ensures { (so_far : Stated) → StandsFor self.old so_far → GoesOn self.new result
            (with_definition so_far (known (string_bytes reference, definition_view definition))) }
    {
        if !nests_well(&definition.shape) {
            return Err(ObjectFault::Deep);
        }
        self.definitions.define(reference, definition)?;
        Ok(())
    }
}

/// What an object is.
#[tactic(auto, unfolding(crate::specs::Objects::sort_of))]
pub fn sort_of(object: &Value) -> Result<Sort, ObjectFault>
    ensures { result ≡ sort_of (view object.now) }
{
    let kind = text_member(object, MemberName::Kind)?;
    if kind == "Message" {
        Ok(Sort::Message { indication: false })
    } else if kind == "Indication" {
        Ok(Sort::Message { indication: true })
    } else if defines(object) {
        Ok(Sort::Defines)
    } else {
        Ok(Sort::Other)
    }
}

fn defines(object: &Value) -> bool
    ensures { result ≡ defines (view object.now) }
{
    member(object, MemberName::CommonRef).is_some() && member(object, MemberName::Format).is_some()
}

// The number of a service that is kept.
#[tactic(auto, unfolding(crate::specs::Messages::service_named))]
fn service_named(name: &str) -> Option<u8>
    ensures { result ≡ service_named name.now }
{
    match name {
        "CTL" => Some(0),
        "WDS" => Some(1),
        "DMS" => Some(2),
        "NAS" => Some(3),
        "WMS" => Some(5),
        _ => None,
    }
}

/// The name that an object gives a definition, and the definition.
#[tactic(auto, unfolding(crate::specs::Objects::definition_of))]
pub fn definition_of(
    definitions: &Definitions,
    alloc: Global,
    object: &Value,
) -> Result<(String, Definition), ObjectFault>
    ensures { Finds (λ named. (string_bytes named.0, definition_view named.1)) result
        (definition_of (names_in definitions.now) (view object.now)) }
{
    let reference = String::from_str(alloc, text_member(object, MemberName::CommonRef)?)?;
    let name = optional_text(
        alloc,
        member(object, MemberName::Name).and_then(Value::as_str),
    )?;
    let id = tlv_id(object);
    match definitions.shape(alloc, object)? {
        Some(shape) => Ok((reference, Definition { name, id, shape })),
        None => Err(ObjectFault::Format),
    }
}

fn optional_text(alloc: Global, text: Option<&str>) -> Result<Option<Text>, AllocError>
    ensures { IfOk result (λ copy. copy ≡ option_map chars (option_copied text.entry)) }
{
    match text {
        Some(text) => Ok(Some(text_of(alloc, text)?)),
        None => Ok(None),
    }
}

// The message that an object describes, or None where its service isn't kept.
#[tactic(auto, unfolding(crate::specs::Messages::message_of))]
fn message_of(
    definitions: &Definitions,
    alloc: Global,
    object: &Value,
    indication: bool,
) -> Result<Option<Message>, ObjectFault>
    ensures { Finds (option_map message_view) result
        (message_of (names_in definitions.now) (view object.now) indication) }
{
    let name = text_of(alloc, text_member(object, MemberName::Name)?)?;
    match service_named(text_member(object, MemberName::Service)?) {
        Some(service) => {
            let message = message_with(definitions, alloc, object, indication, name, service)?;
            Ok(Some(message))
        }
        None => Ok(None),
    }
}

/// The message of a name and a service that an object describes.
#[tactic(auto, unfolding(crate::specs::Messages::message_with))]
pub fn message_with(
    definitions: &Definitions,
    alloc: Global,
    object: &Value,
    indication: bool,
    name: Text,
    service: u8,
) -> Result<Message, ObjectFault>
    ensures { Finds message_view result
        (message_with (names_in definitions.now) (view object.now) indication name service) }
{
    let Some(id) = id_member(object) else {
        return Err(ObjectFault::Member(MemberName::Id));
    };
    let input = definitions.tlvs(alloc, object, MemberName::Input)?;
    let output = definitions.tlvs(alloc, object, MemberName::Output)?;
    match (input, output) {
        (Some(input), Some(output)) => Ok(Message {
            name,
            service,
            id,
            indication,
            input,
            output,
        }),
        _ => Err(ObjectFault::Format),
    }
}
