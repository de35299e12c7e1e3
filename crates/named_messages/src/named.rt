ghost use Rattle.std.specs.Prelude.{◌≡◌, ◌<◌, Some, chars, length, map, position, IfOk};
ghost use Rattle.serde_json.specs.View.{view};
ghost use Rattle.message_tables.specs.View.{message_view, names_in};
ghost use Rattle.message_tables.specs.WellMade.{IsSoundMessage};
ghost use Rattle.message_tables.specs.Definitions.{named_by};
ghost use Rattle.message_tables.specs.Members.{objects_in};
ghost use Rattle.message_tables.specs.Messages.{message_with};
ghost use Rattle.message_tables.specs.Reading.{known};
ghost use Rattle.named_messages.specs.Answers.{Finds};
ghost use Rattle.named_messages.specs.Named.{is_named};
ghost use Rattle.named_messages.specs.Reading.{defined_in, message_in, message_named, message_by, named_among, named_in};

use crate::NamedFault;
use crate::objects::{definitions_in, first_named};
use crate::services::service_called;
use kit_bytes::Text;
use message_tables::{
    Definitions, MemberName, Message, TableFault, json_value, message_with, objects_in,
    text_member, without_comments,
};
use serde_json::Value;
use std::alloc::Global;

/// The one message of a name that a description in JSON describes. Lines whose first bytes behind
/// blanks are `//` are comments. Other messages aren't read, and a definition that can't be read
/// defines nothing.
pub fn read_message(alloc: Global, text: &[u8], name: &str) -> Result<Message, NamedFault>
    ensures exact { Finds (named_in name.now text.now) result }
    ensures sound { IfOk result (λ message. IsSoundMessage (message_view message)) }
{
    let message = named_in(alloc, text, name)?;
    Ok(message)
}

#[tactic(auto, unfolding(crate::specs::Reading::named_in))]
fn named_in(alloc: Global, text: &[u8], name: &str) -> Result<Message, NamedFault>
    ensures { Finds (named_in name.now text.now) result }
{
    let json = without_comments(alloc, text)?;
    match json_value(alloc, &json) {
        Ok(value) => named_of(alloc, &value, name),
        Err(TableFault::OutOfMemory) => Err(NamedFault::OutOfMemory),
        Err(_) => Err(NamedFault::Json),
    }
}

fn named_of(alloc: Global, json: &Value, name: &str) -> Result<Message, NamedFault>
    ensures { Finds (named_among name.now (objects_in (view json.now))) result }
{
    match objects_in(json) {
        Some(objects) => message_named(alloc, objects, name),
        None => Err(NamedFault::Json),
    }
}

fn message_named(alloc: Global, objects: &[Value], name: &str) -> Result<Message, NamedFault>
    ensures { Finds (message_named name.now (map view objects.now)) result }
{
    match first_named(name, objects) {
        Some(place) => message_at(alloc, objects, place, name),
        None => Err(NamedFault::Missing),
    }
}

// The message of the name, where the first object that describes one stands at this place.
fn message_at(
    alloc: Global,
    objects: &[Value],
    place: usize,
    name: &str,
) -> Result<Message, NamedFault>
    requires first { Some place ≡ position (λ object. is_named name.now (view object)) objects.now }
    requires within { place < length objects.now }
    ensures { Finds (message_named name.now (map view objects.now)) result }
{
    match first_named(name, &objects[place + 1..]) {
        Some(_again) => Err(NamedFault::Several),
        None => message_behind(alloc, &objects[..place], &objects[place], name),
    }
}

// The message that an object behind these describes.
fn message_behind(
    alloc: Global,
    before: &[Value],
    object: &Value,
    name: &str,
) -> Result<Message, NamedFault>
    ensures { Finds (message_in (named_by (defined_in (map view before.now))) name.now (view object.now)) result }
{
    let definitions = definitions_in(alloc, before)?;
    let message = message_in(&definitions, alloc, object, name)?;
    Ok(message)
}

#[tactic(auto, unfolding(crate::specs::Reading::message_in))]
fn message_in(
    definitions: &Definitions,
    alloc: Global,
    object: &Value,
    name: &str,
) -> Result<Message, NamedFault>
    ensures { Finds (message_in (names_in definitions.now) name.now (view object.now)) result }
{
    let Ok(service) = text_member(object, MemberName::Service) else {
        return Err(NamedFault::Member(MemberName::Service));
    };
    let Some(service) = service_called(service) else {
        return Err(NamedFault::Member(MemberName::Service));
    };
    message_of(definitions, alloc, object, false, name, service)
}

/// The message or the indication that an object describes, of this name and of the service of this number.
pub(crate) fn message_of(
    definitions: &Definitions,
    alloc: Global,
    object: &Value,
    indication: bool,
    name: &str,
    service: u8,
) -> Result<Message, NamedFault>
    ensures { Finds (message_by (message_with (names_in definitions.now) (view object.now) indication (chars name.now) service)) result }
{
    let name = Text::from_str(alloc, name)?;
    let message = message_with(definitions, alloc, object, indication, name, service)?;
    checked(message)
}

// What is refused of a message that reads.
fn checked(message: Message) -> Result<Message, NamedFault>
    ensures { Finds (message_by (known (message_view message))) result }
{
    if message.has_id_twice() {
        return Err(NamedFault::Twice);
    }
    if message.is_deep() {
        return Err(NamedFault::Deep);
    }
    Ok(message)
}
