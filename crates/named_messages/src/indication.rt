ghost use Rattle.std.specs.Prelude.{◌≡◌};
ghost use Rattle.serde_json.specs.View.{view};
ghost use Rattle.message_tables.specs.Objects.{sort_of};
ghost use Rattle.message_tables.specs.View.{names_in};
ghost use Rattle.named_messages.specs.Answers.{Finds};
ghost use Rattle.named_messages.specs.Told.{indication_in, is_indication};

use crate::NamedFault;
use crate::named::message_of;
use crate::services::service_called;
use message_tables::{Definitions, MemberName, Message, Sort, sort_of, text_member};
use serde_json::Value;
use std::alloc::Global;

/// Whether an object describes an indication.
pub(crate) fn is_indication(object: &Value) -> bool
    ensures { result ≡ is_indication (sort_of (view object.now)) }
{
    match sort_of(object) {
        Ok(Sort::Message { indication }) => indication,
        Ok(Sort::Defines) | Ok(Sort::Other) => false,
        Err(_) => false,
    }
}

/// The indication that an object describes.
#[tactic(auto, unfolding(crate::specs::Told::indication_in))]
pub(crate) fn indication_in(
    definitions: &Definitions,
    alloc: Global,
    object: &Value,
) -> Result<Message, NamedFault>
    ensures { Finds (indication_in (names_in definitions.now) (view object.now)) result }
{
    let Ok(name) = text_member(object, MemberName::Name) else {
        return Err(NamedFault::Member(MemberName::Name));
    };
    let Ok(service) = text_member(object, MemberName::Service) else {
        return Err(NamedFault::Member(MemberName::Service));
    };
    let Some(service) = service_called(service) else {
        return Err(NamedFault::Member(MemberName::Service));
    };
    message_of(definitions, alloc, object, true, name, service)
}
