ghost use Rattle.std.specs.Prelude.{◌≡◌, IfOk};
ghost use Rattle.std.specs.List.{AllByRecursion};
ghost use Rattle.serde_json.specs.View.{view};
ghost use Rattle.message_tables.specs.Members.{objects_in};
ghost use Rattle.message_tables.specs.View.{messages_in};
ghost use Rattle.message_tables.specs.WellMade.{IsSoundMessage};
ghost use Rattle.named_messages.specs.Told.{Tells, indications_in, told_among};

use crate::NamedFault;
use crate::told::told_in;
use message_tables::{Message, TableFault, json_value, objects_in, without_comments};
use serde_json::Value;
use std::alloc::Global;

/// The indications that a description in JSON tells, in their order. Lines whose first bytes behind
/// blanks are `//` are comments. An indication that can't be read is left out, and a definition that
/// can't be read defines nothing.
pub fn read_indications(alloc: Global, text: &[u8]) -> Result<Vec<Message>, NamedFault>
    ensures exact { Tells (λ told. messages_in told.items) (indications_in text.now) result }
    ensures sound { IfOk result (λ told. AllByRecursion IsSoundMessage (messages_in told.items)) }
{
    let told = indications_in(alloc, text)?;
    Ok(told)
}

#[tactic(auto, unfolding(crate::specs::Told::indications_in))]
fn indications_in(alloc: Global, text: &[u8]) -> Result<Vec<Message>, NamedFault>
    ensures { Tells (λ told. messages_in told.items) (indications_in text.now) result }
{
    let json = without_comments(alloc, text)?;
    match json_value(alloc, &json) {
        Ok(value) => indications_of(alloc, &value),
        Err(TableFault::OutOfMemory) => Err(NamedFault::OutOfMemory),
        Err(_) => Err(NamedFault::Json),
    }
}

fn indications_of(alloc: Global, json: &Value) -> Result<Vec<Message>, NamedFault>
    ensures { Tells (λ told. messages_in told.items) (told_among (objects_in (view json.now))) result }
{
    let Some(objects) = objects_in(json) else {
        return Err(NamedFault::Json);
    };
    let told = told_in(alloc, objects)?;
    Ok(told)
}
