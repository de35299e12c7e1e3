ghost use Rattle.std.specs.Prelude.{◌≡◌, map, IfOk, OnOk};
ghost use Rattle.serde_json.specs.View.{view};
ghost use Rattle.message_tables.specs.View.{messages_in, names_in};
ghost use Rattle.named_messages.specs.Told.{is_memory, told_by, told_in};

use crate::NamedFault;
use crate::indication::{indication_in, is_indication};
use crate::objects::take_in;
use message_tables::{Definitions, Message};
use serde_json::Value;
use std::alloc::{AllocError, Global};

/// The indications that objects describe: one that can't be read is left out.
pub(crate) fn told_in(alloc: Global, objects: &[Value]) -> Result<Vec<Message>, AllocError>
    ensures { IfOk result (λ told. messages_in told.items ≡ told_in (map view objects.now)) }
{
    let mut definitions = Definitions::open(alloc)?;
    let mut told = Vec::new(alloc);
    for object in objects {
        tell(&definitions, alloc, object, &mut told)?;
        take_in(&mut definitions, alloc, object)?;
    }
    Ok(told)
}

// Adds the indication that an object describes, if it does.
fn tell(
    definitions: &Definitions,
    alloc: Global,
    object: &Value,
    told: &mut Vec<Message>,
) -> Result<(), AllocError>
    ensures { OnOk result (messages_in told.new.items ≡ told_by (names_in definitions.now) (messages_in told.old.items) (view object.now)) }
{
    if !is_indication(object) {
        return Ok(());
    }
    match indication_in(definitions, alloc, object) {
        Ok(message) => {
            told.push(message)?;
            Ok(())
        }
        Err(fault) => {
            if is_memory(fault) {
                Err(AllocError)
            } else {
                Ok(())
            }
        }
    }
}

fn is_memory(fault: NamedFault) -> bool
    ensures { result ≡ is_memory fault }
{
    match fault {
        NamedFault::OutOfMemory => true,
        NamedFault::Json | NamedFault::Missing | NamedFault::Several => false,
        NamedFault::Member(_) | NamedFault::Format | NamedFault::Twice | NamedFault::Deep => false,
    }
}
