ghost use Rattle.std.specs.Prelude.{◌≡◌, ◌≤◌, length, IfOk};
ghost use Rattle.serde_json.specs.View.{view, items_view};
ghost use Rattle.message_tables.specs.Objects.{first_described};
ghost use Rattle.message_tables.specs.State.{Describes};
ghost use Rattle.message_tables.specs.Tables.{described_by, tables, value_of, tables_in};
ghost use Rattle.message_tables.specs.View.{messages_in};
ghost use Rattle.message_tables.specs.WellMade.{AreSound};
ghost use Rattle.message_tables.specs.Answers.{IsValue, Answers};

use crate::comments::without_comments;
use crate::members::objects_in;
use crate::objects::Described;
use crate::{TableFault, Tables};
use serde_json::Value;
use std::alloc::Global;

/// The messages that descriptions in JSON describe. Lines whose first bytes behind blanks are `//`
/// are comments.
pub fn read_tables(alloc: Global, text: &[u8]) -> Result<Tables, TableFault>
    requires { length text.now ≤ 16777216 }
    ensures exact { Answers (tables_in text.now) result }
    ensures sound { IfOk result (λ tables. AreSound (messages_in tables)) }
{
    let tables = tables_in(alloc, text)?;
    Ok(tables)
}

#[tactic(auto, unfolding(crate::specs::Tables::tables_in))]
fn tables_in(alloc: Global, text: &[u8]) -> Result<Tables, TableFault>
    ensures { Answers (tables_in text.now) result }
{
    let json = without_comments(alloc, text)?;
    let value = json_value(alloc, &json)?;
    let tables = tables_of(alloc, &value)?;
    Ok(tables)
}

#[tactic(auto, unfolding(crate::specs::Tables::tables))]
fn tables_of(alloc: Global, value: &Value) -> Result<Tables, TableFault>
    ensures { Answers (tables (view value.now)) result }
{
    match objects_in(value) {
        Some(objects) => {
            let described = describe(alloc, objects)?;
            Ok(described.into_tables())
        }
        None => Err(TableFault::Json),
    }
}

/// The JSON value that a text is.
#[tactic(auto, unfolding(crate::specs::Tables::value_of))]
pub fn json_value(alloc: Global, json: &[u8]) -> Result<Value, TableFault>
    ensures { IsValue (value_of json.now) result }
{
    match Value::from_slice(alloc, json) {
        Ok(value) => Ok(value),
        Err(error) if error.is_memory() => Err(TableFault::OutOfMemory),
        Err(_) => Err(TableFault::Json),
    }
}

#[tactic(auto, unfolding(crate::specs::Tables::described_by))]
fn describe(alloc: Global, objects: &[Value]) -> Result<Described, TableFault>
    ensures { Describes result (described_by 0 first_described (items_view objects.now)) }
{
    let mut described = Described::open(alloc)?;
    let mut number: u32 = 0;
    for object in objects {
        if let Err(fault) = described.read(alloc, object) {
            return Err(fault.at(number));
        }
        number = number.saturating_add(1);
    }
    Ok(described)
}
