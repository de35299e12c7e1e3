ghost use Rattle.std.specs.Prelude.{◌≡◌, ◌++◌, codes, OnOk};
ghost use Rattle.serde_json.specs.Data.{string as quoted, put as with_member};
ghost use Rattle.serde_json.specs.View.{members_view};
ghost use Rattle.json_values.specs.Ends.{with_ending, with_error};

use serde_json::{Map, Value, put};
use std::alloc::{AllocError, Global};

/// How an answer ended, in the words of the line that a status has.
#[derive(Clone, Copy, PartialEq, Eq)]
pub enum Ending {
    Success,
    /// The modem or a proxy refused it with this error.
    Denied(u32),
    /// The modem or a proxy had this to say about the message as such.
    FunctionError(u32),
}

/// Adds the result, and the error's number where there is one.
pub fn put_ending(
    alloc: Global,
    ending: Ending,
    members: &mut Map<String, Value>,
) -> Result<(), AllocError>
    ensures { OnOk result (members_view members.new.entries ≡ with_ending ending (members_view members.old.entries)) }
{
    match ending {
        Ending::Success => put_result(alloc, "ok", members),
        Ending::Denied(error) => put_error(alloc, "denied", error, members),
        Ending::FunctionError(error) => put_error(alloc, "function error", error, members),
    }
}

// Adds an error's number and what kind of error it is.
fn put_error(
    alloc: Global,
    word: &str,
    error: u32,
    members: &mut Map<String, Value>,
) -> Result<(), AllocError>
    ensures { OnOk result (members_view members.new.entries ≡ with_error word.now error (members_view members.old.entries)) }
{
    put(members, alloc, "error", Value::from(error))?;
    put_result(alloc, word, members)?;
    Ok(())
}

fn put_result(alloc: Global, word: &str, members: &mut Map<String, Value>) -> Result<(), AllocError>
    ensures { OnOk result (members_view members.new.entries ≡ with_member (codes "result") (quoted word.now) (members_view members.old.entries)) }
{
    let word = Value::try_from_str(alloc, word)?;
    put(members, alloc, "result", word)?;
    Ok(())
}
