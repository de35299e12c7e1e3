ghost use Rattle.std.specs.Prelude.{◌≡◌, ◌≤◌, ◌++◌, false, codes, Some, IfOk};
ghost use Rattle.serde_json.specs.Data.{depth, object};
ghost use Rattle.serde_json.specs.Read.{max_depth, read};
ghost use Rattle.serde_json.specs.View.{members_view};
ghost use Rattle.serde_json.specs.Written.{has_float};
ghost use Rattle.json_values.specs.Lines.{json_line, json_text};

use kit_bytes::Octets;
use serde_json::{Map, Value};
use std::alloc::{AllocError, Global};

/// An object's text, on one line.
#[tactic(auto, using(crate::proofs::Views::json_views), unfolding(crate::specs::Lines::json_line))]
pub fn object_line(alloc: Global, members: Map<String, Value>) -> Result<Octets, AllocError>
    requires { has_float (object (members_view members.entries)) ≡ false }
    ensures text { IfOk result (λ line. line ≡ json_line (object (members_view members.entries))) }
    ensures reads_back { IfOk result (λ _. depth (object (members_view members.entries)) ≤ max_depth → read (json_text (object (members_view members.entries))) ≡ Some (object (members_view members.entries))) }
{
    let text = Value::Object(members).to_string(alloc)?;
    let mut line = Octets::from_slice(alloc, text.as_bytes())?;
    line.extend_from_slice(b"\n")?;
    Ok(line)
}
