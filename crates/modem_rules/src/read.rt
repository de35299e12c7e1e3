ghost use Rattle.std.specs.Prelude.{◌≡◌};
ghost use Rattle.serde_json.specs.View.{view};
ghost use Rattle.modem_rules.specs.Answers.{Gives, IsValue};
ghost use Rattle.modem_rules.specs.Reading.{rules_in, rules_of, value_of};
ghost use Rattle.modem_rules.specs.Rules.{rules_view};

use crate::lists::list_in;
use crate::{RuleList, Rules, RulesFault};
use kit_bytes::Kind;
use serde_json::Value;
use std::alloc::Global;

/// The rules that a JSON object gives a modem of this kind. Each list may be missing, and members of
/// other names count for nothing.
#[tactic(auto, unfolding(crate::specs::Reading::rules_in))]
pub fn read_rules(alloc: Global, kind: Kind, text: &[u8]) -> Result<Rules, RulesFault>
    ensures { Gives rules_view (rules_in kind text.now) result }
{
    let value = json_value(alloc, text)?;
    if !value.is_object() {
        return Err(RulesFault::Json);
    }
    let rules = rules_of(alloc, kind, &value)?;
    Ok(rules)
}

#[tactic(auto, unfolding(crate::specs::Reading::value_of))]
fn json_value(alloc: Global, json: &[u8]) -> Result<Value, RulesFault>
    ensures { IsValue (value_of json.now) result }
{
    match Value::from_slice(alloc, json) {
        Ok(value) => Ok(value),
        Err(error) if error.is_memory() => Err(RulesFault::OutOfMemory),
        Err(_) => Err(RulesFault::Json),
    }
}

// The lists in their order, up to the first fault.
#[tactic(auto, unfolding(crate::specs::Reading::rules_of))]
fn rules_of(alloc: Global, kind: Kind, object: &Value) -> Result<Rules, RulesFault>
    ensures { Gives rules_view (rules_of kind (view object.now)) result }
{
    let answers = list_in(alloc, kind, object, RuleList::Answers)?;
    let faults = list_in(alloc, kind, object, RuleList::Faults)?;
    let indications = list_in(alloc, kind, object, RuleList::Indications)?;
    Ok(Rules {
        answers,
        faults,
        indications,
    })
}
