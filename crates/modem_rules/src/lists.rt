ghost use Rattle.std.specs.Prelude.{◌≡◌, ◌≤◌, Option, IfOk};
ghost use Rattle.serde_json.specs.Data.{Data};
ghost use Rattle.serde_json.specs.View.{view};
ghost use Rattle.modem_rules.specs.Answers.{Gives};
ghost use Rattle.modem_rules.specs.Lists.{list_in, rules_in_list};
ghost use Rattle.modem_rules.specs.Values.{answer_rule, data_in, failure_in, fault_rule, indication_rule, most_error, other_failure_in, ticks_in, when_in};

use crate::members::{has_members, number_in, number_within};
use crate::{
    AnswerRule, Failure, FaultRule, IndicationRule, RequestKind, RuleData, RuleList, RulesFault,
    When,
};
use hex::FromHexError;
use kit_bytes::{Kind, Octets};
use serde_json::Value;
use std::alloc::{AllocError, Global};

/// What the values of a list of rules give.
pub(crate) trait Rule: Sized + Drop {
    ghost use Rattle.kit_bytes.specs.declared.Kind as modem;

    /// The rule that a value is for a modem of this kind, if it is one.
    ghost read: { modem.Kind → Data → Option Self };

    fn read(alloc: Global, kind: Kind, value: &Value) -> Result<Option<Self>, AllocError>
        ensures { IfOk result (λ rule. rule ≡ read kind (view value.now)) };
}

impl Rule for AnswerRule {
    ghost read = { answer_rule };

    #[tactic(auto, unfolding(crate::specs::Values::answer_rule))]
    fn read(alloc: Global, kind: Kind, value: &Value) -> Result<Option<Self>, AllocError> {
        let Some(request) = RequestKind::read(kind, value) else {
            return Ok(None);
        };
        let Some(data) = data_in(alloc, value)? else {
            return Ok(None);
        };
        if !has_members(value, 3) {
            return Ok(None);
        }
        Ok(Some(AnswerRule {
            kind: request,
            data,
        }))
    }
}

impl Rule for FaultRule {
    ghost read = { fault_rule };

    #[tactic(auto, unfolding(crate::specs::Values::fault_rule))]
    fn read(_alloc: Global, kind: Kind, value: &Value) -> Result<Option<Self>, AllocError> {
        Ok(fault_rule(kind, value))
    }
}

impl Rule for IndicationRule {
    ghost read = { indication_rule };

    #[tactic(auto, unfolding(crate::specs::Values::indication_rule))]
    fn read(alloc: Global, kind: Kind, value: &Value) -> Result<Option<Self>, AllocError> {
        let Some(when) = when_in(kind, value) else {
            return Ok(None);
        };
        let Some(indicated) = RequestKind::read(kind, value) else {
            return Ok(None);
        };
        let Some(data) = data_in(alloc, value)? else {
            return Ok(None);
        };
        if !has_members(value, 4) {
            return Ok(None);
        }
        Ok(Some(IndicationRule {
            when,
            kind: indicated,
            data,
        }))
    }
}

#[tactic(auto, unfolding(crate::specs::Values::fault_rule))]
fn fault_rule(kind: Kind, value: &Value) -> Option<FaultRule>
    ensures { result ≡ fault_rule kind (view value.now) }
{
    let request = RequestKind::read(kind, value)?;
    let nth = number_in(value, "nth", 1, u64::MAX)?;
    let failure = failure_in(kind, value)?;
    if !has_members(value, 4) {
        return None;
    }
    Some(FaultRule {
        kind: request,
        nth,
        failure,
    })
}

// How an object says that a request fails: by an error, by null in its place, or otherwise.
#[tactic(auto, unfolding(crate::specs::Values::failure_in))]
fn failure_in(kind: Kind, object: &Value) -> Option<Failure>
    ensures { result ≡ failure_in kind (view object.now) }
{
    let Some(value) = object.get("error") else {
        return other_failure_in(object);
    };
    if value.is_null() {
        return Some(Failure::Silent);
    }
    let error = number_within(1, most_error(kind), value)?;
    Some(Failure::Refused(error as u32))
}

// By hanging up, or by how many ticks its answer is late.
fn other_failure_in(object: &Value) -> Option<Failure>
    ensures { result ≡ other_failure_in (view object.now) }
{
    let Some(value) = object.get("hangs_up") else {
        let ticks = ticks_in(object, "ticks")?;
        return Some(Failure::Late(ticks));
    };
    if value.as_bool()? {
        Some(Failure::HungUp)
    } else {
        None
    }
}

// When an object says that an indication is sent.
#[tactic(auto, unfolding(crate::specs::Values::when_in))]
fn when_in(kind: Kind, object: &Value) -> Option<When>
    ensures { result ≡ when_in kind (view object.now) }
{
    let Some(request) = object.get("after") else {
        let ticks = ticks_in(object, "each")?;
        return Some(When::Each(ticks));
    };
    let after = RequestKind::read_alone(kind, request)?;
    Some(When::After(after))
}

// How many ticks of the clock a member says, which are some.
fn ticks_in(object: &Value, name: &str) -> Option<u32>
    ensures { result ≡ ticks_in name.now (view object.now) }
{
    let ticks = number_in(object, name, 1, 0xffff_ffff)?;
    Some(ticks as u32)
}

fn most_error(kind: Kind) -> u64
    ensures exact { result ≡ most_error kind }
    ensures within { result ≤ 0xffff_ffff }
{
    match kind {
        Kind::Qmi => 0xffff,
        Kind::Mbim => 0xffff_ffff,
    }
}

// The bytes that an object's pairs of hexadecimal digits spell.
#[tactic(auto, unfolding(crate::specs::Values::data_in))]
fn data_in(alloc: Global, object: &Value) -> Result<Option<RuleData>, AllocError>
    ensures { IfOk result (λ found. found ≡ data_in (view object.now)) }
{
    let Some(value) = object.get("data") else {
        return Ok(None);
    };
    let Some(text) = value.as_str() else {
        return Ok(None);
    };
    match hex::decode(alloc, text) {
        Ok(bytes) => Ok(RuleData::of(Octets::from(bytes))),
        Err(FromHexError::OutOfMemory) => Err(AllocError),
        Err(_) => Ok(None),
    }
}

/// The rules that a member lists for a modem of this kind.
#[tactic(auto, unfolding(crate::specs::Lists::list_in))]
pub(crate) fn list_in<T: Rule>(
    alloc: Global,
    kind: Kind,
    object: &Value,
    list: RuleList,
) -> Result<Vec<T>, RulesFault>
    ensures { Gives (λ rules. rules.items) (list_in list (T.read kind) (view object.now)) result }
{
    let Some(value) = object.get(list.as_str()) else {
        return Ok(Vec::new(alloc));
    };
    let Some(values) = value.as_array() else {
        return Err(RulesFault::NoList(list));
    };
    rules_of(alloc, kind, values.as_slice(), list)
}

// The rules that these values are, or the place of the first that is none.
fn rules_of<T: Rule>(
    alloc: Global,
    kind: Kind,
    values: &[Value],
    list: RuleList,
) -> Result<Vec<T>, RulesFault>
    ensures { Gives (λ rules. rules.items) (rules_in_list list (T.read kind) values.now) result }
{
    let mut rules = Vec::new(alloc);
    for value in values {
        let Some(rule) = T::read(alloc, kind, value)? else {
            return Err(RulesFault::NoRule(list, rules.as_slice().len() as u64));
        };
        rules.push(rule)?;
    }
    Ok(rules)
}
