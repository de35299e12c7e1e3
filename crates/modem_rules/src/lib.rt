//! Rules for simulated modems, read from JSON: what they answer, where they fail, and what they tell.
#![tactic(auto)]

mod data;
pub mod examples;
mod fault;
mod kind;
mod lists;
mod members;
mod read;
mod rules;

pub use data::{LONGEST_DATA, RuleData};
pub use fault::{RuleList, RulesFault};
pub use kind::RequestKind;
pub use read::read_rules;
pub use rules::{AnswerRule, Failure, FaultRule, IndicationRule, Rules, When};
