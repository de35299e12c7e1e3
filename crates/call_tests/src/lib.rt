//! Single calls on a few values: codecs against vectors from outside, and the tables that a proxy's core keeps.
#![tactic(auto)]

#[cfg(test)]
mod clients;
#[cfg(test)]
mod grants;
#[cfg(test)]
mod lists;
#[cfg(test)]
mod numbers;
#[cfg(test)]
mod outboxes;
#[cfg(test)]
mod subscribers;
#[cfg(test)]
mod texts;
#[cfg(test)]
mod values;
