//! Tests of the outside, each adapter over the real thing: what no contract says.
#![tactic(auto)]

#[cfg(test)]
mod children;
#[cfg(test)]
mod fakes;
#[cfg(test)]
mod files;
#[cfg(test)]
mod hubs;
#[cfg(test)]
mod links;
#[cfg(test)]
mod sinks;
#[cfg(test)]
mod steps;
