//! Laws of every rig for MBIM: each client gets what it gets alone, and only its own share refuses it.
#![tactic(auto)]

mod laws;

pub use laws::each_client_gets_the_same;
