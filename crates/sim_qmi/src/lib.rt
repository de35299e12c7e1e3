//! A simulated QMI modem: what it answers to requests is a definition.
#![tactic(auto)]

mod answer;
mod client_id;
mod ctl;
mod dms;
mod errors;
pub mod examples;
mod inputs;
mod laws;
mod nas;
mod request;
mod response;
mod services;
mod sim;
mod state;
mod values;
mod wds;
mod wms;

use client_id::ClientId;
use ctl::CtlRequest;
use dms::DmsRequest;
pub use laws::{
    each_request_is_answered, no_id_is_given_twice, only_the_input_is_missed,
    requests_have_short_answers,
};
use nas::NasRequest;
use request::Request;
pub use sim::QmiSim;
use wds::WdsRequest;
use wms::WmsRequest;
