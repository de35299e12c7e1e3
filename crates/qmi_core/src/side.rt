ghost use Rattle.std.specs.Prelude.{◌≡◌};
ghost use Rattle.qmi_state.specs.Transitions.{give_up};
ghost use Rattle.qmi_proxy.specs.Clients.{deadline_of};

use crate::traffic::Traffic;
use kit_bytes::{ConnId, Octets};
use std::marker::Model;

/// What a core keeps beside the clients' connections and the modem's stream.
#[derive(Drop)]
pub struct ModemSide {
    /// The path of the device.
    pub device: Octets,
    /// For how many milliseconds a request waits for its answer.
    pub time_limit: u64,
    /// For how many milliseconds a client id is kept whose holder went, before the proxy releases it.
    pub release: Option<u64>,
    /// What the clock shows, in milliseconds.
    pub time: u64,
    /// Whether the modem is away.
    pub away: bool,
    pub traffic: Traffic,
}

impl Model for ModemSide {
    ghost use Rattle.qmi_state.specs.Core as core;

    ghost Value = { core.ModemSide };

    ghost view = { λ s. record { device = s.device; time_limit = s.time_limit; release = s.release; time = s.time; away = s.away; traffic = s.traffic } };
}

impl ModemSide {
    /// Until when a request waits for its answer that is made now.
    pub fn deadline(&self) -> u64
        ensures { result ≡ deadline_of self.now.time self.now.time_limit }
    {
        self.time.saturating_add(self.time_limit)
    }

    /// The connection of this name is gone: it waits for nothing and holds nothing, and its ids are
    /// kept from here on.
    pub fn give_up(&mut self, name: ConnId)
        ensures { self.new ≡ give_up name self.old }
    {
        self.traffic.give_up(name, self.time);
    }
}
