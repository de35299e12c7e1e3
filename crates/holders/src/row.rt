ghost use Rattle.std.specs.Prelude.{◌≡◌};
ghost use Rattle.proxy_history.specs.ClientIds.{is_of};
ghost use Rattle.holders.specs.Grants.{is_before, is_of_service};
ghost use Rattle.holders.specs.Rows.{is_old};

use kit_bytes::ConnId;
use std::marker::Model;

/// A client id with a number: the connection that holds it, or the time since when it is kept.
#[derive(Drop)]
pub struct Row {
    number: u64,
    service: u8,
    cid: u8,
}

impl Model for Row {
    ghost use Rattle.proxy_history.specs.ClientIds.{Grant};

    ghost Value = { Grant };

    ghost view = { λ row. record { conn = row.number; service = row.service; cid = row.cid } };
}

impl Row {
    pub fn new(number: u64, service: u8, cid: u8) -> Self
        ensures { result ≡ record { conn = number; service = service; cid = cid } }
    {
        Row {
            number,
            service,
            cid,
        }
    }

    pub fn number(&self) -> u64
        ensures { result ≡ self.now.conn }
    {
        self.number
    }

    pub fn service(&self) -> u8
        ensures { result ≡ self.now.service }
    {
        self.service
    }

    pub fn cid(&self) -> u8
        ensures { result ≡ self.now.cid }
    {
        self.cid
    }

    pub fn is_of(&self, service: u8, cid: u8) -> bool
        ensures { result ≡ is_of service cid self.now }
    {
        (self.service == service) & (self.cid == cid)
    }

    /// Whether its id stands before this one, in order of service and client id.
    pub fn is_before(&self, service: u8, cid: u8) -> bool
        ensures { result ≡ is_before service cid self.now }
    {
        (self.service < service) | ((self.service == service) & (self.cid < cid))
    }

    pub fn is_of_service(&self, conn: ConnId, service: u8) -> bool
        ensures { result ≡ is_of_service conn service self.now }
    {
        (self.number == conn) & (self.service == service)
    }

    /// Whether its number is a time that is so long ago.
    pub fn is_old(&self, time: u64, after: u64) -> bool
        ensures { result ≡ is_old after time self.now }
    {
        after <= time.saturating_sub(self.number)
    }
}
