ghost use Rattle.std.specs.Prelude.{◌≡◌, []};
ghost use Rattle.many_seats.specs.Seats.{chosen_in, place_as};

use crate::chosen::Chosen;
use kit_bytes::ConnId;
use std::marker::Model;

/// A connection that was dropped and is to be hung up.
#[derive(Drop)]
pub struct Gone {
    conn: ConnId,
    // none where it was never let in
    chosen: Option<Chosen>,
}

impl Model for Gone {
    ghost use Rattle.std.specs.Prelude.{[]};
    ghost use Rattle.many_history.specs.Many as many;
    ghost use Rattle.many_seats.specs.Seats.{place_as};

    ghost Value = { many.Seat };

    ghost view = { λ g. record { conn = g.conn; place = place_as g.chosen [] } };
}

impl Gone {
    pub fn new(conn: ConnId, chosen: Option<Chosen>) -> Self
        ensures { result ≡ record { conn = conn; place = place_as chosen [] } }
    {
        Gone { conn, chosen }
    }

    pub fn conn(&self) -> u64
        ensures { result ≡ self.now.conn }
    {
        self.conn
    }

    /// Where it was.
    pub fn chosen(&self) -> Option<Chosen>
        ensures { result ≡ chosen_in self.now.place }
    {
        self.chosen
    }
}
