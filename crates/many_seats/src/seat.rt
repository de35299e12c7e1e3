ghost use Rattle.std.specs.Prelude.{◌≡◌, ◌≤◌, ◌+◌, ◌++◌, [], None, length};
ghost use Rattle.many_history.specs.Many.{Undecided, At};
ghost use Rattle.many_seats.specs.Seats.{chosen_in, said_in};

use crate::chosen::Chosen;
use crate::said::Said;
use kit_bytes::ConnId;
use std::marker::Model;

/// A connection that is there.
#[derive(Drop)]
pub struct Seat {
    conn: ConnId,
    // none while it hasn't chosen
    chosen: Option<Chosen>,
    said: Said,
}

impl Model for Seat {
    ghost use Rattle.many_history.specs.Many as many;
    ghost use Rattle.many_seats.specs.Seats.{place_as};

    ghost Value = { many.Seat };

    ghost view = { λ s. record { conn = s.conn; place = place_as s.chosen s.said } };
}

impl Seat {
    /// One that has just joined, with the room for what it says.
    pub fn begin(conn: ConnId, mut said: Said) -> Self
        ensures { result ≡ record { conn = conn; place = Undecided [] } }
    {
        said.clear();
        Seat {
            conn,
            chosen: None,
            said,
        }
    }

    pub fn conn(&self) -> u64
        ensures { result ≡ self.now.conn }
    {
        self.conn
    }

    /// What it chose; none while it hasn't.
    pub fn chosen(&self) -> Option<Chosen>
        ensures { result ≡ chosen_in self.now.place }
    {
        self.chosen
    }

    /// What it said so far, where it hasn't chosen.
    pub fn said(&self) -> &[u8]
        ensures { chosen_in self.now.place ≡ None → result.now ≡ said_in self.now.place }
    {
        self.said.bytes()
    }

    /// It says more, and hasn't chosen.
    pub fn say(&mut self, piece: &[u8])
        requires undecided { chosen_in self.old.place ≡ None }
        requires room { length (said_in self.old.place) + length piece.now ≤ 81920 }
        ensures { self.new ≡ record { conn = self.old.conn; place = Undecided (said_in self.old.place ++ piece.now) } }
    {
        self.said.add(piece);
    }

    pub fn choose(&mut self, device: usize, name: ConnId)
        ensures { self.new ≡ record { conn = self.old.conn; place = At device name } }
    {
        self.chosen = Some(Chosen { device, name });
    }

    /// The room for what it said, which is free again.
    pub fn into_said(self) -> Said {
        self.said
    }
}
