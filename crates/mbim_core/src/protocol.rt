ghost use Rattle.mbim_core.specs.Lawful.{is_lawful};
ghost use Rattle.mbim_core.specs.Meaning.{mbim_meaning};

use crate::teller::Teller;
use connections::Connections;
use hub_io::Limits;
use kit_bytes::{ConnId, Text};
use mbim_clients::{Client, ModemSide};
use mbim_fragments::Body;
use mbim_frame::Mbim;
use proxy_core::{Core, Protocol};
use std::alloc::{AllocError, Global};
use std::marker::Model;

/// The core of an MBIM proxy.
pub type MbimCore = Core<MbimHand>;

/// What MBIM has at hand.
#[derive(Drop)]
pub struct MbimHand {
    // the body of a message of the modem that came in fragments
    whole: Body,
    teller: Teller,
}

impl Model for MbimHand {
    ghost use Rattle.mbim_core.specs.Hand.{hand_of};
    ghost use Rattle.mbim_core.specs.Meaning.{AtHand};

    ghost Value = { AtHand };

    ghost view = { λ hand. hand_of hand.teller };
}

impl Protocol for MbimHand {
    type Frame = Mbim;

    type Client = Client;

    type Side = ModemSide;

    ghost meaning = { mbim_meaning };

    fn open(alloc: Global, limits: &Limits, device: &str) -> Result<(Self, ModemSide), AllocError> {
        let whole = Body::open(alloc)?;
        let teller = Teller::open(alloc)?;
        let device = Text::from_str(alloc, device)?;
        let side = ModemSide::open(alloc, device, limits.time)?;
        Ok((MbimHand { whole, teller }, side))
    }

    fn time(side: &ModemSide) -> u64 {
        side.time()
    }

    fn away(side: &ModemSide) -> bool {
        side.away()
    }

    fn queued(side: &ModemSide) -> &[u8] {
        side.queued()
    }

    fn parts(side: &ModemSide) -> (&[u8], &[u8]) {
        side.parts()
    }

    fn join(&mut self, _side: &ModemSide, name: ConnId) {
        self.teller.join(name);
    }

    fn give_up(&mut self, side: &mut ModemSide, name: ConnId) {
        self.teller.leave(name);
        side.give_up(name);
    }

    fn regain(&mut self, side: &mut ModemSide) {
        side.regain();
    }

    fn take_modem(&mut self, side: &mut ModemSide, count: usize) {
        side.take(count);
    }

    fn bring(
        &mut self,
        connections: &mut Connections<Mbim, Client>,
        side: &mut ModemSide,
        name: ConnId,
        piece: &[u8],
    ) {
        self.teller.bring(connections, side, name, piece);
    }

    fn hear_modem(
        &mut self,
        connections: &mut Connections<Mbim, Client>,
        side: &mut ModemSide,
        message: &[u8],
    ) {
        self.teller
            .hear_modem(connections, side, message, &mut self.whole);
    }

    fn lose(&mut self, connections: &mut Connections<Mbim, Client>, side: &mut ModemSide) {
        self.teller.lose(connections, side);
    }

    fn tick(
        &mut self,
        connections: &mut Connections<Mbim, Client>,
        side: &mut ModemSide,
        time: u64,
    ) {
        self.teller.tick(connections, side, time);
    }

    fn finish(&mut self, connections: &mut Connections<Mbim, Client>, side: &mut ModemSide) {
        self.teller.finish(connections, side);
    }

    ghost lawful = { is_lawful };
}
