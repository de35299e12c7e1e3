ghost use Rattle.qmi_core.specs.Lawful.{is_lawful};
ghost use Rattle.qmi_core.specs.Meaning.{qmi_meaning};

use crate::side::ModemSide;
use crate::telling::{bring, hear_modem, lose, tick};
use crate::traffic::Traffic;
use connections::Connections;
use hub_io::Limits;
use kit_bytes::{ConnId, Octets};
use proxy_core::{Core, Protocol};
use qmi_state::Client;
use qmux_frame::Qmux;
use std::alloc::{AllocError, Global};
use std::marker::Model;

/// The core of a QMI proxy.
pub type QmiCore = Core<QmiHand>;

/// QMI has nothing at hand.
#[derive(Drop)]
pub struct QmiHand;

impl Model for QmiHand {
    ghost Value = { Unit {0} };

    ghost view = { λ hand. tt };
}

impl Protocol for QmiHand {
    type Frame = Qmux;

    type Client = Client;

    type Side = ModemSide;

    ghost meaning = { qmi_meaning };

    fn open(alloc: Global, limits: &Limits, device: &str) -> Result<(Self, ModemSide), AllocError> {
        let device = Octets::from_slice(alloc, device.as_bytes())?;
        let traffic = Traffic::open(alloc)?;
        let side = ModemSide {
            device,
            time_limit: limits.time,
            release: limits.release,
            time: 0,
            away: false,
            traffic,
        };
        Ok((QmiHand, side))
    }

    fn time(side: &ModemSide) -> u64 {
        side.time
    }

    fn away(side: &ModemSide) -> bool {
        side.away
    }

    fn queued(side: &ModemSide) -> &[u8] {
        side.traffic.queued()
    }

    fn parts(side: &ModemSide) -> (&[u8], &[u8]) {
        side.traffic.parts()
    }

    fn join(&mut self, _side: &ModemSide, _name: u64) {}

    fn give_up(&mut self, side: &mut ModemSide, name: ConnId) {
        side.give_up(name);
    }

    fn regain(&mut self, side: &mut ModemSide) {
        side.away = false;
    }

    fn take_modem(&mut self, side: &mut ModemSide, count: usize) {
        side.traffic.take(count);
    }

    fn bring(
        &mut self,
        connections: &mut Connections<Qmux, Client>,
        side: &mut ModemSide,
        name: ConnId,
        piece: &[u8],
    ) {
        bring(connections, side, name, piece);
    }

    fn hear_modem(
        &mut self,
        connections: &mut Connections<Qmux, Client>,
        side: &mut ModemSide,
        message: &[u8],
    ) {
        hear_modem(connections, side, message);
    }

    fn lose(&mut self, connections: &mut Connections<Qmux, Client>, side: &mut ModemSide) {
        lose(connections, side);
    }

    fn tick(
        &mut self,
        connections: &mut Connections<Qmux, Client>,
        side: &mut ModemSide,
        time: u64,
    ) {
        tick(connections, side, time);
    }

    fn finish(&mut self, connections: &mut Connections<Qmux, Client>, side: &mut ModemSide) {}

    ghost lawful = { is_lawful };
}
