ghost use Rattle.std.specs.Prelude.{◌≡◌, length, true, IsTrue};
ghost use Rattle.hub_io.specs.Events.{event_of};
ghost use Rattle.proxy_history.specs.Events.{greatest_after};
ghost use Rattle.proxy_serving.specs.Face.{MayCome};

use framing::LONGEST_PIECE;
use hub_io::{Event, Limits};
use kit_bytes::{ConnId, Octets};
use mbim_core::MbimCore;
use proxy_serving::ProxyCore;
use qmi_core::QmiCore;
use rig_stage::joined;
use row_text::RowFault;
use std::alloc::{AllocError, Global};

/// A proxy that is told what happens.
#[derive(Drop)]
pub struct Proxy<C: ProxyCore> {
    core: C,
    // the greatest name of a client so far
    greatest: u64,
    // memory never ran out
    sound: bool,
    ghost greatest_is: { sound ≡ true → (C.face core).greatest ≡ greatest },
}

/// A QMI proxy of a device with 30 seconds for an answer, to which nothing has happened, and which
/// releases the client ids that are kept for so many milliseconds.
pub fn qmi_proxy(
    alloc: Global,
    device: &str,
    release: Option<u64>,
) -> Result<Proxy<QmiCore>, AllocError> {
    let limits = Limits {
        time: 30_000,
        release,
    };
    let core = QmiCore::open(alloc, &limits, device)?;
    Ok(Proxy {
        core,
        greatest: 0,
        sound: true,
    })
}

/// And an MBIM proxy.
pub fn mbim_proxy(alloc: Global, device: &str) -> Result<Proxy<MbimCore>, AllocError> {
    let limits = Limits {
        time: 30_000,
        release: None,
    };
    let core = MbimCore::open(alloc, &limits, device)?;
    Ok(Proxy {
        core,
        greatest: 0,
        sound: true,
    })
}

impl<C: ProxyCore> Proxy<C> {
    /// Meets an event. Whoever was dropped must have been asked for.
    pub fn meet(&mut self, event: Event<'_>) -> Result<(), RowFault> {
        if !self.sound {
            return Err(RowFault::new("memory ran out"));
        }
        if self.core.next_dropped().is_some() {
            return Err(RowFault::new("a client was dropped"));
        }
        if !self.may_come(event) {
            return Err(RowFault::new("this can't come now"));
        }
        self.sound = false;
        self.core.step(event)?;
        self.greatest = greatest_behind(event, self.greatest);
        self.sound = true;
        Ok(())
    }

    // Whether the event may come now: names rise, and no more is taken than waits.
    fn may_come(&self, event: Event<'_>) -> bool
        requires { self.now.sound ≡ true }
        ensures { IsTrue result → MayCome (event_of event.entry) (C.face self.now.core) }
    {
        match event {
            Event::Joined(name) => self.greatest < name,
            Event::Piece(_, piece) => piece.len() <= LONGEST_PIECE,
            Event::ModemPiece(piece) => piece.len() <= LONGEST_PIECE,
            Event::Took(name, count) => count <= self.count_waiting(name),
            Event::ModemTook(count) => count <= self.count_modem_waiting(),
            Event::Left(_) | Event::ModemGone | Event::ModemBack | Event::Now(_) => true,
        }
    }

    /// How many bytes wait for a client.
    pub fn count_waiting(&self, name: ConnId) -> usize
        ensures { result ≡ length ((C.face self.now.core).queue name) }
    {
        let (first, second) = self.core.parts(name);
        first.len() + second.len()
    }

    /// How many bytes wait for the modem.
    pub fn count_modem_waiting(&self) -> usize
        ensures { result ≡ length (C.face self.now.core).modem_queue }
    {
        let (first, second) = self.core.modem_parts();
        first.len() + second.len()
    }

    /// The bytes that wait for a client.
    pub fn waiting(&self, alloc: Global, name: ConnId) -> Result<Octets, AllocError> {
        let (first, second) = self.core.parts(name);
        joined(alloc, first, second)
    }

    /// The bytes that wait for the modem.
    pub fn modem_waiting(&self, alloc: Global) -> Result<Octets, AllocError> {
        let (first, second) = self.core.modem_parts();
        joined(alloc, first, second)
    }

    /// Whether the modem is away.
    pub fn is_away(&self) -> bool {
        self.core.away()
    }

    /// The clients that are there, in order of joining.
    pub fn present(&self, alloc: Global) -> Result<Vec<u64>, AllocError> {
        let mut names = Vec::new(alloc);
        for index in 0..self.core.present() {
            names.push(self.core.conn_at(index))?;
        }
        Ok(names)
    }

    /// The next client to hang up.
    pub fn next_dropped(&mut self) -> Option<ConnId> {
        self.core.next_dropped()
    }
}

// The greatest name of a client behind an event.
fn greatest_behind(event: Event<'_>, greatest: u64) -> u64
    ensures { result ≡ greatest_after (event_of event.entry) greatest }
{
    match event {
        Event::Joined(name) => name,
        Event::Piece(..)
        | Event::ModemPiece(_)
        | Event::Took(..)
        | Event::ModemTook(_)
        | Event::Left(_)
        | Event::ModemGone
        | Event::ModemBack
        | Event::Now(_) => greatest,
    }
}
