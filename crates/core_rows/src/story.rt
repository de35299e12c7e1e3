use crate::proxy::Proxy;
use framing::LONGEST_PIECE;
use hub_io::Event;
use kit_bytes::Octets;
use proxy_serving::ProxyCore;
use row_text::{Line, Place, Row, RowFault, Rows, are_bytes, is};
use std::alloc::{AllocError, Global};

/// What happens in turn to a new proxy of /dev/cdc-wdm0:
///
///     joins: 1 2            leaves: 1             clock: MILLISECONDS
///     from 1: BYTES         from modem: BYTES     lost:    back:
///     took 1: COUNT         took modem: all       repeats: COUNT, of the next event
///
/// and what is the case then:
///
///     to 1: BYTES           to modem: BYTES       all bytes that wait
///     waits 1: COUNT        waits modem: COUNT    how many bytes wait
///     there: 1 2            away: yes             who is there; whether the modem is away
///     dropped: 3                                  who is hung up next
#[derive(Drop)]
struct Story<'a, C: ProxyCore> {
    proxy: &'a mut Proxy<C>,
    // Whether bytes come in one piece, and up to 1,024 not byte by byte.
    whole: bool,
    // How often the next event happens.
    times: u32,
}

/// Whose bytes come, or for whom bytes wait.
#[derive(Clone, Copy)]
enum Whom {
    Modem,
    Client(u64),
}

/// Whether a story of a new proxy is what is found, where bytes come whole, or byte by byte, up to 1,024
/// at a time. Tells what differs.
pub fn is_as_told<R: Print, C: ProxyCore>(
    rt: &R,
    alloc: Global,
    place: Place<'_>,
    rows: &Rows<'_>,
    row: &Row<'_>,
    proxy: &mut Proxy<C>,
    whole: bool,
) -> Result<bool, RowFault> {
    let mut story = Story {
        proxy,
        whole,
        times: 1,
    };
    let mut same = true;
    let mut place = place;
    for line in &row.rest {
        place = place.of(line);
        match story.follow(rt, alloc, place, rows, line) {
            Ok(so) => same &= so,
            Err(fault) => return Err(fault.at(line.number)),
        }
    }
    let dropped = story.proxy.next_dropped();
    Ok(is(rt, place, "dropped behind it", None, dropped) && same)
}

impl<C: ProxyCore> Story<'_, C> {
    fn follow<R: Print>(
        &mut self,
        rt: &R,
        alloc: Global,
        place: Place<'_>,
        rows: &Rows<'_>,
        line: &Line<'_>,
    ) -> Result<bool, RowFault> {
        let (verb, whom) = line.key.split_once(' ').unwrap_or((line.key, ""));
        let value = line.value;
        match verb {
            "to" => {
                let whom = whom_of(whom)?;
                let told = rows.bytes_of(value)?;
                let waiting = self.waiting(alloc, whom)?;
                return Ok(are_bytes(rt, place, line.key, &told, waiting.as_slice()));
            }
            "waits" => {
                let told = value.parse::<usize>()?;
                let found = self.count_waiting(whom_of(whom)?);
                return Ok(is(rt, place, line.key, told, found));
            }
            "there" | "away" | "dropped" => return self.is_so(rt, alloc, place, verb, value),
            "repeats" => self.times = value.parse::<u32>()?,
            "from" => {
                let bytes = rows.bytes_of(value)?;
                self.repeat(verb, whom, value, &bytes)?;
            }
            _ => self.repeat(verb, whom, value, &[])?,
        }
        Ok(true)
    }

    // The event happens as often as it is to.
    fn repeat(
        &mut self,
        verb: &str,
        whom: &str,
        value: &str,
        bytes: &[u8],
    ) -> Result<(), RowFault> {
        for _ in 0..self.times {
            self.meet(verb, whom, value, bytes)?;
        }
        self.times = 1;
        Ok(())
    }

    fn is_so<R: Print>(
        &mut self,
        rt: &R,
        alloc: Global,
        place: Place<'_>,
        key: &str,
        value: &str,
    ) -> Result<bool, RowFault> {
        match key {
            "there" => {
                let found = self.there(alloc)?;
                Ok(is(rt, place, key, value, found.as_str()))
            }
            "away" => {
                let found = if self.proxy.is_away() { "yes" } else { "no" };
                Ok(is(rt, place, key, value, found))
            }
            _ => {
                let told = Some(value.parse::<u64>()?);
                Ok(is(rt, place, key, told, self.proxy.next_dropped()))
            }
        }
    }

    // The clients that are there, with a space between.
    fn there(&self, alloc: Global) -> Result<String, RowFault> {
        let names = self.proxy.present(alloc)?;
        let mut text = String::new(alloc);
        push_names(&mut text, &names)?;
        Ok(text)
    }

    fn waiting(&self, alloc: Global, whom: Whom) -> Result<Octets, AllocError> {
        match whom {
            Whom::Modem => self.proxy.modem_waiting(alloc),
            Whom::Client(name) => self.proxy.waiting(alloc, name),
        }
    }

    fn count_waiting(&self, whom: Whom) -> usize {
        match whom {
            Whom::Modem => self.proxy.count_modem_waiting(),
            Whom::Client(name) => self.proxy.count_waiting(name),
        }
    }

    fn meet(&mut self, verb: &str, whom: &str, value: &str, bytes: &[u8]) -> Result<(), RowFault> {
        match verb {
            "from" => self.receive(whom_of(whom)?, bytes),
            "took" => self.hand_over(whom_of(whom)?, value),
            "joins" => self.join(value),
            "leaves" => self.proxy.meet(Event::Left(value.parse::<u64>()?)),
            "clock" => self.proxy.meet(Event::Now(value.parse::<u64>()?)),
            "lost" => self.proxy.meet(Event::ModemGone),
            "back" => self.proxy.meet(Event::ModemBack),
            _ => Err(RowFault::new("no key of a row")),
        }
    }

    fn join(&mut self, names: &str) -> Result<(), RowFault> {
        for name in names.split_whitespace() {
            self.proxy.meet(Event::Joined(name.parse::<u64>()?))?;
        }
        Ok(())
    }

    fn receive(&mut self, whom: Whom, bytes: &[u8]) -> Result<(), RowFault> {
        if bytes.is_empty() {
            return self.proxy.meet(piece_of(whom, bytes));
        }
        // a long message byte by byte would take too long
        let most = if self.whole || bytes.len() > 1_024 {
            LONGEST_PIECE
        } else {
            1
        };
        for piece in bytes.chunks(most) {
            self.proxy.meet(piece_of(whom, piece))?;
        }
        Ok(())
    }

    fn hand_over(&mut self, whom: Whom, value: &str) -> Result<(), RowFault> {
        let count = match value {
            "all" => self.count_waiting(whom),
            _ => value.parse::<usize>()?,
        };
        self.proxy.meet(match whom {
            Whom::Modem => Event::ModemTook(count),
            Whom::Client(name) => Event::Took(name, count),
        })
    }
}

fn push_names(text: &mut String, names: &[u64]) -> Result<(), RowFault> {
    for name in names {
        if text.is_empty() {
            write!(text, "{name}")?;
        } else {
            write!(text, " {name}")?;
        }
    }
    Ok(())
}

fn piece_of(whom: Whom, bytes: &[u8]) -> Event<'_> {
    match whom {
        Whom::Modem => Event::ModemPiece(bytes),
        Whom::Client(name) => Event::Piece(name, bytes),
    }
}

fn whom_of(text: &str) -> Result<Whom, RowFault> {
    Ok(match text {
        "modem" => Whom::Modem,
        _ => Whom::Client(text.parse::<u64>()?),
    })
}
