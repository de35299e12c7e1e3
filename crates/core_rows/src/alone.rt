use crate::counts::{Cause, Counts, is_open, messages_in};
use crate::proxy::{Proxy, mbim_proxy, qmi_proxy};
use core_bench::BenchNote;
use hub_io::Event;
use kit_bytes::{ConnId, Kind};
use kit_io::Log;
use proxy_serving::ProxyCore;
use row_text::{Place, RowFault, is};
use std::alloc::Global;

/// A client, and all bytes that it took.
#[derive(Drop, PartialEq, Eq)]
struct Client {
    name: ConnId,
    taken: Vec<u8>,
}

/// What was taken of a core: by its clients, in order of joining, and by the modem.
#[derive(Drop)]
struct Run {
    kind: Kind,
    clients: Vec<Client>,
    asked: Vec<u8>,
    counts: Counts,
    // What brought the bytes that wait now.
    cause: Cause,
}

/// Whether the lines that a rig writes say what came of its requests, and how many clients took the same
/// bytes alone. Each core that the bench ran is opened and stepped here anew, and its messages are counted.
/// The number of turns alone is that of the words: one in which nothing arrives brings a core nothing.
pub fn is_same_alone<R: Print>(
    rt: &R,
    alloc: Global,
    place: Place<'_>,
    log: &Log<BenchNote>,
    turns: u64,
    lines: &str,
) -> Result<bool, RowFault> {
    let runs = runs_again(alloc, log)?;
    let Some((all, alone)) = runs.split_first() else {
        return Err(RowFault::new("nothing was run"));
    };
    let counted = are_counted(rt, alloc, place, turns, lines, all);
    let equal = is_equal(rt, alloc, place, lines, all, alone);
    Ok(counted? && equal?)
}

fn are_counted<R: Print>(
    rt: &R,
    alloc: Global,
    place: Place<'_>,
    turns: u64,
    lines: &str,
    all: &Run,
) -> Result<bool, RowFault> {
    let mut same = true;
    for (name, count) in [
        ("clients ", all.clients.len() as u64),
        ("turns ", turns),
        ("forwarded ", requests_in(alloc, all.kind, &all.asked)?),
        ("answered ", all.counts.answered),
        ("expired ", all.counts.expired),
        ("late ", all.counts.late()),
        ("refused ", all.counts.refused),
    ] {
        let found = format!(in alloc; "{name}{count}")?;
        same &= is_line(rt, place, lines, name, &found)?;
    }
    Ok(same)
}

fn is_equal<R: Print>(
    rt: &R,
    alloc: Global,
    place: Place<'_>,
    lines: &str,
    all: &Run,
    alone: &[Run],
) -> Result<bool, RowFault> {
    let equal = equal_in(all, alone);
    let found = format!(in alloc; "equal {equal} of {}", alone.len())?;
    is_line(rt, place, lines, "equal ", &found)
}

// Whether the line that begins so is this one.
fn is_line<R: Print>(
    rt: &R,
    place: Place<'_>,
    lines: &str,
    begins: &str,
    found: &str,
) -> Result<bool, RowFault> {
    for line in lines.lines() {
        if line.starts_with(begins) {
            return Ok(is(rt, place, "same alone", line, found));
        }
    }
    Err(RowFault::new("a line is missing that tells what is the same alone"))
}

// How many clients took the same bytes alone.
fn equal_in(all: &Run, alone: &[Run]) -> u64 {
    let mut equal = 0u64;
    for (client, run) in all.clients.iter().zip(alone) {
        if run.clients.len() == 1 && run.clients.first() == Some(client) {
            equal = equal.saturating_add(1);
        }
    }
    equal
}

fn runs_again(alloc: Global, log: &Log<BenchNote>) -> Result<Vec<Run>, RowFault> {
    let mut runs = Vec::new(alloc);
    push_runs(alloc, &mut runs, log)?;
    Ok(runs)
}

fn push_runs(alloc: Global, runs: &mut Vec<Run>, log: &Log<BenchNote>) -> Result<(), RowFault> {
    let Some(count) = log.len() else {
        return Err(RowFault::new("too much to be told"));
    };
    for at in 0..count {
        if let Some((BenchNote::Opened { kind, .. }, _)) = log.at(at) {
            runs.push(again(alloc, log, at.saturating_add(1), kind)?)?;
        }
    }
    Ok(())
}

// What is taken of a new core of this kind that meets the events from this place on.
fn again(alloc: Global, log: &Log<BenchNote>, start: usize, kind: Kind) -> Result<Run, RowFault> {
    let mut run = Run {
        kind,
        clients: Vec::new(alloc),
        asked: Vec::new(alloc),
        counts: Counts::none(),
        cause: Cause::Clock,
    };
    match kind {
        Kind::Qmi => qmi_again(alloc, log, start, &mut run)?,
        Kind::Mbim => mbim_again(alloc, log, start, &mut run)?,
    }
    Ok(run)
}

fn qmi_again(
    alloc: Global,
    log: &Log<BenchNote>,
    start: usize,
    run: &mut Run,
) -> Result<(), RowFault> {
    let mut proxy = qmi_proxy(alloc, "rig", None)?;
    let met = run.meet_all(alloc, log, start, &mut proxy);
    drop(proxy);
    met
}

fn mbim_again(
    alloc: Global,
    log: &Log<BenchNote>,
    start: usize,
    run: &mut Run,
) -> Result<(), RowFault> {
    let mut proxy = mbim_proxy(alloc, "rig")?;
    let met = run.meet_all(alloc, log, start, &mut proxy);
    drop(proxy);
    met
}

// The event of a note, where it isn't an opening.
fn event_of(note: BenchNote, bytes: &[u8]) -> Option<Event<'_>> {
    Some(match note {
        BenchNote::Opened { .. } => return None,
        BenchNote::Joined(conn) => Event::Joined(conn),
        BenchNote::Piece(conn) => Event::Piece(conn, bytes),
        BenchNote::Left(conn) => Event::Left(conn),
        BenchNote::ModemPiece => Event::ModemPiece(bytes),
        BenchNote::ModemGone => Event::ModemGone,
        BenchNote::ModemBack => Event::ModemBack,
        BenchNote::Now(time) => Event::Now(time),
        BenchNote::Took(conn, count) => Event::Took(conn, count),
        BenchNote::ModemTook(count) => Event::ModemTook(count),
    })
}

impl Run {
    // Takes what a core gives that meets the events from this place on, up to the next opening.
    fn meet_all<C: ProxyCore>(
        &mut self,
        alloc: Global,
        log: &Log<BenchNote>,
        start: usize,
        proxy: &mut Proxy<C>,
    ) -> Result<(), RowFault> {
        for at in start..log.len().unwrap_or(0) {
            let Some((note, bytes)) = log.at(at) else {
                break;
            };
            let Some(event) = event_of(note, bytes) else {
                break;
            };
            self.take(alloc, proxy, event)?;
            proxy.meet(event)?;
        }
        Ok(())
    }

    // Notes a client that joins, what brings bytes, and the bytes that are taken.
    fn take<C: ProxyCore>(
        &mut self,
        alloc: Global,
        proxy: &Proxy<C>,
        event: Event<'_>,
    ) -> Result<(), RowFault> {
        match event {
            Event::Joined(name) => self.join(alloc, name),
            Event::Took(name, count) => {
                let waiting = proxy.waiting(alloc, name)?;
                self.take_as(alloc, name, first(waiting.as_slice(), count))
            }
            Event::ModemTook(count) => {
                let waiting = proxy.modem_waiting(alloc)?;
                Ok(
                    self.asked
                        .extend_from_slice(first(waiting.as_slice(), count))?,
                )
            }
            _ => {
                self.begin(event);
                Ok(())
            }
        }
    }

    // What is taken behind an event is brought by it.
    fn begin(&mut self, event: Event<'_>) {
        match event {
            Event::Piece(..) => self.cause = Cause::Client,
            Event::Now(_) => self.cause = Cause::Clock,
            Event::ModemPiece(_) => {
                self.cause = Cause::Modem;
                self.counts.arrive();
            }
            _ => {}
        }
    }

    fn join(&mut self, alloc: Global, name: ConnId) -> Result<(), RowFault> {
        let taken = Vec::new(alloc);
        self.clients.push(Client { name, taken })?;
        Ok(())
    }

    fn take_as(&mut self, alloc: Global, name: ConnId, bytes: &[u8]) -> Result<(), RowFault> {
        for message in messages_in(alloc, self.kind, bytes)? {
            self.counts.take(self.kind, self.cause, message);
        }
        for client in self.clients.iter_mut() {
            if client.name == name {
                client.taken.extend_from_slice(bytes)?;
                return Ok(());
            }
        }
        Err(RowFault::new("no client has this name"))
    }
}

// The first so many bytes, or all.
fn first(bytes: &[u8], count: usize) -> &[u8] {
    &bytes[..count.min(bytes.len())]
}

// How many requests of clients a stream to the modem has. By itself a proxy asks the modem to open alone.
fn requests_in(alloc: Global, kind: Kind, stream: &[u8]) -> Result<u64, RowFault> {
    let mut count = 0u64;
    for message in messages_in(alloc, kind, stream)? {
        count = count.saturating_add(u64::from(!is_open(kind, message)));
    }
    Ok(count)
}
