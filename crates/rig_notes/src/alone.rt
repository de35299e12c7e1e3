ghost use Rattle.std.specs.Prelude.{◌≡◌, ◌<◌, ◌≤◌, ◌==◌, true, length, nat_eq, nat_le, OnOk, OnErr, IfOk};
ghost use Rattle.std.specs.List.{starts_with};
ghost use Rattle.hub_io.specs.Events.{event_of};
ghost use Rattle.proxy_history.specs.Events as history;
ghost use Rattle.proxy_serving.specs.Face.{MayCome};
ghost use Rattle.rig_stage.specs.Ready.{IsReady};
ghost use Rattle.rig_stage.specs.Running.{Moves};
ghost use Rattle.rig_trace.specs.Alone.{meets, hears, own_number, meet_met};
ghost use Rattle.rig_notes.specs.Noting.{Keeps};
ghost use Rattle.rig_notes.specs.Alone.{is_met, is_short, is_fit, queue_for, GoesOn, RunsAlone, StopsAlone};

use crate::slices::begin_with;
use crate::{Noting, Reading, SHORTEST};
use core_bench::Bench;
use framing::LONGEST_PIECE;
use hub_io::Event;
use kit_bytes::ConnId;
use rig_stage::{count_waiting, meet, modem_takes};
use rig_trace::Met;
use std::alloc::{AllocError, Global};

/// Runs the part of a trace that a client meets, alone on a core that was just opened, and says
/// whether it is the same alone: whether the client comes once, speaks in one piece, has asked for what
/// it hears, takes bytes that wait for it just then, and in the end leaves none.
///
/// It fails where memory runs out, where what was run couldn't be noted, and where an answer of the
/// trace has no whole head or its number doesn't fit.
pub fn run_alone<R: Reading, B: Bench>(
    alloc: Global,
    bench: &mut Noting<R, B>,
    conn: ConnId,
    trace: &[Met],
) -> Result<bool, AllocError>
    requires ready { IsReady (B.is_held bench.old.bench) (B.face bench.old.bench) }
    requires new { (B.face bench.old.bench).greatest < conn }
    ensures ready { OnOk result (IsReady (B.is_held bench.new.bench) (B.face bench.new.bench)) }
    ensures same { IfOk result (RunsAlone (Keeps R.reading B.keeps) (λ s. B.runs s.bench) R.reading conn trace.now bench.old bench.new) }
    ensures stops { OnErr result (StopsAlone (Keeps R.reading B.keeps) (λ s. B.runs s.bench) R.reading conn trace.now bench.old bench.new) }
{
    let mut fresh = true;
    for met in trace {
        if is_met(conn, met) {
            if !meet_own(alloc, bench, conn, met, fresh)? {
                return Ok(false);
            }
            fresh = false;
        }
    }
    Ok(nothing_waits(bench, conn))
}

// Whether the client meets something where this is met.
fn is_met(conn: ConnId, met: &Met) -> bool
    ensures { result ≡ is_met conn met.now }
{
    match met {
        Met::Joins(other) => *other == conn,
        Met::Said(other, _) => *other == conn,
        Met::Heard(other, _, _) => *other == conn,
        Met::Takes(other, _) => *other == conn,
        Met::ClockShows(_) => true,
    }
}

// The client meets what is its own. It met nothing so far where it is fresh.
fn meet_own<R: Reading, B: Bench>(
    alloc: Global,
    bench: &mut Noting<R, B>,
    conn: ConnId,
    met: &Met,
    fresh: bool,
) -> Result<bool, AllocError>
    requires ready { IsReady (B.is_held bench.old.bench) (B.face bench.old.bench) }
    requires new { fresh ≡ true → (B.face bench.old.bench).greatest < conn }
    requires own { is_met conn met.now ≡ true }
    ensures ready { OnOk result (IsReady (B.is_held bench.new.bench) (B.face bench.new.bench)) }
    ensures same { IfOk result (GoesOn (Keeps R.reading B.keeps) (λ s. B.runs s.bench) (λ p own. is_fit R.reading p conn fresh own met.now) (λ p own. meet_met R.reading p conn own met.now) bench.old bench.new) }
    ensures err { OnErr result (bench.new ≡ bench.old) }
{
    match met {
        Met::Joins(_) => Ok(come(bench, conn, fresh)),
        Met::Said(_, message) => Ok(say(bench, conn, message.as_slice())),
        Met::Heard(_, place, message) => hear(alloc, bench, conn, *place, message.as_slice()),
        Met::Takes(_, bytes) => Ok(collect(bench, conn, bytes.as_slice())),
        Met::ClockShows(time) => {
            meets(bench, Event::Now(*time));
            Ok(true)
        }
    }
}

// The client joins, if nothing was met before.
fn come<B: Bench>(bench: &mut B, conn: ConnId, fresh: bool) -> bool
    requires ready { IsReady (B.is_held bench.old) (B.face bench.old) }
    requires new { fresh ≡ true → (B.face bench.old).greatest < conn }
    ensures ready { IsReady (B.is_held bench.new) (B.face bench.new) }
    ensures same { GoesOn B.keeps B.runs (λ p own. fresh) (λ p own. meets p (history.Joined conn) own) bench.old bench.new result }
{
    if !fresh {
        return false;
    }
    meets(bench, Event::Joined(conn));
    true
}

// The client says a message, if it is one piece.
fn say<B: Bench>(bench: &mut B, conn: ConnId, message: &[u8]) -> bool
    requires { IsReady (B.is_held bench.old) (B.face bench.old) }
    ensures ready { IsReady (B.is_held bench.new) (B.face bench.new) }
    ensures same { GoesOn B.keeps B.runs (λ p own. nat_le (length message.now) LONGEST_PIECE) (λ p own. meets p (history.Piece conn message.now) own) bench.old bench.new result }
{
    if message.len() > LONGEST_PIECE {
        return false;
    }
    meets(bench, Event::Piece(conn, message));
    true
}

// The modem answers to the client's message from this place, if it was asked, under the number that
// the request has here.
fn hear<R: Reading, B: Bench>(
    alloc: Global,
    bench: &mut Noting<R, B>,
    conn: ConnId,
    place: u64,
    message: &[u8],
) -> Result<bool, AllocError>
    requires { IsReady (B.is_held bench.old.bench) (B.face bench.old.bench) }
    ensures ready { OnOk result (IsReady (B.is_held bench.new.bench) (B.face bench.new.bench)) }
    ensures same { IfOk result (GoesOn (Keeps R.reading B.keeps) (λ s. B.runs s.bench) (λ p own. is_short R.reading (own_number R.reading p conn place own) message.now) (λ p own. hears R.reading p (own_number R.reading p conn place own) message.now own) bench.old bench.new) }
    ensures err { OnErr result (bench.new ≡ bench.old) }
{
    if bench.has_failed() || message.len() < SHORTEST {
        return Err(AllocError);
    }
    let Some(number) = bench.number_at(conn, place) else {
        return Ok(false);
    };
    let answer = R::with_number(alloc, number, message)?;
    Ok(answer_comes(bench, answer.as_slice()))
}

// The modem gives an answer, if it is one piece.
fn answer_comes<B: Bench>(bench: &mut B, answer: &[u8]) -> bool
    requires { IsReady (B.is_held bench.old) (B.face bench.old) }
    ensures ready { IsReady (B.is_held bench.new) (B.face bench.new) }
    ensures same { GoesOn B.keeps B.runs (λ p own. nat_le (length answer.now) LONGEST_PIECE) (λ p own. meets p (history.ModemPiece answer.now) own) bench.old bench.new result }
{
    if answer.len() > LONGEST_PIECE {
        return false;
    }
    meets(bench, Event::ModemPiece(answer));
    true
}

// The client takes bytes, if these wait for it.
fn collect<B: Bench>(bench: &mut B, conn: ConnId, bytes: &[u8]) -> bool
    requires { IsReady (B.is_held bench.old) (B.face bench.old) }
    ensures ready { IsReady (B.is_held bench.new) (B.face bench.new) }
    ensures same { GoesOn B.keeps B.runs (λ p own. starts_with nat_eq (queue_for p conn own) bytes.now) (λ p own. meets p (history.Took conn (length bytes.now)) own) bench.old bench.new result }
{
    if !waits(bench, conn, bytes) {
        return false;
    }
    meets(bench, Event::Took(conn, bytes.len()));
    true
}

// Whether what waits for the client begins with these bytes.
fn waits<B: Bench>(bench: &B, conn: ConnId, bytes: &[u8]) -> bool
    requires { B.is_held bench.now ≡ true }
    ensures waits { result ≡ starts_with nat_eq ((B.face bench.now).queue conn) bytes.now }
    ensures within { result ≡ true → length bytes.now ≤ length ((B.face bench.now).queue conn) }
{
    let (first, second) = bench.parts(conn);
    begin_with(first, second, bytes)
}

// Whether nothing waits for the client.
fn nothing_waits<B: Bench>(bench: &B, conn: ConnId) -> bool
    requires { B.is_held bench.now ≡ true }
    ensures { result ≡ (length ((B.face bench.now).queue conn) == 0) }
{
    count_waiting(bench, conn) == 0
}

// The core meets an event, and then the modem takes all that waits for it.
fn meets<B: Bench>(bench: &mut B, event: Event<'_>)
    requires ready { IsReady (B.is_held bench.old) (B.face bench.old) }
    requires may { MayCome (event_of event) (B.face bench.old) }
    ensures ready { IsReady (B.is_held bench.new) (B.face bench.new) }
    ensures met { Moves B.keeps B.runs (λ p own. meets p (event_of event.entry) own) bench.old bench.new }
{
    meet(bench, event);
    modem_takes(bench);
}
