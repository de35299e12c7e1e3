ghost use Rattle.std.specs.Prelude.{◌≡◌, ◌≤◌, ◌∷◌, [], ℕ, List, Err, IfOk, OnOk, fold, reverse};
ghost use Rattle.proxy_history.specs.Events as history;
ghost use Rattle.core_bench.specs.Runs.{Run, proxy_for};
ghost use Rattle.hub_io.specs.Record.{taking};
ghost use Rattle.rig_runs.specs.Stage.{queued_for};
ghost use Rattle.rig_stage.specs.Ready.{IsReady, StaysReady};
ghost use Rattle.rig_stage.specs.Running.{AreRecorded, Moves, Runs};
ghost use Rattle.lone_client.specs.Relay.{hear_each, relayed};
ghost use Rattle.transparency.specs.Peers.{cast_of, opened};
ghost use Rattle.transparency.specs.Relaying.{Relays};

use crate::asking::ask_all;
use crate::modem::Simulated;
use core_bench::Bench;
use framing::LONGEST_PIECE;
use hub_io::{Event, Limits};
use kit_bytes::{Kind, Octets};
use modem_profile::Profile;
use rig_stage::{count_waiting, joined, meet, modem_takes};
use sim_modem::Sim;
use std::alloc::{AllocError, Global};

/// The name of the client.
const CLIENT: u64 = 1;

/// How long a request waits for its answer, in milliseconds.
const TIME_LIMIT: u64 = 30_000;

/// Opens a core of this kind for a device on a bench, and the client joins.
pub(crate) fn begin<B: Bench>(
    alloc: Global,
    bench: &mut B,
    kind: Kind,
    device: &str,
) -> Result<(), AllocError>
    ensures ready { OnOk result (IsReady (B.is_held bench.new) (B.face bench.new)) }
    ensures runs { OnOk result ((earlier : List Run) → AreRecorded (B.runs bench.old) earlier
        → Runs B.keeps B.runs (proxy_for kind (opened kind device.now).limits device.now) (opened kind device.now) earlier (history.Joined 1 ∷ []) bench.new) }
{
    let limits = Limits {
        time: TIME_LIMIT,
        release: None,
    };
    bench.open(alloc, kind, &limits, device)?;
    meet(bench, Event::Joined(CLIENT));
    Ok(())
}

/// The client says a text, the modem is asked what waits for it then and says all that it has to, and
/// the client takes all that waits for it.
///
/// A text or a message that is longer than a piece may be is a want of memory too.
pub(crate) fn relay<S: Sim, B: Bench>(
    alloc: Global,
    bench: &mut B,
    sim: &mut S,
    text: &[u8],
) -> Result<Octets, AllocError>
    requires { IsReady (B.is_held bench.old) (B.face bench.old) }
    ensures ready { IsReady (B.is_held bench.new) (B.face bench.new) }
    ensures relays { IfOk result (Relays B.keeps B.runs S.keeps S.Framing.size text.now bench.old bench.new sim.old sim.new) }
{
    if text.len() > LONGEST_PIECE {
        return Err(AllocError);
    }
    meet(bench, Event::Piece(CLIENT, text));
    let (first, second) = bench.modem_parts();
    let queue = joined(alloc, first, second)?;
    let messages = ask_all(alloc, sim, queue.as_slice())?;
    modem_takes(bench);
    arrive(bench, &messages)?;
    let (first, second) = bench.parts(CLIENT);
    let reply = joined(alloc, first, second)?;
    client_takes(bench);
    Ok(reply)
}

// Messages of the modem arrive, each in one piece.
fn arrive<B: Bench>(bench: &mut B, messages: &[Octets]) -> Result<(), AllocError>
    requires { IsReady (B.is_held bench.old) (B.face bench.old) }
    ensures ready { StaysReady (B.is_held bench.new) (B.face bench.old) (B.face bench.new) }
    ensures met { OnOk result (Moves B.keeps B.runs (λ p past. hear_each messages.now past) bench.old bench.new) }
{
    for message in messages {
        let piece = message.as_slice();
        if piece.len() > LONGEST_PIECE {
            return Err(AllocError);
        }
        meet(bench, Event::ModemPiece(piece));
    }
    Ok(())
}

// The client takes all that waits for it, if it is there.
fn client_takes<B: Bench>(bench: &mut B)
    requires { IsReady (B.is_held bench.old) (B.face bench.old) }
    ensures ready { IsReady (B.is_held bench.new) (B.face bench.new) }
    ensures met { Moves B.keeps B.runs (λ p past. taking (λ count. history.Took 1 count) (queued_for p 1 past) past) bench.old bench.new }
{
    let count = count_waiting(bench, CLIENT);
    if count == 0 {
        return;
    }
    meet(bench, Event::Took(CLIENT, count));
}

/// Runs a core for this device on a bench, with a client alone that says these texts, and with a
/// modem of this profile behind it. Where the bench tells its runs, this one is the newest of them then.
pub fn play<S: Simulated, B: Bench>(
    alloc: Global,
    bench: &mut B,
    profile: &Profile,
    device: &str,
    texts: &[Octets],
) -> Result<(), AllocError>
    ensures runs { OnOk result ((earlier : List Run) → AreRecorded (B.runs bench.old) earlier
        → Runs B.keeps B.runs (cast_of S.kind device.now S.Framing.size (S.answering profile.now)).proxy (opened S.kind device.now) earlier
        (relayed (cast_of S.kind device.now S.Framing.size (S.answering profile.now)) (reverse texts.now)).events bench.new) }
{
    let mut sim = S::of(alloc, profile)?;
    begin(alloc, bench, S::kind(), device)?;
    for text in texts {
        let _reply = relay(alloc, bench, &mut sim, text.as_slice())?;
    }
    Ok(())
}
