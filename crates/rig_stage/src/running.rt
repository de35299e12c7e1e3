ghost use Rattle.std.specs.Prelude.{◌≡◌, length, ◌∷◌, true};
ghost use Rattle.std.specs.List.{range_with_len};
ghost use Rattle.hub_io.specs.Events.{event_of};
ghost use Rattle.hub_io.specs.Record.{taking};
ghost use Rattle.proxy_history.specs.Events as history;
ghost use Rattle.proxy_history.specs.Events.{greatest_after};
ghost use Rattle.proxy_serving.specs.Face.{MayCome};
ghost use Rattle.rig_runs.specs.Stage as rig;
ghost use Rattle.rig_runs.specs.Stage.{queued_for};
ghost use Rattle.rig_stage.specs.Ready.{IsReady, StaysReady};
ghost use Rattle.rig_stage.specs.Running.{Moves};

use core_bench::Bench;
use hub_io::Event;
use kit_bytes::ConnId;

/// The core meets an event, and whom it drops is asked for.
pub fn meet<B: Bench>(bench: &mut B, event: Event<'_>)
    requires ready { IsReady (B.is_held bench.old) (B.face bench.old) }
    requires may { MayCome (event_of event) (B.face bench.old) }
    ensures ready { IsReady (B.is_held bench.new) (B.face bench.new) }
    ensures greatest { (B.face bench.new).greatest ≡ greatest_after (event_of event.entry) (B.face bench.old).greatest }
    ensures met { Moves B.keeps B.runs (λ p past. event_of event.entry ∷ past) bench.old bench.new }
{
    bench.step(event);
    hang_up(bench);
}

// Each connection that the core dropped is asked for.
fn hang_up<B: Bench>(bench: &mut B)
    requires { B.is_held bench.old ≡ true }
    ensures ready { StaysReady (B.is_held bench.new) (B.face bench.old) (B.face bench.new) }
    ensures met { Moves B.keeps B.runs (λ p past. past) bench.old bench.new }
{
    while let Some(_dropped) = bench.next_dropped() {}
}

/// A client takes all that waits for it, if it is there.
pub(crate) fn client_takes<B: Bench>(bench: &mut B, conn: ConnId)
    requires { IsReady (B.is_held bench.old) (B.face bench.old) }
    ensures ready { StaysReady (B.is_held bench.new) (B.face bench.old) (B.face bench.new) }
    ensures met { Moves B.keeps B.runs (λ p past. taking (λ count. history.Took conn count) (queued_for p conn past) past) bench.old bench.new }
{
    let count = count_waiting(bench, conn);
    if count == 0 {
        return;
    }
    meet(bench, Event::Took(conn, count));
}

/// Each of so many clients, which are named from 1 on, takes all that waits for it.
pub(crate) fn clients_take<B: Bench>(bench: &mut B, clients: u8)
    requires { IsReady (B.is_held bench.old) (B.face bench.old) }
    ensures ready { StaysReady (B.is_held bench.new) (B.face bench.old) (B.face bench.new) }
    ensures met { Moves B.keeps B.runs (λ p past. rig.clients_take p (range_with_len 1 clients) past) bench.old bench.new }
{
    for index in 0..clients {
        client_takes(bench, u64::from(index) + 1);
    }
}

/// The modem takes all that waits for it, if anything does.
pub fn modem_takes<B: Bench>(bench: &mut B)
    requires { IsReady (B.is_held bench.old) (B.face bench.old) }
    ensures ready { StaysReady (B.is_held bench.new) (B.face bench.old) (B.face bench.new) }
    ensures met { Moves B.keeps B.runs rig.modem_takes bench.old bench.new }
{
    let count = count_modem_waiting(bench);
    if count == 0 {
        return;
    }
    meet(bench, Event::ModemTook(count));
}

/// How many bytes wait for a client.
pub fn count_waiting<B: Bench>(bench: &B, conn: ConnId) -> usize
    requires { B.is_held bench.now ≡ true }
    ensures { result ≡ length ((B.face bench.now).queue conn) }
{
    let (first, second) = bench.parts(conn);
    first.len() + second.len()
}

/// How many bytes wait for the modem.
pub fn count_modem_waiting<B: Bench>(bench: &B) -> usize
    requires { B.is_held bench.now ≡ true }
    ensures { result ≡ length (B.face bench.now).modem_queue }
{
    let (first, second) = bench.modem_parts();
    first.len() + second.len()
}
