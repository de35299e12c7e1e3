ghost use Rattle.std.specs.Prelude.{◌≡◌, ◌≤◌, [], Err, IfOk};
ghost use Rattle.kit_io.specs.Causes.{Rose};
ghost use Rattle.kit_io.specs.Counts.{together};
ghost use Rattle.modem_routes.specs.Reaching.{LinkFails, ReachesBy};
ghost use Rattle.modem_routes.specs.Routes.{path_in};
ghost use Rattle.tool_runs.specs.Asking.{AsksModem, asked_of, Comes, Prints, PrintsText, shown, Visits};

use crate::run_end::RunEnd;
use crate::session::{Refusal, Session};
use child_io::{Kids, Spawner};
use kit_bytes::Octets;
use kit_io::{Sink, WriteFault, write_all_to};
use link_io::Link;
use modem_routes::{Route, reach};
use sms_print::{Decoding, push_decoded};
use std::alloc::{AllocError, Global};

/// A plan, and how much is told of the messages that the end of its session holds.
#[derive(Drop)]
pub struct ShownPlan<'a, S> {
    pub plan: &'a S,
    pub decoding: Decoding,
}

/// Goes the route to a modem, has the session of a plan with it, prints its end, and stops whatever
/// was started.
pub fn ask<S: Session, O: Sink, L: Link, P: Spawner>(
    alloc: Global,
    route: &Route,
    asked: &ShownPlan<'_, S>,
    out: &mut O,
    link: &mut L,
    spawner: &mut P,
) -> RunEnd
    ensures asks { AsksModem (path_in route.now) (asked_of S.session S.refused (shown asked.now.decoding S.printed S.bodies) asked.now.plan.now)
        (record { link = L.calls link.old; spawner = P.calls spawner.old; out = O.taken out.old; made = together (L.made link.old) (O.made out.old) })
        (record { link = L.calls link.new; spawner = P.calls spawner.new; out = O.taken out.new; made = together (L.made link.new) (O.made out.new) })
        result }
    // It doesn't give up by itself.
    ensures link_fault { result ≡ RunEnd.LinkFault → LinkFails (path_in route.now) L.faults L.open_faults link.old link.new }
    ensures start_fault { result ≡ RunEnd.StartFault → Rose (P.faults spawner.old) (P.faults spawner.new) }
    ensures write_fault { result ≡ RunEnd.WriteFault → Rose (O.faults out.old) (O.faults out.new) }
{
    let mut kids = Kids::none();
    let end = ask_on_route(alloc, route, asked, out, link, spawner, &mut kids);
    let made = link.made().saturating_add(out.made());
    let stopped = kids.stop_all(spawner, made).is_ok();
    end.with_stops(stopped)
}

// The same, but that the children are kept.
fn ask_on_route<S: Session, O: Sink, L: Link, P: Spawner>(
    alloc: Global,
    route: &Route,
    asked: &ShownPlan<'_, S>,
    out: &mut O,
    link: &mut L,
    spawner: &mut P,
    kids: &mut Kids,
) -> RunEnd
    requires { kids.old ≡ [] }
    ensures comes { ReachesBy (Comes (path_in route.now) (asked_of S.session S.refused (shown asked.now.decoding S.printed S.bodies) asked.now.plan.now) (O.taken out.old) result (O.taken out.new)) (L.calls link.old) (P.calls spawner.old) kids.new (L.calls link.new) (P.calls spawner.new) }
    ensures link_fault { result ≡ RunEnd.LinkFault → LinkFails (path_in route.now) L.faults L.open_faults link.old link.new }
    ensures start_fault { result ≡ RunEnd.StartFault → Rose (P.faults spawner.old) (P.faults spawner.new) }
    ensures write_fault { result ≡ RunEnd.WriteFault → Rose (O.faults out.old) (O.faults out.new) }

    ensures later_starts { P.faults spawner.old ≤ P.faults spawner.new }
{
    match reach(route, link, spawner, kids) {
        Ok(()) => visit(alloc, asked.plan, asked.decoding, out, link),
        Err(fault) => RunEnd::from(fault),
    }
}

// Has the session over a link that is open, closes it, and prints the session's end.
fn visit<S: Session, O: Sink, L: Link>(
    alloc: Global,
    plan: &S,
    decoding: Decoding,
    out: &mut O,
    link: &mut L,
) -> RunEnd
    ensures visits { Visits (asked_of S.session S.refused (shown decoding S.printed S.bodies) plan.now) (L.calls link.old) (L.calls link.new) (O.taken out.old) result (O.taken out.new) }
    ensures link_fault { result ≡ RunEnd.LinkFault → Rose (L.faults link.old) (L.faults link.new) }
    ensures start_fault { ¬ (result ≡ RunEnd.StartFault) }
    ensures write_fault { result ≡ RunEnd.WriteFault → Rose (O.faults out.old) (O.faults out.new) }
{
    let end = plan.hold(alloc, link);
    link.close();
    match end {
        Ok(end) => print_end::<S, O>(alloc, &end, decoding, out),
        Err(fault) => RunEnd::from(fault),
    }
}

// Prints the text of a session's end, and what the messages say that it holds, where the modem refused nothing.
fn print_end<S: Session, O: Sink>(
    alloc: Global,
    end: &S::End,
    decoding: Decoding,
    out: &mut O,
) -> RunEnd
    ensures prints { Prints (S.refused end.now) (shown decoding S.printed S.bodies end.now) (O.taken out.old) result (O.taken out.new) }
    ensures write_fault { result ≡ RunEnd.WriteFault → Rose (O.faults out.old) (O.faults out.new) }
    ensures link_fault { ¬ (result ≡ RunEnd.LinkFault) }
    ensures start_fault { ¬ (result ≡ RunEnd.StartFault) }
{
    match S::refusal(end) {
        Some(Refusal { function, code }) => RunEnd::Denied { function, code },
        None => print_text::<S, O>(alloc, end, decoding, out),
    }
}

fn print_text<S: Session, O: Sink>(
    alloc: Global,
    end: &S::End,
    decoding: Decoding,
    out: &mut O,
) -> RunEnd
    ensures prints { PrintsText (shown decoding S.printed S.bodies end.now) (O.taken out.old) result (O.taken out.new) }
    ensures write_fault { result ≡ RunEnd.WriteFault → Rose (O.faults out.old) (O.faults out.new) }
    ensures link_fault { ¬ (result ≡ RunEnd.LinkFault) }
    ensures start_fault { ¬ (result ≡ RunEnd.StartFault) }
{
    match shown_text::<S>(alloc, end, decoding) {
        Err(AllocError) => RunEnd::OutOfMemory,
        Ok(text) => match write_all_to(out, text.as_slice()) {
            Ok(()) => RunEnd::Done,
            Err(WriteFault) => RunEnd::WriteFault,
        },
    }
}

// The text of a session's end, and behind it what is told of the messages that it holds.
fn shown_text<S: Session>(
    alloc: Global,
    end: &S::End,
    decoding: Decoding,
) -> Result<Octets, AllocError>
    ensures { IfOk result (λ text. text ≡ shown decoding S.printed S.bodies end.now) }
{
    let mut text = S::text(alloc, end)?;
    let bodies = S::bodies(alloc, end)?;
    push_decoded(alloc, &mut text, decoding, &bodies)?;
    Ok(text)
}
