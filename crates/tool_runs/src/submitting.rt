ghost use Rattle.std.specs.Prelude.{◌≡◌, IsTrue};
ghost use Rattle.kit_io.specs.Causes.{Rose};
ghost use Rattle.sms_pdu.specs.Parts.{can_be_sent, messages};
ghost use Rattle.sms_print.specs.Printed.{hex_lines};
ghost use Rattle.tool_runs.specs.Asking.{PrintsText};

use crate::run_end::RunEnd;
use kit_bytes::{Octets, Text};
use kit_io::{Sink, WriteFault, write_all_to};
use sms_pdu::{SubmitFault, submit_pdus};
use sms_print::hex_lines;
use std::alloc::{AllocError, Global};

/// Prints the bodies of the messages that carry a text to a number, a line each. The number and the
/// text are such that messages are made of them.
pub fn submit<O: Sink>(
    alloc: Global,
    number: &Text,
    text: &Text,
    reference: u8,
    out: &mut O,
) -> RunEnd
    requires { IsTrue (can_be_sent number.now text.now) }
    ensures prints { PrintsText (hex_lines (messages number.now text.now reference)) (O.taken out.old) result (O.taken out.new) }
    ensures link_fault { ¬ (result ≡ RunEnd.LinkFault) }
    ensures start_fault { ¬ (result ≡ RunEnd.StartFault) }
    ensures read_fault { ¬ (result ≡ RunEnd.ReadFault) }
    ensures write_fault { result ≡ RunEnd.WriteFault → Rose (O.faults out.old) (O.faults out.new) }
{
    match submit_pdus(alloc, number, text, reference) {
        Ok(pdus) => print_bodies(alloc, pdus.as_slice(), out),
        Err(SubmitFault::OutOfMemory) => RunEnd::OutOfMemory,
        // (they aren't refused)
        Err(SubmitFault::Number | SubmitFault::TooLong) => RunEnd::OutOfMemory,
    }
}

fn print_bodies<O: Sink>(alloc: Global, bodies: &[Octets], out: &mut O) -> RunEnd
    ensures prints { PrintsText (hex_lines bodies.now) (O.taken out.old) result (O.taken out.new) }
    ensures link_fault { ¬ (result ≡ RunEnd.LinkFault) }
    ensures start_fault { ¬ (result ≡ RunEnd.StartFault) }
    ensures read_fault { ¬ (result ≡ RunEnd.ReadFault) }
    ensures write_fault { result ≡ RunEnd.WriteFault → Rose (O.faults out.old) (O.faults out.new) }
{
    match hex_lines(alloc, bodies) {
        Err(AllocError) => RunEnd::OutOfMemory,
        Ok(text) => match write_all_to(out, text.as_slice()) {
            Ok(()) => RunEnd::Done,
            Err(WriteFault) => RunEnd::WriteFault,
        },
    }
}
