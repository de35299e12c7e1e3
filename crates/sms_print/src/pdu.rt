ghost use Rattle.std.specs.Prelude.{◌≡◌, ◌++◌, IfOk, OnOk};
ghost use Rattle.sms_print.specs.Printed.{body_line, part_line, part_shown, pdu_text, short_text, text_line, time_line};

use itoa::Buffer;
use kit_bytes::{Octets, Text};
use print_text::{escaped_text, hex_text, push_line, push_number};
use sms_pdu::{Body, Part, Pdu};
use std::alloc::{AllocError, Global};

/// Adds who sent a message or to whom it goes, when, which part it is, and what it says.
pub(crate) fn push_pdu(alloc: Global, text: &mut Octets, pdu: &Pdu) -> Result<(), AllocError>
    ensures { OnOk result (text.new ≡ text.old ++ pdu_text pdu.now) }
{
    push_text(alloc, text, b"", "Sender", &pdu.address)?;
    push_time(alloc, text, &pdu.time)?;
    push_part(alloc, text, &pdu.part)?;
    push_body(alloc, text, &pdu.body)?;
    Ok(())
}

/// Adds a line with a name and a text.
pub(crate) fn push_text(
    alloc: Global,
    text: &mut Octets,
    indent: &[u8],
    name: &str,
    shown: &Text,
) -> Result<(), AllocError>
    ensures { OnOk result (text.new ≡ text.old ++ text_line indent.now name.now shown.now) }
{
    let shown = escaped_text(alloc, shown)?;
    push_line(text, indent, name, shown.as_bytes())
}

fn push_time(alloc: Global, text: &mut Octets, time: &Text) -> Result<(), AllocError>
    ensures { OnOk result (text.new ≡ text.old ++ time_line time.now) }
{
    if time.as_str().is_empty() {
        return Ok(());
    }
    push_text(alloc, text, b"", "Time", time)
}

fn push_part(alloc: Global, text: &mut Octets, part: &Option<Part>) -> Result<(), AllocError>
    ensures { OnOk result (text.new ≡ text.old ++ part_line part.now) }
{
    let Some(part) = part else {
        return Ok(());
    };
    let shown = part_shown(alloc, part)?;
    push_line(text, b"", "Part", shown.as_slice())
}

fn part_shown(alloc: Global, part: &Part) -> Result<Octets, AllocError>
    ensures { IfOk result (λ shown. shown ≡ part_shown part.now) }
{
    let mut shown = Octets::new(alloc);
    push_number(&mut shown, "", u64::from(part.place))?;
    push_number(&mut shown, " of ", u64::from(part.total))?;
    push_number(&mut shown, ", reference ", u64::from(part.reference))?;
    Ok(shown)
}

fn push_body(alloc: Global, text: &mut Octets, body: &Body) -> Result<(), AllocError>
    ensures { OnOk result (text.new ≡ text.old ++ body_line body.now) }
{
    match body {
        Body::Written(written) => push_text(alloc, text, b"", "Text", written),
        Body::Raw(octets) => {
            let shown = hex_text(alloc, octets.as_slice())?;
            push_line(text, b"", "Data", shown.as_slice())
        }
    }
}

/// Adds where the first field stands that isn't whole.
pub(crate) fn push_short(alloc: Global, text: &mut Octets, place: usize) -> Result<(), AllocError>
    ensures { OnOk result (text.new ≡ text.old ++ short_text place) }
{
    let mut shown = Octets::new(alloc);
    shown.extend_from_slices(b"short at ", Buffer::new().format(place).as_bytes())?;
    push_line(text, b"", "PDU", shown.as_slice())
}
