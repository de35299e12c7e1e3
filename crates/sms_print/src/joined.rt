ghost use Rattle.std.specs.Prelude.{◌≡◌, ◌++◌, IfOk, OnOk};
ghost use Rattle.std.specs.List.{flat_map};
ghost use Rattle.sms_print.specs.Printed.{all_text, joined_lines, joined_text};

use crate::messages::push_messages;
use crate::pdu::push_text;
use itoa::Buffer;
use kit_bytes::Octets;
use print_text::push_line;
use sms_pdu::{Joined, Pdus, join};
use std::alloc::{AllocError, Global};

/// What is printed for messages of these bytes, and behind them the whole messages among them.
pub fn all_text(alloc: Global, bodies: &[Octets]) -> Result<Octets, AllocError>
    ensures { IfOk result (λ text. text ≡ all_text bodies.now) }
{
    let mut text = Octets::new(alloc);
    push_all(alloc, &mut text, bodies)?;
    Ok(text)
}

/// Adds that to a text.
pub(crate) fn push_all(
    alloc: Global,
    text: &mut Octets,
    bodies: &[Octets],
) -> Result<(), AllocError>
    ensures { OnOk result (text.new ≡ text.old ++ all_text bodies.now) }
{
    let pdus = push_messages(alloc, text, bodies)?;
    let joined = join(alloc, &Pdus::from(pdus))?;
    push_joined(alloc, text, joined.as_slice())?;
    Ok(())
}

// Adds how many whole messages there are, and each one.
fn push_joined(alloc: Global, text: &mut Octets, list: &[Joined]) -> Result<(), AllocError>
    ensures { OnOk result (text.new ≡ text.old ++ joined_text list.now) }
{
    push_line(
        text,
        b"",
        "Joined",
        Buffer::new().format(list.len()).as_bytes(),
    )?;
    push_each(alloc, text, list)?;
    Ok(())
}

fn push_each(alloc: Global, text: &mut Octets, list: &[Joined]) -> Result<(), AllocError>
    ensures { OnOk result (text.new ≡ text.old ++ flat_map joined_lines list.now) }
{
    for one in list {
        push_one(alloc, text, one)?;
    }
    Ok(())
}

fn push_one(alloc: Global, text: &mut Octets, one: &Joined) -> Result<(), AllocError>
    ensures { OnOk result (text.new ≡ text.old ++ joined_lines one.now) }
{
    push_text(alloc, text, b"  ", "Sender", &one.address)?;
    push_text(alloc, text, b"  ", "Text", &one.text)?;
    Ok(())
}
