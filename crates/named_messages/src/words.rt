ghost use Rattle.std.specs.Prelude.{◌≡◌, ◌++◌, decimal, OnOk};
ghost use Rattle.print_text.specs.Lines.{line};
ghost use Rattle.named_messages.specs.Described.{largest, many, signed_words, unsigned_words};

use kit_bytes::Octets;
use print_text::{push_front, push_number};
use qmi_shapes::Prefix;
use std::alloc::AllocError;

/// Adds the line of an unsigned number.
#[tactic(auto, unfolding(print_text::specs::Lines::line))]
pub(crate) fn push_unsigned(
    text: &mut Octets,
    indent: &[u8],
    name: &str,
    size: u8,
) -> Result<(), AllocError>
    ensures { OnOk result (text.new ≡ text.old ++ line indent.now name.now (unsigned_words size)) }
{
    push_front(text, indent, name)?;
    push_unsigned_words(text, size)?;
    text.extend_from_slice(b"\n")?;
    Ok(())
}

#[tactic(auto, unfolding(crate::specs::Described::unsigned_words))]
fn push_unsigned_words(text: &mut Octets, size: u8) -> Result<(), AllocError>
    ensures { OnOk result (text.new ≡ text.old ++ unsigned_words size) }
{
    push_number(text, "number, 0 to ", largest(size))?;
    Ok(())
}

/// Adds the line of a signed number.
#[tactic(auto, unfolding(print_text::specs::Lines::line))]
pub(crate) fn push_signed(
    text: &mut Octets,
    indent: &[u8],
    name: &str,
    size: u8,
) -> Result<(), AllocError>
    ensures { OnOk result (text.new ≡ text.old ++ line indent.now name.now (signed_words size)) }
{
    let half = largest(size) / 2;
    push_front(text, indent, name)?;
    push_number(text, "number, -", half + 1)?;
    push_number(text, " to ", half)?;
    text.extend_from_slice(b"\n")?;
    Ok(())
}

/// Adds the line of what there are several of.
#[tactic(auto, unfolding(print_text::specs::Lines::line))]
pub(crate) fn push_counted(
    text: &mut Octets,
    indent: &[u8],
    name: &str,
    what: &str,
    prefix: Prefix,
    unit: &str,
) -> Result<(), AllocError>
    ensures { OnOk result (text.new ≡ text.old ++ line indent.now name.now (what.now ++ many prefix unit.now)) }
{
    push_front(text, indent, name)?;
    text.extend_from_slice(what.as_bytes())?;
    push_many(text, prefix, unit)?;
    text.extend_from_slice(b"\n")?;
    Ok(())
}

// Adds how many there may be.
fn push_many(text: &mut Octets, prefix: Prefix, unit: &str) -> Result<(), AllocError>
    ensures { OnOk result (text.new ≡ text.old ++ many prefix unit.now) }
{
    match prefix {
        Prefix::Rest => Ok(()),
        Prefix::Fixed(count) => push_count(text, ", ", u64::from(count), unit),
        Prefix::Counted(size) => push_count(text, ", up to ", largest(size), unit),
    }
}

fn push_count(text: &mut Octets, front: &str, count: u64, unit: &str) -> Result<(), AllocError>
    ensures { OnOk result (text.new ≡ text.old ++ front.now ++ decimal count ++ unit.now) }
{
    push_number(text, front, count)?;
    text.extend_from_slice(unit.as_bytes())?;
    Ok(())
}

// The largest number of so many bytes, which are 8 at most.
fn largest(size: u8) -> u64
    ensures { result ≡ largest size }
{
    match size {
        0 => 0,
        1 => 0xff,
        2 => 0xffff,
        3 => 0xff_ffff,
        4 => 0xffff_ffff,
        5 => 0xff_ffff_ffff,
        6 => 0xffff_ffff_ffff,
        7 => 0xff_ffff_ffff_ffff,
        _ => u64::MAX,
    }
}
