ghost use Rattle.std.specs.Prelude.{◌≡◌, ◌++◌, map, IfOk, OnOk};
ghost use Rattle.std.specs.List.{flat_map};
ghost use Rattle.message_tables.specs.View.{message_view, tlv_view};
ghost use Rattle.named_messages.specs.Described.{id_digits, kind_word, message_text, section, title, tlv_text};

use crate::shapes::push_shape;
use kit_bytes::Octets;
use message_tables::{Message, TlvShape};
use print_text::{hex_pair, push_front, push_heading, push_line, push_number};
use std::alloc::{AllocError, Global};

/// A message's lines: its name and its id, and then what it takes and what it gives, each TLV and each
/// field by its name with what stands for its value in JSON.
#[tactic(auto, unfolding(crate::specs::Described::message_text))]
pub fn message_text(alloc: Global, message: &Message) -> Result<Octets, AllocError>
    ensures { IfOk result (λ text. text ≡ message_text (message_view message.now)) }
{
    let mut text = Octets::new(alloc);
    push_title(&mut text, message)?;
    push_section(alloc, &mut text, "takes", message.input.as_slice())?;
    push_section(alloc, &mut text, "gives", message.output.as_slice())?;
    Ok(text)
}

// Adds the line of a message's name and id.
#[tactic(auto, unfolding(crate::specs::Described::title))]
fn push_title(text: &mut Octets, message: &Message) -> Result<(), AllocError>
    ensures { OnOk result (text.new ≡ text.old ++ title (message_view message.now)) }
{
    push_front(text, b"", message.name.as_str())?;
    text.extend_from_slice(kind_word(message.indication).as_bytes())?;
    push_id(text, message.id)?;
    push_number(text, " of service ", u64::from(message.service))?;
    text.extend_from_slice(b"\n")?;
    Ok(())
}

#[tactic(auto, unfolding(crate::specs::Described::kind_word))]
fn kind_word(indication: bool) -> &'static str
    ensures { result.now ≡ kind_word indication }
{
    if indication {
        "indication 0x"
    } else {
        "message 0x"
    }
}

// Adds an id in four digits.
#[tactic(auto, unfolding(crate::specs::Described::id_digits))]
fn push_id(text: &mut Octets, id: u16) -> Result<(), AllocError>
    ensures { OnOk result (text.new ≡ text.old ++ id_digits id) }
{
    text.extend_from_slices(&hex_pair((id / 256) as u8), &hex_pair((id % 256) as u8))
}

// Adds the lines of TLVs under a heading.
fn push_section(
    alloc: Global,
    text: &mut Octets,
    heading: &str,
    tlvs: &[TlvShape],
) -> Result<(), AllocError>
    ensures { OnOk result (text.new ≡ text.old ++ section heading.now (map tlv_view tlvs.now)) }
{
    if tlvs.is_empty() {
        return push_line(text, b"", heading, b"nothing");
    }
    push_heading(text, b"", heading)?;
    push_tlvs(alloc, text, tlvs)?;
    Ok(())
}

#[tactic(auto, using(message_tables::proofs::Lists::taken))]
fn push_tlvs(alloc: Global, text: &mut Octets, tlvs: &[TlvShape]) -> Result<(), AllocError>
    ensures { OnOk result (text.new ≡ text.old ++ flat_map tlv_text (map tlv_view tlvs.now)) }
{
    for tlv in tlvs {
        push_shape(alloc, text, b"  ", tlv.name.as_str(), &tlv.shape)?;
    }
    Ok(())
}
