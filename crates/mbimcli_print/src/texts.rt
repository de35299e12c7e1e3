ghost use Rattle.std.specs.Prelude.{◌≡◌, ◌++◌, IfOk, OnOk};
ghost use Rattle.mbimcli_print.specs.Texts.{address_text, group, groups, ipv6_text, uuid_text};

use kit_bytes::Octets;
use print_text::{ipv4_text, lower_hex_pair};
use std::alloc::{AllocError, Global};
use uuid::Uuid;

/// Of which kind an address is.
#[derive(Clone, Copy)]
pub enum Family {
    Ipv4,
    Ipv6,
}

/// The text of a UUID.
#[tactic(auto, unfolding(crate::specs::Texts::uuid_text))]
pub fn uuid_text(alloc: Global, uuid: Uuid) -> Result<Octets, AllocError>
    ensures { IfOk result (λ text. text ≡ uuid_text uuid) }
{
    let mut buffer = Uuid::encode_buffer();
    let text = uuid.hyphenated().encode_lower(&mut buffer);
    Octets::from_slice(alloc, text.as_bytes())
}

/// The text of an address.
pub fn address_text(alloc: Global, family: Family, bytes: &[u8]) -> Result<Octets, AllocError>
    ensures { IfOk result (λ text. text ≡ address_text family bytes.now) }
{
    match family {
        Family::Ipv4 => ipv4_text(alloc, bytes),
        Family::Ipv6 => ipv6_text(alloc, bytes),
    }
}

// The bytes of an IPv6 address in groups, with colons between.
fn ipv6_text(alloc: Global, bytes: &[u8]) -> Result<Octets, AllocError>
    ensures { IfOk result (λ text. text ≡ ipv6_text bytes.now) }
{
    let mut text = Octets::new(alloc);
    let [high, low, rest @ ..] = bytes else {
        return Ok(text);
    };
    push_group(&mut text, *high, *low)?;
    push_groups(&mut text, rest)?;
    Ok(text)
}

// Adds bytes in groups, with a colon in front of each.
fn push_groups(text: &mut Octets, bytes: &[u8]) -> Result<(), AllocError>
    ensures { OnOk result (text.new ≡ text.old ++ groups bytes.now) }
{
    let mut rest = bytes;
    while let [high, low, more @ ..] = rest {
        text.extend_from_slice(b":")?;
        push_group(text, *high, *low)?;
        rest = more;
    }
    Ok(())
}

// Adds two bytes as a group.
fn push_group(text: &mut Octets, high: u8, low: u8) -> Result<(), AllocError>
    ensures { OnOk result (text.new ≡ text.old ++ group high low) }
{
    text.extend_from_slices(&lower_hex_pair(high), &lower_hex_pair(low))
}
