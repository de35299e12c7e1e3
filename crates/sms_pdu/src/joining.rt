ghost use Rattle.std.specs.Prelude.{◌≡◌, IfOk, option_map};
ghost use Rattle.sms_pdu.specs.Entries.{pdus_of};
ghost use Rattle.sms_pdu.specs.Joining as joining;

use crate::entries::{Entry, begins_before, entries_of, run_of, sort_by_group};
use crate::texts::{copy_of, same_text};
use crate::{Body, Joined, JoinedList, Part, Pdu, Pdus};
use kit_bytes::Text;
use std::alloc::{AllocError, Global};

/// The whole messages among these, in the order of each one's first part. A part of a message that
/// isn't whole is left out, and so is what has no text. Where a place occurs twice, the first counts.
pub fn join(alloc: Global, list: &Pdus) -> Result<JoinedList, AllocError>
    ensures { IfOk result (λ joined. joined ≡ joining.joined list.now) }
{
    let joined = joined_in(alloc, list.as_slice())?;
    Ok(JoinedList::from(joined))
}

fn joined_in(alloc: Global, pdus: &[Pdu]) -> Result<Vec<Joined>, AllocError>
    ensures { IfOk result (λ joined. joined.items ≡ joining.joined pdus.now) }
{
    let mut entries = entries_of(alloc, pdus)?;
    sort_by_group(&mut entries)?;
    let mut joined = Vec::new(alloc);
    for (index, pdu) in pdus.iter().enumerate() {
        let run = run_of(&entries, pdu);
        if begins_before(run, index) {
            continue;
        }
        if let Some(text) = whole_text(alloc, run, pdu)? {
            let address = copy_of(alloc, &pdu.address)?;
            joined.push(Joined { address, text })?;
        }
    }
    Ok(joined)
}

// The text of a message's whole group, or of itself if it is no part.
fn whole_text(alloc: Global, run: &[Entry<'_>], pdu: &Pdu) -> Result<Option<Text>, AllocError>
    ensures { IfOk result (λ text. text ≡ joining.whole_text (pdus_of run.now) pdu.now) }
{
    match &pdu.part {
        Some(part) => group_text(alloc, run, pdu, part.total),
        None => match written(&pdu.body) {
            Some(text) => Ok(Some(copy_of(alloc, text)?)),
            None => Ok(None),
        },
    }
}

// What the places of a message's group say, from 1 up to this one, if all have a text.
fn group_text(
    alloc: Global,
    run: &[Entry<'_>],
    pdu: &Pdu,
    last: u8,
) -> Result<Option<Text>, AllocError>
    ensures { IfOk result (λ text. text ≡ joining.text_up_to (pdus_of run.now) pdu.now last) }
{
    let mut text = String::new(alloc);
    for place in 0..last {
        match text_at(run, pdu, place + 1) {
            Some(more) => text.push_str(more.as_str())?,
            None => return Ok(None),
        }
    }
    Ok(Some(Text::from(text)))
}

// What the first of a message's group at a place says, if there is one and its body is a text.
fn text_at<'a>(run: &[Entry<'a>], pdu: &Pdu, place: u8) -> Option<&'a Text>
    ensures { option_map (λ text. text.now) result ≡ joining.text_at (pdus_of run.now) pdu.now place }
{
    let found = run.iter().find(|entry| is_at(pdu, place, entry.pdu))?;
    written(&found.pdu.body)
}

// Whether a message is of the group of this one, at this place.
fn is_at(pdu: &Pdu, place: u8, other: &Pdu) -> bool
    ensures { result ≡ joining.is_at pdu.now place other.now }
{
    part_is_at(place, &other.part) && same_group(pdu, other)
}

fn part_is_at(place: u8, part: &Option<Part>) -> bool
    ensures { result ≡ joining.part_is_at place part.now }
{
    match part {
        Some(part) => part.place == place,
        None => false,
    }
}

// The text of a body that is one.
fn written(body: &Body) -> Option<&Text>
    ensures { option_map (λ text. text.now) result ≡ joining.written body.now }
{
    match body {
        Body::Written(text) => Some(text),
        Body::Raw(_) => None,
    }
}

// Whether they are parts of one message.
fn same_group(one: &Pdu, other: &Pdu) -> bool
    ensures { result ≡ joining.same_group one.now other.now }
{
    same_parts(&one.part, &other.part) && same_text(&one.address, &other.address)
}

fn same_parts(one: &Option<Part>, other: &Option<Part>) -> bool
    ensures { result ≡ joining.same_parts one.now other.now }
{
    match (one, other) {
        (Some(one), Some(other)) => same_message(one, other),
        _ => false,
    }
}

fn same_message(one: &Part, other: &Part) -> bool
    ensures { result ≡ joining.same_message one.now other.now }
{
    one.reference == other.reference && one.wide == other.wide && one.total == other.total
}
