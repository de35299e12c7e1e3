ghost use Rattle.std.specs.Prelude.{◌≡◌, ◌++◌, ◌≤◌, ◌+◌, length, nat_lt, OnOk, IfOk, IsTrue, if◌then◌else◌};
ghost use Rattle.std.specs.Str.{all_scalars};
ghost use Rattle.sms_pdu.specs.Laws.{ComeBack};
ghost use Rattle.sms_pdu.specs.Parts as parts;

use crate::data::push_data;
use crate::number::{is_number, push_address};
use crate::splitting::{fits, is_coded, piece_count, size_of};
use crate::{PduList, SubmitFault};
use kit_bytes::{Octets, Text};
use std::alloc::{AllocError, Global};

/// The bodies of the messages that carry a text to a number, in parts where it is long. All parts
/// have this reference. Read again and joined, in any order, they give the text alone.
pub fn submit_pdus(
    alloc: Global,
    number: &Text,
    text: &Text,
    reference: u8,
) -> Result<PduList, SubmitFault>
    ensures made { parts.MakesMessages number.now text.now reference result }
    ensures come_back { IfOk result (λ pdus. ComeBack number.now text.now pdus) }
{
    let number = chars_of(alloc, number)?;
    if !is_number(&number) {
        return Err(SubmitFault::Number);
    }
    let text = chars_of(alloc, text)?;
    let coded = is_coded(&text);
    let most = most_of(coded, &text);
    let total = piece_count(coded, most, &text);
    if 255 < total {
        return Err(SubmitFault::TooLong);
    }
    let sending = Sending {
        front: front(alloc, &number, coded, total as u8)?,
        coded,
        most,
        reference,
        total: total as u8,
    };
    let pdus = messages(alloc, &sending, &text)?;
    Ok(PduList::from(pdus))
}

/// Whether messages are made of these: the number is one, and the text takes at most 255 parts.
#[tactic(auto, unfolding(crate::specs::Parts::can_be_sent))]
pub fn can_be_sent(alloc: Global, number: &Text, text: &Text) -> Result<bool, AllocError>
    ensures { IfOk result (λ can. can ≡ parts.can_be_sent number.now text.now) }
{
    let number = chars_of(alloc, number)?;
    let text = chars_of(alloc, text)?;
    Ok(is_number(&number) && part_count(&text) <= 255)
}

// How many parts a text takes.
fn part_count(text: &[char]) -> usize
    ensures { result ≡ length (parts.parts text.now) }
{
    let coded = is_coded(text);
    piece_count(coded, most_of(coded, text), text)
}

// The characters of a text.
fn chars_of(alloc: Global, text: &Text) -> Result<Vec<char>, AllocError>
    ensures chars { IfOk result (λ chars. chars.items ≡ text.now) }
    ensures scalars { IsTrue (all_scalars text.now) }
{
    let mut chars = Vec::with_capacity(alloc, text.as_str().len())?;
    for char in text.as_str().chars() {
        chars.extend_from_slice(&[char])?;
    }
    Ok(chars)
}

// How many codes or units there is room for in each part.
fn most_of(coded: bool, text: &[char]) -> usize
    ensures most { result ≡ parts.most_of coded text.now }
    ensures least { 2 ≤ result }
    ensures room { result ≤ parts.alone coded }
{
    let alone = if coded { 160 } else { 70 };
    if fits(coded, alone, text) {
        return alone;
    }
    if coded { 153 } else { 67 }
}

// The octets of a message up to the coding.
fn front(alloc: Global, number: &[char], coded: bool, total: u8) -> Result<Vec<u8>, AllocError>
    requires { length (parts.digits_of number.now) ≤ 20 }
    ensures { IfOk result (λ front. front.items ≡ parts.front number.now coded total) }
{
    let first = if 1 < total { 0x41 } else { 0x01 };
    let coding = if coded { 0 } else { 8 };
    let mut front = Vec::new(alloc);
    front.extend_from_slice(&[0, first, 0])?;
    push_address(&mut front, number)?;
    front.extend_from_slice(&[0, coding])?;
    Ok(front)
}

// What the messages of a text have in common.
#[derive(Drop)]
struct Sending {
    front: Vec<u8>,
    coded: bool,
    most: usize,
    reference: u8,
    total: u8,
}

// The messages of a text's pieces.
fn messages(alloc: Global, sending: &Sending, text: &[char]) -> Result<Vec<Octets>, AllocError>
    requires total { length (parts.pieces sending.now.coded sending.now.most text.now) ≡ sending.now.total }
    requires least { 2 ≤ sending.now.most }
    requires room { sending.now.most ≤ parts.alone sending.now.coded }
    ensures { IfOk result (λ list. list.items ≡ parts.messages_from sending.now.front.items sending.now.coded sending.now.reference sending.now.total 1 (parts.pieces sending.now.coded sending.now.most text.now)) }
{
    let mut list = Vec::new(alloc);
    let mut piece = Vec::with_capacity(alloc, sending.most)?;
    let mut size = 0;
    let mut place: u8 = 1;
    for char in text {
        let more = size_of(sending.coded, *char);
        if sending.most < size + more {
            list.push(message(alloc, sending, place, &piece)?)?;
            place += 1;
            piece.clear();
            size = 0;
        }
        piece.extend_from_slice(&[*char])?;
        size += more;
    }
    list.push(message(alloc, sending, place, &piece)?)?;
    Ok(list)
}

// The most octets of user data, with its length.
const LONGEST_DATA: usize = 141;

// The message of a piece, at this place.
fn message(
    alloc: Global,
    sending: &Sending,
    place: u8,
    piece: &[char],
) -> Result<Octets, AllocError>
    requires { length (parts.units_of sending.now.coded piece.now) ≤ parts.alone sending.now.coded }
    ensures { IfOk result (λ message. message ≡ sending.now.front.items ++ parts.data_of sending.now.coded (parts.header sending.now.reference sending.now.total place) piece.now) }
{
    let header = [5, 0, 3, sending.reference, sending.total, place];
    let header_size = if 1 < sending.total { 6 } else { 0 };
    let mut octets = Vec::with_capacity(alloc, sending.front.len() + LONGEST_DATA)?;
    octets.extend_from_slice(&sending.front)?;
    push_data(
        &mut octets,
        alloc,
        sending.coded,
        &header[..header_size],
        piece,
    )?;
    Ok(Octets::from(octets))
}
