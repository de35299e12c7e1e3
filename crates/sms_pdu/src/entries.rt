ghost use Rattle.std.specs.Prelude.{◌≡◌, map, filter, IfOk, OnOk};
ghost use Rattle.std.specs.List.{enumerate_from};
ghost use Rattle.std.specs.Option.{option_cmp};
ghost use Rattle.std.specs.List.Sorted.{IsSortedBy};
ghost use Rattle.sms_pdu.specs.Entries.{KeepsGroups, begins_before, before, group_order, is_of, part_order, placed};

use crate::{Part, Pdu};
use std::alloc::{AllocError, Global};
use std::cmp::Ordering;

/// A message, and its place among all.
#[derive(Clone, Copy)]
pub(crate) struct Entry<'a> {
    pub index: usize,
    pub pdu: &'a Pdu,
}

/// The messages, each with its place.
pub(crate) fn entries_of<'a>(alloc: Global, pdus: &'a [Pdu]) -> Result<Vec<Entry<'a>>, AllocError>
    ensures { IfOk result (λ entries. map placed entries.items ≡ enumerate_from 0 pdus.now) }
{
    let mut entries = Vec::new(alloc);
    for (index, pdu) in pdus.iter().enumerate() {
        entries.push(Entry { index, pdu })?;
    }
    Ok(entries)
}

/// Brings those of one group together. In a group they stay as they stand.
pub(crate) fn sort_by_group(entries: &mut Vec<Entry<'_>>) -> Result<(), AllocError>
    ensures sorted { OnOk result (IsSortedBy before entries.new.items) }
    ensures kept { KeepsGroups entries.old.items entries.new.items }
{
    entries.sort_by(|one, other| order(one.pdu, other.pdu))?;
    Ok(())
}

/// The messages of the group of this one; none where it is no part.
pub(crate) fn run_of<'e, 'a>(entries: &'e [Entry<'a>], pdu: &Pdu) -> &'e [Entry<'a>]
    requires { IsSortedBy before entries.now }
    ensures { result.now ≡ filter (is_of pdu.now) entries.now }
{
    if pdu.part.is_none() {
        return &entries[..0];
    }
    let start = entries.partition_point(|entry| order(entry.pdu, pdu).is_lt());
    let behind = &entries[start..];
    let count = behind.partition_point(|entry| order(entry.pdu, pdu).is_le());
    &behind[..count]
}

/// Whether the first of these stands before a place among all.
pub(crate) fn begins_before(run: &[Entry<'_>], index: usize) -> bool
    ensures { result ≡ begins_before index (map placed run.now) }
{
    match run.first() {
        Some(entry) => entry.index < index,
        None => false,
    }
}

// How two messages stand by their groups.
fn order(one: &Pdu, other: &Pdu) -> Ordering
    ensures { result ≡ group_order one.now other.now }
{
    match parts_order(&one.part, &other.part) {
        Ordering::Equal => one.address.as_str().cmp(other.address.as_str()),
        unequal => unequal,
    }
}

fn parts_order(one: &Option<Part>, other: &Option<Part>) -> Ordering
    ensures { result ≡ option_cmp part_order one.now other.now }
{
    match (one, other) {
        (Some(one), Some(other)) => part_order(one, other),
        (Some(_), None) => Ordering::Greater,
        (None, Some(_)) => Ordering::Less,
        (None, None) => Ordering::Equal,
    }
}

fn part_order(one: &Part, other: &Part) -> Ordering
    ensures { result ≡ part_order one.now other.now }
{
    match one.reference.cmp(&other.reference) {
        Ordering::Equal => {}
        unequal => return unequal,
    }
    match one.wide.cmp(&other.wide) {
        Ordering::Equal => one.total.cmp(&other.total),
        unequal => unequal,
    }
}
