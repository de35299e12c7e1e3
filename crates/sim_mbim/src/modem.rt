ghost use Rattle.std.specs.Prelude.{◌≡◌, ◌≤◌, ◌-◌, ◌++◌, length, map, replicate, Some, None, IfOk, OnOk};
ghost use Rattle.sim_mbim.specs.Modem as spec;
ghost use Rattle.sim_mbim.specs.Answers.{opened};

use crate::lists::starting_list;
use kit_bytes::Octets;
use modem_profile::{PhonebookEntry, Profile};
use std::alloc::{AllocError, Global};
use std::marker::Model;
use subscriptions::Pair;

// How many bytes a message has at least and at most that may be asked for.
const SHORTEST_MESSAGE: u32 = 64;

const LONGEST_MESSAGE: u32 = 4_096;

// How many places the phone book has.
const PLACES: usize = 100;

/// What the modem is, and what messages change of it.
#[derive(Drop)]
pub struct Modem {
    pub(crate) profile: Profile,
    pub(crate) opened: bool,
    pub(crate) longest: u32,
    pub(crate) subscribed: Vec<Pair>,
    pub(crate) radio: bool,
    pub(crate) attached: bool,
    pub(crate) sessions: Vec<u64>,
    pub(crate) messages: Vec<Option<Octets>>,
    pub(crate) entries: Vec<Option<PhonebookEntry>>,
}

impl Model for Modem {
    ghost use Rattle.std.specs.Prelude.{◌≤◌};
    ghost use Rattle.sim_mbim.specs.Modem as spec;

    ghost Value = { spec.Modem };

    ghost view = { λ m. record {
      profile = m.profile;
      opened = m.opened;
      longest = m.longest;
      subscribed = m.subscribed.items;
      radio = m.radio;
      attached = m.attached;
      sessions = m.sessions.items;
      messages = m.messages.items;
      entries = m.entries.items;
    } };

    ghost invariant = { λ m. record {
      least : 64 ≤ m.longest;
      most : m.longest ≤ 4096;
    } };
}

impl Modem {
    /// A modem that is started with this profile.
    pub(crate) fn start(alloc: Global, profile: &Profile) -> Result<Self, AllocError>
        ensures { IfOk result (λ modem. modem ≡ spec.started profile.now) }
    {
        let messages = messages_of(alloc, profile.sms())?;
        let entries = entries_of(alloc, profile.phonebook())?;
        let subscribed = starting_list(alloc)?;
        let profile = profile.copy(alloc)?;
        Ok(Modem {
            profile,
            opened: false,
            longest: LONGEST_MESSAGE,
            subscribed,
            radio: true,
            attached: true,
            sessions: Vec::new(alloc),
            messages,
            entries,
        })
    }

    /// Opens it, and its messages are to have at most so many bytes.
    pub(crate) fn open(&mut self, longest: u32)
        ensures { self.new ≡ opened longest self.old }
    {
        self.opened = true;
        self.longest = longest.clamp(SHORTEST_MESSAGE, LONGEST_MESSAGE);
    }

    pub(crate) fn is_open(&self) -> bool
        ensures { result ≡ self.now.opened }
    {
        self.opened
    }

    /// How many bytes a message has at most that it sends.
    pub(crate) fn longest(&self) -> u32
        ensures longest { result ≡ self.now.longest }
        ensures least { 64 ≤ result }
        ensures most { result ≤ 4096 }
    {
        self.longest
    }
}

// Messages under the indexes from 1 on.
fn messages_of(alloc: Global, pdus: &[Octets]) -> Result<Vec<Option<Octets>>, AllocError>
    ensures { IfOk result (λ messages. messages.items ≡ map Some pdus.now) }
{
    let mut messages = Vec::new(alloc);
    for pdu in pdus {
        let message = Octets::from_slice(alloc, pdu.as_slice())?;
        messages.push(Some(message))?;
    }
    Ok(messages)
}

// Entries likewise, and behind them the places that aren't used.
fn entries_of(
    alloc: Global,
    kept: &[PhonebookEntry],
) -> Result<Vec<Option<PhonebookEntry>>, AllocError>
    ensures { IfOk result (λ entries. entries.items ≡ map Some kept.now ++ replicate (spec.places - length kept.now) None) }
{
    let mut entries = copied(alloc, kept)?;
    add_unused(&mut entries)?;
    Ok(entries)
}

fn copied(alloc: Global, kept: &[PhonebookEntry]) -> Result<Vec<Option<PhonebookEntry>>, AllocError>
    ensures { IfOk result (λ entries. entries.items ≡ map Some kept.now) }
{
    let mut entries = Vec::new(alloc);
    for entry in kept {
        let copy = entry.copy(alloc)?;
        entries.push(Some(copy))?;
    }
    Ok(entries)
}

// Adds the places of the phone book behind these.
fn add_unused(entries: &mut Vec<Option<PhonebookEntry>>) -> Result<(), AllocError>
    ensures { OnOk result (entries.new.items ≡ entries.old.items ++ replicate (spec.places - length entries.old.items) None) }
{
    let used = entries.len();
    for _ in used..PLACES {
        entries.push(None)?;
    }
    Ok(())
}
