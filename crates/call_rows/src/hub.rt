use hub_io::{HubAnswer, HubCall, HubEvent, HubTurn, MemHub};
use many_memory::MemManyHub;
use row_text::{RowFault, Rows, differs_at};
use std::alloc::{AllocError, Global};

/// The calls that a run makes on a hub: how they answer, and what their log tells.
#[derive(Drop)]
pub struct HubCalls {
    calls: Vec<(HubCall, Vec<u8>)>,
    // The device of each, with no bytes.
    devices: Vec<(usize, Vec<u8>)>,
}

impl HubCalls {
    /// Nothing is told.
    pub fn none(alloc: Global) -> Self {
        HubCalls {
            calls: Vec::new(alloc),
            devices: Vec::new(alloc),
        }
    }

    pub fn is_empty(&self) -> bool {
        self.calls.is_empty()
    }

    /// Adds the call that a key of a row tells of, where the key is one of these.
    pub fn add(
        &mut self,
        alloc: Global,
        rows: &Rows<'_>,
        key: &str,
        value: &str,
    ) -> Result<bool, RowFault> {
        if let Some(call) = call_with_path(key) {
            let device = self.named(call);
            self.push(
                alloc,
                device,
                call,
                Vec::from_slice(alloc, value.as_bytes())?,
            )?;
        } else if let Some((device, call)) = call_of(key, value)? {
            self.push(alloc, device, call, Vec::new(alloc))?;
        } else if let Some((verb, whom)) = key.split_once(' ')
            && (verb == "from" || verb == "to")
        {
            let bytes = rows.bytes_of(value)?;
            let (device, call) = piece_of(verb == "to", whom, bytes.len())?;
            self.push(alloc, device, call, bytes)?;
        } else {
            return Ok(false);
        }
        Ok(true)
    }

    // Which device a path is of that an opening names: the one behind those that it named already.
    fn named(&self, call: HubCall) -> usize {
        let is_path = |call| matches!(call, HubCall::ToSocket | HubCall::ToBridge);
        let mut count = 0usize;
        if is_path(call) {
            for (call, _) in &self.calls {
                count = count.saturating_add(usize::from(is_path(*call)));
            }
        }
        count
    }

    fn push(
        &mut self,
        alloc: Global,
        device: usize,
        call: HubCall,
        bytes: Vec<u8>,
    ) -> Result<(), RowFault> {
        self.calls.push((call, bytes))?;
        self.devices.push((device, Vec::new(alloc)))?;
        Ok(())
    }

    /// A hub that answers so, with room to tell of so much.
    pub fn hub(&self, alloc: Global) -> Result<MemHub, AllocError> {
        let turns = self.turns(alloc)?;
        let answers = self.answers(alloc)?;
        MemHub::new(alloc, turns, answers, 100, 10_000)
    }

    /// The same of so many devices.
    pub fn many(&self, alloc: Global, devices: usize) -> Result<MemManyHub<MemHub>, AllocError> {
        let hub = self.hub(alloc)?;
        let coming = self.coming(alloc)?;
        MemManyHub::new(alloc, devices, hub, coming, 100, 10_000)
    }

    // The device of each turn.
    fn coming(&self, alloc: Global) -> Result<Vec<usize>, AllocError> {
        let mut coming = Vec::new(alloc);
        for ((call, _), (device, _)) in self.calls.iter().zip(&self.devices) {
            if is_turn(*call) {
                coming.push(*device)?;
            }
        }
        Ok(coming)
    }

    fn turns(&self, alloc: Global) -> Result<Vec<HubTurn>, AllocError> {
        let mut turns = Vec::new(alloc);
        for (call, bytes) in &self.calls {
            if let Some(turn) = turn_of(alloc, *call, bytes)? {
                turns.push(turn)?;
            }
        }
        Ok(turns)
    }

    fn answers(&self, alloc: Global) -> Result<Vec<HubAnswer>, AllocError> {
        let mut answers = Vec::new(alloc);
        for (call, _) in &self.calls {
            if let Some(answer) = answer_of(*call) {
                answers.push(answer)?;
            }
        }
        Ok(answers)
    }

    /// Which call on the hub isn't as it is told, if one isn't.
    pub fn differs_at(&self, hub: &MemHub) -> Option<usize> {
        differs_at(hub.log(), &self.calls)
    }

    /// Which call on a hub of several devices isn't, or isn't of the device that is told.
    pub fn differs_in(&self, many: &MemManyHub<MemHub>) -> Option<usize> {
        match differs_at(many.log().calls(), &self.calls) {
            Some(at) => Some(at),
            None => differs_at(many.log().devices(), &self.devices),
        }
    }
}

// The call, whose bytes are a path, that a key of a row tells of.
fn call_with_path(key: &str) -> Option<HubCall> {
    match key {
        "hub opens" => Some(HubCall::Opened { ok: true }),
        "hub open fails" => Some(HubCall::Opened { ok: false }),
        "device" => Some(HubCall::ToSocket),
        "bridge" => Some(HubCall::ToBridge),
        _ => None,
    }
}

// The call with no bytes that a key of a row tells of, and its device.
fn call_of(key: &str, value: &str) -> Result<Option<(usize, HubCall)>, RowFault> {
    if let Some(call) = call_on_modem(key) {
        return Ok(Some((device_of(value)?, call)));
    }
    let call = match key {
        "hub pairs" => HubCall::Paired { ok: true },
        "hub pair fails" => HubCall::Paired { ok: false },
        "joins" => HubCall::Told(HubEvent::Joined(value.parse::<u64>()?)),
        "leaves" => HubCall::Told(HubEvent::Left(value.parse::<u64>()?)),
        "clock" => HubCall::Told(HubEvent::Now(value.parse::<u64>()?)),
        "hub ends" => HubCall::Told(HubEvent::Stop),
        "hub fails" => HubCall::NextFailed,
        "hangs up" => HubCall::HungUp {
            conn: value.parse::<u64>()?,
        },
        _ => return Ok(None),
    };
    Ok(Some((0, call)))
}

// The call with no bytes that is of a modem.
fn call_on_modem(key: &str) -> Option<HubCall> {
    match key {
        "lost" => Some(HubCall::Told(HubEvent::ModemGone)),
        "reopens" => Some(HubCall::Reopened),
        "reopen fails" => Some(HubCall::ReopenFailed),
        _ => None,
    }
}

// The device of a modem, which isn't named where it is the first or the only one.
fn device_of(value: &str) -> Result<usize, RowFault> {
    let value = value.trim();
    if value.is_empty() {
        return Ok(0);
    }
    Ok(value.parse::<usize>()?)
}

// Bytes that are sent and taken whole, that can't be sent, or that come; and of which device.
fn piece_of(sent: bool, whom: &str, count: usize) -> Result<(usize, HubCall), RowFault> {
    if sent && let Some(whom) = whom.strip_suffix(" fails") {
        return failed_to(whom);
    }
    if let Some(device) = whom.strip_prefix("modem") {
        let call = if sent {
            HubCall::SentModem { taken: count }
        } else {
            HubCall::Told(HubEvent::ModemPiece(count))
        };
        return Ok((device_of(device)?, call));
    }
    let conn = whom.parse::<u64>()?;
    let call = if sent {
        HubCall::Sent { conn, taken: count }
    } else {
        HubCall::Told(HubEvent::Piece(conn, count))
    };
    Ok((0, call))
}

// A send that fails, and to which device.
fn failed_to(whom: &str) -> Result<(usize, HubCall), RowFault> {
    if let Some(device) = whom.strip_prefix("modem") {
        return Ok((device_of(device)?, HubCall::SendModemFailed));
    }
    let conn = whom.parse::<u64>()?;
    Ok((0, HubCall::SendFailed { conn }))
}

// Whether the hub tells something so.
fn is_turn(call: HubCall) -> bool {
    matches!(call, HubCall::NextFailed | HubCall::Told(_))
}

// The turn by which the hub tells something so.
fn turn_of(alloc: Global, call: HubCall, bytes: &[u8]) -> Result<Option<HubTurn>, AllocError> {
    Ok(match call {
        HubCall::NextFailed => Some(HubTurn::Fails),
        HubCall::Told(HubEvent::Piece(conn, _)) => {
            Some(HubTurn::Gives(conn, Vec::from_slice(alloc, bytes)?))
        }
        HubCall::Told(HubEvent::ModemPiece(_)) => {
            Some(HubTurn::ModemGives(Vec::from_slice(alloc, bytes)?))
        }
        HubCall::Told(event) => Some(HubTurn::Tells(event)),
        _ => None,
    })
}

// The answer by which a call is this one.
fn answer_of(call: HubCall) -> Option<HubAnswer> {
    match call {
        HubCall::Opened { ok: false } | HubCall::Paired { ok: false } => Some(HubAnswer::Fails),
        HubCall::SendFailed { .. } | HubCall::SendModemFailed | HubCall::ReopenFailed => {
            Some(HubAnswer::Fails)
        }
        HubCall::Opened { ok: true } | HubCall::Paired { ok: true } | HubCall::Reopened => {
            Some(HubAnswer::Takes(0))
        }
        HubCall::Sent { taken, .. } | HubCall::SentModem { taken } => {
            Some(HubAnswer::Takes(taken))
        }
        _ => None,
    }
}
