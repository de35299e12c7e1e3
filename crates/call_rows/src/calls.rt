use kit_io::Log;
use link_io::{LinkAnswer, Made, MemLink, TAKE_ROOM};
use row_text::RowFault;
use std::alloc::{AllocError, Global};

/// A call on the link, with its bytes: the path, or what is sent or given.
#[derive(Drop)]
pub struct Call {
    pub made: Made,
    pub bytes: Vec<u8>,
}

/// The call that a key of a row tells of.
pub fn made_by(key: &str) -> Option<Made> {
    match key {
        "opens" => Some(Made::Opened { ok: true }),
        "open fails" => Some(Made::Opened { ok: false }),
        "bridge opens" => Some(Made::OpenedBridge { ok: true }),
        "bridge open fails" => Some(Made::OpenedBridge { ok: false }),
        "pairs" => Some(Made::Paired { ok: true }),
        "pair fails" => Some(Made::Paired { ok: false }),
        "sends" => Some(Made::Sent { ok: true }),
        "send fails" => Some(Made::Sent { ok: false }),
        "takes" => Some(Made::Took),
        "quiet" => Some(Made::WasQuiet),
        "take fails" => Some(Made::TakeFailed),
        "ends" => Some(Made::WasEnd),
        _ => None,
    }
}

/// Adds calls of a kind that have these bytes so many times: takes of as many as fit one, or so many
/// other calls.
pub fn push_calls(
    alloc: Global,
    calls: &mut Vec<Call>,
    made: Made,
    bytes: &[u8],
    times: u32,
) -> Result<(), RowFault> {
    if made == Made::Took {
        let stream = repeated(alloc, bytes, times)?;
        return push_takes(alloc, calls, &stream);
    }
    for _ in 0..times {
        push_call(alloc, calls, made, bytes)?;
    }
    Ok(())
}

fn repeated(alloc: Global, bytes: &[u8], times: u32) -> Result<Vec<u8>, RowFault> {
    let mut stream = Vec::new(alloc);
    for _ in 0..times {
        stream.extend_from_slice(bytes)?;
    }
    Ok(stream)
}

fn push_takes(alloc: Global, calls: &mut Vec<Call>, stream: &[u8]) -> Result<(), RowFault> {
    for piece in stream.chunks(TAKE_ROOM) {
        push_call(alloc, calls, Made::Took, piece)?;
    }
    Ok(())
}

fn push_call(
    alloc: Global,
    calls: &mut Vec<Call>,
    made: Made,
    bytes: &[u8],
) -> Result<(), RowFault> {
    let bytes = Vec::from_slice(alloc, bytes)?;
    calls.push(Call { made, bytes })?;
    Ok(())
}

/// A link on which these calls are made, with room for all of them, and some more. Its takes give what
/// they do in one piece, or byte by byte.
pub fn link_of(alloc: Global, calls: &[Call], whole: bool) -> Result<MemLink, AllocError> {
    let mut script = Vec::new(alloc);
    push_answers(alloc, &mut script, calls, whole)?;
    let mut bytes = 10_000usize;
    for call in calls {
        bytes = bytes.saturating_add(call.bytes.len());
    }
    let room = script.len().saturating_add(1_000);
    MemLink::new(alloc, script, room, bytes)
}

fn push_answers(
    alloc: Global,
    script: &mut Vec<LinkAnswer>,
    calls: &[Call],
    whole: bool,
) -> Result<(), AllocError> {
    for call in calls {
        match call.made {
            Made::Opened { ok: false }
            | Made::OpenedBridge { ok: false }
            | Made::Paired { ok: false }
            | Made::Sent { ok: false }
            | Made::TakeFailed => script.push(LinkAnswer::Fails)?,
            Made::Took => push_gives(alloc, script, &call.bytes, whole)?,
            Made::WasEnd => script.push(LinkAnswer::Ends)?,
            _ => script.push(LinkAnswer::Does)?,
        }
    }
    Ok(())
}

fn push_gives(
    alloc: Global,
    script: &mut Vec<LinkAnswer>,
    bytes: &[u8],
    whole: bool,
) -> Result<(), AllocError> {
    let most = if whole { TAKE_ROOM } else { 1 };
    for piece in bytes.chunks(most) {
        script.push(LinkAnswer::Gives(Vec::from_slice(alloc, piece)?))?;
    }
    Ok(())
}

/// A call as it stands in a link's log.
pub type Noted<'a> = (Made, &'a [u8]);

/// The calls that a row tells of, and the closing of the link where it was opened and closes. Where
/// takes are in pieces, they are left out.
pub fn told_calls(
    alloc: Global,
    calls: &[Call],
    whole: bool,
    closes: bool,
) -> Result<Vec<Noted<'_>>, AllocError> {
    let mut told = Vec::new(alloc);
    for call in calls {
        if whole || call.made != Made::Took {
            told.push((call.made, call.bytes.as_slice()))?;
        }
    }
    if closes && calls.iter().any(|call| is_opening(call.made)) {
        told.push((Made::Closed, &[]))?;
    }
    Ok(told)
}

fn is_opening(made: Made) -> bool {
    matches!(
        made,
        Made::Opened { ok: true } | Made::OpenedBridge { ok: true }
    )
}

/// The calls that were made. Where takes are in pieces, they are left out.
pub fn made_calls(
    alloc: Global,
    log: &Log<Made>,
    whole: bool,
) -> Result<Vec<Noted<'_>>, AllocError> {
    let mut made = Vec::new(alloc);
    for at in 0..log.len().unwrap_or(0) {
        if let Some(call) = log.at(at)
            && (whole || call.0 != Made::Took)
        {
            made.push(call)?;
        }
    }
    Ok(made)
}
